//! The command `demand`.
ghost use Rattle.std.specs.Prelude.{IfOk};
ghost use Rattle.demand_test.specs.DemandSet.{IsDemandSet};
ghost use Rattle.command.specs.Serves.{Serves, IsOwn};
ghost use Rattle.demand_commands.specs.Demand.{IsDemandReply, demand};

use command::{FileName, MOST_TABLE_BYTES, fetch};
use demand_test::{DemandSet, Fit, check_demand, counter, read_demands};
use mc_task::Memory;
use mc_world::Shelf;
use replies::{Reply, Stop, refused};
use std::alloc::Global;

/// `demand DEMANDS`.
#[derive(Drop)]
pub struct DemandCommand<'a> {
    pub demands: FileName<'a>,
}

impl<'a> DemandCommand<'a> {
    /// The reply: whether the set in the file meets its deadlines under plain EDF.
    pub fn reply<S: Shelf>(&self, alloc: Global, shelf: &mut S) -> Result<Reply, Stop>
        ensures { Serves 1 (demand self.now.demands) (S.state shelf.old) (S.state shelf.new) result }
    {
        let bytes = fetch(alloc, shelf, 1, &self.demands, MOST_TABLE_BYTES)?;
        match read_demands(alloc, &bytes) {
            Ok(set) => Ok(fitted(alloc, &set)?),
            Err(fault) => Err(refused::demand_file(alloc, fault)),
        }
    }
}

// The reply that reports the test's answer for the set.
fn fitted(alloc: Global, set: &DemandSet) -> Result<Reply, Memory>
    requires { IsDemandSet set.now }
    ensures fits { IfOk result (IsDemandReply set.now) }
    ensures own { IfOk result IsOwn }
{
    match check_demand(alloc, set)? {
        Fit::Within { length } => {
            let text = format!(in alloc; "schedulable, demand checked to {length}\n")?;
            Ok(Reply::new(0, text.into_bytes()))
        }
        Fit::Past { length, demand } => {
            let line = format!(in alloc; "not schedulable: demand {demand} in length {length}\n")?;
            let rows = counter(alloc, set, length)?;
            let mut text = line.into_bytes();
            text.extend_from_slice(&rows)?;
            Ok(Reply::new(10, text))
        }
    }
}
