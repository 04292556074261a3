//! The command `stretch`.
ghost use Rattle.std.specs.Prelude.{◌≡◌, ◌≤◌, IfOk, string_bytes};
ghost use Rattle.load_sum.specs.Belong.{BelongTo};
ghost use Rattle.study.specs.Stretch as room;
ghost use Rattle.command.specs.Serves.{Serves};
ghost use Rattle.study_commands.specs.Stretch as spec;
ghost use Rattle.study_commands.specs.Stretch.{stretch};

use command::{FileName, MOST_TABLE_BYTES, fetch, read_set};
use load_sum::{LoadFault, Loads, sum_loads};
use mc_task::TaskSet;
use mc_world::Shelf;
use replies::{Reply, Stop, refused};
use std::alloc::{AllocError, Global};
use study::high_at;
use tick_frac::Ratio;

/// `stretch TASKS`.
#[derive(Drop)]
pub struct StretchCommand<'a> {
    pub tasks: FileName<'a>,
}

impl<'a> StretchCommand<'a> {
    /// The reply: how far the high budgets of the set in the file can be stretched.
    pub fn reply<S: Shelf>(&self, alloc: Global, shelf: &mut S) -> Result<Reply, Stop>
        ensures { Serves 1 (stretch self.now.tasks) (S.state shelf.old) (S.state shelf.new) result }
    {
        let bytes = fetch(alloc, shelf, 1, &self.tasks, MOST_TABLE_BYTES)?;
        let set = read_set(alloc, &bytes)?;
        match sum_loads(&set) {
            Ok(loads) => Ok(Reply::new(0, stretch_text(alloc, &set, &loads)?)),
            Err(LoadFault::Range { task }) => Err(refused::out_of_range(alloc, task)),
        }
    }
}

fn stretch_text(alloc: Global, set: &TaskSet, loads: &Loads) -> Result<Vec<u8>, AllocError>
    requires { BelongTo set.now.tasks loads.now }
    ensures { IfOk result (λ text. text.items ≡ spec.stretch_text set.now.tasks (room.stretch set.now.tasks)) }
{
    let text = match study::stretch(set, loads) {
        Some(s) => {
            let here = high_line(alloc, set, loads, s)?;
            let past = if s < 1000 {
                high_line(alloc, set, loads, s + 1)?
            } else {
                String::new(alloc)
            };
            format!(in alloc; "stretch {s}\n{here}{past}")?
        }
        None => {
            let line = high_line(alloc, set, loads, 0)?;
            format!(in alloc; "stretch none\n{line}")?
        }
    };
    Ok(text.into_bytes())
}

fn high_line(alloc: Global, set: &TaskSet, loads: &Loads, s: u32) -> Result<String, AllocError>
    requires loads { BelongTo set.now.tasks loads.now }
    requires most { s ≤ 1001 }
    ensures { IfOk result (λ line. string_bytes line ≡ spec.high_line set.now.tasks s) }
{
    let load = Ratio::new(high_at(set, loads, s), u128::from(loads.lcm));
    format!(in alloc; "U_HH {load} at {s}\n")
}
