//! The set that a task file says, on several processors.
ghost use Rattle.replies.specs.Stop.{ReadsOrRefuses};
ghost use Rattle.part_commands.specs.Parted.{fitted, parted};
ghost use Rattle.part_commands.specs.Planned.{IsParted};

use command::{Within, read_set};
use mc_task::TaskSet;
use part_fit::{FitFault, Parts, fit};
use replies::{Stop, refused};
use std::alloc::Global;

/// A set, and the processor of each of its tasks.
#[derive(Drop)]
pub struct Parted {
    pub set: TaskSet,
    pub parts: Parts,
}

/// How many processors a set is spread over, 1 to 16.
pub type Processors = Within<1, 16>;

/// The set in a task file with these bytes, on this many processors by first fit.
pub fn read_parted(alloc: Global, bytes: &[u8], processors: &Processors) -> Result<Parted, Stop>
    ensures { ReadsOrRefuses (IsParted processors.now) (parted processors.now bytes.now) result }
{
    fitted(alloc, read_set(alloc, bytes)?, processors)
}

fn fitted(alloc: Global, set: TaskSet, processors: &Processors) -> Result<Parted, Stop>
    ensures { ReadsOrRefuses (IsParted processors.now) (fitted processors.now set.tasks) result }
{
    let processors = processors.get() as u32;
    match fit(alloc, &set, processors) {
        Ok(parts) => Ok(Parted { set, parts }),
        Err(FitFault::NoRoom { task }) => {
            let task = set.get(task).unwrap();
            Err(refused::no_room(alloc, &task.name, processors))
        }
        Err(FitFault::Memory) => Err(Stop::Memory),
    }
}
