//! Placing tasks by first fit.
ghost use Rattle.std.specs.Prelude.{◌≡◌, ◌≤◌, IfOk, IfErr, IfSome, replicate, List, ℕ, IfSome, Ok};
ghost use Rattle.mc_task.specs.declared.task.Task.{Task};
ghost use Rattle.part_fit.specs.FirstFit as spec;
ghost use Rattle.part_fit.specs.ProcessorLoads.{IsToPlace, IsToPlaceInSome, IsPlace, AreSmall, no_loads};
ghost use Rattle.part_fit.specs.Partition.{IsPartition};
ghost use Rattle.part_fit.specs.declared.placing.FitFault.TheVariants.{Memory};

use crate::parts::Parts;
use crate::taking::{NO_LOADS, taken};
use load_sum::Loads;
use mc_task::{Task, TaskNo, TaskSet};
use std::alloc::{AllocError, AllocFailed, Global};

/// Why a set cannot be placed.
#[derive(Clone, Copy, Debug, PartialEq, Eq)]
pub enum FitFault {
    /// Out of memory.
    Memory,
    /// The task is the first that fits on no processor.
    NoRoom { task: TaskNo },
}

impl From<AllocError> for FitFault {
    ghost from_gives = { λ _ fault. fault ≡ Memory };

    fn from(_: AllocError) -> FitFault {
        FitFault::Memory
    }
}

impl<T: Drop> From<AllocFailed<T>> for FitFault {
    ghost from_gives = { λ _ fault. fault ≡ Memory };

    fn from(_: AllocFailed<T>) -> FitFault {
        FitFault::Memory
    }
}

/// Places a set on 1 to 16 processors by first fit: its tasks in order, each on the least processor that is still
/// schedulable with the task added: its tasks are within range, and the published test gives them a rule (Baruah et
/// al., ECRTS 2012).
///
/// `Memory` is returned if an allocation fails, and `NoRoom` with the first task that fits on no processor.
pub fn fit(alloc: Global, set: &TaskSet, processors: u32) -> Result<Parts, FitFault>
    requires some { 1 ≤ processors }
    requires few { processors ≤ 16 }
    ensures ok { IfOk result (λ parts. spec.first_fit set.now.tasks processors ≡ Ok parts) }
    ensures no_room { IfErr result (spec.IsNoRoom set.now.tasks processors) }
    // Each task is on exactly one processor, and each processor's tasks are admitted.
    ensures parted { IfOk result (λ parts. IsPartition set.now.tasks parts processors) }
{
    let tasks = set.as_slice();
    let mut of = Vec::new(alloc);
    let mut all = no_loads(alloc, processors as usize)?;
    for (i, task) in tasks.iter().enumerate() {
        match least_for(&all, task) {
            Some((place, loads)) => {
                of.push(place as u32 + 1)?;
                all[place] = loads;
            }
            None => {
                return Err(FitFault::NoRoom {
                    task: TaskNo(i as u32 + 1),
                });
            }
        }
    }
    Ok(Parts { of })
}

// The loads of this number of processors without a task.
fn no_loads(alloc: Global, processors: usize) -> Result<Vec<Loads>, AllocError>
    ensures { IfOk result (λ all. all.items ≡ replicate processors no_loads) }
{
    vec![in alloc; NO_LOADS; processors]
}

// The index of the least processor that takes the next task, with its loads then; `all` are the loads of the
// processors.
fn least_for(all: &[Loads], task: &Task) -> Option<(usize, Loads)>
    requires { IsToPlaceInSome all.now task.now }
    ensures place { (set : List Task) (of : List ℕ) → IsToPlace set of all.now task.now → IsPlace set of all.now task.now result }
    ensures small { IfSome result (λ found. AreSmall found.1) }
{
    for (place, loads) in all.iter().enumerate() {
        if let Some(more) = taken(loads, task) {
            return Some((place, more));
        }
    }
    None
}
