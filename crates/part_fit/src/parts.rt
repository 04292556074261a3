//! The tasks of each processor.
ghost use Rattle.std.specs.Prelude.{◌≡◌, IfOk, length};
ghost use Rattle.part_fit.specs.Parts as spec;

use mc_task::{Memory, Task, TaskSet};
use std::alloc::{AllocError, Global};
use std::marker::Model;

/// The processor of each task of a set, numbered from 1, in the order of the tasks. In contracts it is that list.
#[derive(Debug, Drop)]
pub struct Parts {
    pub of: Vec<u32>,
}

impl Model for Parts {
    ghost use Rattle.std.specs.Prelude.{List, ℕ};

    ghost Value = { List ℕ };

    ghost view = { λ a. a.of.items };
}

/// The tasks on a processor as a set without a scale, in the order of the set and numbered from 1; `None` exactly if no
/// task is on it. Fails if an allocation fails.
pub fn part(
    alloc: Global,
    set: &TaskSet,
    parts: &Parts,
    processor: u32,
) -> Result<Option<TaskSet>, Memory>
    requires { length parts.now ≡ length set.now.tasks }
    ensures { IfOk result (spec.IsPart (spec.part_of set.now.tasks parts.now processor)) }
{
    // The tasks are valid and their names differ, so those on one processor are a set, if there are any.
    let _is_set = set.len();
    let tasks = tasks_on(alloc, set, &parts.of, processor)?;
    if tasks.is_empty() {
        return Ok(None);
    }
    Ok(Some(TaskSet::of_valid(tasks)))
}

// The tasks on the processor, in the order of the set.
fn tasks_on(
    alloc: Global,
    set: &TaskSet,
    of: &[u32],
    processor: u32,
) -> Result<Vec<Task>, AllocError>
    requires { length of.now ≡ length set.now.tasks }
    ensures { IfOk result (λ tasks. tasks.items ≡ spec.part_of set.now.tasks of.now processor) }
{
    let tasks = set.as_slice();
    let mut own = Vec::new(alloc);
    for (i, task) in tasks.iter().enumerate() {
        if of[i] == processor {
            own.push(*task)?;
        }
    }
    Ok(own)
}
