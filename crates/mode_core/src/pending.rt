//! A pending job, as callers see it and as it is queued.
ghost use Rattle.std.specs.Prelude.{◌≡◌, ◌≤◌, ◌^◌};
ghost use Rattle.mc_task.specs.TaskSet.{task_at, IsIn};
ghost use Rattle.mc_model.specs.TaskNumbers.{is_high_in};
ghost use Rattle.mc_model.specs.Holds.{Fits};
ghost use Rattle.mode_core.specs.Entries.{item};

use mc_task::{JobId, Rule, TaskNo, TaskSet};
use ready_queue::Item;
use virtual_key::key;

/// A pending job: its release time, and the ticks that it has had.
#[derive(Clone, Copy, Debug, PartialEq, Eq)]
pub struct Pending {
    pub job: JobId,
    pub release: u64,
    pub used: u32,
}

/// Whether the task is a high one.
pub fn is_high(set: &TaskSet, task: TaskNo) -> bool
    ensures { result ≡ is_high_in (task_at set.now.tasks task.0) }
{
    match set.get(task) {
        Some(t) => t.is_high(),
        None => false,
    }
}

/// What the queue stores of the task's job that was released at this boundary.
pub fn item(set: &TaskSet, rule: Rule, high: bool, task: TaskNo, release: u64) -> Item
    requires fits { Fits rule }
    requires in_set { IsIn set.now.tasks task.0 }
    requires range { release ≤ 2 ^ 62 }
    ensures { result ≡ item set.now.tasks rule high task.0 release }
{
    match set.get(task) {
        Some(t) => Item {
            task,
            high: t.is_high(),
            key: key(rule, high, &t, release),
            real: key(rule, true, &t, release),
        },
        None => unreachable!(),
    }
}
