//! A set that is built in memory, and the rule of the test for it.
ghost use Rattle.std.specs.Prelude.{◌≡◌, IfOk, IfErr, Some};
ghost use Rattle.mc_model.specs.Holds.{Fits, Holds};
ghost use Rattle.mc_model.specs.Test.{published};
ghost use Rattle.calling_examples.specs.Admitted.{IsReason};

use admission::admit;
use load_sum::{LoadFault, sum_loads};
use mc_task::{Level, Name, Rule, Task, TaskNo, TaskSet};
use std::alloc::Global;
use thiserror::Error;

/// Why a set has no rule.
#[derive(Clone, Copy, Debug, PartialEq, Eq, Error)]
pub enum NoRule {
    /// The hyperperiod exceeds 2^60; the task is the first whose period takes it past that.
    #[error("the periods are out of range at task {}", task.0)]
    Range { task: TaskNo },
    /// The test gives the set no rule.
    #[error("no rule schedules the set")]
    NotAdmitted,
}

/// The set of a controller, which is certified for 6 ticks and mostly needs 2, and a logger; `None` if an allocation
/// fails.
pub fn control_set(alloc: Global) -> Option<TaskSet> {
    let ctl = Task {
        name: Name::new(b"ctl")?,
        level: Level::High,
        period: 10,
        low: 2,
        high: 6,
    };
    let log = Task {
        name: Name::new(b"log")?,
        level: Level::Low,
        period: 10,
        low: 5,
        high: 5,
    };
    let tasks = vec![in alloc; ctl, log].ok()?;
    TaskSet::new(tasks).ok()
}

/// The rule of the published test for the set, or why there is none.
pub fn rule_for(set: &TaskSet) -> Result<Rule, NoRule>
    ensures test { IfOk result (λ rule. published set.now.tasks ≡ Some rule) }
    ensures fits { IfOk result Fits }
    ensures holds { IfOk result (Holds set.now.tasks) }
    ensures reason { IfErr result (IsReason set.now.tasks) }
{
    let loads = match sum_loads(set) {
        Ok(loads) => loads,
        Err(LoadFault::Range { task }) => return Err(NoRule::Range { task }),
    };
    match admit(&loads) {
        Some(rule) => Ok(rule),
        None => Err(NoRule::NotAdmitted),
    }
}
