//! A task set from numbers in memory.
ghost use Rattle.std.specs.Prelude.{◌≡◌, ◌≢◌, ◌<◌, ◌≤◌, ◌+◌, ◌%◌, IfOk, IfErr, IfSome, IfNone, length};
ghost use Rattle.mc_task.specs.TaskSet.{AreTasks};
ghost use Rattle.edfvd_c.specs.Sets.Given.{AreOf, numbers_of};
ghost use Rattle.edfvd_c.specs.Sets.Named as named;
ghost use Rattle.edfvd_c.specs.Sets.Refused.{IsRefused, fault_status, fault_task};
ghost use Rattle.edfvd_c.specs.Status.{PERIODS};

use crate::status;
use mc_task::{Level, Name, SetFault, Task, TaskSet};
use std::alloc::Global;

/// A task's numbers: level 0 for low and 1 for high, period and budgets in ticks. A low task has one budget, given twice.
#[repr(C)]
#[derive(Clone, Copy)]
pub struct CTask {
    pub level: u32,
    pub period: u32,
    pub low: u32,
    pub high: u32,
}

/// Why the tasks are no set: a status, and the number of the task that is at fault, or 0.
#[derive(Clone, Copy)]
pub struct NoSet {
    pub status: u32,
    pub task: u32,
}

/// A failed allocation, which is about no task.
pub const OUT_OF_MEMORY: NoSet = NoSet {
    status: status::MEMORY,
    task: 0,
};

/// The set of the tasks, which are named by their numbers.
pub fn set_of(alloc: Global, given: &[CTask]) -> Result<TaskSet, NoSet>
    ensures tasks { IfOk result (λ set. AreOf given.now set.tasks) }
    ensures set { IfOk result (λ set. AreTasks set.tasks) }
    ensures few { IfOk result (λ set. length given.now ≤ 128) }
    ensures refused { IfErr result (λ no. IsRefused given.now no.status no.task) }
    // The hyperperiod is not looked at.
    ensures range { IfErr result (λ no. no.status ≢ PERIODS) }
{
    if given.len() > 128 {
        return Err(NoSet {
            status: status::TOO_MANY,
            task: 0,
        });
    }
    let mut tasks = Vec::new(alloc);
    for place in 0..given.len() {
        let number = place as u32 + 1;
        let task = match task_of(given[place], number) {
            Some(task) => task,
            None => {
                return Err(NoSet {
                    status: status::LEVEL,
                    task: number,
                });
            }
        };
        if tasks.push(task).is_err() {
            return Err(OUT_OF_MEMORY);
        }
    }
    match TaskSet::new(tasks) {
        Ok(set) => {
            let _is_set = set.len();
            Ok(set)
        }
        Err(fault) => Err(no_set(fault)),
    }
}

fn no_set(fault: SetFault) -> NoSet
    ensures status { (result.status ≡ fault_status fault) × (1 ≤ result.status) × (result.status ≤ 5) }
    ensures task { result.task ≡ fault_task fault }
{
    match fault {
        SetFault::Empty => NoSet {
            status: status::EMPTY,
            task: 0,
        },
        SetFault::TooMany { .. } => NoSet {
            status: status::TOO_MANY,
            task: 0,
        },
        SetFault::ZeroNumber { task } => NoSet {
            status: status::ZERO_NUMBER,
            task: task.0,
        },
        SetFault::BudgetOrder { task } => NoSet {
            status: status::BUDGET_ORDER,
            task: task.0,
        },
        SetFault::SameName { second, .. } => NoSet {
            status: status::SAME_NAME,
            task: second.0,
        },
    }
}

fn task_of(given: CTask, number: u32) -> Option<Task>
    requires { number < 1000 }
    ensures some { IfSome result (λ task. numbers_of task ≡ given) }
    ensures name { IfSome result (λ task. task.name ≡ named.name_of number) }
    ensures none { IfNone result (1 < given.level) }
{
    let level = match given.level {
        0 => Level::Low,
        1 => Level::High,
        _ => return None,
    };
    Some(Task {
        name: name_of(number),
        level,
        period: given.period,
        low: given.low,
        high: given.high,
    })
}

/// The name of the task of this number: `t` and three digits.
#[tactic(auto, using(crate::proofs::sets::Names::is_named))]
pub fn name_of(number: u32) -> Name
    requires { number < 1000 }
    ensures { result ≡ named.name_of number }
{
    let bytes = [b't', digit(number / 100), digit(number / 10), digit(number)];
    let Some(name) = Name::new(&bytes) else {
        unreachable!()
    };
    name
}

fn digit(number: u32) -> u8
    ensures range { (48 ≤ result) × (result ≤ 57) }
    ensures value { result ≡ 48 + number % 10 }
{
    b'0' + (number % 10) as u8
}
