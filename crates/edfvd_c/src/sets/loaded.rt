//! A task set from numbers in memory, with its loads.
ghost use Rattle.std.specs.Prelude.{◌≡◌, ◌≤◌, Some, None, IfOk, IfErr, length};
ghost use Rattle.load_sum.specs.Belong.{BelongTo, fault_task};
ghost use Rattle.mc_model.specs.Loads.{range_fault};
ghost use Rattle.edfvd_c.specs.Sets.Refused.{AreInRange, IsRefused};
ghost use Rattle.edfvd_c.specs.Status.{PERIODS};

use crate::sets::given::{CTask, NoSet, set_of};
use crate::status;
use load_sum::{LoadFault, Loads, sum_loads};
use mc_task::TaskSet;
use std::alloc::Global;

/// A set and its loads.
#[derive(Drop)]
pub struct SetAndLoads {
    pub set: TaskSet,
    pub loads: Loads,
}

/// The set of the tasks, and its loads. More than 128 tasks are refused with TOO_MANY, and any others with the status of
/// their cause.
pub fn set_and_loads(alloc: Global, given: &[CTask]) -> Result<SetAndLoads, NoSet>
    ensures tasks { IfOk result (λ loaded. AreInRange given.now loaded.set.tasks) }
    ensures loads { IfOk result (λ loaded. BelongTo loaded.set.tasks loaded.loads) }
    ensures few { IfOk result (λ loaded. length given.now ≤ 128) }
    ensures refused { IfErr result (λ no. IsRefused given.now no.status no.task) }
{
    let set = set_of(alloc, given)?;
    match loads_of(&set) {
        Ok(loads) => Ok(SetAndLoads { set, loads }),
        Err(no) => Err(no),
    }
}

/// The loads of a set, or PERIODS with the task whose period takes the hyperperiod out of range.
pub fn loads_of(set: &TaskSet) -> Result<Loads, NoSet>
    ensures loads { IfOk result (BelongTo set.now.tasks) }
    ensures range { IfOk result (λ loads. range_fault set.now.tasks ≡ None) }
    ensures fault { IfErr result (λ no. (no.status ≡ PERIODS) × (range_fault set.now.tasks ≡ Some no.task)) }
{
    match sum_loads(set) {
        Ok(loads) => Ok(loads),
        Err(fault) => Err(NoSet {
            status: status::PERIODS,
            task: task_at_fault(fault),
        }),
    }
}

fn task_at_fault(fault: LoadFault) -> u32
    ensures { result ≡ fault_task fault }
{
    match fault {
        LoadFault::Range { task } => task.0,
    }
}
