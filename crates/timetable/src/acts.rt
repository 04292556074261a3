//! The acts of a floor, and why a call is refused.
use mc_task::{JobId, TaskNo};

/// Why the plan refuses a call. The reasons are tried in this order.
#[derive(Clone, Copy, Debug, PartialEq, Eq)]
pub enum PlanFault {
    /// The release of this task is due, and must come first.
    Due { task: TaskNo },
    /// No release is due.
    NotPlanned,
    /// The plan's ticks have all begun.
    Finished,
}

/// Why a floor refuses a call: its plan does, or the core, which is only called if the plan does not refuse.
#[derive(Clone, Copy, Debug, PartialEq, Eq)]
pub enum ActFault<F> {
    Plan(PlanFault),
    Core(F),
}

/// What a floor waits for next.
#[derive(Clone, Copy, Debug, PartialEq, Eq)]
pub enum Act {
    /// The release of this task, which is due. The task has no granted tick.
    Release(TaskNo),
    /// A tick to be granted to this task.
    Grant(TaskNo),
    /// An idle tick: nothing is pending.
    Idle,
    /// The outcome of the granted tick of this job.
    Wait(JobId),
    /// Nothing more: the plan's ticks have all begun, and no granted tick waits for its outcome.
    Finished,
}
