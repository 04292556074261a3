//! What the calls of a scheduler return.
use mc_task::JobId;

/// A release that was taken: its job, and its release time in ticks.
#[derive(Clone, Copy, Debug, PartialEq, Eq)]
pub enum Released {
    /// The job is pending now.
    Kept { job: JobId, at: u64 },
    /// The task is low and the mode is high: the release counts for the separation, and its job never runs.
    Dropped { job: JobId, at: u64 },
    /// A tick is granted: the release is written after that tick, when the tick has its outcome, and is kept or dropped
    /// then.
    Held { job: JobId, at: u64 },
}

/// A granted tick: its job, its number, and how many ticks the job had before it.
#[derive(Clone, Copy, Debug, PartialEq, Eq)]
pub struct Granted {
    pub job: JobId,
    pub at: u64,
    pub before: u32,
}

/// Why a release is refused, in the order in which the reasons are tried.
#[derive(Clone, Copy, Debug, PartialEq, Eq)]
pub enum ReleaseFault {
    /// This job of the task has a granted tick.
    Running { job: JobId },
    /// The task's last release is less than a period ago; this is the first boundary at which one is allowed.
    TooSoon { next: u64 },
    /// The whole capacity is used.
    Full,
}

/// Why a tick is not granted, in the order in which the reasons are tried.
#[derive(Clone, Copy, Debug, PartialEq, Eq)]
pub enum GrantFault {
    /// This job has a granted tick.
    TickOut { job: JobId },
    /// The chosen job is of another task; no job is chosen if none is pending.
    NotChosen { chosen: Option<JobId> },
    /// The whole capacity is used.
    Full,
}

/// Why no idle tick is made, in the order in which the reasons are tried.
#[derive(Clone, Copy, Debug, PartialEq, Eq)]
pub enum IdleFault {
    /// This job has a granted tick.
    TickOut { job: JobId },
    /// A job is pending, and this one is chosen.
    Pending { job: JobId },
    /// The whole capacity is used.
    Full,
}

/// A pending job of a task.
#[derive(Clone, Copy, Debug, PartialEq, Eq)]
pub struct PendingJob {
    pub job: JobId,
    /// Its release time.
    pub release: u64,
    /// The number of ticks before its deadline, which is its task's period after the release.
    pub deadline: u64,
    /// The key by which it competes in the present mode, in parts of a tick, as `virtual_key::key` returns it: the job
    /// with the least key is the chosen one.
    pub key: u128,
    /// How many ticks it has had.
    pub used: u32,
}

/// Which job runs, and the greatest number of ticks that it may run in one go: the last of them is the job's last, or an
/// overrun, unless the job is done before.
#[derive(Clone, Copy, Debug, PartialEq, Eq)]
pub struct Boundary {
    pub job: JobId,
    pub ticks: u32,
}

/// Why a run of ticks is refused, in the order in which the reasons are tried.
#[derive(Clone, Copy, Debug, PartialEq, Eq)]
pub enum RunFault {
    /// This job has a granted tick.
    TickOut { job: JobId },
    /// The chosen job is another one; no job is chosen if none is pending.
    NotChosen { chosen: Option<JobId> },
    /// The run passes the job's boundary, up to which the job may run this many ticks.
    Past { most: u32 },
    /// The capacity that is left is less than the run.
    Full,
}

/// An outcome was given for a job without a granted tick.
#[derive(Clone, Copy, Debug, PartialEq, Eq)]
pub struct NotOut {
    pub given: JobId,
    pub out: Option<JobId>,
}
