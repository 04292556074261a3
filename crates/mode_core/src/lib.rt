//! The scheduler's core: EDF with Virtual Deadlines, one call an event.
#![tactic(auto)]

mod answers;
mod pending;
mod pending_jobs;
mod schedule_log;
mod scheduler;
mod steps;

pub use answers::{
    Boundary, GrantFault, Granted, IdleFault, NotOut, PendingJob, ReleaseFault, Released, RunFault,
};
pub use scheduler::Core;
