//! The rows of a trace.
ghost use Rattle.std.specs.Prelude.{◌↔◌, All, IsTrue};
ghost use Rattle.mc_model.specs.Legal.{IsOfSet};

use mc_task::{JobId, TaskSet};

/// How a tick ended for its job.
#[derive(Clone, Copy, Debug, PartialEq, Eq)]
pub enum How {
    /// The job goes on: it is not done, was not stopped, and did not overrun.
    More,
    /// The job completed.
    Done,
    /// The job reached its own budget without being done, and was stopped.
    Stop,
    /// A high task's job reached its low budget in low mode without being done: an overrun, which makes the mode high.
    Over,
}

/// A row of a trace.
#[derive(Clone, Copy, Debug, PartialEq, Eq)]
pub enum Row {
    /// A release at the boundary before the next tick, kept or dropped.
    Release { job: JobId, kept: bool },
    /// A tick that was given to a job.
    Tick { job: JobId, how: How },
    /// A tick in which nothing was pending.
    Idle,
}

/// Whether each row is idle or of a task of the set.
pub fn are_of_set(set: &TaskSet, rows: &[Row]) -> bool
    ensures { IsTrue result ↔ All (IsOfSet set.now.tasks) rows.now }
{
    rows.iter().all(|row| is_of_set(set, *row))
}

fn is_of_set(set: &TaskSet, row: Row) -> bool
    ensures { IsTrue result ↔ IsOfSet set.now.tasks row }
{
    match row {
        Row::Release { job, .. } | Row::Tick { job, .. } => set.get(job.task).is_some(),
        Row::Idle => true,
    }
}
