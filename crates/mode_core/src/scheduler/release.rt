//! Releases: written at once, or held while a tick is granted.
ghost use Rattle.std.specs.Prelude.{◌≡◌, ◌∷◌, cond, IsSome, None};
ghost use Rattle.mc_task.specs.TaskSet.{IsIn};
ghost use Rattle.mc_model.specs.Core.{begun, next, next_job, release_row, released_so_far};
ghost use Rattle.mode_core.specs.declared.answers.Released.TheVariants as released;
ghost use Rattle.mode_core.specs.Events.{release_refusal, release_answer, after_release, taken, with_release};

use super::Core;
use crate::steps::{keeps, note_release};
use crate::{ReleaseFault, Released};
use mc_task::{JobId, TaskNo};
use row_history::Recorder;

impl<R: Recorder> Core<R> {
    ghost use Rattle.mode_core.specs.Shape.{IsSoundUpTo};
    ghost use Rattle.mode_core.specs.Timely.{IsTimely};

    /// Releases the task's next job. The release time is the number of ticks that were begun.
    ///
    /// If a tick is granted, the release is held until the outcome. Otherwise its row is written: dropped if the task
    /// is low and the mode is high, and kept in the other cases. A refusal changes nothing. `Full` comes if the whole
    /// capacity is used, or each of the 2^32 - 1 numbers that the task's jobs may have.
    pub fn release(&mut self, task: TaskNo) -> Result<Released, ReleaseFault>
        requires in_set { IsIn self.old.set task.0 }
        ensures answer { result ≡ release_answer self.old task.0 }
        ensures state { self.new ≡ after_release self.old task.0 }
        ensures timely { IsTimely self.new }
    {
        match self.release_fault(task) {
            Some(fault) => Err(fault),
            None => Ok(self.take_release(task)),
        }
    }

    // Why a release of the task is refused.
    fn release_fault(&self, task: TaskNo) -> Option<ReleaseFault>
        requires in_set { IsIn self.now.set task.0 }
        ensures value { result ≡ release_refusal self.now task.0 }
        ensures sound { IsSoundUpTo R.most self.now }
    {
        if let Some(job) = self.out {
            if job.task == task {
                return Some(ReleaseFault::Running { job });
            }
        }
        let next = self.next_allowed(task);
        if self.ticks_begun() < next {
            return Some(ReleaseFault::TooSoon { next });
        }
        if self.is_full() || self.released(task) >= u32::MAX {
            Some(ReleaseFault::Full)
        } else {
            None
        }
    }

    // How many releases of the task there were.
    fn released(&self, task: TaskNo) -> u32
        requires in_set { IsIn self.now.set task.0 }
        ensures { result ≡ released_so_far self.now task.0 }
    {
        self.arrivals.count(task)
    }

    /// The earliest next release of the task: before this boundary a release is too soon. It is 0 before the task's first
    /// release, and then the last release time plus the period.
    pub fn next_allowed(&self, task: TaskNo) -> u64
        requires in_set { IsIn self.now.set task.0 }
        ensures { result ≡ next self.now task.0 }
    {
        self.arrivals.next_allowed(task)
    }

    // A release that is not refused.
    fn take_release(&mut self, task: TaskNo) -> Released
        requires in_set { IsIn self.old.set task.0 }
        requires none { release_refusal self.old task.0 ≡ None }
        ensures answer { result ≡ taken self.old self.old.out task.0 }
        ensures state { self.new ≡ with_release self.old self.old.out (next_job self.old task.0) }
        ensures sound { IsSoundUpTo R.most self.new }
    {
        match self.out {
            Some(_) => self.hold(task),
            None => self.write(task),
        }
    }

    // Holds the release until the granted tick has its outcome.
    fn hold(&mut self, task: TaskNo) -> Released
        requires in_set { IsIn self.old.set task.0 }
        requires none { release_refusal self.old task.0 ≡ None }
        requires out { IsSome self.old.out }
        ensures answer { result ≡ released.Held (next_job self.old task.0) (begun self.old) }
        ensures state { self.new ≡ record self.old { held = next_job self.old task.0 ∷ self.old.held } }
        ensures sound { IsSoundUpTo R.most self.new }
    {
        let at = self.log.ticks() + 1;
        let job = note_release(&mut self.arrivals, task, at);
        self.held.push_reserved(job);
        Released::Held { job, at }
    }

    // Writes the row of the release, which is kept or dropped.
    fn write(&mut self, task: TaskNo) -> Released
        requires in_set { IsIn self.old.set task.0 }
        requires none { release_refusal self.old task.0 ≡ None }
        requires out { self.old.out ≡ None }
        ensures answer { result ≡ taken self.old None task.0 }
        ensures state { self.new ≡ record self.old {
          rows = release_row self.old.set self.old.rule (next_job self.old task.0) self.old.rows ∷ self.old.rows;
        } }
        ensures sound { IsSoundUpTo R.most self.new }
    {
        let at = self.log.ticks();
        let job = note_release(&mut self.arrivals, task, at);
        let kept = keeps(&self.log, task);
        self.log.push_release(job, kept);
        kept_or_dropped(kept, job, at)
    }
}

// A release whose row is written.
fn kept_or_dropped(kept: bool, job: JobId, at: u64) -> Released
    ensures { result ≡ cond kept (released.Kept job at) (released.Dropped job at) }
{
    if kept {
        Released::Kept { job, at }
    } else {
        Released::Dropped { job, at }
    }
}
