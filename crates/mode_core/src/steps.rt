//! The parts of the core's steps that need no whole core.
ghost use Rattle.std.specs.Prelude.{◌≡◌, ◌≤◌, ◌+◌, ◌∷◌, length, reverse};
ghost use Rattle.arrivals.specs.Arrived.{arrived, count_of, ForNotes};
ghost use Rattle.mode_core.specs.Noted.{MayNote};
ghost use Rattle.mode_core.specs.Events.{is_of_task};
ghost use Rattle.mc_model.specs.Legal.{Legal};
ghost use Rattle.mc_model.specs.Core.{keeps, add_held};

use crate::pending::is_high;
use crate::schedule_log::ScheduleLog;
use arrivals::Arrivals;
use mc_task::{JobId, TaskNo};
use row_history::Recorder;

/// Notes a release of the task, which is allowed, and returns its job.
pub fn note_release(arrivals: &mut Arrivals, task: TaskNo, at: u64) -> JobId
    requires { MayNote arrivals.old task.0 at }
    ensures job { result ≡ record { task = task; count = count_of arrivals.old task.0 + 1 } }
    ensures notes { ForNotes arrivals.old (λ set notes.
        arrivals.new ≡ arrived set (record { task = task.0; at = at } ∷ notes)) }
{
    match arrivals.note(task, at) {
        Ok(count) => JobId { task, count },
        Err(_) => unreachable!(),
    }
}

/// Whether there is a job, and it is of the task.
pub fn is_of_task(job: Option<JobId>, task: TaskNo) -> bool
    ensures { result ≡ is_of_task job task.0 }
{
    match job {
        Some(job) => job.task == task,
        None => false,
    }
}

/// Whether a release of the task is kept.
pub fn keeps<R: Recorder>(log: &ScheduleLog<R>, task: TaskNo) -> bool
    ensures { result ≡ keeps log.now.set log.now.rule log.now.rows task.0 }
{
    is_high(log.set(), task) || !log.high_mode()
}

/// Writes the held releases, in the order in which they were taken. Inlined, since after most ticks there are none.
#[inline(always)]
pub fn write_held<R: Recorder>(log: &mut ScheduleLog<R>, held: &[JobId])
    requires legal { Legal log.old.set log.old.rule
        (add_held log.old.set log.old.rule (reverse held.now) log.old.rows) }
    requires room { length log.old.rows + length held.now ≤ log.old.places }
    ensures { log.new ≡ record log.old {
      rows = add_held log.old.set log.old.rule (reverse held.now) log.old.rows;
    } }
{
    for job in held {
        let kept = keeps(log, job.task);
        log.push_release(*job, kept);
    }
}
