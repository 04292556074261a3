//! The scheduler's state, and what can be read of it.
ghost use Rattle.std.specs.Prelude.{◌≡◌, ◌+◌, ◌<◌, ◌≤◌, ◌^◌, [], Some, reverse, All, IfOk, IfSome};
ghost use Rattle.mc_task.specs.TaskSet.{IsIn};
ghost use Rattle.mc_model.specs.Holds.{Fits, Holds};
ghost use Rattle.mc_model.specs.Legal.{Legal, IsOfSet};
ghost use Rattle.mc_model.specs.Rows.{ticks};
ghost use Rattle.mc_model.specs.Mode.{high_mode};
ghost use Rattle.mc_model.specs.Core.{begun, chosen, places_used};
ghost use Rattle.mode_core.specs.Choice.{IsChoice};
ghost use Rattle.mode_core.specs.Events.{empty_state, is_full};
ghost use Rattle.mode_core.specs.PendingJob.{pending_job};
ghost use Rattle.mode_core.specs.Discarded.{discarded};
ghost use Rattle.mc_model.specs.Key.{key_of};

mod release;
mod run;
mod tick;

use crate::PendingJob;
use crate::pending::Pending;
use crate::schedule_log::ScheduleLog;
use arrivals::Arrivals;
use mc_model::Row;
use mc_task::{JobId, Memory, Rule, Task, TaskNo, TaskSet};
use row_history::Recorder;
use std::alloc::Global;
use std::marker::Model;
use virtual_key::key;

/// A schedule as it grows, one event a call. Contracts see the set, the rule, the capacity in rows, the rows, the job
/// of the granted tick, and the releases that are held until its outcome.
///
/// Each row goes to a recorder. The recorder of a plain `Core` is a list, which stores them all; with a recorder that
/// stores none, a core needs memory for each task alone and can run for ever.
#[derive(Debug, Drop)]
pub struct Core<R: Recorder = Vec<Row>> {
    log: ScheduleLog<R>,
    arrivals: Arrivals,
    held: Vec<JobId>,
    out: Option<JobId>,
}

impl<R: Recorder> Model for Core<R> {
    ghost use Rattle.mc_model.specs.Core.{State};

    ghost Value = { State };

    ghost use Rattle.mode_core.specs.Shape.{state_of, IsCore};

    ghost view = { state_of };

    ghost invariant = { IsCore R.most };
}

impl Core<Vec<Row>> {
    ghost use Rattle.mode_core.specs.Timely.{IsTimely};
    ghost use Rattle.mode_core.specs.OneLive.{IsOneLive};

    /// A core with no rows, in low mode, with no granted tick and no held release. If memory runs out, the set is
    /// dropped.
    ///
    /// `places` is the capacity in rows, including held releases and a granted tick. No later call allocates.
    pub fn new(alloc: Global, set: TaskSet, rule: Rule, places: usize) -> Result<Core, Memory>
        requires fits { Fits rule }
        requires holds { Holds set.tasks rule }
        requires places { places < 2 ^ 32 }
        ensures state { IfOk result (λ core. core ≡ empty_state set.tasks rule places) }
        ensures timely { IfOk result IsTimely }
    {
        let rows = Vec::with_capacity(alloc, places)?;
        Core::with_recorder(alloc, set, rule, places, rows)
    }

    /// The rows, the oldest first. Each is of the set, no job is late in them, and no task has two pending jobs.
    pub fn rows(&self) -> &[Row]
        ensures value { result.now ≡ reverse self.now.rows }
        ensures of_set { All (IsOfSet self.now.set) result.now }
        ensures timely { IsTimely self.now }
        ensures one_live { IsOneLive self.now }
    {
        self.recorder()
    }
}

impl<R: Recorder> Core<R> {
    ghost use Rattle.mode_core.specs.Shape.{IsSoundUpTo};
    ghost use Rattle.mode_core.specs.Timely.{IsTimely};
    ghost use Rattle.mode_core.specs.OneLive.{IsOneLive};

    /// A core whose rows go to this recorder, which has taken no rows so far. If memory runs out, the set and the recorder are
    /// dropped.
    ///
    /// `places` is the capacity in rows, including held releases and a granted tick. No later call allocates, except
    /// what the recorder allocates.
    pub fn with_recorder(
        alloc: Global,
        set: TaskSet,
        rule: Rule,
        places: usize,
        recorder: R,
    ) -> Result<Core<R>, Memory>
        requires fits { Fits rule }
        requires holds { Holds set.tasks rule }
        requires fresh { R.rows recorder ≡ [] }
        requires room { places ≤ R.capacity recorder }
        requires recorder { R.is_for recorder set.tasks rule }
        requires most { places ≤ R.most }
        requires places { places ≤ 2 ^ 62 }
        ensures state { IfOk result (λ core. core ≡ empty_state set.tasks rule places) }
        ensures timely { IfOk result IsTimely }
    {
        let arrivals = Arrivals::new(alloc, &set)?;
        let held = Vec::with_capacity(alloc, set.len() as usize)?;
        let log = ScheduleLog::new(alloc, set, rule, places, recorder)?;
        Ok(Core {
            log,
            arrivals,
            held,
            out: None,
        })
    }

    /// The recorder that took the rows. No job is late in them, and no task has two pending jobs.
    pub fn recorder(&self) -> &R
        ensures rows { R.rows result.now ≡ self.now.rows }
        ensures set { R.is_for result.now self.now.set self.now.rule }
        ensures legal { Legal self.now.set self.now.rule self.now.rows }
        ensures timely { IsTimely self.now }
        ensures one_live { IsOneLive self.now }
    {
        self.log.recorder()
    }

    /// The recorder, at the end of the schedule.
    pub fn into_recorder(self) -> R
        ensures rows { R.rows result ≡ self.rows }
        ensures set { R.is_for result self.set self.rule }
    {
        let Core {
            log,
            arrivals: _,
            held: _,
            out: _,
        } = self;
        log.into_recorder()
    }

    /// The job of the granted tick.
    pub fn out(&self) -> Option<JobId>
        ensures { result ≡ self.now.out }
    {
        self.out
    }

    /// The number of ticks in the rows.
    pub fn ticks(&self) -> u64
        ensures value { result ≡ ticks self.now.rows }
        ensures sound { IsSoundUpTo R.most self.now }
    {
        self.log.ticks()
    }

    /// The number of ticks that were begun: those of the rows, and the granted one.
    pub fn ticks_begun(&self) -> u64
        ensures { result ≡ begun self.now }
    {
        match self.out {
            Some(_) => self.log.ticks() + 1,
            None => self.log.ticks(),
        }
    }

    /// Whether the mode is high, by the rows.
    pub fn high_mode(&self) -> bool
        ensures { result ≡ high_mode self.now.rule self.now.rows }
    {
        self.log.high_mode()
    }

    /// The pending job with the least key, and of equal keys the one of the lowest task number; `None` exactly if no
    /// job is pending.
    pub fn chosen(&self) -> Option<JobId>
        ensures value { result ≡ chosen self.now.set self.now.rule self.now.rows }
        ensures law { IsChoice self.now.set self.now.rule self.now.rows result }
        ensures task { IfSome result (λ job. IsIn self.now.set job.task.0) }
    {
        match self.log.first() {
            Some(x) => Some(x.job),
            None => None,
        }
    }

    /// The task's pending job, if it has one. A job of a release that was held until an outcome is pending after it
    /// exactly if the release was kept.
    pub fn pending_job(&self, task: TaskNo) -> Option<PendingJob>
        requires in_set { IsIn self.now.set task.0 }
        ensures { result ≡ pending_job self.now task.0 }
    {
        match (self.log.of_task(task), self.set().get(task)) {
            (Some(pending), Some(t)) => Some(seen_job(self.rule(), self.high_mode(), &t, pending)),
            _ => None,
        }
    }

    /// The job of the task that the latest overrun discarded: none if the task is a high one, if it had no pending job
    /// then, and if there was no overrun.
    pub fn discarded(&self, task: TaskNo) -> Option<JobId>
        requires in_set { IsIn self.now.set task.0 }
        ensures { result ≡ discarded self.now.set self.now.rows task.0 }
    {
        self.log.discarded(task)
    }

    /// The capacity in rows.
    pub fn places(&self) -> usize
        ensures value { result ≡ self.now.places }
        ensures sound { IsSoundUpTo R.most self.now }
    {
        self.log.places()
    }

    /// The task set.
    pub fn set(&self) -> &TaskSet
        ensures { result.now.tasks ≡ self.now.set }
    {
        self.log.set()
    }

    /// The rule.
    pub fn rule(&self) -> Rule
        ensures { result ≡ self.now.rule }
    {
        self.log.rule()
    }

    // Whether the whole capacity is used.
    fn is_full(&self) -> bool
        ensures { result ≡ is_full self.now }
    {
        self.places_used() == self.log.places()
    }

    // How much of the capacity is used: by rows, by held releases, and by a granted tick.
    fn places_used(&self) -> usize
        ensures value { result ≡ places_used self.now }
        ensures range { self.now.places ≤ 2 ^ 62 }
        ensures room { result ≤ self.now.places }
    {
        let out = match self.out {
            Some(_) => 1,
            None => 0,
        };
        self.log.len() + self.held.len() + out
    }
}

// What a caller sees of a pending job of the task.
fn seen_job(rule: Rule, high_mode: bool, task: &Task, pending: Pending) -> PendingJob
    requires fits { Fits rule }
    requires range { pending.release ≤ 2 ^ 62 }
    ensures { result ≡ record {
      job = pending.job;
      release = pending.release;
      deadline = pending.release + task.now.period;
      key = key_of rule high_mode (Some task.now) pending.release;
      used = pending.used;
    } }
{
    let Pending { job, release, used } = pending;
    PendingJob {
        job,
        release,
        deadline: release + u64::from(task.period),
        key: key(rule, high_mode, task, release),
        used,
    }
}
