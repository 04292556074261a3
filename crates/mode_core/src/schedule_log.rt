//! The rows of a schedule, and what the scheduler stores beside them: the clock, the mode and the pending job of each
//! task.
ghost use Rattle.std.specs.Prelude.{◌≡◌, ◌+◌, ◌<◌, ◌≤◌, ◌^◌, ◌∷◌, ◌++◌, [], length, replicate, option_map, Some, IfOk, IfSome};
ghost use Rattle.mc_model.specs.declared.row.Row.TheVariants as row;
ghost use Rattle.mode_core.specs.Entries.{entry, job_of};
ghost use Rattle.mode_core.specs.Discarded.{discarded};
ghost use Rattle.mc_model.specs.Holds.{Fits, Holds};
ghost use Rattle.mc_task.specs.TaskSet.{AreTasks, IsIn};
ghost use Rattle.mc_model.specs.Legal.{Legal};
ghost use Rattle.mc_model.specs.Rows.{ticks, used};
ghost use Rattle.mc_model.specs.Mode.{high_mode};
ghost use Rattle.mc_model.specs.Pending.{pending};
ghost use Rattle.mc_model.specs.declared.row.How.TheVariants.{More};
ghost use Rattle.mc_model.specs.Core.{chosen, first_to_run, outcome_of};
ghost use Rattle.mode_core.specs.Runs.{ticks_left};

use crate::pending::Pending;
use crate::pending_jobs::PendingJobs;
use mc_model::{How, Row};
use mc_task::{JobId, Memory, Rule, TaskNo, TaskSet};
use row_history::Recorder;
use std::alloc::Global;
use std::marker::Model;

/// The rows of a schedule, in a recorder with capacity for a number of them. Contracts see the set, the rule, the
/// capacity and the rows.
#[derive(Debug, Drop)]
pub struct ScheduleLog<R: Recorder> {
    places: usize,
    recorder: R,
    ticks: u64,
    pending_jobs: PendingJobs,
}

impl<R: Recorder> Model for ScheduleLog<R> {
    ghost use Rattle.mode_core.specs.Written.{Written};

    ghost Value = { Written };

    ghost use Rattle.mode_core.specs.Representation.{written, IsScheduleLog};

    ghost view = { λ a. written (R.rows a.recorder) a };

    ghost invariant = { λ a. IsScheduleLog (R.rows a.recorder) (R.capacity a.recorder) (R.is_for a.recorder) a };
}

impl<R: Recorder> ScheduleLog<R> {
    /// A log with no rows, whose recorder has capacity for all rows that will be written.
    pub fn new(
        alloc: Global,
        set: TaskSet,
        rule: Rule,
        places: usize,
        recorder: R,
    ) -> Result<ScheduleLog<R>, Memory>
        requires fits { Fits rule }
        requires holds { Holds set.tasks rule }
        requires fresh { R.rows recorder ≡ [] }
        requires room { places ≤ R.capacity recorder }
        requires recorder { R.is_for recorder set.tasks rule }
        requires places { places ≤ 2 ^ 62 }
        ensures { IfOk result (λ log. log ≡ record { set = set.tasks; rule = rule; places = places; rows = [] }) }
    {
        let pending_jobs = PendingJobs::new(alloc, set, rule)?;
        Ok(ScheduleLog {
            places,
            recorder,
            ticks: 0,
            pending_jobs,
        })
    }

    /// The recorder that took the rows.
    pub fn recorder(&self) -> &R
        ensures rows { R.rows result.now ≡ self.now.rows }
        ensures set { R.is_for result.now self.now.set self.now.rule }
    {
        &self.recorder
    }

    /// The recorder, without the log.
    pub fn into_recorder(self) -> R
        ensures rows { R.rows result ≡ self.rows }
        ensures set { R.is_for result self.set self.rule }
    {
        let ScheduleLog {
            places: _,
            recorder,
            ticks: _,
            pending_jobs: _,
        } = self;
        recorder
    }

    /// The number of ticks in the rows, which is the number of the next tick.
    pub fn ticks(&self) -> u64
        ensures value { result ≡ ticks self.now.rows }
        ensures range { result ≤ length self.now.rows }
    {
        self.ticks
    }

    /// How many rows there are.
    pub fn len(&self) -> usize
        ensures value { result ≡ length self.now.rows }
        ensures room { result ≤ self.now.places }
        ensures range { self.now.places ≤ 2 ^ 62 }
    {
        self.recorder.count()
    }

    /// Whether the mode is high.
    pub fn high_mode(&self) -> bool
        ensures { result ≡ high_mode self.now.rule self.now.rows }
    {
        self.pending_jobs.high_mode()
    }

    /// Writes an idle tick, after which the mode is low.
    pub fn push_idle(&mut self)
        requires legal { Legal self.old.set self.old.rule (row.Idle ∷ self.old.rows) }
        requires room { length self.old.rows < self.old.places }
        ensures { self.new ≡ record self.old { rows = row.Idle ∷ self.old.rows } }
    {
        self.recorder.add(Row::Idle);
        self.ticks += 1;
        self.pending_jobs.calm();
    }

    /// Writes a release. If it is kept, its job becomes the pending one of its task.
    pub fn push_release(&mut self, job: JobId, kept: bool)
        requires legal { Legal self.old.set self.old.rule (row.Release job kept ∷ self.old.rows) }
        requires room { length self.old.rows < self.old.places }
        ensures { self.new ≡ record self.old { rows = row.Release job kept ∷ self.old.rows } }
    {
        self.recorder.add(Row::Release { job, kept });
        if kept {
            self.pending_jobs.begin(job, self.ticks);
        }
    }

    /// Writes a tick of the job, and returns how it ends.
    #[inline(always)]
    pub fn push_tick(&mut self, job: JobId, done: bool) -> How
        requires legal { Legal self.old.set self.old.rule
            (row.Tick job (outcome_of self.old.set self.old.rule self.old.rows job done) ∷ self.old.rows) }
        requires room { length self.old.rows < self.old.places }
        ensures answer { result ≡ outcome_of self.old.set self.old.rule self.old.rows job done }
        ensures state { self.new ≡ record self.old {
          rows = row.Tick job (outcome_of self.old.set self.old.rule self.old.rows job done) ∷ self.old.rows;
        } }
    {
        let how = self.pending_jobs.tick(job, done);
        self.pending_jobs.clear_after(job.task, how);
        self.recorder.add(Row::Tick { job, how });
        self.ticks += 1;
        how
    }

    /// Writes this many ticks of the chosen job, which goes on after each of them.
    pub fn push_more(&mut self, job: JobId, count: u32)
        requires chosen { chosen self.old.set self.old.rule self.old.rows ≡ Some job }
        requires left { count < ticks_left self.old.set self.old.rule self.old.rows job }
        requires room { length self.old.rows + count ≤ self.old.places }
        ensures { self.new ≡ record self.old { rows = replicate count (row.Tick job More) ++ self.old.rows } }
    {
        self.pending_jobs.tick_many(job, count);
        let how = How::More;
        self.recorder
            .add_run(Row::Tick { job, how }, count as usize);
        self.ticks += count as u64;
    }

    /// Writes this many idle ticks, at least one, after which the mode is low.
    pub fn push_idles(&mut self, count: usize)
        requires some { 1 ≤ count }
        requires none { pending self.old.set self.old.rows ≡ [] }
        requires room { length self.old.rows + count ≤ self.old.places }
        ensures { self.new ≡ record self.old { rows = replicate count row.Idle ++ self.old.rows } }
    {
        self.recorder.add_run(Row::Idle, count);
        self.ticks += count as u64;
        self.pending_jobs.calm();
    }

    /// How many ticks this pending job may have, up to the tick that is its last or an overrun.
    pub fn left(&self, job: &Pending) -> u32
        requires { job.now.used ≡ used self.now.rows job.now.job }
        ensures { result ≡ ticks_left self.now.set self.now.rule self.now.rows job.now.job }
    {
        self.pending_jobs.left(job.job.task, job.used)
    }

    /// The pending job that runs first.
    pub fn first(&self) -> Option<Pending>
        ensures { result ≡ option_map (entry self.now.rows)
            (first_to_run self.now.set self.now.rule (high_mode self.now.rule self.now.rows)
            (pending self.now.set self.now.rows)) }
    {
        self.pending_jobs.first()
    }

    /// The task's pending job.
    pub fn of_task(&self, task: TaskNo) -> Option<Pending>
        requires { IsIn self.now.set task.0 }
        ensures value { result ≡ option_map (entry self.now.rows) (job_of task.0 (pending self.now.set self.now.rows)) }
        ensures released { IfSome result (λ p. p.release ≤ 2 ^ 62) }
    {
        self.pending_jobs.of_task(task)
    }

    /// The job of the task that the latest overrun discarded.
    pub fn discarded(&self, task: TaskNo) -> Option<JobId>
        requires { IsIn self.now.set task.0 }
        ensures { result ≡ discarded self.now.set self.now.rows task.0 }
    {
        self.pending_jobs.discarded(task)
    }

    /// The task set.
    pub fn set(&self) -> &TaskSet
        ensures value { result.now.tasks ≡ self.now.set }
        ensures tasks { AreTasks self.now.set }
    {
        self.pending_jobs.set()
    }

    /// The rule.
    pub fn rule(&self) -> Rule
        ensures { result ≡ self.now.rule }
    {
        self.pending_jobs.rule()
    }

    /// The capacity in rows.
    pub fn places(&self) -> usize
        ensures { result ≡ self.now.places }
    {
        self.places
    }
}
