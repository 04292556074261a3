//! What is kept of the rows so far, and what each kind of row does to it.
ghost use Rattle.std.specs.Prelude.{◌≡◌, ◌+◌, ◌-◌, ◌^◌, ◌<◌, ◌≤◌, Bool, true, OnOk, OnErr, IfOk, Some, length};
ghost use Rattle.std.specs.List.{list_all};
ghost use Rattle.mc_task.specs.TaskSet.{IsIn, task_at};
ghost use Rattle.mc_model.specs.Holds.{Fits};
ghost use Rattle.mc_model.specs.TaskNumbers.{is_high_in};
ghost use Rattle.trace_judge.specs.Rules.{is_due_at};
ghost use Rattle.trace_judge.specs.Entries.{HasQueue, HasQueues, late_job, entries_of};
ghost use Rattle.trace_judge.specs.Steps.{IsNew, note_at, release_why, Releases, GoesOn, Ends, Rests};
ghost use Rattle.trace_judge.specs.Switch.{Overruns, is_keyed, noted_each, is_due_entry, is_discarded_late, is_due_among};

use crate::late_jobs::{LateJob, LateJobs};
use crate::pending_queues::{Pending, PendingQueues, Rank};
use crate::rules::{is_due, key_at};
use mc_model::Why;
use mc_task::{JobId, Memory, Rule, Task, TaskSet};
use std::alloc::Global;

/// What is kept of a task: how many releases there were, and the first boundary at which the next may come.
#[derive(Clone, Copy, Debug, PartialEq, Eq)]
pub struct TaskNote {
    pub releases: u32,
    pub next: u64,
}

/// What is kept of the rows so far: their ticks, the mode, the number of rows, a note of each task, the pending jobs, and
/// the jobs that ended or were discarded late.
// The mode stands between the two numbers: the compiler would add to neighbours as to one vector, with more
// instructions.
#[derive(Drop)]
pub struct State {
    pub ticks: u64,
    pub high_mode: bool,
    pub rows: u64,
    pub tasks: Vec<TaskNote>,
    pub waiting: PendingQueues,
    pub late_jobs: LateJobs,
}

impl State {
    /// The state before the first row, for `count` tasks.
    pub fn new(alloc: Global, count: u32) -> Result<State, Memory>
        requires { 1 ≤ count }
        ensures { IfOk result (IsNew count) }
    {
        let no_release = TaskNote {
            releases: 0,
            next: 0,
        };
        let tasks = vec![in alloc; no_release; count as usize]?;
        Ok(State {
            ticks: 0,
            high_mode: false,
            rows: 0,
            tasks,
            waiting: PendingQueues::new(alloc, count)?,
            late_jobs: LateJobs {
                count: 0,
                first: None,
            },
        })
    }

    /// The first part of a release that does not fit.
    pub fn release_why(&self, task: &Task, job: JobId, kept: bool) -> Option<Why>
        requires first { 1 ≤ job.task.0 }
        requires last { job.task.0 ≤ length self.now.tasks.items }
        ensures { result ≡ release_why self.now.ticks self.now.high_mode (note_at self.now.tasks.items job.task.0) (Some task.now) job kept }
    {
        let note = self.tasks[job.task.0 as usize - 1];
        if self.ticks < note.next {
            return Some(Why::TooSoon);
        }
        if job.count == 0 || job.count - 1 != note.releases {
            return Some(Why::WrongCount);
        }
        if kept != (task.is_high() || !self.high_mode) {
            return Some(Why::WrongKept);
        }
        None
    }

    /// Follows a release that fits.
    pub fn release(&mut self, rule: Rule, task: &Task, job: JobId, kept: bool) -> Result<(), Memory>
        requires fits { Fits rule }
        requires first { 1 ≤ job.task.0 }
        requires last { job.task.0 ≤ length self.old.tasks.items }
        requires queue { HasQueue self.old.waiting job.task.0 }
        requires room { self.old.rows < 2 ^ 62 }
        requires time { self.old.ticks < 2 ^ 62 }
        ensures follows { OnOk result (Releases rule (Some task.now) job kept self.old self.new) }
        ensures unchanged { OnErr result (self.new ≡ self.old) }
        ensures memory { OnErr result ((kept ≡ true) × (2 ≤ entries_of job.task.0 self.old.waiting.entries)) }
    {
        if kept {
            let key = key_at(rule, self.high_mode, task, self.ticks);
            let pending = Pending {
                release: self.ticks,
                used: 0,
                rows_before: self.rows,
            };
            self.waiting.put(Rank { key, job }, pending)?;
        }
        self.tasks[job.task.0 as usize - 1] = TaskNote {
            releases: job.count,
            next: self.ticks + u64::from(task.period),
        };
        self.rows += 1;
        Ok(())
    }

    /// Follows `length` idle ticks.
    pub fn rest(&mut self, length: u32)
        requires room { self.old.rows + length ≤ 2 ^ 62 }
        requires time { self.old.ticks + length ≤ 2 ^ 62 }
        ensures { Rests length self.old self.new }
    {
        self.ticks += u64::from(length);
        self.rows += u64::from(length);
        self.high_mode = false;
    }

    /// Follows `length` ticks after which the job goes on. No job ends or is discarded at these ticks, so none is noted as late.
    pub fn go_on(&mut self, job: JobId, length: u32)
        requires queue { HasQueue self.old.waiting job.task.0 }
        requires room { self.old.rows + length ≤ 2 ^ 62 }
        requires time { self.old.ticks + length ≤ 2 ^ 62 }
        ensures { GoesOn length job self.old self.new }
    {
        self.waiting.spend(job, length);
        self.ticks += u64::from(length);
        self.rows += u64::from(length);
    }

    /// Follows the last tick of a job, which is late if its deadline came before this tick.
    // Inlined: the call would cost about as much as the body.
    #[inline(always)]
    pub fn end(&mut self, task: &Task, job: JobId, pending: Pending)
        requires queue { HasQueue self.old.waiting job.task.0 }
        requires room { self.old.rows < 2 ^ 62 }
        requires time { self.old.ticks < 2 ^ 62 }
        ensures { Ends (Some task.now) job pending self.old self.new }
    {
        self.waiting.take_out(job);
        if is_due(task, pending.release, self.ticks) {
            self.late_jobs.note(late_job(job, pending));
        }
        self.ticks += 1;
        self.rows += 1;
    }

    /// Follows an overrun. High jobs get their keys of high mode, and low ones are discarded.
    pub fn overrun(&mut self, set: &TaskSet, rule: Rule, job: JobId)
        requires fits { Fits rule }
        requires task { IsIn set.now.tasks job.task.0 }
        requires queues { HasQueues self.old.waiting set.now.tasks }
        requires keyed { (high : Bool) × (list_all (is_keyed set.now.tasks rule high) self.old.waiting.entries ≡ true) }
        requires room { self.old.rows < 2 ^ 62 }
        requires time { self.old.ticks < 2 ^ 62 }
        ensures { Overruns set.now.tasks rule job self.old self.new }
    {
        self.late_jobs = self.late_after_overrun(set);
        self.waiting.switch(set, rule);
        self.waiting.spend(job, 1);
        self.high_mode = true;
        self.ticks += 1;
        self.rows += 1;
    }

    // The late jobs after an overrun at this tick: a low job is discarded, and is late if its deadline came before this tick.
    fn late_after_overrun(&self, set: &TaskSet) -> LateJobs
        ensures { result ≡ noted_each (is_discarded_late set.now.tasks self.now.ticks) self.now.late_jobs self.now.waiting.entries }
    {
        self.late_jobs_with_due(set, true)
    }

    /// The late jobs so far: those that ended or were discarded late, and the pending ones whose deadlines have come.
    pub fn all_late_jobs(&self, set: &TaskSet) -> LateJobs
        ensures { result ≡ noted_each (is_due_entry set.now.tasks self.now.ticks) self.now.late_jobs self.now.waiting.entries }
    {
        self.late_jobs_with_due(set, false)
    }

    // The late jobs so far, with the pending ones whose deadlines have come: those of low tasks alone, or all.
    // Inlined: each caller then has a loop without the test of `low_alone`.
    #[inline(always)]
    fn late_jobs_with_due(&self, set: &TaskSet, low_alone: bool) -> LateJobs
        ensures { result ≡ noted_each (is_due_among low_alone set.now.tasks self.now.ticks) self.now.late_jobs self.now.waiting.entries }
    {
        let mut late_jobs = self.late_jobs;
        let mut remaining = self.waiting.remaining();
        while let Some((rank, pending)) = remaining.pop() {
            let task = set.get(rank.job.task);
            let is_left_out = low_alone && is_high_task(&task);
            if !is_left_out && is_due_task(&task, pending.release, self.ticks) {
                late_jobs.note(late_job(rank.job, pending));
            }
        }
        late_jobs
    }
}

// The pending job as a late one.
fn late_job(job: JobId, pending: Pending) -> LateJob
    ensures { result ≡ late_job job pending }
{
    LateJob {
        rows_before: pending.rows_before,
        job,
    }
}

// Whether the task is there and is high.
fn is_high_task(task: &Option<Task>) -> bool
    ensures { result ≡ is_high_in task.now }
{
    match task {
        None => false,
        Some(task) => task.is_high(),
    }
}

/// Whether the deadline of a job of the task that was released at this boundary has come at boundary `now`.
pub fn is_due_task(task: &Option<Task>, release: u64, now: u64) -> bool
    ensures { result ≡ is_due_at task.now release now }
{
    match task {
        None => release <= now,
        Some(task) => is_due(task, release, now),
    }
}
