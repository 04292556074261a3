//! The pending job of each task, and which of them runs first.
ghost use Rattle.std.specs.Prelude.{◌≡◌, ◌<◌, ◌≤◌, ◌^◌, ◌&&◌, ◌==◌, ◌+◌, ℕ, length, replicate, cond, true, false, option_map, Some, None, IfOk, IfSome, IfNone};
ghost use Rattle.mc_task.specs.TaskSet.{AreTasks, IsIn, task_at};
ghost use Rattle.mc_model.specs.Holds.{Fits};
ghost use Rattle.mc_model.specs.TaskNumbers.{is_high_in, own_in};
ghost use Rattle.mc_model.specs.declared.row.How.TheVariants.{More, Done, Stop, Over};
ghost use Rattle.mc_model.specs.Mode.{is_over};
ghost use Rattle.budget_ledger.specs.Ledger.{spent};
ghost use Rattle.mode_core.specs.Slots.{job_at, ticks_at, number_at, discarded_at, as_pending, waiting, if_low, free_slots, one_more, more_by, ChangesOnly, GoesHigh, NotesDiscarded, IsLeft, IsOutcome, IsQuiet, RunsFirst};
ghost use Rattle.mode_core.specs.Runs.{left_of, may_switch};

use crate::pending::{Pending, is_high, item};
use budget_ledger::{Spent, Used};
use mc_model::How;
use mc_task::{JobId, Memory, Rule, Task, TaskNo, TaskSet};
use ready_queue::ReadyQueue;
use std::alloc::{AllocError, Global};
use std::marker::Model;

// A task's pending job: the number and the boundary of its release.
#[derive(Clone, Copy, Debug, PartialEq, Eq)]
struct ReleasedJob {
    count: u32,
    release: u64,
}

/// The pending job of each task of a set, at most one of each. Contracts see the set, the rule, whether the mode is
/// high, and task by task the pending job, the ticks that are counted, and the job that the latest overrun discarded.
#[derive(Debug, Drop)]
pub struct PendingJobs {
    set: TaskSet,
    rule: Rule,
    high: bool,
    jobs: Vec<Option<ReleasedJob>>,
    queue: ReadyQueue,
    used: Used,
    discarded: Vec<Option<u32>>,
}

impl Model for PendingJobs {
    ghost use Rattle.mode_core.specs.Slots.{Slots};

    ghost Value = { Slots };

    ghost use Rattle.mode_core.specs.Representation.{slots_of, ArePendingJobs};

    ghost view = { slots_of };

    ghost invariant = { ArePendingJobs };
}

impl PendingJobs {
    /// No pending job of any task, in low mode. Only this call allocates.
    pub fn new(alloc: Global, set: TaskSet, rule: Rule) -> Result<PendingJobs, Memory>
        requires { Fits rule }
        ensures state { IfOk result (λ jobs. jobs ≡ free_slots set.tasks rule) }
        ensures tasks { IfOk result (λ jobs. AreTasks jobs.set) }
    {
        let queue = ReadyQueue::new(alloc, set.len())?;
        let used = Used::new(alloc, &set)?;
        let jobs = no_jobs(alloc, set.len() as usize)?;
        let discarded = vec![in alloc; None; set.len() as usize]?;
        Ok(PendingJobs {
            set,
            rule,
            high: false,
            jobs,
            queue,
            used,
            discarded,
        })
    }

    /// The job becomes the pending one of its task, released at this boundary.
    pub fn begin(&mut self, job: JobId, release: u64)
        requires in_set { IsIn self.old.set job.task.0 }
        requires range { release ≤ 2 ^ 62 }
        requires free { waiting self.old job.task.0 ≡ None }
        ensures state { ChangesOnly self.old self.new job.task.0 (Some (record { job = job; release = release; used = 0 })) }
        ensures discarded { self.new.discarded ≡ self.old.discarded }
    {
        let JobId { task, count } = job;
        self.queue
            .insert(item(&self.set, self.rule, self.high, task, release));
        self.used.start(task);
        self.jobs[task.0 as usize - 1] = Some(ReleasedJob { count, release });
    }

    /// Counts one more tick of the job, which is its task's pending one, and returns how that tick ends.
    pub fn tick(&mut self, job: JobId, done: bool) -> How
        requires in_set { IsIn self.old.set job.task.0 }
        requires below { ticks_at self.old job.task.0 < own_in (task_at self.old.set job.task.0) }
        ensures answer { IsOutcome self.old job done result }
        ensures state { ChangesOnly self.old self.new job.task.0 (option_map one_more (waiting self.old job.task.0)) }
        ensures discarded { self.new.discarded ≡ self.old.discarded }
    {
        let may_switch = self.may_switch(job.task);
        let reached = self.used.spend(job.task);
        outcome(reached, may_switch, done)
    }

    /// Counts this many more ticks of the job, which is its task's pending one and goes on after each of them.
    pub fn tick_many(&mut self, job: JobId, count: u32)
        requires in_set { IsIn self.old.set job.task.0 }
        requires within { ticks_at self.old job.task.0 + count ≤ own_in (task_at self.old.set job.task.0) }
        ensures state { ChangesOnly self.old self.new job.task.0 (option_map (more_by count) (waiting self.old job.task.0)) }
        ensures discarded { self.new.discarded ≡ self.old.discarded }
    {
        self.used.spend_many(job.task, count);
    }

    /// How many ticks the task's pending job, which has used these, may have up to the tick that is its last or an
    /// overrun.
    pub fn left(&self, task: TaskNo, used: u32) -> u32
        ensures { result ≡ left_of (task_at self.now.set task.0) (may_switch self.now.set self.now.rule self.now.high task.0) used }
    {
        let may_switch = self.may_switch(task);
        match self.set.get(task) {
            Some(t) => left_of(&t, may_switch, used),
            None => 0,
        }
    }

    // Whether the mode becomes high if a job of the task passes its low budget.
    fn may_switch(&self, task: TaskNo) -> bool
        ensures { result ≡ may_switch self.now.set self.now.rule self.now.high task.0 }
    {
        self.rule.is_virtual() && !self.high && is_high(&self.set, task)
    }

    /// Clears the slots that a tick of the task with this outcome clears: at an end the task's own, and at an overrun
    /// those of low tasks, since the mode is high then.
    // Inlined, since it does nothing at most ticks.
    #[inline(always)]
    pub fn clear_after(&mut self, task: TaskNo, how: How)
        requires { IsIn self.old.set task.0 }
        ensures slots { IsLeft self.old self.new task.0 how }
        ensures discarded { NotesDiscarded self.old self.new (is_over how) }
    {
        match how {
            How::More => (),
            How::Over => self.switch(),
            How::Done | How::Stop => self.end(task),
        }
    }

    // Ends the task's pending job.
    fn end(&mut self, task: TaskNo)
        requires { IsIn self.old.set task.0 }
        ensures slots { ChangesOnly self.old self.new task.0 None }
        ensures discarded { self.new.discarded ≡ self.old.discarded }
    {
        self.jobs[task.0 as usize - 1] = None;
        self.queue.remove(task);
    }

    // Makes the mode high: the pending jobs of low tasks are discarded, and the others run by their real deadlines.
    fn switch(&mut self)
        ensures slots { GoesHigh self.old self.new }
        ensures discarded { NotesDiscarded self.old self.new true }
    {
        // No task has two items, as the call's contract says.
        let _first = self.queue.least();
        note_discarded(&mut self.discarded, &self.jobs, &self.set);
        clear_low(&mut self.jobs, &self.set);
        self.queue.rekey_high();
        self.high = true;
    }

    /// Makes the mode low.
    pub fn calm(&mut self)
        requires { IsQuiet self.old }
        ensures { self.new ≡ record self.old { high = false } }
    {
        self.high = false;
    }

    /// The pending job that runs first, if there is one.
    pub fn first(&self) -> Option<Pending>
        ensures first { IfSome result (RunsFirst self.now) }
        ensures none { IfNone result (IsQuiet self.now) }
    {
        let task = self.queue.least()?;
        match self.jobs[task.0 as usize - 1] {
            Some(job) => Some(as_pending(task, job, self.used.used(task))),
            None => unreachable!(),
        }
    }

    /// The task's pending job.
    pub fn of_task(&self, task: TaskNo) -> Option<Pending>
        requires { IsIn self.now.set task.0 }
        ensures { result ≡ waiting self.now task.0 }
    {
        match self.jobs[task.0 as usize - 1] {
            Some(job) => Some(as_pending(task, job, self.used.used(task))),
            None => None,
        }
    }

    /// The job of the task that the latest overrun discarded.
    pub fn discarded(&self, task: TaskNo) -> Option<JobId>
        requires { IsIn self.now.set task.0 }
        ensures { result ≡ discarded_at self.now task.0 }
    {
        match self.discarded[task.0 as usize - 1] {
            Some(count) => Some(JobId { task, count }),
            None => None,
        }
    }

    /// The task set.
    pub fn set(&self) -> &TaskSet
        ensures value { result.now.tasks ≡ self.now.set }
        ensures tasks { AreTasks self.now.set }
    {
        &self.set
    }

    /// The rule.
    pub fn rule(&self) -> Rule
        ensures { result ≡ self.now.rule }
    {
        self.rule
    }

    /// Whether the mode is high.
    pub fn high_mode(&self) -> bool
        ensures { result ≡ self.now.high }
    {
        self.high
    }
}

// The task's pending job, with this number of ticks.
fn as_pending(task: TaskNo, job: ReleasedJob, used: u32) -> Pending
    ensures { result ≡ as_pending task.0 used job }
{
    Pending {
        job: JobId {
            task,
            count: job.count,
        },
        release: job.release,
        used,
    }
}

// A free slot for each task.
fn no_jobs(alloc: Global, count: usize) -> Result<Vec<Option<ReleasedJob>>, AllocError>
    ensures { IfOk result (λ jobs. jobs.items ≡ replicate count None) }
{
    vec![in alloc; None; count]
}

// How a tick ends that brings its job to this budget, or to no budget.
fn outcome(reached: Spent, may_switch: bool, done: bool) -> How
    ensures { (low own u : ℕ) → reached ≡ spent (record { low = low; own = own }) u →
        result ≡ cond done Done (cond (u == own) Stop (cond (may_switch && (u == low)) Over More)) }
{
    if done {
        return How::Done;
    }
    match reached {
        Spent::AtOwn => How::Stop,
        Spent::AtLow if may_switch => How::Over,
        _ => How::More,
    }
}

// How many ticks a job of the task, which has used these, may have up to the tick that is its last or an overrun.
fn left_of(task: &Task, may_switch: bool, used: u32) -> u32
    ensures { result ≡ left_of (Some task.now) may_switch used }
{
    if may_switch && used < task.low {
        task.low - used
    } else {
        task.high.saturating_sub(used)
    }
}

// Notes the numbers of the jobs that an overrun discards, which are those of low tasks.
fn note_discarded(numbers: &mut [Option<u32>], jobs: &[Option<ReleasedJob>], set: &TaskSet)
    requires few { length jobs.now ≤ 128 }
    requires each { length numbers.old ≡ length jobs.now }
    ensures { (k : ℕ) → 1 ≤ k → number_at numbers.new k ≡ if_low set.now.tasks k (job_at jobs.now k) }
{
    for k in 0..numbers.len() {
        numbers[k] = if_low(set, TaskNo(k as u32 + 1), jobs[k]);
    }
}

// The number of the job, if its task is a low one.
fn if_low(set: &TaskSet, task: TaskNo, job: Option<ReleasedJob>) -> Option<u32>
    ensures { result ≡ if_low set.now.tasks task.0 job }
{
    match job {
        Some(job) if !is_high(set, task) => Some(job.count),
        _ => None,
    }
}

// Clears the slots of the low tasks.
fn clear_low(jobs: &mut [Option<ReleasedJob>], set: &TaskSet)
    requires { length jobs.old ≤ 128 }
    ensures { (k : ℕ) → 1 ≤ k → job_at jobs.new k ≡ cond (is_high_in (task_at set.now.tasks k)) (job_at jobs.old k) None }
{
    for k in 0..jobs.len() {
        jobs[k] = if_high(set, TaskNo(k as u32 + 1), jobs[k]);
    }
}

// The job, if its task is a high one.
fn if_high(set: &TaskSet, task: TaskNo, job: Option<ReleasedJob>) -> Option<ReleasedJob>
    ensures { result ≡ cond (is_high_in (task_at set.now.tasks task.0)) job None }
{
    if is_high(set, task) { job } else { None }
}
