//! The pending jobs of one task, in ascending order of their keys. Jobs of a task are released in that order, so a new
//! job is put last, and the job that runs is the first.
ghost use Rattle.std.specs.Prelude.{◌≡◌, ◌+◌, ◌<◌, ◌≤◌, ℕ, Bool, [], Some, OnOk, OnErr, IfOk, IfSome, IfNone, cond, length, map, slice_index_or, true, false, find};
ghost use Rattle.std.specs.List.{list_any, insert, remove, AllByRecursion};
ghost use Rattle.std.proofs.Common.{deque_capacity};
ghost use Rattle.mc_model.specs.Holds.{Fits};
ghost use Rattle.mc_model.specs.Sums.{total};
ghost use Rattle.trace_judge.specs.Heads.{no_key};
ghost use Rattle.trace_judge.specs.Queues.{has_count, head_key, spent_job, rekeyed_job, switched_queue, AreKeyed, IsQueue, IsPositionFor};
ghost use Rattle.trace_judge.specs.Firsts.{change_first, remove_first, IsFirstAt};

use crate::heads::NO_KEY;
use crate::pending_queues::Pending;
use crate::rules::key_at;
use mc_task::{Memory, Rule, Task};
use std::alloc::{AllocError, Global};
use std::collections::VecDeque;
use std::marker::Model;

/// How many jobs a queue takes without more memory: a pending one, and the next.
const OPENED_FOR: usize = 2;

/// A pending job of a task: its key, its count, and what is kept of it.
#[derive(Clone, Copy, Debug, PartialEq, Eq)]
pub struct Queued {
    pub key: u128,
    pub count: u32,
    pub pending: Pending,
}

/// The pending jobs of a task, as a list.
#[derive(Drop)]
pub struct Queue {
    jobs: VecDeque<Queued>,
}

impl Model for Queue {
    ghost use Rattle.std.specs.Prelude.{List};
    ghost use Rattle.trace_judge.specs.declared.queue.Queued.{Queued};

    ghost Value = { List Queued };

    ghost use Rattle.trace_judge.specs.Queues.{IsQueue};

    ghost view = { λ a. a.jobs.items };

    ghost use Rattle.std.specs.Prelude.{◌≤◌};
    ghost use Rattle.std.proofs.Common.{deque_capacity};

    ghost invariant = { λ a. IsQueue a.jobs.items × (2 ≤ deque_capacity a.jobs) };
}

impl Queue {
    /// A queue without jobs, with memory for two.
    pub fn new(alloc: Global) -> Result<Queue, AllocError>
        ensures { IfOk result (λ queue. queue ≡ []) }
    {
        let jobs = VecDeque::with_capacity(alloc, OPENED_FOR)?;
        Ok(Queue { jobs })
    }

    /// Puts a job after those whose keys are not greater, and returns whether the job is now the first.
    #[inline(always)]
    pub fn push(&mut self, job: Queued) -> Result<bool, Memory>
        requires { job.key < no_key }
        ensures head { IfOk result (λ first. head_key self.new ≡ cond first job.key (head_key self.old)) }
        ensures lesser { IfOk result (λ first. first ≡ true → job.key ≤ head_key self.old) }
        ensures jobs { OnOk result ((f : Queued → ℕ) → total f self.new ≡ f job + total f self.old) }
        ensures ordered { OnOk result (IsQueue self.new) }
        ensures unchanged { OnErr result (self.new ≡ self.old) }
        ensures memory { OnErr result (2 ≤ length self.old) }
    {
        let position = position_for(&self.jobs, job.key);
        put_at(&mut self.jobs, position, job)?;
        Ok(position == 0)
    }

    /// The key of the first job, which is the least.
    pub fn head_key(&self) -> u128
        ensures { result ≡ head_key self.now }
    {
        match self.jobs.front() {
            None => NO_KEY,
            Some(job) => job.key,
        }
    }

    /// The first job of this count.
    pub fn find(&self, count: u32) -> Option<Queued>
        ensures { result ≡ find (has_count count) self.now }
    {
        // Mostly it is the job that runs, which is the first one. It is tried here and not only in `position_of`, so that a row
        // costs the judge fewer instructions.
        if !self.jobs.is_empty() && count == self.jobs[0].count {
            return Some(self.jobs[0]);
        }
        let position = position_of(&self.jobs, count)?;
        Some(self.jobs[position])
    }

    /// Counts `ticks` more ticks of the first job of this count.
    pub fn spend(&mut self, count: u32, ticks: u32)
        ensures jobs { self.new ≡ change_first (has_count count) (spent_job ticks) self.old }
        ensures ordered { IsQueue self.new }
    {
        if let Some(position) = position_of(&self.jobs, count) {
            let used = self.jobs[position].pending.used;
            self.jobs[position].pending.used = used.saturating_add(u64::from(ticks));
        }
    }

    /// Takes the first job of this count out.
    #[inline(always)]
    pub fn take_out(&mut self, count: u32)
        ensures jobs { self.new ≡ remove_first (has_count count) self.old }
        ensures ordered { IsQueue self.new }
    {
        if let Some(position) = position_of(&self.jobs, count) {
            take_at(&mut self.jobs, position);
        }
    }

    /// Follows an overrun: the jobs of a low task are taken out, and those of a high one get their keys of high mode. All
    /// keys of a task move by one distance, so their order stays.
    pub fn switch(&mut self, rule: Rule, task: &Option<Task>)
        requires fits { Fits rule }
        requires keyed { (high : Bool) × AreKeyed rule high task.now self.old }
        ensures jobs { self.new ≡ switched_queue rule task.now self.old }
        ensures ordered { IsQueue self.new }
    {
        match task {
            Some(task) if task.is_high() => rekey_each(&mut self.jobs, rule, task),
            _ => self.jobs.clear(),
        }
    }

    /// The number of jobs.
    pub fn len(&self) -> usize
        ensures { result ≡ length self.now }
    {
        self.jobs.len()
    }

    /// The job at this index.
    pub fn at(&self, index: usize) -> Queued
        requires { index < length self.now }
        ensures { (d : Queued) → result ≡ slice_index_or self.now index d }
    {
        self.jobs[index]
    }
}

// The index after the jobs whose keys are not greater. A task mostly has no other job, so that case is tried first.
#[inline(always)]
fn position_for(jobs: &VecDeque<Queued>, key: u128) -> usize
    requires { IsQueue jobs.now.items }
    ensures { IsPositionFor jobs.now.items key result }
{
    if jobs.is_empty() {
        return 0;
    }
    let mut position = jobs.len();
    while position > 0 && key < jobs[position - 1].key {
        position -= 1;
    }
    position
}

// Puts a job at this index, which is the last one for a job that was released after all others.
#[inline(always)]
fn put_at(jobs: &mut VecDeque<Queued>, position: usize, job: Queued) -> Result<(), AllocError>
    requires { position ≤ length jobs.old.items }
    ensures items { OnOk result (jobs.new.items ≡ insert jobs.old.items position job) }
    ensures unchanged { OnErr result (jobs.new.items ≡ jobs.old.items) }
    ensures memory { OnErr result (deque_capacity jobs.old ≤ length jobs.old.items) }
    ensures capacity { deque_capacity jobs.old ≤ deque_capacity jobs.new }
{
    if position < jobs.len() {
        jobs.insert(position, job)?;
    } else {
        jobs.push_back(job)?;
    }
    Ok(())
}

// Takes out the job at this index, which is the first one for a job that runs.
#[inline(always)]
fn take_at(jobs: &mut VecDeque<Queued>, position: usize)
    requires { position < length jobs.old.items }
    ensures items { jobs.new.items ≡ remove jobs.old.items position }
    ensures capacity { deque_capacity jobs.new ≡ deque_capacity jobs.old }
{
    if position > 0 {
        let _ = jobs.remove(position);
        return;
    }
    let _ = jobs.pop_front();
}

// Gives each job of the task its key of high mode.
fn rekey_each(jobs: &mut VecDeque<Queued>, rule: Rule, task: &Task)
    requires { Fits rule }
    ensures items { jobs.new.items ≡ map (rekeyed_job rule (Some task.now)) jobs.old.items }
    ensures below { AllByRecursion (λ q. q.key < no_key) jobs.new.items }
    ensures capacity { deque_capacity jobs.new ≡ deque_capacity jobs.old }
{
    for position in 0..jobs.len() {
        let release = jobs[position].pending.release;
        jobs[position].key = key_at(rule, true, task, release);
    }
}

// The index of the first job of this count. The front is tried before the loop, since `spend` and `take_out` mostly ask for the
// job that runs, which is there.
#[inline(always)]
fn position_of(jobs: &VecDeque<Queued>, count: u32) -> Option<usize>
    ensures first { IfSome result (IsFirstAt (has_count count) jobs.now.items) }
    ensures none { IfNone result (list_any (has_count count) jobs.now.items ≡ false) }
{
    if !jobs.is_empty() && count == jobs[0].count {
        return Some(0);
    }
    for position in 0..jobs.len() {
        if count == jobs[position].count {
            return Some(position);
        }
    }
    None
}
