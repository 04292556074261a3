//! The pending jobs: those of each task in a queue, and the least key of each queue.
ghost use Rattle.std.specs.Prelude.{◌≡◌, ◌+◌, ◌-◌, ◌<◌, ◌≤◌, ◌==◌, Bool, true, min, [], ◌∷◌, ◌^◌, IfOk, OnOk, OnErr, MatchOption, length, replicate};
ghost use Rattle.std.specs.List.{list_all};
ghost use Rattle.mc_model.specs.Holds.{Fits};
ghost use Rattle.mc_model.specs.Sums.{total, when};
ghost use Rattle.mc_model.proofs.Sums.{one};
ghost use Rattle.trace_judge.specs.Heads.{no_key};
ghost use Rattle.trace_judge.specs.Firsts.{change_first, remove_first};
ghost use Rattle.trace_judge.specs.Entries.{HasQueue, IsMore, Stands, is_of, spent_entry, entries_of};
ghost use Rattle.trace_judge.specs.Queues.{entries_from, switched_from, AreQueues};
ghost use Rattle.trace_judge.specs.Switch.{Switches, is_keyed};

use crate::heads::{Heads, NO_KEY};
use crate::queue::{Queue, Queued};
use mc_task::{JobId, Memory, Rule, TaskNo, TaskSet};
use std::alloc::{AllocError, Global};
use std::marker::Model;

/// What is kept of a pending job: its release time, the ticks that it has had, and the number of rows before its release.
#[derive(Clone, Copy, Debug, PartialEq, Eq)]
pub struct Pending {
    pub release: u64,
    pub used: u64,
    pub rows_before: u64,
}

/// A job with its key.
#[derive(Clone, Copy, Debug, PartialEq, Eq)]
pub struct Rank {
    pub key: u128,
    pub job: JobId,
}

/// Where a job stands among the pending ones.
#[derive(Clone, Copy, Debug, PartialEq, Eq)]
pub enum Standing {
    NotPending,
    /// A pending job has a lesser key.
    NotLeast,
    Least { pending: Pending },
}

/// The pending jobs.
#[derive(Drop)]
pub struct PendingQueues {
    queues: Vec<Queue>,
    heads: Heads,
}

impl Model for PendingQueues {
    ghost use Rattle.trace_judge.specs.Entries.{PendingEntries};

    ghost Value = { PendingEntries };

    ghost use Rattle.trace_judge.specs.Queues.{pending_entries, AreQueues};

    ghost view = { λ a. pending_entries a.queues.items };

    ghost invariant = { λ a. AreQueues a.queues.items a.heads };
}

impl PendingQueues {
    /// No pending jobs, of `count` tasks.
    pub fn new(alloc: Global, count: u32) -> Result<PendingQueues, Memory>
        requires { 1 ≤ count }
        ensures { IfOk result (λ waiting. waiting ≡ record { tasks = count; entries = [] }) }
    {
        let queues = empty_queues(alloc, count)?;
        let heads = Heads::new(alloc, count)?;
        Ok(PendingQueues { queues, heads })
    }

    /// Whether no job is pending.
    pub fn is_empty(&self) -> bool
        ensures { result ≡ (length self.now.entries == 0) }
    {
        self.heads.least() >= NO_KEY
    }

    /// The number of pending jobs, at most 2^64 - 1.
    pub fn count(&self) -> u64
        ensures { result ≡ min (length self.now.entries) (2 ^ 64 - 1) }
    {
        let mut count = 0u64;
        let mut remaining = self.remaining();
        while let Some(_) = remaining.pop() {
            count = count.saturating_add(1);
        }
        count
    }

    /// Where the job stands among the pending ones.
    pub fn standing_of(&self, job: JobId) -> Standing
        requires { HasQueue self.now job.task.0 }
        ensures { Stands self.now.entries job result }
    {
        match self.queues[job.task.0 as usize - 1].find(job.count) {
            None => Standing::NotPending,
            Some(queued) => {
                if queued.key == self.heads.least() {
                    Standing::Least {
                        pending: queued.pending,
                    }
                } else {
                    Standing::NotLeast
                }
            }
        }
    }

    /// Adds a pending job.
    // Inlined: the call would cost about as much as the body.
    #[inline(always)]
    pub fn put(&mut self, rank: Rank, pending: Pending) -> Result<(), Memory>
        requires task { HasQueue self.old rank.job.task.0 }
        requires key { rank.key < no_key }
        ensures tasks { OnOk result (self.new.tasks ≡ self.old.tasks) }
        ensures entries { OnOk result (IsMore self.new.entries (rank, pending) self.old.entries) }
        ensures unchanged { OnErr result (self.new ≡ self.old) }
        ensures memory { OnErr result (2 ≤ entries_of rank.job.task.0 self.old.entries) }
    {
        let index = rank.job.task.0 as usize - 1;
        let queue = &mut self.queues[index];
        let is_first = queue.push(Queued {
            key: rank.key,
            count: rank.job.count,
            pending,
        })?;
        if !is_first {
            return Ok(());
        }
        self.heads.lower(index, rank.key);
        Ok(())
    }

    /// Counts `ticks` more ticks of the job.
    pub fn spend(&mut self, job: JobId, ticks: u32)
        requires { HasQueue self.old job.task.0 }
        ensures tasks { self.new.tasks ≡ self.old.tasks }
        ensures entries { self.new.entries ≡ change_first (is_of job) (spent_entry ticks) self.old.entries }
    {
        self.queues[job.task.0 as usize - 1].spend(job.count, ticks);
    }

    /// Takes the job out.
    #[inline(always)]
    pub fn take_out(&mut self, job: JobId)
        requires { HasQueue self.old job.task.0 }
        ensures tasks { self.new.tasks ≡ self.old.tasks }
        ensures entries { self.new.entries ≡ remove_first (is_of job) self.old.entries }
    {
        let index = job.task.0 as usize - 1;
        let queue = &mut self.queues[index];
        queue.take_out(job.count);
        self.heads.set(index, queue.head_key());
    }

    /// Follows an overrun: the jobs of low tasks are taken out, and those of high ones get their keys of high mode. No memory
    /// is needed.
    pub fn switch(&mut self, set: &TaskSet, rule: Rule)
        requires fits { Fits rule }
        requires keyed { (high : Bool) × (list_all (is_keyed set.now.tasks rule high) self.old.entries ≡ true) }
        ensures tasks { self.new.tasks ≡ self.old.tasks }
        ensures entries { Switches set.now.tasks rule self.old.entries self.new.entries }
    {
        switch_each(&mut self.queues, &mut self.heads, set, rule);
    }

    /// All pending jobs, to be gone through.
    pub fn remaining(&self) -> Remaining<'_>
        ensures { result ≡ self.now.entries }
    {
        Remaining {
            queues: &self.queues,
            next: 0,
            at: 0,
        }
    }
}

// A queue without jobs for each of `count` tasks.
fn empty_queues(alloc: Global, count: u32) -> Result<Vec<Queue>, AllocError>
    ensures { IfOk result (λ queues. queues.items ≡ replicate count []) }
{
    let mut queues = Vec::new(alloc);
    for _ in 0..count {
        queues.push(Queue::new(alloc)?)?;
    }
    Ok(queues)
}

// Has each queue follow an overrun.
fn switch_each(queues: &mut Vec<Queue>, heads: &mut Heads, set: &TaskSet, rule: Rule)
    requires fits { Fits rule }
    requires queues { AreQueues queues.old.items heads.old }
    requires keyed { (high : Bool) × (list_all (is_keyed set.now.tasks rule high) (entries_from 1 queues.old.items) ≡ true) }
    ensures items { queues.new.items ≡ switched_from set.now.tasks rule 1 queues.old.items }
    ensures queues { AreQueues queues.new.items heads.new }
{
    for index in 0..queues.len() {
        queues[index].switch(rule, &set.get(TaskNo(index as u32 + 1)));
        heads.set(index, queues[index].head_key());
    }
}

/// The pending jobs that are still to be gone through, task by task: those of the queues from `next` on, except the first
/// `at` of them.
#[derive(Drop)]
pub struct Remaining<'a> {
    queues: &'a [Queue],
    next: usize,
    at: usize,
}

impl<'a> Model for Remaining<'a> {
    ghost use Rattle.std.specs.Prelude.{List};
    ghost use Rattle.trace_judge.specs.Entries.{Entry};

    ghost Value = { List Entry };

    ghost use Rattle.trace_judge.specs.Queues.{remaining_of, IsRemaining};

    ghost view = { λ a. remaining_of a.queues.now a.next a.at };

    ghost invariant = { λ a. IsRemaining a.queues.now a.next a.at };
}

impl<'a> Remaining<'a> {
    /// The next job.
    pub fn pop(&mut self) -> Option<(Rank, Pending)>
        ensures { MatchOption result (self.old ≡ []) (λ e. self.old ≡ e ∷ self.new) }
    {
        while self.next < self.queues.len() {
            let queue = &self.queues[self.next];
            if self.at < queue.len() {
                let queued = queue.at(self.at);
                let job = JobId {
                    task: TaskNo(self.next as u32 + 1),
                    count: queued.count,
                };
                self.at += 1;
                let rank = Rank {
                    key: queued.key,
                    job,
                };
                return Some((rank, queued.pending));
            }
            self.next += 1;
            self.at = 0;
        }
        None
    }
}
