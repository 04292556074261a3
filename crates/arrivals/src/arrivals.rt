//! What is kept of each task's releases.
ghost use Rattle.std.specs.Prelude.{◌≡◌, ◌+◌, ◌-◌, ◌<◌, ◌≤◌, ◌^◌, ◌∷◌, [], map, IfOk, IfErr, OnOk, OnErr};
ghost use Rattle.arrivals.specs.Arrived.{fresh_slot};

use mc_task::{Memory, Task, TaskNo, TaskSet};
use std::alloc::{AllocError, Global};
use std::marker::Model;

// What is kept of a task: its period, how many releases of it were noted, and from when the next one is allowed.
#[derive(Clone, Copy, Debug, PartialEq, Eq)]
struct Slot {
    period: u32,
    count: u32,
    next: u64,
}

/// A release came too soon; this is the first boundary at which one is allowed.
#[derive(Clone, Copy, Debug, PartialEq, Eq)]
pub struct TooSoon {
    pub next: u64,
}

/// The releases of the tasks of a set, as far as they bear on the next ones. Contracts see, task by task, its period, how
/// many releases were noted, and from when the next one is allowed.
#[derive(Debug, Drop)]
pub struct Arrivals {
    slots: Vec<Slot>,
}

impl Model for Arrivals {
    ghost use Rattle.std.specs.Prelude.{List};
    ghost use Rattle.arrivals.specs.declared.arrivals.Slot.{Slot};

    ghost Value = { List Slot };

    ghost view = { λ a. a.slots.items };
}

impl Arrivals {
    ghost use Rattle.arrivals.specs.Notes.{next};
    ghost use Rattle.arrivals.specs.Arrived.{arrived, next_of, count_of, with_note, HasTask, ForNotes};

    /// The tasks of the set, with no release noted. Only this call takes memory.
    #[tactic(auto, using(crate::proofs::Slots::arrived_none))]
    pub fn new(alloc: Global, set: &TaskSet) -> Result<Arrivals, Memory>
        ensures { IfOk result (λ arrivals. arrivals ≡ arrived set.now.tasks []) }
    {
        let slots = fresh_slots(alloc, set.as_slice())?;
        Ok(Arrivals { slots })
    }

    /// The boundary from which the task may be released: 0 before its first release, otherwise its last release time plus
    /// its period.
    pub fn next_allowed(&self, task: TaskNo) -> u64
        requires { HasTask self.now task.0 }
        ensures value { result ≡ next_of self.now task.0 }
        ensures notes { ForNotes self.now (λ set notes. result ≡ next set notes task.0) }
    {
        self.slots[task.0 as usize - 1].next
    }

    /// How many releases of the task were noted.
    pub fn count(&self, task: TaskNo) -> u32
        requires { HasTask self.now task.0 }
        ensures { result ≡ count_of self.now task.0 }
    {
        self.slots[task.0 as usize - 1].count
    }

    /// Notes a release of the task at this boundary, and returns the release's number, from 1.
    ///
    /// It is refused, and nothing changes, exactly where the boundary lies before the one that is allowed.
    pub fn note(&mut self, task: TaskNo, at: u64) -> Result<u32, TooSoon>
        requires in_set { HasTask self.old task.0 }
        requires few { count_of self.old task.0 < 2 ^ 32 - 1 }
        requires time { at ≤ 2 ^ 62 }
        ensures early { IfErr result (λ e. (at < e.next) × (e.next ≡ next_of self.old task.0)) }
        ensures allowed { IfOk result (λ count. (next_of self.old task.0 ≤ at) × (count ≡ count_of self.old task.0 + 1)) }
        ensures refused { OnErr result (self.new ≡ self.old) }
        ensures noted { OnOk result (self.new ≡ with_note self.old task.0 at) }
        ensures notes { OnOk result (ForNotes self.old (λ set notes.
            self.new ≡ arrived set (record { task = task.0; at = at } ∷ notes))) }
    {
        let next = self.next_allowed(task);
        if at < next {
            return Err(TooSoon { next });
        }
        let slot = &mut self.slots[task.0 as usize - 1];
        slot.count += 1;
        slot.next = at + u64::from(slot.period);
        Ok(slot.count)
    }
}

// A slot for each task, with no release.
fn fresh_slots(alloc: Global, tasks: &[Task]) -> Result<Vec<Slot>, AllocError>
    ensures { IfOk result (λ slots. slots.items ≡ map fresh_slot tasks.now) }
{
    tasks
        .iter()
        .map(|task| Slot {
            period: task.period,
            count: 0,
            next: 0,
        })
        .collect(alloc)
}
