//! The ticks that each task's current job has had.
ghost use Rattle.std.specs.Prelude.{◌≡◌, ◌+◌, ◌-◌, ◌<◌, ◌≤◌, map, replicate, length, slice_set, IfOk};
ghost use Rattle.budget_ledger.specs.Ledger.{budget};

use mc_task::{Memory, Task, TaskNo, TaskSet};
use std::alloc::{AllocError, Global};
use std::marker::Model;

// The two budgets of a task, in ticks. `own` is the high budget, at which the task's jobs stop.
#[derive(Clone, Copy, Debug, PartialEq, Eq)]
struct Budget {
    low: u32,
    own: u32,
}

/// How far a job's ticks have come against its task's budgets.
#[derive(Clone, Copy, Debug, PartialEq, Eq)]
pub enum Spent {
    /// The ticks are at neither budget.
    Below,
    /// The ticks are at the low budget, which is below the task's own.
    AtLow,
    /// The ticks are at the task's own budget.
    AtOwn,
}

/// The ticks that the current job of each task of a set has had. In contracts it is the ticks and the budgets of each
/// task.
#[derive(Debug, Drop)]
pub struct Used {
    budgets: Vec<Budget>,
    ticks: Vec<u32>,
}

impl Model for Used {
    ghost use Rattle.std.specs.Prelude.{◌≡◌, length};
    ghost use Rattle.budget_ledger.specs.Ledger.{Ledger};

    ghost Value = { Ledger };

    ghost view = { λ a. record { budgets = a.budgets.items; ticks = a.ticks.items } };

    ghost invariant = { λ a. length a.budgets.items ≡ length a.ticks.items };
}

impl Used {
    ghost use Rattle.budget_ledger.specs.Ledger.{budget, budget_of, ticks_of, with_ticks, spent, HasTask};

    /// A ledger of the set's tasks, with no ticks. Fails with `Memory` if an allocation fails; no other call allocates.
    pub fn new(alloc: Global, set: &TaskSet) -> Result<Used, Memory>
        ensures { IfOk result (λ used. used ≡ record { budgets = map budget set.now.tasks; ticks = replicate (length set.now.tasks) 0 }) }
    {
        let tasks = set.as_slice();
        let budgets = budgets_of(alloc, tasks)?;
        let ticks = vec![in alloc; 0; tasks.len()]?;
        Ok(Used { budgets, ticks })
    }

    /// Begins a new job of the task, with no ticks.
    pub fn start(&mut self, task: TaskNo)
        requires { HasTask self.old task.0 }
        ensures { self.new ≡ with_ticks self.old task.0 0 }
    {
        self.ticks[task.0 as usize - 1] = 0;
    }

    /// The number of ticks that the task's current job has had.
    pub fn used(&self, task: TaskNo) -> u32
        requires { HasTask self.now task.0 }
        ensures { result ≡ ticks_of self.now task.0 }
    {
        self.ticks[task.0 as usize - 1]
    }

    /// Counts one more tick of the task's current job, and returns whether it is now at a budget; at both, `AtOwn`.
    pub fn spend(&mut self, task: TaskNo) -> Spent
        requires in_set { HasTask self.old task.0 }
        requires below { ticks_of self.old task.0 < (budget_of self.old task.0).own }
        ensures answer { result ≡ spent (budget_of self.old task.0) (ticks_of self.old task.0 + 1) }
        ensures state { self.new ≡ with_ticks self.old task.0 (ticks_of self.old task.0 + 1) }
    {
        let place = task.0 as usize - 1;
        let Budget { low, own } = self.budgets[place];
        let ticks = self.ticks[place] + 1;
        self.ticks[place] = ticks;
        if ticks == own {
            Spent::AtOwn
        } else if ticks == low {
            Spent::AtLow
        } else {
            Spent::Below
        }
    }

    /// Counts this many more ticks of the task's current job, and returns how many its own budget leaves it.
    pub fn spend_many(&mut self, task: TaskNo, count: u32) -> u32
        requires in_set { HasTask self.old task.0 }
        requires within { ticks_of self.old task.0 + count ≤ (budget_of self.old task.0).own }
        ensures answer { result ≡ (budget_of self.old task.0).own - (ticks_of self.old task.0 + count) }
        ensures state { self.new ≡ with_ticks self.old task.0 (ticks_of self.old task.0 + count) }
    {
        let place = task.0 as usize - 1;
        let Budget { low: _, own } = self.budgets[place];
        let ticks = self.ticks[place] + count;
        self.ticks[place] = ticks;
        own - ticks
    }
}

// The budgets of each task.
fn budgets_of(alloc: Global, tasks: &[Task]) -> Result<Vec<Budget>, AllocError>
    ensures { IfOk result (λ budgets. budgets.items ≡ map budget tasks.now) }
{
    tasks
        .iter()
        .map(|task| Budget {
            low: task.low,
            own: task.high,
        })
        .collect(alloc)
}
