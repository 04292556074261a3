//! The greatest budgets of one task, and of each task of a set.
ghost use Rattle.std.specs.Prelude.{◌≡◌, ◌≤◌, true, Some, IfOk};
ghost use Rattle.mc_task.specs.TaskSet.{IsIn, task_at};
ghost use Rattle.mc_model.specs.TaskNumbers.{is_high_in};
ghost use Rattle.load_sum.specs.Belong.{BelongTo};
ghost use Rattle.sensitivity.specs.Budgets as spec;

use crate::change::{least_of, loads_with, most_of, with_budget};
use crate::passing::is_admitted;
use load_sum::Loads;
use mc_task::{Memory, Task, TaskNo, TaskSet};
use std::alloc::Global;

/// Which of a task's budgets.
#[derive(Clone, Copy, Debug, PartialEq, Eq)]
pub enum Budget {
    /// The budget in low mode; a low task has no other.
    Low,
    /// The budget in high mode of a high task.
    High,
}

/// The greatest budgets of a task with which the published test admits the set, if one of them changes and all else in the
/// set stays.
#[derive(Clone, Copy, Debug, PartialEq, Eq)]
pub struct GreatestBudgets {
    /// The greatest low budget; `None` if the test admits the set with no low budget of at least 1.
    pub low: Option<u32>,
    /// The greatest high budget of a high task; `None` if the test admits the set with none of at least the low budget, and
    /// for a low task.
    pub high: Option<u32>,
}

/// The greatest budgets of each task of a set with these loads, in order. Fails if an allocation fails.
pub fn greatest_budgets(
    alloc: Global,
    set: &TaskSet,
    loads: &Loads,
) -> Result<Vec<GreatestBudgets>, Memory>
    requires { BelongTo set.now.tasks loads.now }
    ensures { IfOk result (λ budgets. spec.AreGreatestBudgets set.now.tasks budgets.items) }
{
    let count = set.len();
    let mut budgets = Vec::with_capacity(alloc, count as usize)?;
    for i in 0..count {
        match budgets.push(greatest_of(set, loads, TaskNo(i + 1))) {
            Ok(()) => {}
            Err(_) => return Err(Memory),
        }
    }
    Ok(budgets)
}

/// The greatest budgets of one task of a set with these loads.
pub fn greatest_of(set: &TaskSet, loads: &Loads, task: TaskNo) -> GreatestBudgets
    requires loads { BelongTo set.now.tasks loads.now }
    requires task { IsIn set.now.tasks task.0 }
    ensures { spec.AreGreatestOf set.now.tasks task.0 result }
{
    let t = set.get(task).unwrap();
    let low = greatest(set, loads, task, &t, Budget::Low);
    let high = if t.is_high() {
        greatest(set, loads, task, &t, Budget::High)
    } else {
        None
    };
    GreatestBudgets { low, high }
}

/// The greatest low budget of a task with which the published test admits the set, all else unchanged: for a low task up to
/// 4,294,967,295, and for a high task up to its high budget. `None` exactly if the test admits the set with no low budget of
/// at least 1. The loads are those of the set as it is.
pub fn greatest_low(set: &TaskSet, loads: &Loads, task: TaskNo) -> Option<u32>
    requires loads { BelongTo set.now.tasks loads.now }
    requires task { IsIn set.now.tasks task.0 }
    ensures greatest { spec.IsGreatestBudget Budget.Low set.now.tasks task.0 result }
    ensures law { spec.LessIsAdmitted }
    ensures loads { spec.LessLoadIsAdmitted }
    ensures set { spec.StaysASet }
{
    let t = set.get(task).unwrap();
    greatest(set, loads, task, &t, Budget::Low)
}

/// The greatest high budget of a high task, from its low budget up to 4,294,967,295, with which the published test admits the
/// set, all else unchanged. `None` exactly if the test admits the set with no such high budget. The loads are those of the set
/// as it is.
pub fn greatest_high(set: &TaskSet, loads: &Loads, task: TaskNo) -> Option<u32>
    requires loads { BelongTo set.now.tasks loads.now }
    requires task { is_high_in (task_at set.now.tasks task.0) ≡ true }
    ensures { spec.IsGreatestBudget Budget.High set.now.tasks task.0 result }
{
    let t = set.get(task).unwrap();
    greatest(set, loads, task, &t, Budget::High)
}

// The greatest budget of the task with which the test admits the set with these loads.
fn greatest(set: &TaskSet, loads: &Loads, task: TaskNo, t: &Task, which: Budget) -> Option<u32>
    requires loads { BelongTo set.now.tasks loads.now }
    requires task { task_at set.now.tasks task.0 ≡ Some t.now }
    requires own { spec.Has which t.now }
    ensures { spec.IsGreatestBudget which set.now.tasks task.0 result }
{
    let least = u64::from(least_of(t, which));
    // The test admits the set with each budget from `least` to below `low`, and with none from `high` on.
    let mut low = least;
    let mut high = u64::from(most_of(t, which)) + 1;
    while low < high {
        let middle = (low + high) / 2;
        if admits(set, loads, task, t, which, middle as u32) {
            low = middle + 1;
        } else {
            high = middle;
        }
    }
    if low == least {
        None
    } else {
        Some((low - 1) as u32)
    }
}

// Whether the test admits the set with this budget of the task.
fn admits(set: &TaskSet, loads: &Loads, task: TaskNo, t: &Task, which: Budget, budget: u32) -> bool
    requires loads { BelongTo set.now.tasks loads.now }
    requires task { task_at set.now.tasks task.0 ≡ Some t.now }
    requires own { spec.Has which t.now }
    requires least { spec.least_of which t.now ≤ budget }
    requires most { budget ≤ spec.most_of which t.now }
    ensures { result ≡ spec.is_admitted_with which set.now.tasks task.0 budget }
{
    let changed = loads_with(loads, t, &with_budget(t, which, budget));
    is_admitted(
        u128::from(changed.lcm),
        changed.low_low,
        changed.high_low,
        changed.high_high,
    )
}
