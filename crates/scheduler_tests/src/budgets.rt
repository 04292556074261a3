//! Tests of the ticks counted against budgets.
ghost use Rattle.std.specs.Prelude.{◌≡◌, length, map};
ghost use Rattle.budget_ledger.specs.Ledger.{budget};

use budget_ledger::{Spent, Used};
use mc_task::Level::{High, Low};
use mc_task::{TaskNo, TaskSet};
use std::alloc::Global;
use std::test::Fail;
use worked_sets::{Line, set_of};

// A high task with budgets 2 and 4, a low one with budget 2, and a high one with 2 and 2.
const THREE_TASKS: [Line; 3] = [
    ("wide", High, 10, 2, 4),
    ("low", Low, 10, 2, 2),
    ("even", High, 10, 2, 2),
];

// The result of one more tick of the task, if the task is in the set and its ticks are below its own budget.
fn spend(used: &mut Used, set: &TaskSet, task: u32) -> Option<Spent>
    requires budgets { used.old.budgets ≡ map budget set.now.tasks }
    requires ticks { length used.old.ticks ≡ length set.now.tasks }
    ensures budgets { used.new.budgets ≡ map budget set.now.tasks }
    ensures ticks { length used.new.ticks ≡ length set.now.tasks }
{
    let own = set.get(TaskNo(task))?.high;
    if used.used(TaskNo(task)) < own {
        Some(used.spend(TaskNo(task)))
    } else {
        None
    }
}

// Begins a job of the task, if the task is in the set.
fn start(used: &mut Used, set: &TaskSet, task: u32) -> Option<u32>
    requires budgets { used.old.budgets ≡ map budget set.now.tasks }
    requires ticks { length used.old.ticks ≡ length set.now.tasks }
    ensures budgets { used.new.budgets ≡ map budget set.now.tasks }
    ensures ticks { length used.new.ticks ≡ length set.now.tasks }
{
    set.get(TaskNo(task))?;
    let before = used.used(TaskNo(task));
    used.start(TaskNo(task));
    Some(before)
}

// The results of five more ticks of the task.
fn five_ticks(used: &mut Used, set: &TaskSet, task: u32) -> [Option<Spent>; 5]
    requires budgets { used.old.budgets ≡ map budget set.now.tasks }
    requires ticks { length used.old.ticks ≡ length set.now.tasks }
    ensures budgets { used.new.budgets ≡ map budget set.now.tasks }
    ensures ticks { length used.new.ticks ≡ length set.now.tasks }
{
    let first = spend(used, set, task);
    let second = spend(used, set, task);
    let third = spend(used, set, task);
    let fourth = spend(used, set, task);
    let fifth = spend(used, set, task);
    [first, second, third, fourth, fifth]
}

const BELOW: Option<Spent> = Some(Spent::Below);

const AT_LOW: Option<Spent> = Some(Spent::AtLow);

const AT_OWN: Option<Spent> = Some(Spent::AtOwn);

// The results of five ticks of each task, and of a task that is not there.
type Ticks = (
    [Option<Spent>; 5],
    [Option<Spent>; 5],
    [Option<Spent>; 5],
    [Option<Spent>; 5],
);

const TICKS: Ticks = (
    [BELOW, AT_LOW, BELOW, AT_OWN, None],
    [BELOW, AT_OWN, None, None, None],
    [BELOW, AT_OWN, None, None, None],
    [None, None, None, None, None],
);

// How many ticks the jobs had had before new ones of their tasks began, and the result of a tick of the first new one.
fn next_jobs(used: &mut Used, set: &TaskSet) -> ([Option<u32>; 4], Option<Spent>)
    requires budgets { used.old.budgets ≡ map budget set.now.tasks }
    requires ticks { length used.old.ticks ≡ length set.now.tasks }
{
    let wide = start(used, set, 1);
    let tick = spend(used, set, 1);
    let wide_again = start(used, set, 1);
    let low = start(used, set, 2);
    let low_again = start(used, set, 2);
    ([wide, wide_again, low, low_again], tick)
}

// What the jobs of three tasks show.
fn counted(alloc: Global) -> Result<(Ticks, ([Option<u32>; 4], Option<Spent>)), Fail> {
    let set = set_of(alloc, &THREE_TASKS)?;
    let mut used = Used::new(alloc, &set)?;
    let wide = five_ticks(&mut used, &set, 1);
    let low = five_ticks(&mut used, &set, 2);
    let even = five_ticks(&mut used, &set, 3);
    let nobody = five_ticks(&mut used, &set, 4);
    Ok(((wide, low, even, nobody), next_jobs(&mut used, &set)))
}

#[test]
fn a_job_comes_to_its_low_budget_and_then_to_its_own(rt: HostRuntime) -> Result<(), Fail> {
    let (ticks, later) = counted(rt.alloc())?;
    assert!(rt; ticks == TICKS);
    // The task's next job begins at 0, and the other tasks keep their ticks.
    assert!(rt; later == ([Some(4), Some(1), Some(2), Some(0)], BELOW));
    Ok(())
}
