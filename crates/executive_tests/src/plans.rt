//! Plans in threads: their rows against rows that were worked by hand, and runs that are repeated.
ghost use Rattle.std.specs.Prelude.{◌≡◌, ◌≤◌, [], true, None};
ghost use Rattle.timetable.specs.Floor.{is_planned};

use crate::floors::{crowd, floor};
use executive::QuietGate;
use mc_model::Row;
use mc_task::{Memory, Rule};
use std::alloc::Global;
use std::sync::Wait;
use std::test::Fail;
use std::thread::Threads;
use task_threads::run_threads;
use timetable::{Act, Floor};
use worked_sets::{PLANS, WorkedPlan};

static WORKED: [WorkedPlan; 6] = PLANS;

// Whether the plan of the floor ends in threads under this rule and with these rows.
fn ends_as<R: Threads + Wait + Sync>(
    rt: &R,
    alloc: Global,
    floor: Floor,
    rule: Rule,
    rows: &[Row],
) -> bool
    requires planned { is_planned floor.plan ≡ true }
    requires new { (floor.core.rows ≡ []) × (floor.core.out ≡ None) }
{
    match run_threads(rt, alloc, floor, &QuietGate) {
        Ok(floor) => has_ended_as(&floor, rule, rows),
        Err(Memory) => false,
    }
}

fn has_ended_as(floor: &Floor, rule: Rule, rows: &[Row]) -> bool {
    let core = floor.core();
    core.rule() == rule && core.rows() == rows && floor.next_act() == Act::Finished
}

// Whether the plan ends in threads with the rows that were worked by hand.
fn ends_as_worked<R: Threads + Wait + Sync>(
    rt: &R,
    alloc: Global,
    plan: &WorkedPlan,
) -> Result<bool, Fail> {
    let floor = floor(alloc, plan.lines, plan.jobs, plan.ticks)?;
    Ok(ends_as(rt, alloc, floor, plan.rule, plan.rows))
}

// The first of these worked plans that does not end, in each of some runs in threads, with the rows that were worked by
// hand.
fn first_other<R: Threads + Wait + Sync>(
    rt: &R,
    alloc: Global,
    plans: &[WorkedPlan],
    runs: u32,
) -> Result<Option<usize>, Fail> {
    for number in 0..plans.len() {
        for _ in 0..runs {
            if !ends_as_worked(rt, alloc, &plans[number])? {
                return Ok(Some(number));
            }
        }
    }
    Ok(None)
}

#[test]
fn plans_in_threads_give_the_rows_that_were_worked_by_hand(rt: HostRuntime) -> Result<(), Fail> {
    assert_eq!(rt; first_other(&rt, rt.alloc(), &WORKED, 1)?, None);
    Ok(())
}

#[test]
fn a_hundred_runs_of_two_tasks_give_the_same_rows(rt: HostRuntime) -> Result<(), Fail> {
    assert_eq!(rt; first_other(&rt, rt.alloc(), &WORKED[1..2], 100)?, None);
    Ok(())
}

// Whether the plan of a crowd ends in threads as it does for a single caller.
fn ends_as_alone<R: Threads + Wait + Sync>(
    rt: &R,
    alloc: Global,
    periods: u32,
    ticks: u32,
    alone: &Floor,
) -> Result<bool, Fail>
    requires { periods ≤ 1000 }
{
    let floor = crowd(alloc, periods, ticks)?;
    let core = alone.core();
    Ok(ends_as(rt, alloc, floor, core.rule(), core.rows()))
}

// The first of these runs of a crowd that does not end as it does for a single caller.
fn first_unlike<R: Threads + Wait + Sync>(
    rt: &R,
    alloc: Global,
    periods: u32,
    ticks: u32,
    runs: u32,
    alone: &Floor,
) -> Result<Option<u32>, Fail>
    requires { periods ≤ 1000 }
{
    for run in 0..runs {
        if !ends_as_alone(rt, alloc, periods, ticks, alone)? {
            return Ok(Some(run));
        }
    }
    Ok(None)
}

// The first of these runs of a crowd that does not end as it does for a single caller, which is run first.
fn first_unlike_alone<R: Threads + Wait + Sync>(
    rt: &R,
    alloc: Global,
    periods: u32,
    ticks: u32,
    runs: u32,
) -> Result<Option<u32>, Fail>
    requires { periods ≤ 1000 }
{
    let mut alone = crowd(alloc, periods, ticks)?;
    alone.finish();
    first_unlike(rt, alloc, periods, ticks, runs, &alone)
}

#[test]
fn a_hundred_runs_of_thirty_two_tasks_give_the_rows_of_one_caller(
    rt: HostRuntime,
) -> Result<(), Fail> {
    assert_eq!(rt; first_unlike_alone(&rt, rt.alloc(), 1, 64, 100)?, None);
    Ok(())
}

#[test]
fn thirty_two_tasks_end_plans_of_many_ticks(rt: HostRuntime) -> Result<(), Fail> {
    for (periods, ticks) in [(32, 2000), (0, 20000)] {
        let other = first_unlike_alone(&rt, rt.alloc(), periods, ticks, 1)?;
        assert_eq!(rt; other, None, "{periods} periods");
    }
    Ok(())
}
