//! Tests of an executive over two tasks, on one thread.
ghost use Rattle.std.specs.Prelude.{◌≡◌, ◌≤◌, ◌+◌, [], true, None, All, IfOk, length, vec_len, vec_capacity};
ghost use Rattle.executive.specs.Passes.{IsPassOf, floor_of};
ghost use Rattle.executive.specs.Opening.{AreFresh};
ghost use Rattle.executive.specs.Watching.{IsWatcherOf};

use crate::floors::{floor, free};
use executive::{Answer, Count, Executive, Taken, TaskPass, Unclosed};
use mc_model::{How, Row};
use mc_task::TaskNo;
use mode_core::{GrantFault, Granted, IdleFault, ReleaseFault, Released};
use status_board::{Shown, Watcher};
use std::alloc::Global;
use std::process::Abort;
use std::sync::Wait;
use std::test::Fail;
use timetable::{Act, ActFault, Floor, PlanFault};
use worked_sets::{CONTROL, HELD_RELEASE_WORK, OVERRUN_ROWS, OVERRUN_WORK, job, kept, tick};

fn count(releases: u64, ticks: u64, ends: u64, idles: u64) -> Count {
    Count {
        releases,
        ticks,
        ends,
        idles,
    }
}

// The passes of the two tasks, taken out of their list.
fn two_of(executive: &Executive, passes: &mut Vec<TaskPass>) -> (TaskPass, TaskPass)
    requires { (vec_len passes.old ≡ 2) × AreFresh executive.now passes.old.items }
    ensures passes { IsPassOf executive.now result.0 × IsPassOf executive.now result.1 }
    ensures list { (passes.new.items ≡ []) × (2 ≤ vec_capacity passes.new) }
{
    let _ = executive;
    let second = passes.pop().unwrap();
    let first = passes.pop().unwrap();
    (first, second)
}

// Puts a pass back into the list.
fn put(executive: &Executive, passes: &mut Vec<TaskPass>, pass: TaskPass)
    requires list { All (λ p. IsPassOf executive.now p) passes.old.items × IsPassOf executive.now pass }
    requires room { 1 + vec_len passes.old ≤ vec_capacity passes.old }
    ensures list { All (λ p. IsPassOf executive.now p) passes.new.items }
    ensures room { (vec_len passes.new ≡ 1 + vec_len passes.old) × (vec_capacity passes.new ≡ vec_capacity passes.old) }
{
    let _ = executive;
    passes.push_reserved(pass);
}

// An executive over a floor of two tasks, and their passes, taken out of their list.
fn opened<R: Wait + Abort>(
    rt: &R,
    alloc: Global,
    floor: Floor,
) -> Result<(Executive, Vec<TaskPass>, TaskPass, TaskPass), Fail>
    requires rows { floor.core.rows ≡ [] }
    requires out { floor.core.out ≡ None }
    ensures passes { IfOk result (λ r. IsPassOf r.0 r.2 × IsPassOf r.0 r.3) }
    ensures set { IfOk result (λ r. length (floor_of r.0).core.set ≡ 2) }
    ensures list { IfOk result (λ r. (r.1.items ≡ []) × (2 ≤ vec_capacity r.1)) }
{
    if floor.core().set().len() != 2 {
        return Err("tasks".into());
    }
    match Executive::new(rt, alloc, floor) {
        Ok((executive, mut passes)) => {
            let (first, second) = two_of(&executive, &mut passes);
            Ok((executive, passes, first, second))
        }
        Err(_floor) => Err("memory".into()),
    }
}

// An executive over the floor without a plan, the passes of its two tasks, taken out of their list, and one watcher.
fn watched<R: Wait>(
    rt: &R,
    alloc: Global,
) -> Result<(Executive, Vec<TaskPass>, TaskPass, TaskPass, Watcher), Fail>
    ensures passes { IfOk result (λ r. IsPassOf r.0 r.2 × IsPassOf r.0 r.3) }
    ensures watcher { IfOk result (λ r. IsWatcherOf r.0 r.4) }
    ensures set { IfOk result (λ r. length (floor_of r.0).core.set ≡ 2) }
    ensures list { IfOk result (λ r. (r.1.items ≡ []) × (2 ≤ vec_capacity r.1)) }
{
    let floor = free(alloc)?;
    if floor.core().set().len() != 2 {
        return Err("tasks".into());
    }
    match Executive::with_watchers(rt, alloc, floor, 1) {
        Ok((executive, mut passes, mut watchers)) => {
            let watcher = watchers.pop().unwrap();
            let (first, second) = two_of(&executive, &mut passes);
            Ok((executive, passes, first, second, watcher))
        }
        Err(_floor) => Err("memory".into()),
    }
}

// The floor that is left after the executive was closed with both passes.
fn closed<R: Wait + Abort>(
    rt: &R,
    executive: Executive,
    passes: Vec<TaskPass>,
    first: TaskPass,
    second: TaskPass,
) -> Floor
    requires passes { IsPassOf executive first × IsPassOf executive second }
    requires set { length (floor_of executive).core.set ≡ 2 }
    requires list { (passes.items ≡ []) × (2 ≤ vec_capacity passes) }
{
    let mut passes = passes;
    put(&executive, &mut passes, first);
    put(&executive, &mut passes, second);
    match executive.close(rt, passes) {
        Ok(floor) => floor,
        Err(_unclosed) => panic!(rt; "a pass is missing"),
    }
}

// Closes the executive without the second pass, and then with both. Returns the missing task, and the floor that is
// left.
fn closed_twice<R: Wait + Abort>(
    rt: &R,
    executive: Executive,
    passes: Vec<TaskPass>,
    first: TaskPass,
    second: TaskPass,
) -> (TaskNo, Floor)
    requires passes { IsPassOf executive first × IsPassOf executive second }
    requires set { length (floor_of executive).core.set ≡ 2 }
    requires list { (passes.items ≡ []) × (2 ≤ vec_capacity passes) }
{
    let mut passes = passes;
    put(&executive, &mut passes, first);
    match executive.close(rt, passes) {
        Ok(_floor) => panic!(rt; "it was closed"),
        Err(unclosed) => {
            let Unclosed {
                executive,
                mut passes,
                task,
            } = unclosed;
            assert!(rt; passes.len() == 1);
            put(&executive, &mut passes, second);
            match executive.close(rt, passes) {
                Ok(floor) => (task, floor),
                Err(_unclosed) => panic!(rt; "a pass is missing"),
            }
        }
    }
}

// Makes a tick of the task that is not its job's last. Returns it, or why there is none, with the pass.
fn ticked<R: Wait>(
    rt: &R,
    executive: &Executive,
    pass: TaskPass,
) -> (TaskPass, Result<How, ActFault<GrantFault>>)
    requires { IsPassOf executive.now pass }
    ensures { IsPassOf executive.now result.0 }
{
    match executive.take(rt, pass) {
        Taken::NotNow(pass, fault) => (pass, Err(fault)),
        Taken::Given(grant) => {
            let (pass, how) = executive.outcome(rt, grant, false);
            (pass, Ok(how))
        }
    }
}

// Whether these are the rows of the floor that is left.
fn leaves(floor: Floor, rows: &[Row]) -> bool {
    floor.core().rows() == rows
}

// How many rows the floor that is left has.
fn rows_left(floor: Floor) -> usize {
    floor.core().rows().len()
}

// What a call of a pass or a watcher returns.
#[derive(Clone, Copy, PartialEq)]
enum Seen {
    Released(Result<Released, ActFault<ReleaseFault>>),
    IsReleased(bool),
    Granted(Granted),
    Ticked(Result<How, ActFault<GrantFault>>),
    Idle(Result<u64, ActFault<IdleFault>>),
    Next(Act),
    Shown(Shown),
}

// Whether it is the pass of the task and counts nothing yet.
fn is_new(pass: &TaskPass, task: TaskNo) -> bool {
    pass.task() == task && pass.count() == count(0, 0, 0, 0)
}

#[test]
fn close_wants_a_pass_of_each_task(rt: HostRuntime) -> Result<(), Fail> {
    let floor = floor(rt.alloc(), &CONTROL, &HELD_RELEASE_WORK, 4)?;
    let (executive, passes, first, second) = opened(&rt, rt.alloc(), floor)?;
    let are_new = is_new(&first, TaskNo(1)) && is_new(&second, TaskNo(2));
    let (second, fault) = ticked(&rt, &executive, second);
    let (missing, floor) = closed_twice(&rt, executive, passes, first, second);
    let rows = rows_left(floor);
    let due = ActFault::Plan(PlanFault::Due { task: TaskNo(1) });
    assert!(rt; are_new && fault == Err(due));
    assert!(rt; missing == TaskNo(2) && rows == 0);
    Ok(())
}

// What the calls of `a_planned_tick` return.
static PLANNED_TICK: [Seen; 6] = [
    Seen::Released(Ok(Released::Kept {
        job: job!(1, 1),
        at: 0,
    })),
    Seen::Granted(Granted {
        job: job!(1, 1),
        at: 0,
        before: 0,
    }),
    Seen::Ticked(Ok(How::More)),
    Seen::Next(Act::Grant(TaskNo(1))),
    Seen::Idle(Err(ActFault::Core(IdleFault::Pending { job: job!(1, 1) }))),
    Seen::Released(Err(ActFault::Plan(PlanFault::NotPlanned))),
];

// A tick of the first task, and calls after it.
fn a_planned_tick<R: Wait>(
    rt: &R,
    executive: &Executive,
    first: TaskPass,
    second: TaskPass,
) -> (TaskPass, TaskPass, [Seen; 6])
    requires { IsPassOf executive.now first × IsPassOf executive.now second }
    ensures { IsPassOf executive.now result.0 × IsPassOf executive.now result.1 }
{
    let mut first = first;
    let mut second = second;
    let released = executive.release(rt, &mut first);
    match executive.take(rt, first) {
        Taken::Given(grant) => {
            let granted = grant.granted();
            let (mut first, how) = executive.outcome(rt, grant, false);
            let next = executive.look(rt, &mut first);
            let idle = executive.idle(rt, &mut first);
            let other = executive.release(rt, &mut second);
            let seen = [
                Seen::Released(released),
                Seen::Granted(granted),
                Seen::Ticked(Ok(how)),
                Seen::Next(next),
                Seen::Idle(idle),
                Seen::Released(other),
            ];
            (first, second, seen)
        }
        Taken::NotNow(first, fault) => (first, second, [Seen::Ticked(Err(fault)); 6]),
    }
}

#[test]
fn a_planned_tick_is_taken_and_ended(rt: HostRuntime) -> Result<(), Fail> {
    let floor = floor(rt.alloc(), &CONTROL, &HELD_RELEASE_WORK, 4)?;
    let (executive, passes, first, second) = opened(&rt, rt.alloc(), floor)?;
    let (first, second, seen) = a_planned_tick(&rt, &executive, first, second);
    let counts = (first.count(), second.count());
    let floor = closed(&rt, executive, passes, first, second);
    let is_left = leaves(floor, &[kept!(1, 1), tick!(1, 1, How::More)]);
    assert!(rt; seen.as_slice() == PLANNED_TICK.as_slice());
    assert!(rt; counts == (count(1, 1, 0, 0), count(0, 0, 0, 0)) && is_left);
    Ok(())
}

// What the calls of `beside_a_tick` return.
static BESIDE_A_TICK: [Seen; 9] = [
    Seen::Idle(Ok(0)),
    Seen::IsReleased(true),
    Seen::Released(Err(ActFault::Core(ReleaseFault::TooSoon { next: 11 }))),
    Seen::Ticked(Err(ActFault::Core(GrantFault::TickOut { job: job!(1, 1) }))),
    Seen::Idle(Err(ActFault::Core(IdleFault::TickOut { job: job!(1, 1) }))),
    Seen::Released(Ok(Released::Held {
        job: job!(2, 1),
        at: 2,
    })),
    Seen::Next(Act::Wait(job!(1, 1))),
    Seen::Ticked(Ok(How::More)),
    Seen::Ticked(Err(ActFault::Core(GrantFault::Full))),
];

// Calls of the first task until it has a granted tick, four calls of the second task, the tick's outcome, and one tick
// too many.
fn beside_a_tick<R: Wait>(
    rt: &R,
    executive: &Executive,
    first: TaskPass,
    second: TaskPass,
) -> (TaskPass, TaskPass, [Seen; 9])
    requires { IsPassOf executive.now first × IsPassOf executive.now second }
    ensures { IsPassOf executive.now result.0 × IsPassOf executive.now result.1 }
{
    let mut first = first;
    let idle = executive.idle(rt, &mut first);
    let is_released = executive.release(rt, &mut first).is_ok();
    let again = executive.release(rt, &mut first);
    match executive.take(rt, first) {
        Taken::Given(grant) => {
            let (mut second, other_tick) = ticked(rt, executive, second);
            let other_idle = executive.idle(rt, &mut second);
            let other_release = executive.release(rt, &mut second);
            let other_next = executive.look(rt, &mut second);
            let (first, how) = executive.outcome(rt, grant, false);
            let (first, full) = ticked(rt, executive, first);
            let seen = [
                Seen::Idle(idle),
                Seen::IsReleased(is_released),
                Seen::Released(again),
                Seen::Ticked(other_tick),
                Seen::Idle(other_idle),
                Seen::Released(other_release),
                Seen::Next(other_next),
                Seen::Ticked(Ok(how)),
                Seen::Ticked(full),
            ];
            (first, second, seen)
        }
        Taken::NotNow(first, fault) => (first, second, [Seen::Ticked(Err(fault)); 9]),
    }
}

#[test]
fn other_tasks_are_answered_while_a_tick_is_out(rt: HostRuntime) -> Result<(), Fail> {
    let floor = free(rt.alloc())?;
    let (executive, passes, first, second) = opened(&rt, rt.alloc(), floor)?;
    let (first, second, seen) = beside_a_tick(&rt, &executive, first, second);
    let counts = (first.count(), second.count());
    let floor = closed(&rt, executive, passes, first, second);
    let rows = rows_left(floor);
    assert!(rt; seen.as_slice() == BESIDE_A_TICK.as_slice());
    assert!(rt; counts == (count(1, 1, 0, 1), count(1, 0, 0, 0)) && rows == 4);
    Ok(())
}

// Finishes the plan, if there is one and no tick is granted.
fn finished(floor: &mut Floor) -> bool {
    if floor.core().out().is_some() || !floor.is_planned() {
        return false;
    }
    floor.finish();
    true
}

static ROWS: [Row; 15] = OVERRUN_ROWS;

// Whether the floor has the first four of the worked rows, and all of them once its plan is finished.
fn is_finished_as_worked(floor: Floor) -> bool {
    let mut floor = floor;
    let is_begun = floor.core().rows() == &ROWS[..4];
    let is_finished = finished(&mut floor);
    is_begun && is_finished && leaves(floor, &ROWS)
}

#[test]
fn a_plan_whose_executive_was_closed_is_finished(rt: HostRuntime) -> Result<(), Fail> {
    let floor = floor(rt.alloc(), &CONTROL, &OVERRUN_WORK, 12)?;
    let (executive, passes, mut first, mut second) = opened(&rt, rt.alloc(), floor)?;
    let first_is_released = executive.release(&rt, &mut first).is_ok();
    let second_is_released = executive.release(&rt, &mut second).is_ok();
    let (first, more) = ticked(&rt, &executive, first);
    let (first, over) = ticked(&rt, &executive, first);
    let floor = closed(&rt, executive, passes, first, second);
    let is_finished = is_finished_as_worked(floor);
    assert!(rt; first_is_released && second_is_released);
    assert!(rt; more == Ok(How::More) && over == Ok(How::Over) && is_finished);
    Ok(())
}

fn shown(ticks: u64, high_mode: bool) -> Shown {
    Shown { ticks, high_mode }
}

#[test]
fn a_watcher_sees_the_idle_tick_after_a_tell(rt: HostRuntime) -> Result<(), Fail> {
    let (executive, passes, mut first, second, mut watcher) = watched(&rt, rt.alloc())?;
    let idle = executive.idle(&rt, &mut first);
    executive.tell(&rt, &mut first, &mut watcher);
    let after = executive.watch(&mut watcher);
    let counted = first.count();
    let floor = closed(&rt, executive, passes, first, second);
    let rows = rows_left(floor);
    assert!(rt; idle == Ok(0) && after == shown(1, false));
    assert!(rt; counted == count(0, 0, 0, 1) && rows == 1);
    Ok(())
}

#[test]
fn a_watcher_sees_the_idle_tick_without_a_tell_too(rt: HostRuntime) -> Result<(), Fail> {
    let (executive, passes, mut first, second, mut watcher) = watched(&rt, rt.alloc())?;
    let before = executive.watch(&mut watcher);
    let idle = executive.idle(&rt, &mut first);
    let after = executive.watch(&mut watcher);
    let floor = closed(&rt, executive, passes, first, second);
    let rows = rows_left(floor);
    assert!(rt; before == shown(0, false) && after == shown(1, false));
    assert!(rt; idle == Ok(0) && rows == 1);
    Ok(())
}

// What a run with an overrun shows, from its release on.
static OVERRUN: [Seen; 6] = [
    Seen::IsReleased(true),
    Seen::Shown(Shown {
        ticks: 0,
        high_mode: false,
    }),
    Seen::Ticked(Ok(How::More)),
    Seen::Shown(Shown {
        ticks: 1,
        high_mode: false,
    }),
    Seen::Ticked(Ok(How::Over)),
    Seen::Shown(Shown {
        ticks: 2,
        high_mode: true,
    }),
];

#[test]
fn an_overrun_is_seen_with_its_mode(rt: HostRuntime) -> Result<(), Fail> {
    let (executive, passes, mut first, second, mut watcher) = watched(&rt, rt.alloc())?;
    let is_released = executive.release(&rt, &mut first).is_ok();
    let at_release = executive.watch(&mut watcher);
    let (first, more) = ticked(&rt, &executive, first);
    let at_tick = executive.watch(&mut watcher);
    let (first, over) = ticked(&rt, &executive, first);
    let at_overrun = executive.watch(&mut watcher);
    let floor = closed(&rt, executive, passes, first, second);
    let seen = [
        Seen::IsReleased(is_released),
        Seen::Shown(at_release),
        Seen::Ticked(more),
        Seen::Shown(at_tick),
        Seen::Ticked(over),
        Seen::Shown(at_overrun),
    ];
    let rows = rows_left(floor);
    assert!(rt; seen.as_slice() == OVERRUN.as_slice() && rows == 3);
    Ok(())
}
