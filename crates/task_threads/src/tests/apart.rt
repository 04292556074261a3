//! Threads that nobody wakes, threads that could not be started, and a watcher beside a live run.
ghost use Rattle.std.specs.Prelude.{◌≡◌, ◌+◌, ◌≤◌, [], None, IfOk, All, length, vec_len, vec_capacity};
ghost use Rattle.executive.specs.Passes.{IsPassOf, floor_of};
ghost use Rattle.executive.specs.Opening.{AreFresh};
ghost use Rattle.executive.specs.Watching.{IsWatcherOf};
ghost use Rattle.task_threads.specs.Passes.{IsPassFor};
ghost use Rattle.task_threads.specs.Workers.{AreInOrder};
ghost use Rattle.task_threads.specs.Starts.{GoDown};
ghost use Rattle.task_threads.specs.LivePasses.{IsRunner};

use super::floors::{LIVE_ROWS, floor, free};
use crate::live::{Rooms, give_passes, make_rooms, make_runners, needs_of_each};
use crate::live_round::Runner;
use crate::parking_spots::ParkingSpots;
use crate::refused::serve_refused;
use crate::starts::{SpawnResult, in_threads, join_all, kept_here};
use crate::worker::{Expected, Serving, Worker, work};
use executive::{Executive, QuietGate, TaskPass};
use mc_model::Row;
use mc_task::Level::{High, Low};
use mc_task::TaskNo;
use status_board::Watcher;
use std::alloc::Global;
use std::process::Abort;
use std::sync::Wait;
use std::test::Fail;
use std::thread;
use std::thread::{Threads, join};
use timetable::Floor;
use worked_sets::{CONTROL, Line, OVERRUN_ROWS, OVERRUN_WORK};

static ROWS: [Row; 15] = OVERRUN_ROWS;

// What the threads work with when no gate is called.
fn quietly<'a, R: Wait>(
    rt: &'a R,
    executive: &'a Executive,
    spots: &'a ParkingSpots,
) -> Serving<'a, R, QuietGate>
    ensures { result.executive.now ≡ executive.now }
{
    Serving {
        rt,
        executive,
        gate: &QuietGate,
        spots,
    }
}

// The floor once the tasks of its plan, of which there are two, were served by threads with spots of their own, so that
// neither wakes the other. Each may have been woken for an act before any was done.
fn served_apart<R: Threads + Wait + Sync + Abort>(
    rt: &R,
    alloc: Global,
    woken_for: Option<Expected>,
) -> Result<Floor, Fail> {
    let (here, there) = spots_apart(alloc)?;
    if let Some(expected) = woken_for {
        here.wake(TaskNo(1), expected);
        there.wake(TaskNo(2), expected);
    }
    let floor = floor(alloc, &CONTROL, &OVERRUN_WORK, 12)?;
    serve_apart(rt, alloc, floor, &here, &there)
}

fn spots_apart(alloc: Global) -> Result<(ParkingSpots, ParkingSpots), Fail> {
    let here = ParkingSpots::new(alloc, 2)?;
    let there = ParkingSpots::new(alloc, 2)?;
    Ok((here, there))
}

fn serve_apart<R: Threads + Wait + Sync + Abort>(
    rt: &R,
    alloc: Global,
    floor: Floor,
    here: &ParkingSpots,
    there: &ParkingSpots,
) -> Result<Floor, Fail>
    requires { (floor.core.rows ≡ []) × (floor.core.out ≡ None) }
{
    if floor.core().set().len() != 2 {
        return Err("two tasks".into());
    }
    let Ok((executive, mut passes)) = Executive::new(rt, alloc, floor) else {
        return Err("memory".into());
    };
    serve_both(rt, &executive, &mut passes, here, there);
    match executive.close(rt, passes) {
        Ok(floor) => Ok(floor),
        Err(_unclosed) => panic!(rt; "a pass is missing"),
    }
}

// Serves the two tasks in a thread each.
fn serve_both<R: Threads + Wait + Sync>(
    rt: &R,
    executive: &Executive,
    passes: &mut Vec<TaskPass>,
    here: &ParkingSpots,
    there: &ParkingSpots,
)
    requires { (vec_len passes.old ≡ 2) × AreFresh executive.now passes.old.items }
    ensures { (vec_len passes.new ≡ 2) × All (λ p. IsPassOf executive.now p) passes.new.items }
{
    let second = passes.pop().unwrap();
    let first = passes.pop().unwrap();
    let (first, second) = join(
        rt,
        move || -> TaskPass
            requires { IsPassFor executive.now 1 first }
            ensures { IsPassFor executive.entry.now 1 result }
        { work(&quietly(rt, executive, here), first, TaskNo(1)) },
        move || -> TaskPass
            requires { IsPassFor executive.now 2 second }
            ensures { IsPassFor executive.entry.now 2 result }
        { work(&quietly(rt, executive, there), second, TaskNo(2)) },
    );
    passes.push_reserved(first);
    passes.push_reserved(second);
}

#[test]
fn a_wake_up_that_never_comes_costs_time_alone(rt: HostRuntime) -> Result<(), Fail> {
    let floor = served_apart(&rt, rt.alloc(), None)?;
    assert!(rt; floor.core().rows() == ROWS.as_slice());
    Ok(())
}

const ACTS: [Expected; 3] = [Expected::Release, Expected::Tick, Expected::Idle];

#[test]
fn a_thread_that_was_woken_for_another_act_than_the_next_makes_the_same_rows(
    rt: HostRuntime,
) -> Result<(), Fail> {
    for expected in ACTS.as_slice() {
        let floor = served_apart(&rt, rt.alloc(), Some(*expected))?;
        assert!(rt; floor.core().rows() == ROWS.as_slice());
    }
    Ok(())
}

// An executive of two tasks, each released once, for a live run, with their runners, one more watcher, and what a live
// run has capacity for.
struct LiveRun {
    executive: Executive,
    spots: ParkingSpots,
    runners: Vec<Runner>,
    watcher: Watcher,
    starts: Vec<SpawnResult<Runner>>,
    back: Vec<TaskPass>,
}

// Opens a live run of this many ticks.
fn opened<R: Wait>(rt: &R, alloc: Global, lines: &[Line], ticks: u64) -> Result<LiveRun, Fail>
    requires { (1 ≤ ticks) × (ticks ≤ 100_000) }
    ensures runners { IfOk result (λ o. AreInOrder IsRunner o.executive o.runners.items × (vec_len o.runners ≡ 2) × (2 ≤ vec_capacity o.runners)) }
    ensures set { IfOk result (λ o. length (floor_of o.executive).core.set ≡ 2) }
    ensures watcher { IfOk result (λ o. IsWatcherOf o.executive o.watcher) }
    ensures starts { IfOk result (λ o. (o.starts.items ≡ []) × (2 ≤ vec_capacity o.starts)) }
    ensures back { IfOk result (λ o. (o.back.items ≡ []) × (2 ≤ vec_capacity o.back)) }
{
    let floor = free(alloc, lines, ticks)?;
    if floor.core().set().len() != 2 {
        return Err("two tasks".into());
    }
    let Rooms {
        spots,
        starts,
        mut needs,
        mut runners,
        back,
    } = make_rooms(alloc, 2)?;
    needs_of_each(floor.core().set(), &mut needs);
    let Ok((executive, passes, mut watchers)) = Executive::with_watchers(rt, alloc, floor, 3) else {
        return Err("memory".into());
    };
    let watcher = watchers.pop().unwrap();
    let serving = quietly(rt, &executive, &spots);
    make_runners(
        &serving,
        needs.as_slice(),
        ticks,
        passes,
        watchers,
        &mut runners,
    );
    Ok(LiveRun {
        executive,
        spots,
        runners,
        watcher,
        starts,
        back,
    })
}

// Closes the executive and returns the floor that is left.
fn closed<R: Wait + Abort>(
    rt: &R,
    executive: Executive,
    runners: Vec<Runner>,
    passes: Vec<TaskPass>,
) -> Floor
    requires runners { AreInOrder IsRunner executive runners.items × (vec_len runners ≡ 2) }
    requires set { length (floor_of executive).core.set ≡ 2 }
    requires room { (passes.items ≡ []) × (2 ≤ vec_capacity passes) }
{
    let mut passes = passes;
    give_passes(&executive, runners, &mut passes);
    match executive.close(rt, passes) {
        Ok(floor) => floor,
        Err(_unclosed) => panic!(rt; "a pass is missing"),
    }
}

// The floor after a live run of the control set none of whose threads could be started.
fn lived_here<R: Threads + Wait + Sync + Abort>(rt: &R, alloc: Global) -> Result<Floor, Fail> {
    let LiveRun {
        executive,
        spots,
        runners,
        watcher: _,
        starts,
        back,
    } = opened(rt, alloc, &CONTROL, 10)?;
    let runners = served_here(rt, &executive, &spots, runners, starts);
    Ok(closed(rt, executive, runners, back))
}

// Serves the runners as if no thread could be started for any of them.
fn served_here<R: Threads + Wait>(
    rt: &R,
    executive: &Executive,
    spots: &ParkingSpots,
    runners: Vec<Runner>,
    starts: Vec<SpawnResult<Runner>>,
) -> Vec<Runner>
    requires runners { AreInOrder IsRunner executive.now runners.items × (vec_len runners ≡ 2) × (2 ≤ vec_capacity runners) }
    requires starts { (starts.items ≡ []) × (2 ≤ vec_capacity starts) }
    ensures { AreInOrder IsRunner executive.now result.items × (vec_len result ≡ 2) }
{
    let mut runners = runners;
    let mut starts = starts;
    all_kept_here(executive, spots, &mut runners, &mut starts);
    serve_refused(&quietly(rt, executive, spots), &mut starts);
    join_all(rt, executive, &mut starts, &mut runners);
    runners
}

#[test]
fn a_live_run_whose_threads_could_not_be_started_gives_the_worked_rows(
    rt: HostRuntime,
) -> Result<(), Fail> {
    let floor = lived_here(&rt, rt.alloc())?;
    assert!(rt; floor.core().rows().starts_with(&LIVE_ROWS));
    Ok(())
}

const SLOW: [Line; 2] = [("ctl", High, 1000, 200, 600), ("log", Low, 1000, 400, 400)];

// The floor after a live run beside a watcher, and whether the ticks that it saw never fell.
fn lived_beside<R: Threads + Wait + Sync + Abort>(
    rt: &R,
    alloc: Global,
) -> Result<(Floor, bool), Fail> {
    let LiveRun {
        executive,
        spots,
        runners,
        watcher,
        starts,
        back,
    } = opened(rt, alloc, &SLOW, 100_000)?;
    let (runners, is_steady) = beside(rt, &executive, &spots, runners, starts, watcher);
    Ok((closed(rt, executive, runners, back), is_steady))
}

#[test]
fn a_watcher_beside_a_live_run_sees_ticks_that_never_fall_and_the_last(
    rt: HostRuntime,
) -> Result<(), Fail> {
    let (floor, is_steady) = lived_beside(&rt, rt.alloc())?;
    assert!(rt; is_steady && floor.core().ticks() >= 100_000);
    Ok(())
}

// Runs the runners in threads until 100,000 ticks have ended, beside a watcher that reads all the time. Returns whether
// the ticks that it saw never fell.
fn beside<'s, R: Threads + Wait + Sync>(
    rt: &'s R,
    executive: &'s Executive,
    spots: &'s ParkingSpots,
    runners: Vec<Runner>,
    starts: Vec<SpawnResult<Runner>>,
    watcher: Watcher,
) -> (Vec<Runner>, bool)
    requires runners { AreInOrder IsRunner executive.now runners.items × (vec_len runners ≡ 2) }
    requires starts { (starts.items ≡ []) × (2 ≤ vec_capacity starts) }
    requires watcher { IsWatcherOf executive.now watcher }
    ensures { AreInOrder IsRunner executive.now result.0.items × (vec_len result.0 ≡ 2) }
{
    thread::scope(
        thread::scope_env(),
        rt,
        move |scope| -> (Vec<Runner>, bool)
            requires { AreInOrder IsRunner executive.now runners.items × (vec_len runners ≡ 2) × (starts.items ≡ []) × (2 ≤ vec_capacity starts) × IsWatcherOf executive.now watcher }
            ensures { AreInOrder IsRunner executive.entry.now result.0.items × (vec_len result.0 ≡ 2) }
        {
            let watch = move || -> bool
                requires { IsWatcherOf executive.now watcher }
            { watched_to(rt, executive, watcher, 100_000) };
            match scope.spawn(watch) {
                Ok(handle) => {
                    let serving = quietly(rt, executive, spots);
                    let runners = in_threads(&serving, runners, starts);
                    (runners, handle.join(rt))
                }
                Err(_refused) => (runners, false),
            }
        },
    )
}

// Workers as if no thread could be started for any of them.
fn all_kept_here<T: Worker + Drop>(
    executive: &Executive,
    spots: &ParkingSpots,
    workers: &mut Vec<T>,
    starts: &mut Vec<SpawnResult<T>>,
)
    requires workers { AreInOrder T.is_of executive.now workers.old.items × (vec_len workers.old ≤ 128) }
    requires starts { (starts.old.items ≡ []) × (vec_len workers.old ≤ vec_capacity starts.old) }
    ensures workers { (workers.new.items ≡ []) × (vec_capacity workers.new ≡ vec_capacity workers.old) }
    ensures starts { (vec_len starts.new ≡ vec_len workers.old) × GoDown T.is_of executive.now (vec_len workers.old) starts.new.items }
{
    let _ = executive;
    while let Some(worker) = workers.pop() {
        spots.refuse(TaskNo(workers.len() as u32 + 1));
        starts.push_reserved(kept_here(worker));
    }
}

// Reads until this many ticks have ended. Returns whether they never fell.
fn watched_to<R: Wait>(rt: &R, executive: &Executive, watcher: Watcher, ticks: u64) -> bool
    requires { IsWatcherOf executive.now watcher }
{
    let mut watcher = watcher;
    let mut last = 0;
    for _ in rt.forever() {
        let now = executive.watch(&mut watcher).ticks;
        if now < last {
            return false;
        }
        if now >= ticks {
            return true;
        }
        last = now;
    }
    unreachable!()
}
