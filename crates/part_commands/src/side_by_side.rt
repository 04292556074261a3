//! Several floors, each to its end.
ghost use Rattle.std.specs.Prelude.{◌≡◌, All, IfOk, length};
ghost use Rattle.std.specs.List.{AllZip};
ghost use Rattle.part_commands.specs.Runs.{IsFresh, IsRunOf, RunsEach, results_of};

use crate::numbered::Numbered;
use executive::Gate;
use mc_task::{Memory, TaskNo};
use std::alloc::{AllocError, Global};
use std::sync::Wait;
use std::thread;
use std::thread::Threads;
use task_threads::run_threads;
use timetable::Floor;

/// A floor and the numbers of its tasks in the whole set.
#[derive(Drop)]
pub struct Side {
    pub floor: Floor,
    pub numbers: Vec<TaskNo>,
}

/// Runs the plans of several floors at once, each with a thread for each of its tasks. The gate sees each task by its number in
/// the whole set. On success all floors are finished, and in their order.
///
/// It may wait for other threads; nothing is proved about how long.
pub fn run_all<R: Threads + Wait + Sync, G: Gate + Sync>(
    rt: &R,
    alloc: Global,
    sides: Vec<Side>,
    gate: &G,
) -> Result<Vec<Floor>, Memory>
    requires { All IsFresh sides.items }
    ensures { IfOk result (λ done. AllZip IsRunOf sides.items done.items) }
{
    let results = run_sides(rt, alloc, sides, gate)?;
    floors_in(alloc, results)
}

// A thread for each floor.
fn run_sides<R: Threads + Wait + Sync, G: Gate + Sync>(
    rt: &R,
    alloc: Global,
    sides: Vec<Side>,
    gate: &G,
) -> Result<Vec<Result<Floor, Memory>>, AllocError>
    requires { All IsFresh sides.items }
    ensures long { IfOk result (λ results. length results.items ≡ length sides.items) }
    ensures each { IfOk result (λ results. RunsEach sides.items results.items) }
{
    thread::map_vec(
        rt,
        sides,
        &|side: Side| -> Result<Floor, Memory>
            requires { IsFresh side }
            ensures { IfOk result (IsRunOf side) }
        {
            let Side { floor, numbers } = side;
            let numbers = numbers.as_slice();
            let numbered = Numbered { gate, numbers };
            run_threads(rt, alloc, floor, &numbered)
        },
    )
}

// The floors, if every result is one.
fn floors_in(alloc: Global, mut results: Vec<Result<Floor, Memory>>) -> Result<Vec<Floor>, Memory>
    ensures { IfOk result (λ floors. results_of floors.items ≡ results.items) }
{
    results.reverse();
    let mut floors = Vec::new(alloc);
    while let Some(result) = results.pop() {
        let floor = result?;
        match floors.push(floor) {
            Ok(()) => {}
            Err(_) => return Err(Memory),
        }
    }
    Ok(floors)
}
