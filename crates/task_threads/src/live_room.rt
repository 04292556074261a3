//! The capacity that a live run needs.
ghost use Rattle.std.specs.Prelude.{◌≡◌, ◌≤◌};
ghost use Rattle.task_threads.specs.LivePasses.{live_capacity};

use mc_task::{TaskNo, TaskSet};

/// The capacity, in rows, that a live run of `ticks` ticks needs: one row for each tick, and one for each release that
/// the periods allow.
pub fn live_capacity(set: &TaskSet, ticks: u64) -> u64
    requires { ticks ≤ 100_000 }
    ensures capacity { result ≡ live_capacity set.now.tasks ticks }
    ensures few { result ≤ 12_900_128 }
{
    let mut capacity = ticks;
    for position in 0..set.len() {
        match set.get(TaskNo(position + 1)) {
            Some(found) => capacity += ticks / u64::from(found.period) + 1,
            None => unreachable!(),
        }
    }
    capacity
}
