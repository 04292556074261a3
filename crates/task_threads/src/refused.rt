//! The workers for which no thread could be started: the caller serves them, one round each in turn.
ghost use Rattle.std.specs.Prelude.{◌≡◌, ◌≤◌, vec_len};
ghost use Rattle.task_threads.specs.Starts.{IsSpawnResultOf, GoDown};

use crate::starts::SpawnResult;
use crate::worker::{Expected, Progress, Serving, Worker};
use executive::Gate;
use mc_task::TaskNo;
use std::sync::Wait;

// Serves these workers until each has left.
pub fn serve_refused<T: Worker + Drop, R: Wait, G: Gate>(
    serving: &Serving<'_, R, G>,
    starts: &mut Vec<SpawnResult<T>>,
)
    requires { GoDown T.is_of serving.now.executive.now (vec_len starts.old) starts.old.items × (vec_len starts.old ≤ 128) }
    ensures { (vec_len starts.new ≡ vec_len starts.old) × GoDown T.is_of serving.now.executive.now (vec_len starts.old) starts.new.items }
{
    let mut pause = 1;
    for _ in serving.rt.forever() {
        match serve_each(serving, starts) {
            Progress::GoesOn | Progress::Acted | Progress::Idled => {}
            Progress::Waits => serving.spots.rest_of_caller(serving.rt, &mut pause),
            Progress::Finished => return,
        }
    }
    unreachable!()
}

// A round of each of these workers. Returns the liveliest result.
fn serve_each<T: Worker + Drop, R: Wait, G: Gate>(
    serving: &Serving<'_, R, G>,
    starts: &mut Vec<SpawnResult<T>>,
) -> Progress
    requires { GoDown T.is_of serving.now.executive.now (vec_len starts.old) starts.old.items × (vec_len starts.old ≤ 128) }
    ensures { (vec_len starts.new ≡ vec_len starts.old) × GoDown T.is_of serving.now.executive.now (vec_len starts.old) starts.new.items }
{
    let mut progress = Progress::Finished;
    let tasks = starts.len();
    for position in 0..tasks {
        let task = TaskNo((tasks - position) as u32);
        let next = serve_one(serving, &mut starts[position], task);
        progress = progress.max(next);
    }
    progress
}

// A round of a worker, if it is served here and has not left.
fn serve_one<T: Worker + Drop, R: Wait, G: Gate>(
    serving: &Serving<'_, R, G>,
    start: &mut SpawnResult<T>,
    task: TaskNo,
) -> Progress
    requires { IsSpawnResultOf T.is_of serving.now.executive.now task.0 start.old }
    ensures { IsSpawnResultOf T.is_of serving.now.executive.now task.0 start.new }
{
    if start.has_left {
        return Progress::Finished;
    }
    let Some(worker) = start.worker.take() else {
        return Progress::Finished;
    };
    let (worker, progress) = worker.round(serving, task, Expected::Unknown);
    start.worker = Some(worker);
    start.has_left = progress == Progress::Finished;
    progress
}
