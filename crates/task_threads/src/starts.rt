//! How the threads are started and joined.
ghost use Rattle.std.specs.Prelude.{◌≡◌, ◌+◌, ◌<◌, ◌≤◌, ◌^◌, [], None, Some, vec_len, vec_capacity};
ghost use Rattle.task_threads.specs.Starts.{IsSpawnResultOf, GoDown};
ghost use Rattle.task_threads.specs.Workers.{AreInOrder};

use crate::refused::serve_refused;
use crate::worker::{Serving, Worker, work};
use executive::{Executive, Gate};
use mc_task::TaskNo;
use std::snapshot::Snapshot;
use std::sync::Wait;
use std::thread;
use std::thread::{Promise, PromisedHandle, Scope, Threads};

/// The promise of a thread: the worker that it returns belongs to the executive, and to this task.
#[derive(Drop)]
pub struct JoinPromise {
    pub executive: Snapshot<Executive>,
    pub task: TaskNo,
}

impl<T: Worker> Promise<T> for JoinPromise {
    ghost kept_by = { λ p r. T.is_of p.executive.value p.task.0 r };
}

/// A thread that has the worker, or the worker itself, if no thread could be started.
#[derive(Drop)]
pub struct SpawnResult<T: Worker> {
    pub handle: Option<PromisedHandle<T, JoinPromise>>,
    pub worker: Option<T>,
    /// Whether the worker that is served here has nothing left to do.
    pub has_left: bool,
}

// Runs a thread for each worker, until nothing is left to do. The workers come back in their order.
pub fn in_threads<'s, T: Worker + Send + Drop + 's, R: Threads + Wait + Sync, G: Gate + Sync>(
    serving: &'s Serving<'s, R, G>,
    workers: Vec<T>,
    starts: Vec<SpawnResult<T>>,
) -> Vec<T>
    requires workers { AreInOrder T.is_of serving.now.executive.now workers.items × (vec_len workers ≤ 128) }
    requires starts { (starts.items ≡ []) × (vec_len workers ≤ vec_capacity starts) }
    ensures { (vec_len result ≡ vec_len workers) × AreInOrder T.is_of serving.now.executive.now result.items }
{
    thread::scope(
        thread::scope_env(),
        serving.rt,
        move |scope| -> Vec<T>
            requires { AreInOrder T.is_of serving.now.executive.now workers.items × (vec_len workers ≤ 128) × (starts.items ≡ []) × (vec_len workers ≤ vec_capacity starts) }
            ensures { (vec_len result ≡ vec_len workers) × AreInOrder T.is_of serving.entry.now.executive.now result.items }
        {
            let mut starts = starts;
            let mut workers = workers;
            start_all(scope, serving, &mut workers, &mut starts);
            serve_refused(serving, &mut starts);
            join_all(serving.rt, serving.executive, &mut starts, &mut workers);
            workers
        },
    )
}

// Starts a thread for the worker. If none can be started, that is marked, and the closure, which is run here, returns
// the worker.
fn start_one<'s, E, T: Worker + Send + Drop + 's, R: Threads + Wait + Sync, G: Gate + Sync>(
    scope: &Scope<'s, E>,
    serving: &'s Serving<'s, R, G>,
    worker: T,
    task: TaskNo,
) -> SpawnResult<T>
    requires { T.is_of serving.now.executive.now task.0 worker }
    ensures { IsSpawnResultOf T.is_of serving.entry.now.executive.now task.0 result }
{
    let work = move || -> T
        requires { T.is_of serving.now.executive.now task.0 worker }
        ensures { T.is_of serving.entry.now.executive.now task.0 result }
    { work(serving, worker, task) };
    let back = JoinPromise {
        executive: Snapshot::of(serving.executive),
        task,
    };
    match scope.spawn_with(back, work) {
        Ok(handle) => SpawnResult {
            handle: Some(handle),
            worker: None,
            has_left: false,
        },
        Err(refused) => {
            serving.spots.refuse(task);
            kept_here((refused.value)())
        }
    }
}

// A worker for which no thread could be started.
pub fn kept_here<T: Worker>(worker: T) -> SpawnResult<T>
    ensures { (result.handle ≡ None) × (result.worker ≡ Some worker) }
{
    SpawnResult {
        handle: None,
        worker: Some(worker),
        has_left: false,
    }
}

// The worker, once its thread has returned.
fn join_one<T: Worker + Drop, R: Threads>(
    rt: &R,
    executive: &Executive,
    start: SpawnResult<T>,
    task: TaskNo,
) -> T
    requires { IsSpawnResultOf T.is_of executive.now task.0 start }
    ensures { T.is_of executive.now task.0 result }
{
    let _ = executive;
    let _ = task;
    let SpawnResult {
        handle,
        worker,
        has_left: _,
    } = start;
    match handle {
        Some(handle) => handle.join(rt),
        None => worker.unwrap(),
    }
}

// Starts a thread for each worker, the last worker's first.
fn start_all<'s, E, T: Worker + Send + Drop + 's, R: Threads + Wait + Sync, G: Gate + Sync>(
    scope: &Scope<'s, E>,
    serving: &'s Serving<'s, R, G>,
    workers: &mut Vec<T>,
    starts: &mut Vec<SpawnResult<T>>,
)
    requires workers { AreInOrder T.is_of serving.now.executive.now workers.old.items × (vec_len workers.old ≤ 128) }
    requires starts { (starts.old.items ≡ []) × (vec_len workers.old ≤ vec_capacity starts.old) }
    ensures workers { (workers.new.items ≡ []) × (vec_capacity workers.new ≡ vec_capacity workers.old) }
    ensures starts { (vec_len starts.new ≡ vec_len workers.old) × GoDown T.is_of serving.now.executive.now (vec_len workers.old) starts.new.items }
{
    while let Some(worker) = workers.pop() {
        let task = TaskNo(workers.len() as u32 + 1);
        starts.push_reserved(start_one(scope, serving, worker, task));
    }
}

// Joins all threads, the first task's first.
pub fn join_all<T: Worker + Drop, R: Threads>(
    rt: &R,
    executive: &Executive,
    starts: &mut Vec<SpawnResult<T>>,
    workers: &mut Vec<T>,
)
    requires starts { GoDown T.is_of executive.now (vec_len starts.old) starts.old.items × (vec_len starts.old ≤ 128) }
    requires workers { (workers.old.items ≡ []) × (vec_len starts.old ≤ vec_capacity workers.old) }
    ensures { (vec_len workers.new ≡ vec_len starts.old) × AreInOrder T.is_of executive.now workers.new.items }
{
    while let Some(start) = starts.pop() {
        let task = TaskNo(workers.len() as u32 + 1);
        workers.push_reserved(join_one(rt, executive, start, task));
    }
}
