//! A list of jobs, run by a thread for each task.
ghost use Rattle.std.specs.Prelude.{◌≡◌, ◌≤◌, [], Some, IfOk, IfErr};
ghost use Rattle.mc_model.specs.Holds.{Fits, Holds};
ghost use Rattle.mc_model.specs.Late.{late};
ghost use Rattle.timetable.specs.Plans.{IsTheTrace};
ghost use Rattle.calling_examples.specs.Jobs.{IsRefusal};

use executive::{Gate, Grant, TaskPass};
use mc_model::WorkRow;
use mc_task::{Rule, TaskSet};
use mode_core::Core;
use std::alloc::Global;
use std::sync::Wait;
use std::sync::atomic::AtomicU64;
use std::sync::atomic::Ordering::SeqCst;
use std::thread::Threads;
use task_threads::run_threads;
use thiserror::Error;
use timetable::{Floor, Plan};
use work_file::{BadRow, Work};

/// Why jobs are not run.
#[derive(Clone, Copy, Debug, PartialEq, Eq, Error)]
pub enum NotRun {
    #[error("out of memory")]
    Memory,
    /// The first job that may not stand after the jobs before it.
    #[error("job {}: {:?}", bad.index, bad.cause)]
    BadJob { bad: BadRow },
}

/// Counts the steps that threads run.
#[derive(Drop)]
pub struct StepCounter {
    steps: AtomicU64,
}

impl StepCounter {
    pub fn new() -> StepCounter {
        StepCounter {
            steps: AtomicU64::new(0),
        }
    }

    pub fn steps(&self) -> u64 {
        self.steps.load(SeqCst)
    }
}

impl Gate for StepCounter {
    fn enter(&self, _task: u32, _pass: &TaskPass) {}

    fn released(&self, _task: u32, _pass: &TaskPass) {}

    // The job of the grant has its tick during this call: this is where its work would be done.
    fn step(&self, _task: u32, _grant: &Grant) {
        self.steps.fetch_add(1, SeqCst);
    }
}

/// Runs `ticks` ticks of these jobs in a thread for each task. The rows are the one trace that the set, the rule, the
/// jobs and the ticks determine, however the threads interleave.
pub fn run_jobs<R: Threads + Wait + Sync, G: Gate + Sync>(
    rt: &R,
    alloc: Global,
    set: TaskSet,
    rule: Rule,
    jobs: Vec<WorkRow>,
    ticks: u32,
    gate: &G,
) -> Result<Floor, NotRun>
    requires fits { Fits rule }
    requires holds { Holds set.tasks rule }
    requires some { 1 ≤ ticks }
    requires most { ticks ≤ 1000000 }
    ensures trace { IfOk result (λ floor. IsTheTrace set.tasks rule jobs.items ticks floor.core.rows) }
    ensures timely { IfOk result (λ floor. late set.tasks floor.core.rows ≡ []) }
    ensures refusal { IfErr result (IsRefusal set.tasks jobs.items) }
{
    let work = match Work::new(&set, jobs) {
        Ok(work) => work,
        Err(bad) => return Err(NotRun::BadJob { bad }),
    };
    let places = ticks as usize + work.rows().len();
    let Ok(core) = Core::new(alloc, set, rule, places) else {
        return Err(NotRun::Memory);
    };
    let ticks = u64::from(ticks);
    let floor = Floor::new(core, Plan::Rows { work, ticks });
    match run_threads(rt, alloc, floor, gate) {
        Ok(floor) => Ok(floor),
        Err(_) => Err(NotRun::Memory),
    }
}
