//! Gates for tests of threads: one holds a step until a release came, and one counts its calls.
use executive::{Gate, Grant, TaskPass};
use mc_task::TaskNo;
use std::alloc::{AllocError, Global};
use std::sync::atomic::AtomicU64;
use std::sync::atomic::Ordering::SeqCst;
use worked_gates::Awaited;

/// Holds the second tick of the first task's first job until the second task's first release was taken.
#[derive(Drop)]
pub struct StepGate {
    release: Awaited,
}

impl StepGate {
    pub fn new() -> StepGate {
        StepGate {
            release: Awaited::new(),
        }
    }

    /// Whether the release came before the step gave up.
    pub fn is_kept(&self) -> bool {
        self.release.is_kept()
    }
}

impl Gate for StepGate {
    fn enter(&self, _task: u32, _pass: &TaskPass) {}

    fn released(&self, task: u32, pass: &TaskPass) {
        if task == 2 && pass.count().releases == 1 {
            self.release.comes();
        }
    }

    fn step(&self, task: u32, grant: &Grant) {
        let granted = grant.granted();
        if task == 1 && granted.job.count == 1 && granted.before == 1 {
            self.release.hold();
        }
    }
}

// A job as a trace has it: the number of its task in the whole set, and among the tasks of its processor; its count, and how many
// ticks it had.
#[derive(Clone, Copy)]
pub struct TracedJob {
    pub task: u32,
    pub own: u32,
    pub count: u32,
    pub ticks: u32,
}

// How often the gate was called for the release of a job, and for each of its ticks.
#[derive(Drop)]
struct Line {
    job: TracedJob,
    releases: AtomicU64,
    steps: Vec<AtomicU64>,
}

/// Counts its calls for each release and each tick of a trace's jobs, and for anything else.
#[derive(Drop)]
pub struct CountingGate {
    lines: Vec<Line>,
    others: AtomicU64,
}

impl CountingGate {
    pub fn new(alloc: Global, jobs: &[TracedJob]) -> Result<CountingGate, AllocError> {
        let mut lines = Vec::new(alloc);
        for job in jobs {
            let mut steps = Vec::new(alloc);
            for _before in 0..job.ticks {
                steps.push(AtomicU64::new(0))?;
            }
            lines.push(Line {
                job: *job,
                releases: AtomicU64::new(0),
                steps,
            })?;
        }
        Ok(CountingGate {
            lines,
            others: AtomicU64::new(0),
        })
    }

    /// Whether it was called once for each, and for nothing else.
    pub fn was_called_once_for_each(&self) -> bool {
        let once = |times: &AtomicU64| times.load(SeqCst) == 1;
        let each = self
            .lines
            .iter()
            .all(|line| once(&line.releases) && line.steps.iter().all(once));
        each && self.others.load(SeqCst) == 0
    }

    // The job that is named by the number in the whole set, and by what the thread's own executive lends.
    fn line(&self, task: u32, own: TaskNo, count: u64) -> Option<&Line> {
        self.lines.iter().find(|line| {
            line.job.task == task && line.job.own == own.0 && u64::from(line.job.count) == count
        })
    }
}

impl Gate for CountingGate {
    fn enter(&self, _task: u32, _pass: &TaskPass) {}

    fn released(&self, task: u32, pass: &TaskPass) {
        match self.line(task, pass.task(), pass.count().releases) {
            Some(line) => line.releases.fetch_add(1, SeqCst),
            None => self.others.fetch_add(1, SeqCst),
        };
    }

    fn step(&self, task: u32, grant: &Grant) {
        let granted = grant.granted();
        let line = self.line(task, granted.job.task, u64::from(granted.job.count));
        match line.and_then(|line| line.steps.get(granted.before as usize)) {
            Some(times) => times.fetch_add(1, SeqCst),
            None => self.others.fetch_add(1, SeqCst),
        };
    }
}
