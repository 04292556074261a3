//! Where the threads of the tasks rest. Correctness does not depend on wake-ups that come in time.
use crate::worker::Expected;
use mc_task::TaskNo;
use std::alloc::{AllocError, Global};
use std::sync::Wait;
use std::sync::atomic::Ordering::SeqCst;
use std::sync::atomic::{AtomicBool, AtomicU8, AtomicU64};
use std::thread::Parker;
use std::time::Duration;

// The longest pause of a thread that nobody wakes, in milliseconds.
const LONGEST: u32 = 1000;

// Sentinel for `next_release`: no release is due.
const NEVER: u64 = u64::MAX;

// Sentinel for `next_release`: the task was woken for its release and has not made it yet.
const AWAITED: u64 = u64::MAX - 1;

// The code of a spot whose thread was not called.
const NOT_CALLED: u8 = 0;

// The code of a spot whose thread was called for this act.
fn code_of(expected: Expected) -> u8 {
    match expected {
        Expected::Unknown => 1,
        Expected::Release => 2,
        Expected::Tick => 3,
        Expected::Idle => 4,
    }
}

// The act with this code, unless the thread was not called.
fn act_of(code: u8) -> Option<Expected> {
    match code {
        1 => Some(Expected::Unknown),
        2 => Some(Expected::Release),
        3 => Some(Expected::Tick),
        4 => Some(Expected::Idle),
        _ => None,
    }
}

// Where one thread rests: a parker, and the code of what the thread was called for, which `park_timeout` does not return.
#[derive(Drop)]
struct Spot {
    parker: Parker,
    code: AtomicU8,
}

impl Spot {
    fn new() -> Spot {
        Spot {
            parker: Parker::new(),
            code: AtomicU8::new(NOT_CALLED),
        }
    }

    fn call(&self, expected: Expected) {
        self.code.store(code_of(expected), SeqCst);
        self.parker.unpark();
    }

    // Rests until it is called, for at most `millis` milliseconds. Returns what it was called for.
    fn rest<R: Wait>(&self, rt: &R, millis: u32) -> Option<Expected> {
        self.parker
            .park_timeout(rt, Duration::from_millis(u64::from(millis)));
        act_of(self.code.swap(NOT_CALLED, SeqCst))
    }
}

// What the threads know of one task.
#[derive(Drop)]
struct TaskSpot {
    task: TaskNo,
    spot: Spot,
    // No thread could be started for the task, so the caller serves it.
    is_refused: AtomicBool,
    // The boundary from which the task may release again, if others are to wake it for that.
    next_release: AtomicU64,
}

/// The tasks' spots, the caller's spot, and a count by which a resting thread sees whether others act.
#[derive(Drop)]
pub struct ParkingSpots {
    spots: Vec<TaskSpot>,
    caller: Spot,
    acts: AtomicU64,
    // A lower bound of the ticks at which a task may release; 0 if one was woken for its release. While a thread looks
    // at all tasks it may be too high.
    soonest: AtomicU64,
}

impl ParkingSpots {
    // A spot for each of `tasks` tasks. Fails if an allocation fails.
    pub fn new(alloc: Global, tasks: u32) -> Result<ParkingSpots, AllocError> {
        let mut spots = Vec::with_capacity(alloc, tasks as usize)?;
        for task in 1..=tasks {
            spots.push_reserved(TaskSpot {
                task: TaskNo(task),
                spot: Spot::new(),
                is_refused: AtomicBool::new(false),
                next_release: AtomicU64::new(NEVER),
            });
        }
        Ok(ParkingSpots {
            spots,
            caller: Spot::new(),
            acts: AtomicU64::new(0),
            soonest: AtomicU64::new(0),
        })
    }

    fn of(&self, task: TaskNo) -> Option<&TaskSpot> {
        self.spots.get((task.0 as usize).saturating_sub(1))
    }

    // The spot of whoever serves the task.
    fn spot(&self, task: TaskNo) -> &Spot {
        match self.of(task) {
            Some(task_spot) if !task_spot.is_refused.load(SeqCst) => &task_spot.spot,
            Some(_) | None => &self.caller,
        }
    }

    // Marks that no thread could be started for the task.
    pub fn refuse(&self, task: TaskNo) {
        if let Some(task_spot) = self.of(task) {
            task_spot.is_refused.store(true, SeqCst);
        }
    }

    // Whether the caller serves the task.
    pub fn is_refused(&self, task: TaskNo) -> bool {
        self.of(task)
            .is_some_and(|task_spot| task_spot.is_refused.load(SeqCst))
    }

    // Sets the boundary from which the task may release again.
    pub fn set_release(&self, task: TaskNo, boundary: u64) {
        if let Some(task_spot) = self.of(task) {
            task_spot.next_release.store(boundary, SeqCst);
            self.keep_soonest(boundary);
        }
    }

    // Called after the boundary is stored with its task: a look at all tasks that has passed it raised the soonest boundary
    // before this call.
    fn keep_soonest(&self, boundary: u64) {
        if boundary < self.soonest.load(SeqCst) {
            self.soonest.fetch_min(boundary, SeqCst);
        }
    }

    // Wakes the first other task that may release after `ticks` ticks. Returns whether there is one, or one that was
    // woken for that and has not released yet. It looks at all tasks only if the soonest boundary has come.
    pub fn wake_due(&self, task: TaskNo, ticks: u64) -> bool {
        self.soonest.load(SeqCst) <= ticks && self.wake_first_due(task, ticks)
    }

    // The soonest boundary is raised first and lowered at the end, so a boundary that is set meanwhile is kept.
    fn wake_first_due(&self, task: TaskNo, ticks: u64) -> bool {
        let mut is_awaited = false;
        let mut soonest = NEVER;
        self.soonest.store(NEVER, SeqCst);
        for task_spot in &self.spots {
            let next = task_spot.next_release.load(SeqCst);
            if next == AWAITED {
                soonest = 0;
                is_awaited = is_awaited || task_spot.task != task;
            } else if next <= ticks && task_spot.task != task {
                task_spot.next_release.store(AWAITED, SeqCst);
                self.soonest.store(0, SeqCst);
                self.wake(task_spot.task, Expected::Unknown);
                return true;
            } else {
                soonest = soonest.min(next);
            }
        }
        self.keep_soonest(soonest);
        is_awaited
    }

    // Counts a tick, by its number, so that no thread that rests has to look. Every 64th counts, which is enough to show
    // that a thread acts.
    pub fn count_tick(&self, number: u64) {
        if number % 64 == 0 {
            self.acts.fetch_add(1, SeqCst);
        }
    }

    // Wakes the thread of a task, which is to expect this act.
    pub fn wake(&self, task: TaskNo, expected: Expected) {
        self.spot(task).call(expected);
    }

    // The task is no longer served. Whoever serves the next task is woken, and then wakes the one after it.
    pub fn leave(&self, task: TaskNo) {
        self.set_release(task, NEVER);
        let next = task.0 as usize;
        let other = if next < self.spots.len() {
            task.0.saturating_add(1)
        } else {
            1
        };
        self.wake(TaskNo(other), Expected::Unknown);
    }

    // Rests until the task's thread is woken, or for a pause in which no act was done. Returns the act that it is to
    // expect.
    pub fn rest<R: Wait>(&self, rt: &R, task: TaskNo, pause: &mut u32) -> Expected {
        self.rest_while_acting(rt, self.spot(task), pause)
    }

    // Rests, as the caller, until a task that it serves is woken, or for a pause in which no act was done. Since it
    // serves several tasks, it expects no act.
    pub fn rest_of_caller<R: Wait>(&self, rt: &R, pause: &mut u32) {
        self.rest_while_acting(rt, &self.caller, pause);
    }

    // Each pause that ends without a call is followed by one twice as long, at most a second.
    fn rest_while_acting<R: Wait>(&self, rt: &R, spot: &Spot, pause: &mut u32) -> Expected {
        let mut seen = self.acts.load(SeqCst);
        for _ in rt.forever() {
            if let Some(expected) = spot.rest(rt, *pause) {
                return expected;
            }
            *pause = pause.saturating_mul(2).min(LONGEST);
            let now = self.acts.load(SeqCst);
            if now == seen {
                return Expected::Unknown;
            }
            seen = now;
        }
        unreachable!()
    }
}
