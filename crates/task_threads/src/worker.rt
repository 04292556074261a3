//! What the thread of a task does, round by round.
ghost use Rattle.std.specs.Prelude.{ℕ};
ghost use Rattle.executive.specs.declared.executive.Executive.{Executive};
ghost use Rattle.task_threads.specs.Passes.{IsPassFor};
ghost use Rattle.task_threads.specs.LivePasses.{IsLivePass};

use crate::parking_spots::ParkingSpots;
use executive::{Executive, Gate, TaskPass};
use mc_task::TaskNo;
use std::sync::Wait;
use timetable::Act;

/// The result of a round, from the least lively on.
#[derive(Clone, Copy, PartialEq, Eq, PartialOrd, Ord)]
pub enum Progress {
    /// Nothing is left to do.
    Finished,
    /// Another task is next.
    Waits,
    /// Nothing was pending, and the task made an idle tick.
    Idled,
    /// The task acted.
    Acted,
    /// The task acted, and its job goes on.
    GoesOn,
}

/// The act that a task's thread expects to be next. If it is another one, the executive refuses the call.
#[derive(Clone, Copy, PartialEq, Eq)]
pub enum Expected {
    /// None: a look is needed.
    Unknown,
    /// A release of the task.
    Release,
    /// A tick of the task.
    Tick,
    /// An idle tick.
    Idle,
}

/// What each thread of a run works with: the executive, the gate that is called, and where the tasks wait.
#[derive(Drop)]
pub struct Serving<'a, R, G> {
    pub rt: &'a R,
    pub executive: &'a Executive,
    pub gate: &'a G,
    pub spots: &'a ParkingSpots,
}

/// The pass of a task, with what its thread needs to serve it.
pub trait Worker: Sized {
    /// Whether this is a worker of this executive and of the task with this number.
    ghost is_of: { Executive → ℕ → Self → Type 0 };

    /// The worker's pass.
    fn pass(&self) -> &TaskPass;

    /// Does one round. It makes the first look for the next act only if no act is expected. If a look finds that another
    /// task is next, whoever serves that task is woken.
    fn round<R: Wait, G: Gate>(
        self,
        serving: &Serving<'_, R, G>,
        task: TaskNo,
        expected: Expected,
    ) -> (Self, Progress)
        requires { is_of serving.now.executive.now task.0 self }
        ensures { is_of serving.now.executive.now task.0 result.0 };
}

// The act that the task's thread expects, or the one that a look finds.
#[inline(always)]
pub fn next_act<R: Wait, G>(
    serving: &Serving<'_, R, G>,
    pass: &mut TaskPass,
    task: TaskNo,
    expected: Expected,
) -> Act
    requires { IsPassFor serving.now.executive.now task.0 pass.old }
    ensures pass { IsPassFor serving.now.executive.now task.0 pass.new }
    ensures live { IsLivePass serving.now.executive.now task.0 pass.old → IsLivePass serving.now.executive.now task.0 pass.new }
{
    match expected {
        Expected::Unknown => serving.executive.look(serving.rt, pass),
        Expected::Release => Act::Release(task),
        Expected::Tick => Act::Grant(task),
        Expected::Idle => Act::Idle,
    }
}

// Serves the task until nothing is left to do. A task for which no thread could be started comes back unserved.
//
// The thread that acted last leads: it goes on while the ticks are idle, and rests once another task is next. The
// others rest after one idle tick, or they would all take turns for these. All but the first rest before their first
// look, and none looks unwoken while others act, since a look takes a turn. A thread that expects an act makes its call
// without a look. A refused call is no act.
pub fn work<T: Worker, R: Wait, G: Gate>(serving: &Serving<'_, R, G>, worker: T, task: TaskNo) -> T
    requires { T.is_of serving.now.executive.now task.0 worker }
    ensures { T.is_of serving.now.executive.now task.0 result }
{
    if serving.spots.is_refused(task) {
        return worker;
    }
    serving.gate.enter(task.0, worker.pass());
    let mut worker = worker;
    let mut leads = task.0 == 1;
    let mut pause = task.0;
    let mut expected = Expected::Unknown;
    if !leads {
        expected = serving.spots.rest(serving.rt, task, &mut pause);
    }
    for _ in serving.rt.forever() {
        let (back, progress) = worker.round(serving, task, expected);
        worker = back;
        expected = match progress {
            Progress::GoesOn => {
                leads = true;
                Expected::Tick
            }
            Progress::Acted => {
                leads = true;
                Expected::Unknown
            }
            Progress::Idled if leads => Expected::Idle,
            Progress::Idled | Progress::Waits => {
                leads = false;
                serving.spots.rest(serving.rt, task, &mut pause)
            }
            Progress::Finished => return worker,
        };
    }
    unreachable!()
}
