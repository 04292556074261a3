//! A round of a pass on a floor with a plan.
ghost use Rattle.task_threads.specs.Passes.{IsPassFor};

use crate::worker::{Expected, Progress, Serving, Worker, next_act};
use executive::{Gate, Taken, TaskPass};
use mc_model::How;
use mc_task::TaskNo;
use std::sync::Wait;
use timetable::Act;

impl Worker for TaskPass {
    ghost is_of = { IsPassFor };

    fn pass(&self) -> &TaskPass {
        self
    }

    // Does the floor's acts while they are this task's.
    fn round<R: Wait, G: Gate>(
        self,
        serving: &Serving<'_, R, G>,
        task: TaskNo,
        expected: Expected,
    ) -> (TaskPass, Progress) {
        serve(serving, self, task, expected)
    }
}

// Does the floor's acts while they are this task's, up to an idle tick. If the next one is another task's, that task's
// thread is woken.
fn serve<R: Wait, G: Gate>(
    serving: &Serving<'_, R, G>,
    pass: TaskPass,
    task: TaskNo,
    expected: Expected,
) -> (TaskPass, Progress)
    requires { IsPassFor serving.now.executive.now task.0 pass }
    ensures { IsPassFor serving.now.executive.now task.0 result.0 }
{
    let mut pass = pass;
    let mut expected = expected;
    let mut progress = Progress::Idled;
    for _ in serving.rt.forever() {
        match next_act(serving, &mut pass, task, expected) {
            Act::Release(due) if due == task => {
                progress = progress.max(release(serving, &mut pass, task));
            }
            Act::Grant(chosen) if chosen == task => {
                let (back, ticked) = serve_ticks(serving, pass, task);
                pass = back;
                progress = progress.max(ticked);
            }
            Act::Idle => {
                if let Ok(tick) = serving.executive.idle(serving.rt, &mut pass) {
                    serving.spots.count_tick(tick);
                    return (pass, progress);
                }
            }
            Act::Release(other) => {
                serving.spots.wake(other, Expected::Release);
                return (pass, Progress::Waits);
            }
            Act::Grant(other) => {
                serving.spots.wake(other, Expected::Tick);
                return (pass, Progress::Waits);
            }
            Act::Wait(_) => return (pass, Progress::Waits),
            Act::Finished => {
                serving.spots.leave(task);
                return (pass, Progress::Finished);
            }
        }
        expected = Expected::Unknown;
    }
    unreachable!()
}

// Releases the task's next job, unless the floor refuses it, since another act is next.
fn release<R: Wait, G: Gate>(
    serving: &Serving<'_, R, G>,
    pass: &mut TaskPass,
    task: TaskNo,
) -> Progress
    requires { IsPassFor serving.now.executive.now task.0 pass.old }
    ensures { IsPassFor serving.now.executive.now task.0 pass.new }
{
    if serving.executive.release(serving.rt, pass).is_ok() {
        serving.gate.released(task.0, pass);
        Progress::Acted
    } else {
        Progress::Waits
    }
}

// Takes ticks of the task, and runs the step of each outside the turns, until a job ends, or the floor refuses a tick
// since another act is next. Then a look is needed.
fn serve_ticks<R: Wait, G: Gate>(
    serving: &Serving<'_, R, G>,
    pass: TaskPass,
    task: TaskNo,
) -> (TaskPass, Progress)
    requires { IsPassFor serving.now.executive.now task.0 pass }
    ensures { IsPassFor serving.now.executive.now task.0 result.0 }
{
    let mut pass = pass;
    let mut progress = Progress::Waits;
    for _ in serving.rt.forever() {
        match serving.executive.take(serving.rt, pass) {
            Taken::Given(grant) => {
                let before = grant.granted().before;
                serving.gate.step(task.0, &grant);
                serving.spots.count_tick(u64::from(before));
                let (back, how) = serving.executive.outcome(serving.rt, grant, false);
                if how != How::More {
                    return (back, Progress::Acted);
                }
                pass = back;
                progress = Progress::Acted;
            }
            Taken::NotNow(back, _fault) => return (back, progress),
        }
    }
    unreachable!()
}
