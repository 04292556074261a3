//! A round of a task's thread in a live run.
ghost use Rattle.mc_task.specs.TaskSet.{task_at};
ghost use Rattle.executive.specs.Passes.{floor_of};
ghost use Rattle.task_threads.specs.LivePasses.{IsLivePass, IsRunner, AreNeedsOf};

use crate::live_needs::LiveNeeds;
use crate::parking_spots::ParkingSpots;
use crate::worker::{Expected, Progress, Serving, Worker, next_act};
use executive::{Gate, Taken, TaskPass};
use mc_model::How;
use mc_task::TaskNo;
use mode_core::{GrantFault, IdleFault, ReleaseFault, Released};
use status_board::Watcher;
use std::sync::Wait;
use timetable::{Act, ActFault};

// A pass with its watcher. The task's jobs end when they have had the ticks that they need.
#[derive(Drop)]
pub struct Runner {
    pub pass: TaskPass,
    pub watcher: Watcher,
    pub needs: LiveNeeds,
    // The number of ticks of the whole run.
    pub ticks: u64,
    // The boundary from which the task may release again.
    pub next: u64,
}

impl Worker for Runner {
    ghost is_of = { IsRunner };

    fn pass(&self) -> &TaskPass {
        &self.pass
    }

    // Watches; then, unless all ticks have ended, releases if that is allowed, and does the next act if it is this
    // task's.
    fn round<R: Wait, G: Gate>(
        self,
        serving: &Serving<'_, R, G>,
        task: TaskNo,
        expected: Expected,
    ) -> (Runner, Progress) {
        let Runner {
            pass,
            mut watcher,
            needs,
            ticks,
            next,
        } = self;
        let now = serving.executive.watch(&mut watcher).ticks;
        let (pass, next, progress) = if now < ticks {
            act_at(serving, needs, pass, next, now, task, expected)
        } else {
            (pass, next, Progress::Finished)
        };
        if progress == Progress::Finished {
            serving.spots.leave(task);
        }
        let runner = Runner {
            pass,
            watcher,
            needs,
            ticks,
            next,
        };
        (runner, progress)
    }
}

// Acts after having seen that `now` ticks have ended. The pass comes back with the boundary of the next release.
fn act_at<R: Wait, G: Gate>(
    serving: &Serving<'_, R, G>,
    needs: LiveNeeds,
    pass: TaskPass,
    next: u64,
    now: u64,
    task: TaskNo,
    expected: Expected,
) -> (TaskPass, u64, Progress)
    requires pass { IsLivePass serving.now.executive.now task.0 pass }
    requires needs { AreNeedsOf (task_at (floor_of serving.now.executive.now).core.set task.0) needs }
    ensures { IsLivePass serving.now.executive.now task.0 result.0 }
{
    let (pass, next, release) = release_due(serving, needs, pass, next, now, task);
    if release == Progress::Finished {
        return (pass, next, Progress::Finished);
    }
    serving.spots.set_release(task, next);
    // After a release another act may be next.
    let expected = match release {
        Progress::Acted => Expected::Unknown,
        _ => expected,
    };
    let (pass, progress) = act(serving, needs, pass, now, task, expected);
    // A task that released counts as the one that acted last, even if its tick was idle.
    if progress == Progress::Idled {
        (pass, next, progress.max(release))
    } else {
        (pass, next, progress)
    }
}

// The result of an act after which the task has no job to go on with: it rests if another task may release after that
// many ticks.
fn unless_due(spots: &ParkingSpots, task: TaskNo, ticks: u64, progress: Progress) -> Progress {
    if spots.wake_due(task, ticks) {
        Progress::Waits
    } else {
        progress
    }
}

// Makes the first release of a task, by a pass that made no call.
pub fn release_first<R: Wait, G: Gate>(
    serving: &Serving<'_, R, G>,
    mut pass: TaskPass,
    task: TaskNo,
) -> TaskPass
    requires { IsLivePass serving.now.executive.now task.0 pass }
    ensures { IsLivePass serving.now.executive.now task.0 result }
{
    let answer = serving.executive.release(serving.rt, &mut pass);
    if answer.is_ok() {
        serving.gate.released(task.0, &pass);
    }
    pass
}

// Takes a tick of the task, whose step runs outside the turns. Its job is done when it has had the ticks that it needs.
fn ticked<R: Wait, G: Gate>(
    serving: &Serving<'_, R, G>,
    needs: LiveNeeds,
    pass: TaskPass,
    task: TaskNo,
) -> (TaskPass, Result<How, ActFault<GrantFault>>)
    requires pass { IsLivePass serving.now.executive.now task.0 pass }
    requires needs { AreNeedsOf (task_at (floor_of serving.now.executive.now).core.set task.0) needs }
    ensures { IsLivePass serving.now.executive.now task.0 result.0 }
{
    match serving.executive.take(serving.rt, pass) {
        Taken::Given(grant) => {
            let granted = grant.granted();
            serving.gate.step(task.0, &grant);
            let need = needs.of_count(granted.job.count);
            let done = u64::from(granted.before) + 1 == u64::from(need);
            let (pass, how) = serving.executive.outcome(serving.rt, grant, done);
            (pass, Ok(how))
        }
        Taken::NotNow(pass, fault) => (pass, Err(fault)),
    }
}

// Releases the task again, if it may after `now` ticks. The pass comes back with the boundary of the next release.
#[tactic(auto, using(crate::proofs::LivePasses::released_live))]
fn release_due<R: Wait, G: Gate>(
    serving: &Serving<'_, R, G>,
    needs: LiveNeeds,
    mut pass: TaskPass,
    next: u64,
    now: u64,
    task: TaskNo,
) -> (TaskPass, u64, Progress)
    requires { IsLivePass serving.now.executive.now task.0 pass }
    ensures { IsLivePass serving.now.executive.now task.0 result.0 }
{
    if now < next {
        return (pass, next, Progress::Waits);
    }
    match serving.executive.release(serving.rt, &mut pass) {
        Ok(Released::Kept { at, .. } | Released::Dropped { at, .. } | Released::Held { at, .. }) =>
            {
                serving.gate.released(task.0, &pass);
                let next = at.saturating_add(u64::from(needs.period));
                (pass, next, Progress::Acted)
            }
        Err(ActFault::Core(ReleaseFault::TooSoon { next })) => (pass, next, Progress::Waits),
        Err(ActFault::Core(ReleaseFault::Full)) => (pass, next, Progress::Finished),
        Err(ActFault::Core(ReleaseFault::Running { .. }) | ActFault::Plan(_)) => {
            (pass, next, Progress::Waits)
        }
    }
}

// Does the next act, if it is this task's or an idle tick. If it is a tick of another task, that task's thread is woken.
// But if an expected idle tick is refused since a job is pending, nobody is woken: the thread that released it looks next.
#[tactic(auto, using(crate::proofs::LivePasses::idled_live))]
fn act<R: Wait, G: Gate>(
    serving: &Serving<'_, R, G>,
    needs: LiveNeeds,
    mut pass: TaskPass,
    now: u64,
    task: TaskNo,
    expected: Expected,
) -> (TaskPass, Progress)
    requires pass { IsLivePass serving.now.executive.now task.0 pass }
    requires needs { AreNeedsOf (task_at (floor_of serving.now.executive.now).core.set task.0) needs }
    ensures { IsLivePass serving.now.executive.now task.0 result.0 }
{
    match next_act(serving, &mut pass, task, expected) {
        Act::Grant(chosen) if chosen == task => {
            let (pass, answer) = ticked(serving, needs, pass, task);
            (pass, progress_of_tick(serving.spots, task, now, answer))
        }
        Act::Idle => {
            let answer = serving.executive.idle(serving.rt, &mut pass);
            (pass, progress_of_idle(serving.spots, task, answer))
        }
        Act::Grant(other) => (pass, hand_over(serving.spots, other)),
        Act::Release(_) | Act::Wait(_) | Act::Finished => (pass, Progress::Waits),
    }
}

// Wakes the thread of another task, whose tick is next.
fn hand_over(spots: &ParkingSpots, other: TaskNo) -> Progress {
    spots.wake(other, Expected::Tick);
    Progress::Waits
}

// The result of a tick of the task.
fn progress_of_tick(
    spots: &ParkingSpots,
    task: TaskNo,
    now: u64,
    answer: Result<How, ActFault<GrantFault>>,
) -> Progress {
    let ticks = now.saturating_add(1);
    match answer {
        Ok(how) => {
            spots.count_tick(now);
            match how {
                How::Done | How::Stop => unless_due(spots, task, ticks, Progress::Acted),
                How::More | How::Over => {
                    // The task goes on, while another that may release wakes up.
                    let _ = spots.wake_due(task, ticks);
                    Progress::GoesOn
                }
            }
        }
        // Either a release during this task's last tick made another task the next one, and the thread that released
        // looked before the tick ended, and found only the tick. Or this thread was woken for a tick that is over.
        Err(ActFault::Core(GrantFault::NotChosen { chosen: Some(job) })) => {
            hand_over(spots, job.task)
        }
        Err(ActFault::Core(GrantFault::Full)) => Progress::Finished,
        Err(_) => Progress::Waits,
    }
}

// The result of an idle tick.
fn progress_of_idle(
    spots: &ParkingSpots,
    task: TaskNo,
    answer: Result<u64, ActFault<IdleFault>>,
) -> Progress {
    match answer {
        Ok(tick) => {
            spots.count_tick(tick);
            unless_due(spots, task, tick.saturating_add(1), Progress::Idled)
        }
        Err(ActFault::Core(IdleFault::Full)) => Progress::Finished,
        Err(_) => Progress::Waits,
    }
}
