//! The events, by the numbers that C passes.
ghost use Rattle.std.specs.Prelude.{◌≡◌};
ghost use Rattle.mode_core.specs.Events.{after_idle};
ghost use Rattle.edfvd_c.specs.Scheduler.Event as spec;
ghost use Rattle.edfvd_c.specs.Scheduler.Runs as runs;

use crate::event_numbers::{DROPPED, GIVEN, HELD, IDLE, KEPT};
use crate::row::how_number;
use crate::status;
use mc_task::{JobId, TaskNo};
use mode_core::{GrantFault, Granted, IdleFault, NotOut, ReleaseFault, Released, RunFault};
use restart::Restartable;
use row_history::Recorder;

/// What came of an event, the job and its numbers; each is 0 where there is none.
#[repr(C)]
#[derive(Clone, Copy)]
pub struct CAnswer {
    pub what: u32,
    pub task: u32,
    pub count: u32,
    pub before: u32,
    pub at: u64,
}

pub const NOTHING: CAnswer = CAnswer {
    what: 0,
    task: 0,
    count: 0,
    before: 0,
    at: 0,
};

/// A release of the task of this number.
pub fn release<R: Recorder>(scheduler: &mut Restartable<R>, task: u32) -> (u32, CAnswer)
    ensures exact { result ≡ spec.release_returns scheduler.old task }
    ensures state { scheduler.new ≡ spec.release_after scheduler.old task }
{
    if scheduler.core().set().get(TaskNo(task)).is_none() {
        return (status::NO_TASK, NOTHING);
    }
    match scheduler.release(TaskNo(task)) {
        Ok(released) => (status::OK, of_released(released)),
        Err(ReleaseFault::Running { job }) => (status::RUNNING, of_job(0, job, 0, 0)),
        Err(ReleaseFault::TooSoon { next }) => (status::TOO_SOON, at_tick(0, next)),
        Err(ReleaseFault::Full) => (status::FULL, NOTHING),
    }
}

fn of_released(released: Released) -> CAnswer
    ensures { result ≡ spec.of_released released }
{
    match released {
        Released::Kept { job, at } => of_job(KEPT, job, 0, at),
        Released::Dropped { job, at } => of_job(DROPPED, job, 0, at),
        Released::Held { job, at } => of_job(HELD, job, 0, at),
    }
}

/// A grant to the task of this number.
pub fn grant<R: Recorder>(scheduler: &mut Restartable<R>, task: u32) -> (u32, CAnswer)
    ensures exact { result ≡ spec.grant_returns scheduler.old.core task }
    ensures state { scheduler.new ≡ spec.with_core scheduler.old (spec.grant_after scheduler.old.core task) }
{
    if scheduler.core().set().get(TaskNo(task)).is_none() {
        return (status::NO_TASK, NOTHING);
    }
    match scheduler.grant(TaskNo(task)) {
        Ok(Granted { job, at, before }) => (status::OK, of_job(GIVEN, job, before, at)),
        Err(GrantFault::TickOut { job }) => (status::TICK_OUT, of_job(0, job, 0, 0)),
        Err(GrantFault::NotChosen { chosen }) => (status::NOT_CHOSEN, of_some(chosen)),
        Err(GrantFault::Full) => (status::FULL, NOTHING),
    }
}

/// The outcome of the tick of this job.
pub fn outcome<R: Recorder>(
    scheduler: &mut Restartable<R>,
    task: u32,
    count: u32,
    done: bool,
) -> (u32, CAnswer)
    ensures exact { result ≡ spec.outcome_returns scheduler.old.core task count done }
    ensures state { scheduler.new ≡ spec.with_core scheduler.old (spec.outcome_after scheduler.old.core task count done) }
{
    let job = JobId {
        task: TaskNo(task),
        count,
    };
    match scheduler.outcome(job, done) {
        Ok(how) => (status::OK, of_job(how_number(how), job, 0, 0)),
        Err(NotOut { out, .. }) => (status::NOT_OUT, of_some(out)),
    }
}

/// An idle tick.
pub fn idle<R: Recorder>(scheduler: &mut Restartable<R>) -> (u32, CAnswer)
    ensures exact { result ≡ spec.idle_returns scheduler.old.core }
    ensures state { scheduler.new ≡ spec.with_core scheduler.old (after_idle scheduler.old.core) }
{
    match scheduler.idle() {
        Ok(at) => (status::OK, at_tick(IDLE, at)),
        Err(IdleFault::TickOut { job }) => (status::TICK_OUT, of_job(0, job, 0, 0)),
        Err(IdleFault::Pending { job }) => (status::PENDING, of_job(0, job, 0, 0)),
        Err(IdleFault::Full) => (status::FULL, NOTHING),
    }
}

/// A run of this many ticks of this job.
pub fn run<R: Recorder>(
    scheduler: &mut Restartable<R>,
    task: u32,
    count: u32,
    ticks: u32,
    done: bool,
) -> (u32, CAnswer)
    ensures exact { result ≡ runs.run_returns scheduler.old.core task count ticks done }
    ensures state { scheduler.new ≡ spec.with_core scheduler.old (runs.run_after scheduler.old.core task count ticks done) }
{
    if ticks == 0 {
        return (status::ARGUMENT, NOTHING);
    }
    let job = JobId {
        task: TaskNo(task),
        count,
    };
    match scheduler.run(job, ticks, done) {
        Ok(how) => (status::OK, of_job(how_number(how), job, 0, 0)),
        Err(RunFault::TickOut { job }) => (status::TICK_OUT, of_job(0, job, 0, 0)),
        Err(RunFault::NotChosen { chosen }) => (status::NOT_CHOSEN, of_some(chosen)),
        Err(RunFault::Past { most }) => (status::PAST, at_tick(0, most as u64)),
        Err(RunFault::Full) => (status::FULL, NOTHING),
    }
}

/// This many idle ticks.
pub fn idle_for<R: Recorder>(scheduler: &mut Restartable<R>, ticks: u64) -> (u32, CAnswer)
    ensures exact { result ≡ runs.idle_for_returns scheduler.old.core ticks }
    ensures state { scheduler.new ≡ spec.with_core scheduler.old (runs.idle_for_after scheduler.old.core ticks) }
{
    if ticks == 0 {
        return (status::ARGUMENT, NOTHING);
    }
    match scheduler.idle_for(ticks as usize) {
        Ok(at) => (status::OK, at_tick(IDLE, at)),
        Err(IdleFault::TickOut { job }) => (status::TICK_OUT, of_job(0, job, 0, 0)),
        Err(IdleFault::Pending { job }) => (status::PENDING, of_job(0, job, 0, 0)),
        Err(IdleFault::Full) => (status::FULL, NOTHING),
    }
}

pub fn of_job(what: u32, job: JobId, before: u32, at: u64) -> CAnswer
    ensures { result ≡ spec.of_job what job before at }
{
    CAnswer {
        what,
        task: job.task.0,
        count: job.count,
        before,
        at,
    }
}

fn at_tick(what: u32, at: u64) -> CAnswer
    ensures { result ≡ spec.at_tick what at }
{
    CAnswer {
        what,
        at,
        ..NOTHING
    }
}

fn of_some(job: Option<JobId>) -> CAnswer
    ensures { result ≡ spec.of_some job }
{
    match job {
        Some(job) => of_job(0, job, 0, 0),
        None => NOTHING,
    }
}
