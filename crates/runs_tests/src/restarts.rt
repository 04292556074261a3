//! Tests of a scheduler whose counts start anew, with values worked by hand.
use mc_model::How;
use mc_model::How::{Done, Over, Stop};
use mc_task::{JobId, Rule, TaskNo};
use mode_core::{Core, ReleaseFault, Released};
use restart::{RestartFault, Restartable};
use scheduler_tests::rules::set_under;
use std::alloc::Global;
use std::test::Fail;
use worked_sets::{CONTROL, job};

// A call, with the task and the ticks that it is about.
#[derive(Clone, Copy)]
enum Call {
    Release(u32),
    Run(JobId, u32, bool),
    Idle(usize),
    Grant(u32),
    Outcome(JobId, bool),
    Restart,
}

// What a call returns, and `Other` if it is refused otherwise.
#[derive(Clone, Copy, PartialEq)]
enum Answer {
    Kept(JobId, u64),
    TooSoon(u64),
    Ended(How),
    Idle(u64),
    Granted(u64),
    Restarted(Result<(), RestartFault>),
    Other,
}

fn release(scheduler: &mut Restartable, task: u32) -> Answer {
    if scheduler.core().set().get(TaskNo(task)).is_none() {
        return Answer::Other;
    }
    match scheduler.release(TaskNo(task)) {
        Ok(Released::Kept { job, at }) => Answer::Kept(job, at),
        Err(ReleaseFault::TooSoon { next }) => Answer::TooSoon(next),
        _ => Answer::Other,
    }
}

fn grant(scheduler: &mut Restartable, task: u32) -> Answer {
    if scheduler.core().set().get(TaskNo(task)).is_none() {
        return Answer::Other;
    }
    match scheduler.grant(TaskNo(task)) {
        Ok(granted) => Answer::Granted(granted.at),
        Err(_) => Answer::Other,
    }
}

fn run(scheduler: &mut Restartable, job: JobId, ticks: u32, done: bool) -> Answer {
    if ticks == 0 {
        return Answer::Other;
    }
    match scheduler.run(job, ticks, done) {
        Ok(how) => Answer::Ended(how),
        Err(_) => Answer::Other,
    }
}

fn idle(scheduler: &mut Restartable, count: usize) -> Answer {
    if count == 0 {
        return Answer::Other;
    }
    match scheduler.idle_for(count) {
        Ok(at) => Answer::Idle(at),
        Err(_) => Answer::Other,
    }
}

fn outcome(scheduler: &mut Restartable, job: JobId, done: bool) -> Answer {
    match scheduler.outcome(job, done) {
        Ok(how) => Answer::Ended(how),
        Err(_) => Answer::Other,
    }
}

fn restart(alloc: Global, scheduler: &mut Restartable) -> Result<Answer, Fail> {
    let places = scheduler.core().places();
    let rows = Vec::with_capacity(alloc, places)?;
    Ok(Answer::Restarted(scheduler.restart(alloc, rows)))
}

fn ask(alloc: Global, scheduler: &mut Restartable, call: Call) -> Result<Answer, Fail> {
    Ok(match call {
        Call::Release(task) => release(scheduler, task),
        Call::Run(job, ticks, done) => run(scheduler, job, ticks, done),
        Call::Idle(count) => idle(scheduler, count),
        Call::Grant(task) => grant(scheduler, task),
        Call::Outcome(job, done) => outcome(scheduler, job, done),
        Call::Restart => restart(alloc, scheduler)?,
    })
}

// The earliest next release of the task, if it is in the set.
fn earliest(scheduler: &Restartable, task: u32) -> Option<u64> {
    scheduler.core().set().get(TaskNo(task))?;
    Some(scheduler.earliest(TaskNo(task)))
}

// A call, what it returns, and then the clock, how many rows there are, whether the mode is high, and the earliest next
// releases of both tasks.
type Step = (Call, Answer, u64, usize, bool, u64, u64);

// The control set has ctl (high, 10; 2, 6) and log (low, 10; 5).
static STEPS: [Step; 18] = [
    (
        Call::Release(1),
        Answer::Kept(job!(1, 1), 0),
        0,
        1,
        false,
        10,
        0,
    ),
    (
        Call::Restart,
        Answer::Restarted(Err(RestartFault::Pending { job: job!(1, 1) })),
        0,
        1,
        false,
        10,
        0,
    ),
    (
        Call::Run(job!(1, 1), 2, true),
        Answer::Ended(Done),
        2,
        3,
        false,
        10,
        0,
    ),
    (Call::Restart, Answer::Restarted(Ok(())), 0, 0, false, 8, 0),
    (Call::Release(1), Answer::TooSoon(8), 0, 0, false, 8, 0),
    (
        Call::Release(2),
        Answer::Kept(job!(2, 1), 0),
        0,
        1,
        false,
        8,
        10,
    ),
    (
        Call::Run(job!(2, 1), 5, false),
        Answer::Ended(Stop),
        5,
        6,
        false,
        8,
        10,
    ),
    (Call::Restart, Answer::Restarted(Ok(())), 0, 0, false, 3, 5),
    (Call::Idle(3), Answer::Idle(0), 3, 3, false, 3, 5),
    (
        Call::Release(1),
        Answer::Kept(job!(1, 1), 3),
        3,
        4,
        false,
        13,
        5,
    ),
    (Call::Grant(1), Answer::Granted(3), 3, 4, false, 13, 5),
    (
        Call::Restart,
        Answer::Restarted(Err(RestartFault::TickOut { job: job!(1, 1) })),
        3,
        4,
        false,
        13,
        5,
    ),
    (
        Call::Outcome(job!(1, 1), false),
        Answer::Ended(How::More),
        4,
        5,
        false,
        13,
        5,
    ),
    (
        Call::Run(job!(1, 1), 1, false),
        Answer::Ended(Over),
        5,
        6,
        true,
        13,
        5,
    ),
    (
        Call::Run(job!(1, 1), 4, false),
        Answer::Ended(Stop),
        9,
        10,
        true,
        13,
        5,
    ),
    // An earliest next release that has passed is kept as 0, and the mode is low again.
    (Call::Restart, Answer::Restarted(Ok(())), 0, 0, false, 4, 0),
    (
        Call::Release(2),
        Answer::Kept(job!(2, 1), 0),
        0,
        1,
        false,
        4,
        10,
    ),
    (
        Call::Restart,
        Answer::Restarted(Err(RestartFault::Pending { job: job!(2, 1) })),
        0,
        1,
        false,
        4,
        10,
    ),
];

// The index of the first step that the scheduler does not take so.
fn first_other(alloc: Global, scheduler: &mut Restartable) -> Result<Option<usize>, Fail> {
    for (index, (call, answer, ticks, rows, high, first, second)) in STEPS.iter().enumerate() {
        let taken = ask(alloc, scheduler, *call)? == *answer;
        let core = scheduler.core();
        let stands = core.ticks() == *ticks
            && core.rows().len() == *rows
            && core.high_mode() == *high
            && earliest(scheduler, 1) == Some(*first)
            && earliest(scheduler, 2) == Some(*second);
        if !taken || !stands {
            return Ok(Some(index));
        }
    }
    Ok(None)
}

#[test]
fn a_restart_keeps_the_earliest_releases(rt: HostRuntime) -> Result<(), Fail> {
    let alloc = rt.alloc();
    let rule = Rule::Virtual { p: 2, q: 5 };
    let core = Core::new(alloc, set_under(alloc, &CONTROL, rule)?, rule, 30)?;
    let mut scheduler = Restartable::new(alloc, core)?;
    assert_eq!(rt; first_other(alloc, &mut scheduler)?, None);
    Ok(())
}
