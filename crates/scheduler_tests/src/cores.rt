//! Tests of the scheduler's core.
use crate::rules::set_under;
use mc_model::How;
use mc_task::{JobId, Rule, TaskNo};
use mode_core::{Core, GrantFault, Granted, IdleFault, NotOut, ReleaseFault, Released};
use std::alloc::Global;
use std::test::Fail;
use worked_sets::{CONTROL, job};

// A core over the control set, with this capacity.
fn control(alloc: Global, places: u32) -> Result<Core, Fail> {
    let rule = Rule::Virtual { p: 2, q: 5 };
    let set = set_under(alloc, &CONTROL, rule)?;
    Ok(Core::new(alloc, set, rule, places as usize)?)
}

// What a release of the task returns, if the task is in the set.
fn release(core: &mut Core, task: u32) -> Option<Result<Released, ReleaseFault>> {
    core.set().get(TaskNo(task))?;
    Some(core.release(TaskNo(task)))
}

// What a grant to the task returns, if the task is in the set.
fn grant(core: &mut Core, task: u32) -> Option<Result<Granted, GrantFault>> {
    core.set().get(TaskNo(task))?;
    Some(core.grant(TaskNo(task)))
}

// A call of a core.
#[derive(Clone, Copy)]
enum Call {
    Release(u32),
    Grant(u32),
    Outcome(JobId, bool),
    Idle,
}

// What a call of a core returns.
#[derive(Clone, Copy, PartialEq)]
enum Answer {
    Released(Option<Result<Released, ReleaseFault>>),
    Granted(Option<Result<Granted, GrantFault>>),
    Outcome(Result<How, NotOut>),
    Idle(Result<u64, IdleFault>),
}

fn ask(core: &mut Core, call: Call) -> Answer {
    match call {
        Call::Release(task) => Answer::Released(release(core, task)),
        Call::Grant(task) => Answer::Granted(grant(core, task)),
        Call::Outcome(job, done) => Answer::Outcome(core.outcome(job, done)),
        Call::Idle => Answer::Idle(core.idle()),
    }
}

// The index of the first call that is not answered so.
fn first_wrong(core: &mut Core, calls: &[(Call, Answer)]) -> Option<usize> {
    for (index, (call, answer)) in calls.iter().enumerate() {
        if ask(core, *call) != *answer {
            return Some(index);
        }
    }
    None
}

const CTL: JobId = job!(1, 1);

const LOG: JobId = job!(2, 1);

// The calls of a core with a capacity of four rows, and what they return.
static FOUR_PLACES: [(Call, Answer); 13] = [
    (Call::Idle, Answer::Idle(Ok(0))),
    (
        Call::Release(1),
        Answer::Released(Some(Ok(Released::Kept { job: CTL, at: 1 }))),
    ),
    (
        Call::Release(1),
        Answer::Released(Some(Err(ReleaseFault::TooSoon { next: 11 }))),
    ),
    (
        Call::Grant(2),
        Answer::Granted(Some(Err(GrantFault::NotChosen { chosen: Some(CTL) }))),
    ),
    (
        Call::Outcome(CTL, true),
        Answer::Outcome(Err(NotOut {
            given: CTL,
            out: None,
        })),
    ),
    (
        Call::Grant(1),
        Answer::Granted(Some(Ok(Granted {
            job: CTL,
            at: 1,
            before: 0,
        }))),
    ),
    (
        Call::Grant(1),
        Answer::Granted(Some(Err(GrantFault::TickOut { job: CTL }))),
    ),
    (
        Call::Idle,
        Answer::Idle(Err(IdleFault::TickOut { job: CTL })),
    ),
    (
        Call::Release(1),
        Answer::Released(Some(Err(ReleaseFault::Running { job: CTL }))),
    ),
    (
        Call::Release(2),
        Answer::Released(Some(Ok(Released::Held { job: LOG, at: 2 }))),
    ),
    (Call::Outcome(CTL, false), Answer::Outcome(Ok(How::More))),
    (
        Call::Idle,
        Answer::Idle(Err(IdleFault::Pending { job: CTL })),
    ),
    (Call::Grant(1), Answer::Granted(Some(Err(GrantFault::Full)))),
];

// The calls of a core with a capacity of one row, and what they return.
static ONE_PLACE: [(Call, Answer); 3] = [
    (Call::Idle, Answer::Idle(Ok(0))),
    (
        Call::Release(1),
        Answer::Released(Some(Err(ReleaseFault::Full))),
    ),
    (Call::Idle, Answer::Idle(Err(IdleFault::Full))),
];

#[test]
fn calls_are_answered_in_turn(rt: HostRuntime) -> Result<(), Fail> {
    let mut core = control(rt.alloc(), 4)?;
    assert_eq!(rt; first_wrong(&mut core, &FOUR_PLACES), None);
    Ok(())
}

#[test]
fn one_place_is_one_row(rt: HostRuntime) -> Result<(), Fail> {
    let mut core = control(rt.alloc(), 1)?;
    assert_eq!(rt; first_wrong(&mut core, &ONE_PLACE), None);
    Ok(())
}

const FIRST_TICK: Granted = Granted {
    job: CTL,
    at: 0,
    before: 0,
};

const SECOND_TICK: Granted = Granted {
    job: CTL,
    at: 1,
    before: 1,
};

// A release in the tick that switches, before the tick's outcome.
static EARLY_RELEASE: [(Call, Answer); 6] = [
    (
        Call::Release(1),
        Answer::Released(Some(Ok(Released::Kept { job: CTL, at: 0 }))),
    ),
    (Call::Grant(1), Answer::Granted(Some(Ok(FIRST_TICK)))),
    (Call::Outcome(CTL, false), Answer::Outcome(Ok(How::More))),
    (Call::Grant(1), Answer::Granted(Some(Ok(SECOND_TICK)))),
    (
        Call::Release(2),
        Answer::Released(Some(Ok(Released::Held { job: LOG, at: 2 }))),
    ),
    (Call::Outcome(CTL, false), Answer::Outcome(Ok(How::Over))),
];

// A release in that tick, after its outcome.
static LATE_RELEASE: [(Call, Answer); 6] = [
    (
        Call::Release(1),
        Answer::Released(Some(Ok(Released::Kept { job: CTL, at: 0 }))),
    ),
    (Call::Grant(1), Answer::Granted(Some(Ok(FIRST_TICK)))),
    (Call::Outcome(CTL, false), Answer::Outcome(Ok(How::More))),
    (Call::Grant(1), Answer::Granted(Some(Ok(SECOND_TICK)))),
    (Call::Outcome(CTL, false), Answer::Outcome(Ok(How::Over))),
    (
        Call::Release(2),
        Answer::Released(Some(Ok(Released::Dropped { job: LOG, at: 2 }))),
    ),
];

// Whether the two cores are equal after the switch.
fn stand_alike(early: &Core, late: &Core) -> bool {
    early.rows() == late.rows()
        && (early.rule(), early.out(), early.high_mode(), early.chosen())
            == (Rule::Virtual { p: 2, q: 5 }, None, true, Some(job!(1, 1)))
        && (early.ticks(), early.ticks_begun(), early.places()) == (2, 2, 9)
}

#[test]
fn a_release_beside_the_switch_is_dropped_in_either_order(rt: HostRuntime) -> Result<(), Fail> {
    let mut early = control(rt.alloc(), 9)?;
    let mut late = control(rt.alloc(), 9)?;
    assert_eq!(rt; first_wrong(&mut early, &EARLY_RELEASE), None);
    assert_eq!(rt; first_wrong(&mut late, &LATE_RELEASE), None);
    assert!(rt; stand_alike(&early, &late));
    Ok(())
}
