//! Tests of floors and their plans.
ghost use Rattle.std.specs.Prelude.{◌≡◌, true, None, IfOk};
ghost use Rattle.timetable.specs.Floor.{is_planned};

mod plain_core;
mod side_by_side;

use crate::rules::set_under;
use mc_model::How;
use mc_model::How::{Done, More, Over};
use mc_task::{JobId, Rule, TaskNo};
use mode_core::{Core, GrantFault, Granted, IdleFault, NotOut, ReleaseFault, Released};
use std::alloc::Global;
use std::test::Fail;
use timetable::{Act, ActFault, Floor, Plan, PlanFault};
use work_file::Work;
use worked_sets::{
    CONTROL, HELD_RELEASE_ROWS, HELD_RELEASE_WORK, Job, Line, PLANS, WorkedPlan, job, work_rows,
};

// The rule of `CONTROL`.
const TWO_FIFTHS: Rule = Rule::Virtual { p: 2, q: 5 };

// A floor with no rows, whose plan is these jobs, over a set with this rule.
fn floor(alloc: Global, lines: &[Line], rule: Rule, jobs: &[Job], ticks: u32) -> Result<Floor, Fail>
    ensures { IfOk result (λ floor. (is_planned floor.plan ≡ true) × (floor.core.out ≡ None)) }
{
    if ticks == 0 || ticks > 1000 {
        return Err("ticks".into());
    }
    let rows = work_rows(alloc, jobs)?;
    let set = set_under(alloc, lines, rule)?;
    let work = Work::new(&set, rows)?;
    let places = ticks as usize + work.rows().len();
    let core = Core::new(alloc, set, rule, places)?;
    let plan = Plan::Rows {
        work,
        ticks: u64::from(ticks),
    };
    Ok(Floor::new(core, plan))
}

// What a release of the task returns, if the task is in the set.
fn release(floor: &mut Floor, task: u32) -> Option<Result<Released, ActFault<ReleaseFault>>> {
    floor.core().set().get(TaskNo(task))?;
    Some(floor.release(TaskNo(task)))
}

// What a grant to the task returns, if the task is in the set.
fn grant(floor: &mut Floor, task: u32) -> Option<Result<Granted, ActFault<GrantFault>>> {
    floor.core().set().get(TaskNo(task))?;
    Some(floor.grant(TaskNo(task)))
}

static WORKED: [WorkedPlan; 6] = PLANS;

// Whether the floor has ended as the plan says.
fn ended_as(floor: &Floor, plan: &WorkedPlan) -> bool {
    let core = floor.core();
    core.rule() == plan.rule && core.rows() == plan.rows && floor.next_act() == Act::Finished
}

// Whether a run of the plan gives its rows.
fn runs_as(alloc: Global, plan: &WorkedPlan) -> Result<bool, Fail> {
    let mut floor = floor(alloc, plan.lines, plan.rule, plan.jobs, plan.ticks)?;
    floor.finish();
    Ok(ended_as(&floor, plan))
}

// What the first plan shows whose run gives other rows.
fn first_other_run(alloc: Global) -> Result<Option<&'static str>, Fail> {
    for plan in &WORKED {
        if !runs_as(alloc, plan)? {
            return Ok(Some(plan.shows));
        }
    }
    Ok(None)
}

#[test]
fn runs_give_the_rows_that_were_worked_by_hand(rt: HostRuntime) -> Result<(), Fail> {
    assert_eq!(rt; first_other_run(rt.alloc())?, None);
    Ok(())
}

// A call of a floor.
#[derive(Clone, Copy)]
enum Call {
    Next,
    Release(u32),
    Grant(u32),
    Outcome(JobId, bool),
    Idle,
    Finish,
}

// What a call of a floor returns.
#[derive(Clone, Copy, PartialEq)]
enum Answer {
    Next(Act),
    Released(Option<Result<Released, ActFault<ReleaseFault>>>),
    Granted(Option<Result<Granted, ActFault<GrantFault>>>),
    Outcome(Result<How, NotOut>),
    Idle(Result<u64, ActFault<IdleFault>>),
    Finished(Option<()>),
}

fn ask(floor: &mut Floor, call: Call) -> Answer {
    match call {
        Call::Next => Answer::Next(floor.next_act()),
        Call::Release(task) => Answer::Released(release(floor, task)),
        Call::Grant(task) => Answer::Granted(grant(floor, task)),
        Call::Outcome(job, done) => Answer::Outcome(floor.outcome(job, done)),
        Call::Idle => Answer::Idle(floor.idle()),
        Call::Finish => Answer::Finished(finished(floor)),
    }
}

// The index of the first call that is not answered so.
fn first_wrong(floor: &mut Floor, calls: &[(Call, Answer)]) -> Option<usize> {
    for (index, (call, answer)) in calls.iter().enumerate() {
        if ask(floor, *call) != *answer {
            return Some(index);
        }
    }
    None
}

const DUE_CTL: PlanFault = PlanFault::Due { task: TaskNo(1) };

const DUE_LOG: PlanFault = PlanFault::Due { task: TaskNo(2) };

// The calls of the plan with a release that is held, and what they return.
static HELD_RELEASE: [(Call, Answer); 18] = [
    (Call::Next, Answer::Next(Act::Release(TaskNo(1)))),
    (
        Call::Grant(1),
        Answer::Granted(Some(Err(ActFault::Plan(DUE_CTL)))),
    ),
    (Call::Idle, Answer::Idle(Err(ActFault::Plan(DUE_CTL)))),
    (
        Call::Release(2),
        Answer::Released(Some(Err(ActFault::Plan(DUE_CTL)))),
    ),
    (
        Call::Release(1),
        Answer::Released(Some(Ok(Released::Kept {
            job: job!(1, 1),
            at: 0,
        }))),
    ),
    (Call::Next, Answer::Next(Act::Grant(TaskNo(1)))),
    (
        Call::Release(2),
        Answer::Released(Some(Err(ActFault::Plan(PlanFault::NotPlanned)))),
    ),
    (
        Call::Grant(1),
        Answer::Granted(Some(Ok(Granted {
            job: job!(1, 1),
            at: 0,
            before: 0,
        }))),
    ),
    (Call::Outcome(job!(1, 1), false), Answer::Outcome(Ok(More))),
    (
        Call::Grant(1),
        Answer::Granted(Some(Ok(Granted {
            job: job!(1, 1),
            at: 1,
            before: 1,
        }))),
    ),
    (Call::Next, Answer::Next(Act::Release(TaskNo(2)))),
    (
        Call::Grant(2),
        Answer::Granted(Some(Err(ActFault::Plan(DUE_LOG)))),
    ),
    (
        Call::Release(2),
        Answer::Released(Some(Ok(Released::Held {
            job: job!(2, 1),
            at: 2,
        }))),
    ),
    (Call::Next, Answer::Next(Act::Wait(job!(1, 1)))),
    (Call::Outcome(job!(1, 1), false), Answer::Outcome(Ok(Over))),
    (Call::Finish, Answer::Finished(Some(()))),
    (
        Call::Idle,
        Answer::Idle(Err(ActFault::Plan(PlanFault::Finished))),
    ),
    (
        Call::Grant(1),
        Answer::Granted(Some(Err(ActFault::Plan(PlanFault::Finished)))),
    ),
];

#[test]
fn the_calls_of_a_planned_floor_are_answered_in_turn(rt: HostRuntime) -> Result<(), Fail> {
    let mut floor = floor(rt.alloc(), &CONTROL, TWO_FIFTHS, &HELD_RELEASE_WORK, 4)?;
    assert!(rt; floor.is_planned());
    assert_eq!(rt; first_wrong(&mut floor, &HELD_RELEASE), None);
    assert!(rt; floor.core().rows() == HELD_RELEASE_ROWS.as_slice());
    Ok(())
}

// Finishes the plan, if there is one and no tick is granted.
fn finished(floor: &mut Floor) -> Option<()> {
    if floor.core().out().is_some() || !floor.is_planned() {
        return None;
    }
    floor.finish();
    Some(())
}

const LOG_CHOSEN: GrantFault = GrantFault::NotChosen {
    chosen: Some(job!(2, 1)),
};

// The calls of a floor with a free plan, and what they return.
static FREE_CALLS: [(Call, Answer); 10] = [
    (Call::Next, Answer::Next(Act::Idle)),
    (Call::Idle, Answer::Idle(Ok(0))),
    (
        Call::Release(2),
        Answer::Released(Some(Ok(Released::Kept {
            job: job!(2, 1),
            at: 1,
        }))),
    ),
    (
        Call::Release(2),
        Answer::Released(Some(Err(ActFault::Core(ReleaseFault::TooSoon { next: 11 })))),
    ),
    (
        Call::Grant(1),
        Answer::Granted(Some(Err(ActFault::Core(LOG_CHOSEN)))),
    ),
    (
        Call::Grant(2),
        Answer::Granted(Some(Ok(Granted {
            job: job!(2, 1),
            at: 1,
            before: 0,
        }))),
    ),
    (Call::Next, Answer::Next(Act::Wait(job!(2, 1)))),
    (
        Call::Idle,
        Answer::Idle(Err(ActFault::Core(IdleFault::TickOut { job: job!(2, 1) }))),
    ),
    (Call::Outcome(job!(2, 1), true), Answer::Outcome(Ok(Done))),
    (Call::Next, Answer::Next(Act::Idle)),
];

#[test]
fn a_free_floor_answers_as_its_core_does(rt: HostRuntime) -> Result<(), Fail> {
    let set = set_under(rt.alloc(), &CONTROL, TWO_FIFTHS)?;
    let core = Core::new(rt.alloc(), set, TWO_FIFTHS, 4)?;
    let mut floor = Floor::new(core, Plan::Free);
    assert!(rt; !floor.is_planned());
    assert_eq!(rt; first_wrong(&mut floor, &FREE_CALLS), None);
    Ok(())
}
