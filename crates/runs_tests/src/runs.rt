//! Tests of runs: rows worked by hand, and random schedules by events beside the same schedules tick by tick.
ghost use Rattle.std.specs.Prelude.{◌≤◌, ◌<◌};

use mc_model::How::{Done, More, Over, Stop};
use mc_model::{How, Row};
use mc_task::{JobId, Rule, TaskNo};
use mode_core::{
    Boundary, Core, GrantFault, IdleFault, PendingJob, ReleaseFault, Released, RunFault,
};
use scheduler_tests::rules::set_under;
use std::alloc::Global;
use std::test::Fail;
use worked_sets::{
    CONTROL, Line, PLAIN_PAIR, QUARTER_SCALE, TAP_AND_ARM, TWO_HIGH_TASKS, job, kept, tick,
};

// An event of a tickless dispatcher.
#[derive(Clone, Copy)]
enum Event {
    Release(u32),
    Run(JobId, u32, bool),
    Idle(usize),
}

// What an event returns; `None` for a task or a number that no call takes.
#[derive(Clone, Copy, PartialEq)]
enum Answer {
    Released(Result<Released, ReleaseFault>),
    Ran(Result<How, RunFault>),
    Idle(Result<u64, IdleFault>),
    NoCall,
}

// Makes the event in one call.
fn at_once(core: &mut Core, event: Event) -> Answer {
    match event {
        Event::Release(task) if core.set().get(TaskNo(task)).is_some() => {
            Answer::Released(core.release(TaskNo(task)))
        }
        Event::Run(job, ticks, done) if 1 <= ticks => Answer::Ran(core.run(job, ticks, done)),
        Event::Idle(count) if 1 <= count => Answer::Idle(core.idle_for(count)),
        _ => Answer::NoCall,
    }
}

// A pending job, its release, deadline and key, and the ticks that it had.
type Waiting = (JobId, u64, u64, u128, u32);

// What a caller can read of a task: its earliest next release, its pending job, and the job that an overrun discarded.
type OfTask = (u64, Option<Waiting>, Option<JobId>);

// The pending job of the task, which is in the set.
fn waiting(core: &Core, task: TaskNo) -> Option<Waiting> {
    core.set().get(task)?;
    let PendingJob {
        job,
        release,
        deadline,
        key,
        used,
    } = core.pending_job(task)?;
    Some((job, release, deadline, key, used))
}

// What can be read of the task, if it is in the set.
fn read(core: &Core, task: u32) -> Option<OfTask> {
    core.set().get(TaskNo(task))?;
    let next = core.next_allowed(TaskNo(task));
    let discarded = core.discarded(TaskNo(task));
    Some((next, waiting(core, TaskNo(task)), discarded))
}

// An event of the worked schedule: what it returns, then the boundary, and what can be read of tasks 1 and 2.
type Step = (
    Event,
    Answer,
    Option<(JobId, u32)>,
    Option<OfTask>,
    Option<OfTask>,
);

// The control set has ctl (high, 10; 2, 6) and log (low, 10; 5), and its scale is 2/5. A key counts fifths of a tick: for
// ctl released at r, 5 r + 2 * 10 in low mode and 5 (r + 10) in high mode, and for log 5 (r + 10).
static WORKED: [Step; 14] = [
    (
        Event::Release(1),
        Answer::Released(Ok(Released::Kept {
            job: job!(1, 1),
            at: 0,
        })),
        Some((job!(1, 1), 2)),
        Some((10, Some((job!(1, 1), 0, 10, 20, 0)), None)),
        Some((0, None, None)),
    ),
    (
        Event::Release(2),
        Answer::Released(Ok(Released::Kept {
            job: job!(2, 1),
            at: 0,
        })),
        Some((job!(1, 1), 2)),
        Some((10, Some((job!(1, 1), 0, 10, 20, 0)), None)),
        Some((10, Some((job!(2, 1), 0, 10, 50, 0)), None)),
    ),
    (
        Event::Run(job!(1, 1), 3, true),
        Answer::Ran(Err(RunFault::Past { most: 2 })),
        Some((job!(1, 1), 2)),
        Some((10, Some((job!(1, 1), 0, 10, 20, 0)), None)),
        Some((10, Some((job!(2, 1), 0, 10, 50, 0)), None)),
    ),
    (
        Event::Run(job!(2, 1), 1, false),
        Answer::Ran(Err(RunFault::NotChosen {
            chosen: Some(job!(1, 1)),
        })),
        Some((job!(1, 1), 2)),
        Some((10, Some((job!(1, 1), 0, 10, 20, 0)), None)),
        Some((10, Some((job!(2, 1), 0, 10, 50, 0)), None)),
    ),
    (
        Event::Idle(1),
        Answer::Idle(Err(IdleFault::Pending { job: job!(1, 1) })),
        Some((job!(1, 1), 2)),
        Some((10, Some((job!(1, 1), 0, 10, 20, 0)), None)),
        Some((10, Some((job!(2, 1), 0, 10, 50, 0)), None)),
    ),
    (
        Event::Run(job!(1, 1), 2, false),
        Answer::Ran(Ok(Over)),
        Some((job!(1, 1), 4)),
        Some((10, Some((job!(1, 1), 0, 10, 50, 2)), None)),
        Some((10, None, Some(job!(2, 1)))),
    ),
    (
        Event::Run(job!(1, 1), 3, false),
        Answer::Ran(Ok(More)),
        Some((job!(1, 1), 1)),
        Some((10, Some((job!(1, 1), 0, 10, 50, 5)), None)),
        Some((10, None, Some(job!(2, 1)))),
    ),
    (
        Event::Run(job!(1, 1), 1, true),
        Answer::Ran(Ok(Done)),
        None,
        Some((10, None, None)),
        Some((10, None, Some(job!(2, 1)))),
    ),
    (
        Event::Idle(4),
        Answer::Idle(Ok(6)),
        None,
        Some((10, None, None)),
        Some((10, None, Some(job!(2, 1)))),
    ),
    (
        Event::Release(2),
        Answer::Released(Ok(Released::Kept {
            job: job!(2, 2),
            at: 10,
        })),
        Some((job!(2, 2), 5)),
        Some((10, None, None)),
        Some((20, Some((job!(2, 2), 10, 20, 100, 0)), Some(job!(2, 1)))),
    ),
    (
        Event::Run(job!(2, 2), 1, false),
        Answer::Ran(Ok(More)),
        Some((job!(2, 2), 4)),
        Some((10, None, None)),
        Some((20, Some((job!(2, 2), 10, 20, 100, 1)), Some(job!(2, 1)))),
    ),
    (
        Event::Run(job!(2, 2), 4, false),
        Answer::Ran(Ok(Stop)),
        None,
        Some((10, None, None)),
        Some((20, None, Some(job!(2, 1)))),
    ),
    (
        Event::Idle(3),
        Answer::Idle(Err(IdleFault::Full)),
        None,
        Some((10, None, None)),
        Some((20, None, Some(job!(2, 1)))),
    ),
    (
        Event::Idle(2),
        Answer::Idle(Ok(15)),
        None,
        Some((10, None, None)),
        Some((20, None, Some(job!(2, 1)))),
    ),
];

// The rows that the worked schedule leaves.
static WORKED_ROWS: [Row; 20] = [
    kept!(1, 1),
    kept!(2, 1),
    tick!(1, 1, More),
    tick!(1, 1, Over),
    tick!(1, 1, More),
    tick!(1, 1, More),
    tick!(1, 1, More),
    tick!(1, 1, Done),
    Row::Idle,
    Row::Idle,
    Row::Idle,
    Row::Idle,
    kept!(2, 2),
    tick!(2, 2, More),
    tick!(2, 2, More),
    tick!(2, 2, More),
    tick!(2, 2, More),
    tick!(2, 2, Stop),
    Row::Idle,
    Row::Idle,
];

// The chosen job and the ticks that it may run.
fn boundary(core: &Core) -> Option<(JobId, u32)> {
    let Boundary { job, ticks } = core.boundary()?;
    Some((job, ticks))
}

// The index of the first step that the core does not take so.
fn first_other(core: &mut Core, steps: &[Step]) -> Option<usize> {
    for (index, (event, answer, next, first, second)) in steps.iter().enumerate() {
        let taken = at_once(core, *event) == *answer;
        if !taken
            || boundary(core) != *next
            || read(core, 1) != *first
            || read(core, 2) != *second
        {
            return Some(index);
        }
    }
    None
}

// A core over the set of these lines, with this capacity.
fn core(alloc: Global, lines: &[Line], rule: Rule, places: usize) -> Result<Core, Fail>
    requires { places ≤ 1000 }
{
    Ok(Core::new(alloc, set_under(alloc, lines, rule)?, rule, places)?)
}

#[test]
fn a_schedule_by_runs_is_the_one_that_was_worked_by_hand(rt: HostRuntime) -> Result<(), Fail> {
    let mut core = core(rt.alloc(), &CONTROL, Rule::Virtual { p: 2, q: 5 }, 20)?;
    assert_eq!(rt; first_other(&mut core, &WORKED), None);
    assert!(rt; core.rows() == WORKED_ROWS.as_slice());
    Ok(())
}

// Makes one event tick by tick: a run by a grant and an outcome for each tick, none of which is refused.
fn by_ticks(core: &mut Core, event: Event) -> bool {
    match event {
        Event::Release(task) => {
            core.set().get(TaskNo(task)).is_some() && core.release(TaskNo(task)).is_ok()
        }
        Event::Run(job, ticks, done) => {
            for tick in 1..=ticks {
                if !one_tick(core, job, done && tick == ticks) {
                    return false;
                }
            }
            true
        }
        Event::Idle(count) => {
            for _ in 0..count {
                if core.idle().is_err() {
                    return false;
                }
            }
            true
        }
    }
}

fn one_tick(core: &mut Core, job: JobId, done: bool) -> bool {
    core.set().get(job.task).is_some()
        && core.grant(job.task).is_ok()
        && core.outcome(job, done).is_ok()
}

// How the newest row ends its tick.
fn newest(core: &Core) -> Option<How> {
    match core.rows().last() {
        Some(Row::Tick { how, .. }) => Some(*how),
        _ => None,
    }
}

// What a grant to the job's task returns.
fn why_no_grant(core: &mut Core, job: JobId) -> Option<GrantFault> {
    core.set().get(job.task)?;
    core.grant(job.task).err()
}

// Whether a refusal of an event is right, by single ticks in the core, which has not had the event. After it the core has
// had some of these ticks.
fn is_refused(core: &mut Core, event: Event, answer: Answer) -> bool {
    match (event, answer) {
        (Event::Release(task), Answer::Released(fault)) => {
            core.set().get(TaskNo(task)).is_some() && core.release(TaskNo(task)) == fault
        }
        (Event::Run(job, _, _), Answer::Ran(Err(RunFault::NotChosen { chosen }))) => {
            chosen != Some(job) && core.chosen() == chosen
        }
        (Event::Run(job, ticks, _), Answer::Ran(Err(RunFault::Past { most }))) => {
            most < ticks && ends_after(core, job, most)
        }
        (Event::Run(job, ticks, _), Answer::Ran(Err(RunFault::Full))) => {
            !by_ticks(core, Event::Run(job, ticks, false))
                && why_no_grant(core, job) == Some(GrantFault::Full)
        }
        (Event::Idle(_), Answer::Idle(Err(IdleFault::Pending { job }))) => {
            core.chosen() == Some(job)
        }
        (Event::Idle(count), Answer::Idle(Err(IdleFault::Full))) => {
            !by_ticks(core, Event::Idle(count)) && core.idle() == Err(IdleFault::Full)
        }
        _ => false,
    }
}

// Whether the job goes on after each of this many single ticks except the last, after which it does not. If the capacity
// ends before, it goes on after each tick that there is.
fn ends_after(core: &mut Core, job: JobId, ticks: u32) -> bool {
    for tick in 1..=ticks {
        if !one_tick(core, job, false) {
            return core.rows().len() == core.places();
        }
        if (newest(core) == Some(More)) != (tick < ticks) {
            return false;
        }
    }
    true
}

// The pending jobs of the first three tasks, if they are low ones.
fn low_jobs(core: &Core) -> [Option<JobId>; 3] {
    let mut jobs = [None; 3];
    for index in 0..3 {
        jobs[index] = low_job(core, index as u32 + 1);
    }
    jobs
}

fn low_job(core: &Core, task: u32) -> Option<JobId> {
    if core.set().get(TaskNo(task))?.is_high() {
        return None;
    }
    Some(waiting(core, TaskNo(task))?.0)
}

// Whether both cores have the same rows, boundary and tasks, and exactly these jobs as discarded.
fn stand_alike(runs: &Core, ticks: &Core, discarded: &[Option<JobId>; 3]) -> bool {
    if runs.rows() != ticks.rows() || boundary(runs) != boundary(ticks) {
        return false;
    }
    for index in 0..3 {
        let of_task = read(runs, index as u32 + 1);
        if of_task != read(ticks, index as u32 + 1) {
            return false;
        }
        if let Some((_, _, job)) = of_task {
            if job != discarded[index] {
                return false;
            }
        }
    }
    true
}

// The next number of a pseudorandom sequence.
fn next(seed: &mut u32, below: u32) -> u32
    requires { 1 ≤ below }
    ensures { result < below }
{
    *seed = seed.wrapping_mul(1664525).wrapping_add(1013904223);
    (*seed >> 8) % below
}

// A random event: mostly of the chosen job, and mostly within its boundary.
fn any_event(core: &Core, seed: &mut u32) -> Event {
    let kind = next(seed, 8);
    if kind < 3 {
        return Event::Release(1 + next(seed, 3));
    }
    let Some((job, most)) = boundary(core) else {
        return Event::Idle(1 + next(seed, 9) as usize);
    };
    let done = next(seed, 3) == 0;
    match kind {
        3 => Event::Run(job, most.saturating_add(next(seed, 3)).max(1), done),
        4 => Event::Run(
            JobId {
                task: TaskNo(1 + next(seed, 3)),
                ..job
            },
            1,
            done,
        ),
        5 if done => Event::Idle(1 + next(seed, 4) as usize),
        _ => Event::Run(job, 1 + next(seed, most.max(1)), done),
    }
}

static SETS: [(&[Line], Rule); 5] = [
    (&CONTROL, Rule::Virtual { p: 2, q: 5 }),
    (&PLAIN_PAIR, Rule::Plain),
    (&QUARTER_SCALE, Rule::Virtual { p: 1, q: 4 }),
    (&TAP_AND_ARM, Rule::Virtual { p: 1, q: 2 }),
    (&TWO_HIGH_TASKS, Rule::Virtual { p: 1, q: 2 }),
];

// Whether the event was refused for its length: single ticks that show why are taken, so the schedules differ from then on.
fn ends_the_schedule(answer: Answer) -> bool {
    matches!(
        answer,
        Answer::Ran(Err(RunFault::Past { .. } | RunFault::Full))
            | Answer::Idle(Err(IdleFault::Full))
    )
}

// Makes the event by runs in one core and tick by tick in the other. Returns whether both went alike; the second core has
// then had each tick, and single ticks have shown why a refusal came.
fn goes_alike(runs: &mut Core, ticks: &mut Core, event: Event) -> Option<Answer> {
    let answer = at_once(runs, event);
    let alike = match answer {
        Answer::NoCall => true,
        Answer::Released(Ok(_)) | Answer::Ran(Ok(_)) | Answer::Idle(Ok(_)) => by_ticks(
            ticks, event,
        ),
        _ => is_refused(ticks, event, answer),
    };
    if alike { Some(answer) } else { None }
}

// Whether a random schedule by runs leaves what single ticks leave: after each event rows, boundary, and what can be read
// of each task.
fn is_its_ticks(alloc: Global, seed: &mut u32) -> Result<bool, Fail> {
    let (lines, rule) = SETS[next(seed, 5) as usize];
    let places = 4 + next(seed, 60) as usize;
    let mut runs = core(alloc, lines, rule, places)?;
    let mut ticks = core(alloc, lines, rule, places)?;
    Ok(go_alike(&mut runs, &mut ticks, seed))
}

// Whether forty random events, or those up to a refusal for its length, go alike in both cores.
fn go_alike(runs: &mut Core, ticks: &mut Core, seed: &mut u32) -> bool {
    let mut discarded = [None; 3];
    for _ in 0..40 {
        let event = any_event(runs, seed);
        let low = low_jobs(ticks);
        let Some(answer) = goes_alike(runs, ticks, event) else {
            return false;
        };
        if ends_the_schedule(answer) {
            return true;
        }
        if answer == Answer::Ran(Ok(Over)) {
            discarded = low;
        }
        if !stand_alike(runs, ticks, &discarded) {
            return false;
        }
    }
    true
}

// How many random schedules are tried.
const SCHEDULES: u32 = 300;

// The number of the first random schedule that differs.
fn first_different(alloc: Global) -> Result<Option<u32>, Fail> {
    let mut seed = 7;
    for number in 0..SCHEDULES {
        if !is_its_ticks(alloc, &mut seed)? {
            return Ok(Some(number));
        }
    }
    Ok(None)
}

#[test]
fn random_schedules_by_runs_leave_what_single_ticks_leave(rt: HostRuntime) -> Result<(), Fail> {
    assert_eq!(rt; first_different(rt.alloc())?, None);
    Ok(())
}
