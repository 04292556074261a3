//! The core beside a plain one, given the same calls.
ghost use Rattle.std.specs.Prelude.{◌≡◌, ◌<◌, ℕ};

use super::plain_core::PlainCore;
use crate::rules::rule_of;
use mc_model::{How, Row};
use mc_task::{JobId, Level, Task, TaskNo, TaskSet};
use mode_core::{Core, GrantFault, Granted, IdleFault, NotOut, ReleaseFault, Released};
use std::alloc::Global;
use std::test::Fail;
use worked_sets::task;

const TASKS: u32 = 128;

const CALLS: u32 = 16000;

const PLACES: usize = 4000;

// The periods of the tasks. Their least common multiple is 25,200.
const PERIODS: [u32; 8] = [200, 210, 240, 252, 280, 300, 350, 360];

// Pseudo-random numbers by a linear congruence.
#[derive(Drop)]
struct Numbers {
    last: u64,
}

impl Numbers {
    fn below(&mut self, limit: u32) -> u32
        requires { 0 < limit }
        ensures { result < limit }
    {
        let next = self.last.wrapping_mul(6364136223846793005);
        self.last = next.wrapping_add(1442695040888963407);
        (self.last >> 32) as u32 % limit
    }
}

#[derive(Clone, Copy)]
enum Call {
    Release(TaskNo),
    Grant(TaskNo),
    Outcome(JobId, bool),
    Idle,
}

#[derive(Clone, Copy, PartialEq)]
enum Answer {
    Release(Result<Released, ReleaseFault>),
    Grant(Result<Granted, GrantFault>),
    Outcome(Result<How, NotOut>),
    Idle(Result<u64, IdleFault>),
}

// The next call: often the one that advances the schedule, often a release, and now and then any other.
fn next_call(numbers: &mut Numbers, core: &PlainCore) -> Call {
    let task = TaskNo(1 + numbers.below(TASKS));
    match numbers.below(16) {
        0..8 => Call::Release(task),
        8 => Call::Grant(task),
        9 => Call::Outcome(JobId { task, count: 1 }, true),
        10 => Call::Idle,
        _ => match (core.out(), core.chosen()) {
            (Some(job), _) => Call::Outcome(job, numbers.below(8) > 0),
            (None, Some(job)) => Call::Grant(job.task),
            (None, None) => Call::Idle,
        },
    }
}

// What is seen after a call: its result, the job of the granted tick, the chosen job, the ticks begun, and whether the
// mode is high.
#[derive(Clone, Copy, PartialEq)]
struct Seen {
    answer: Answer,
    out: Option<JobId>,
    chosen: Option<JobId>,
    begun: u64,
    high: bool,
}

// What the core shows after this call, if the task is in the set.
fn ask(core: &mut Core, call: Call) -> Option<Seen> {
    let answer = match call {
        Call::Release(task) => {
            core.set().get(task)?;
            Answer::Release(core.release(task))
        }
        Call::Grant(task) => {
            core.set().get(task)?;
            Answer::Grant(core.grant(task))
        }
        Call::Outcome(job, done) => Answer::Outcome(core.outcome(job, done)),
        Call::Idle => Answer::Idle(core.idle()),
    };
    Some(Seen {
        answer,
        out: core.out(),
        chosen: core.chosen(),
        begun: core.ticks_begun(),
        high: core.high_mode(),
    })
}

// What the plain core shows after this call.
fn ask_plain(core: &mut PlainCore, call: Call) -> Option<Seen> {
    let answer = match call {
        Call::Release(task) => Answer::Release(core.release(task)?),
        Call::Grant(task) => Answer::Grant(core.grant(task)),
        Call::Outcome(job, done) => Answer::Outcome(core.outcome(job, done)?),
        Call::Idle => Answer::Idle(core.idle()?),
    };
    Some(Seen {
        answer,
        out: core.out(),
        chosen: core.chosen(),
        begun: core.ticks_begun(),
        high: core.high_mode(),
    })
}

// A task of the generated set: every second one is high, with the low budget 1 and this high budget; the others have the
// budget 1 or 2.
fn generated_task(alloc: Global, k: u32, high: u32, numbers: &mut Numbers) -> Result<Task, Fail> {
    let budget = 1 + numbers.below(2);
    let period = PERIODS[numbers.below(8) as usize];
    let (level, low, high) = if k % 2 == 0 {
        (Level::High, 1, high)
    } else {
        (Level::Low, budget, budget)
    };
    let name = format!(in alloc; "t{k}")?;
    let task = task(name.as_str(), level, period, low, high);
    Ok(task.ok_or("a name")?)
}

// A set of 128 tasks.
fn generated_set(alloc: Global, high: u32, numbers: &mut Numbers) -> Result<TaskSet, Fail> {
    let mut tasks = Vec::new(alloc);
    for k in 0..TASKS {
        tasks.push(generated_task(alloc, k, high, numbers)?)?;
    }
    Ok(TaskSet::new(tasks)?)
}

// The two cores over equal sets, under the rule of the test.
fn both(alloc: Global, set: TaskSet) -> Result<(Core, PlainCore), Fail> {
    let rule = rule_of(&set)?;
    let plain = PlainCore::new(alloc, set.copy(alloc)?, rule, PLACES)?;
    Ok((Core::new(alloc, set, rule, PLACES)?, plain))
}

// Makes the next call on both. Returns whether both show the same after it.
fn step(numbers: &mut Numbers, core: &mut Core, plain: &mut PlainCore) -> bool {
    let call = next_call(numbers, plain);
    let seen = ask(core, call);
    seen.is_some() && ask_plain(plain, call) == seen
}

// The number of the first call after which the two cores do not show the same, if there is one.
fn first_difference(numbers: &mut Numbers, core: &mut Core, plain: &mut PlainCore) -> Option<u32> {
    for k in 0..CALLS {
        if !step(numbers, core, plain) {
            return Some(k);
        }
    }
    None
}

// Whether both wrote the same rows and used up their capacity, with an overrun if one is expected.
fn ended_alike(core: &Core, plain: &PlainCore, overrun: bool) -> bool {
    let rows = core.rows();
    let over = |row: &Row| matches!(row, Row::Tick { how: How::Over, .. });
    rows == plain.rows() && rows.len() == PLACES && rows.iter().any(over) == overrun
}

// Makes random calls on both cores over a random set. Returns the number of the first call after which they do not show
// the same, or the number of calls if they do not end alike.
fn first_unlike(alloc: Global, seed: u64, high: u32) -> Result<Option<u32>, Fail> {
    let mut numbers = Numbers { last: seed };
    let set = generated_set(alloc, high, &mut numbers)?;
    let (mut core, mut plain) = both(alloc, set)?;
    let different = first_difference(&mut numbers, &mut core, &mut plain);
    if different.is_some() || ended_alike(&core, &plain, high > 1) {
        Ok(different)
    } else {
        Ok(Some(CALLS))
    }
}

#[test]
fn the_core_answers_as_a_plain_one(rt: HostRuntime) -> Result<(), Fail> {
    // Only the first set runs without a switch.
    assert_eq!(rt; first_unlike(rt.alloc(), 1, 1)?, None);
    assert_eq!(rt; first_unlike(rt.alloc(), 2, 3)?, None);
    assert_eq!(rt; first_unlike(rt.alloc(), 3, 3)?, None);
    Ok(())
}
