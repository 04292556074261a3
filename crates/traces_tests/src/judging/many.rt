//! Tests of the judge with thousands of pending jobs. The verdicts are worked out by hand.
ghost use Rattle.std.specs.Prelude.{◌≤◌};

use super::{OVERLOAD, UNSCALED, judged};
use mc_model::{How, Run, Verdict, Why};
use mc_task::Level::{High, Low};
use mc_task::{Rule, TaskSet};
use std::alloc::Global;
use std::test::Fail;
use worked_sets::{Line, job, release, set_of, task, ticks};

// The verdict on these runs and one more.
fn verdict_with(
    alloc: Global,
    set: &TaskSet,
    rule: Rule,
    runs: &Vec<Run>,
    last: Run,
) -> Result<Verdict, Fail> {
    let mut all = runs.clone()?;
    all.push(last)?;
    judged(alloc, set, rule, &all)
}

// The first of the runs after which the verdict differs from the one beside it.
fn first_wrong(
    alloc: Global,
    set: &TaskSet,
    rule: Rule,
    runs: &Vec<Run>,
    table: &[(Run, Verdict)],
) -> Result<Option<Run>, Fail> {
    for (last, expected) in table {
        if verdict_with(alloc, set, rule, runs, *last)? != *expected {
            return Ok(Some(*last));
        }
    }
    Ok(None)
}

// The runs in which this number of tasks, each with a deadline of one tick, are released in each of `rounds` ticks, and
// their first jobs run for one tick each, in the order of their releases.
fn flood(alloc: Global, tasks: u32, rounds: u32) -> Result<Vec<Run>, Fail>
    requires tasks { 1 ≤ tasks }
    requires few { tasks ≤ 128 }
    requires rounds { rounds ≤ 10000 }
{
    let mut runs = Vec::new(alloc);
    for round in 0..rounds {
        for task in 1..=tasks {
            runs.push(release!(task, round + 1, true))?;
        }
        runs.push(ticks!(round % tasks + 1, round / tasks + 1, How::Done, 1))?;
    }
    Ok(runs)
}

// 3,000 rounds of two tasks: each job except the first is late, and half of the jobs are pending.
static OF_TWO: [(Run, Verdict); 8] = [
    (ticks!(1, 1501, How::Stop, 1), late!(5999, 2, 1)),
    (ticks!(2, 1501, How::Done, 1), late!(5999, 2, 1)),
    (ticks!(1, 1502, How::Stop, 1), illegal!(9001, Why::NotLeast)),
    (ticks!(2, 3000, How::Stop, 1), illegal!(9001, Why::NotLeast)),
    (
        ticks!(1, 1500, How::Stop, 1),
        illegal!(9001, Why::NotPending),
    ),
    (
        ticks!(1, 3001, How::Stop, 1),
        illegal!(9001, Why::NotPending),
    ),
    (Run::Idles { length: 1 }, illegal!(9001, Why::IdlePending)),
    (release!(2, 3001, true), late!(5999, 2, 1)),
];

#[test]
fn two_tasks_have_thousands_of_pending_jobs(rt: HostRuntime) -> Result<(), Fail> {
    let alloc = rt.alloc();
    let set = set_of(alloc, &OVERLOAD)?;
    let runs = flood(alloc, 2, 3000)?;
    assert_eq!(rt; first_wrong(alloc, &set, UNSCALED, &runs, &OF_TWO)?, None);
    Ok(())
}

const THIRTEEN: [&str; 13] = [
    "a", "b", "c", "d", "e", "f", "g", "h", "i", "j", "k", "l", "m",
];

// A set of low tasks with these names, each with a deadline of one tick.
fn floods(alloc: Global, names: &[&str]) -> Result<TaskSet, Fail> {
    let mut tasks = Vec::new(alloc);
    for name in names {
        tasks.push(task(name, Low, 1, 1, 1).ok_or("a name")?)?;
    }
    Ok(TaskSet::new(tasks)?)
}

// 400 rounds of 13 tasks: the jobs of the first 30 rounds have run, and 10 of those of the 31st.
static OF_THIRTEEN: [(Run, Verdict); 5] = [
    (ticks!(11, 31, How::Done, 1), late!(5199, 2, 1)),
    (ticks!(13, 31, How::Done, 1), late!(5199, 2, 1)),
    (ticks!(10, 32, How::Done, 1), illegal!(5601, Why::NotLeast)),
    (ticks!(13, 400, How::Done, 1), illegal!(5601, Why::NotLeast)),
    (
        ticks!(10, 31, How::Done, 1),
        illegal!(5601, Why::NotPending),
    ),
];

#[test]
fn thirteen_tasks_have_thousands_of_pending_jobs(rt: HostRuntime) -> Result<(), Fail> {
    let alloc = rt.alloc();
    let set = floods(alloc, &THIRTEEN)?;
    let runs = flood(alloc, 13, 400)?;
    assert_eq!(rt;
        first_wrong(alloc, &set, Rule::Plain, &runs, &OF_THIRTEEN)?,
        None
    );
    Ok(())
}

// A high task that exceeds its low budget in its 3,000th tick, and a low one with a job at each tick.
const LONG_RUN: [Line; 2] = [("long", High, 100_000, 3000, 3001), ("short", Low, 1, 1, 1)];

// Runs with a release of the low task's job in each tick, until the high task overruns.
fn overrun(alloc: Global) -> Result<Vec<Run>, Fail> {
    let mut runs = vec![in alloc; release!(1, 1, true)]?;
    for tick in 0..3000u32 {
        runs.push(release!(2, tick + 1, true))?;
        let how = if tick < 2999 { How::More } else { How::Over };
        runs.push(ticks!(1, 1, how, 1))?;
    }
    Ok(runs)
}

// The jobs of the low task were discarded by then, all except the last of them after their deadlines.
static AFTER_OVERRUN: [(Run, Verdict); 3] = [
    (ticks!(1, 1, How::Stop, 1), late!(2999, 2, 1)),
    (
        ticks!(2, 3000, How::Stop, 1),
        illegal!(6002, Why::NotPending),
    ),
    (release!(2, 3001, true), illegal!(6002, Why::WrongKept)),
];

#[test]
fn an_overrun_discards_thousands_of_jobs(rt: HostRuntime) -> Result<(), Fail> {
    let alloc = rt.alloc();
    let set = set_of(alloc, &LONG_RUN)?;
    let runs = overrun(alloc)?;
    assert_eq!(rt;
        first_wrong(
            alloc,
            &set,
            Rule::Virtual { p: 1, q: 100_000 },
            &runs,
            &AFTER_OVERRUN
        )?,
        None
    );
    Ok(())
}
