//! Files at their limits.
use super::outside::{Outside, ends};
use super::parts::Part::{Each, Once};
use super::parts::{LongCase, Part, first_long_wrong, text_of};
use super::{CHECK, CONTROL, CONTROL_TEXT, HEADER, JUDGE, UNDER_ONE};
use executive::QuietGate;
use std::alloc::{AllocError, Global};
use std::test::Fail;

const ONE_TICK: &[&str] = &["run", "tasks.toml", "second.csv", "1"];

const ONE_TASK: &[Part] = &[Once("task = [{name='a', level='low', period=1, low=1}]")];

const TWO_TASKS: &str = "task = [
    {name='a', level='low', period=1, low=1},
    {name='b', level='low', period=1, low=1},
]";

// The control set, filled with comment lines to the limit of a task file.
const COMMENTED: &[Part] = &[
    Once(CONTROL),
    Each("# a comment line of 32 bytes ..\n", 0, 524284),
    Each("#", 0, 5),
];

static BYTE_CASES: &[LongCase] = &[
    (CHECK, COMMENTED, &[], 0, &[Once(CONTROL_TEXT)]),
    (
        CHECK,
        &[Each("\n", 0, 16_777_216)],
        &[],
        3,
        &[Once("task file: no tasks\n")],
    ),
    (
        CHECK,
        &[Each("\n", 0, 16_777_217)],
        &[],
        7,
        &[Once("file 1 is longer than 16777216 bytes\n")],
    ),
    (
        ONE_TICK,
        &[Once(CONTROL)],
        &[Each("\n", 0, 16_777_217)],
        7,
        &[Once("file 2 is longer than 16777216 bytes\n")],
    ),
];

#[test]
fn a_file_of_16777216_bytes_is_read_and_a_longer_one_is_not(rt: HostRuntime) -> Result<(), Fail> {
    assert!(rt; text_of(rt.alloc(), COMMENTED)?.len() == 16_777_216);
    assert_eq!(rt; first_long_wrong(&rt, rt.alloc(), BYTE_CASES), None);
    Ok(())
}

static ROW_CASES: &[LongCase] = &[
    (
        CHECK,
        &[Each(
            "[[task]]\nname = 't$'\nlevel = 'low'\nperiod = 10\nlow = 1\n",
            0,
            129,
        )],
        &[],
        3,
        &[Once("task file: 129 tasks, at most 128\n")],
    ),
    (
        JUDGE,
        &[Once(CONTROL)],
        &[Once(HEADER), Each("idle,$,,,\n", 0, 2_000_000)],
        0,
        &[Once("legal late 0\n")],
    ),
    (
        JUDGE,
        &[Once(CONTROL)],
        &[Once(HEADER), Each("idle,$,,,\n", 0, 2_000_001)],
        5,
        &[Once("trace line 2000002: more than 2000000 rows\n")],
    ),
    (
        ONE_TICK,
        ONE_TASK,
        &[Once("task,release,need\n"), Each("a,$,1\n", 0, 1_000_000)],
        0,
        &[Once("event,tick,length,task,job,how\nrelease,0,,a,1,kept\ntick,0,1,a,1,done\n")],
    ),
    (
        ONE_TICK,
        ONE_TASK,
        &[Once("task,release,need\n"), Each("a,$,1\n", 0, 1_000_001)],
        4,
        &[Once("work file line 1000002: more than 1000000 rows\n")],
    ),
];

#[test]
fn the_most_rows_are_read_and_one_more_is_not(rt: HostRuntime) {
    assert_eq!(rt; first_long_wrong(&rt, rt.alloc(), ROW_CASES), None);
}

// A trace in which two tasks release a job at each tick, and one of them has the tick in turn.
fn half_served(alloc: Global, ticks: u32) -> Result<String, AllocError> {
    let mut trace = String::from_str(alloc, HEADER)?;
    for tick in 0..ticks {
        push_tick(&mut trace, tick)?;
    }
    Ok(trace)
}

fn push_tick(trace: &mut String, tick: u32) -> Result<(), AllocError> {
    let count = u64::from(tick) + 1;
    let served = if tick % 2 == 0 { 'a' } else { 'b' };
    let job = tick / 2 + 1;
    write!(
        trace,
        "release,{tick},a,{count},kept\nrelease,{tick},b,{count},kept\ntick,{tick},{served},{job},done\n"
    )
}

#[test]
fn half_a_million_pending_jobs_are_judged(rt: HostRuntime) -> Result<(), Fail> {
    let trace = half_served(rt.alloc(), 500_000)?;
    let outside = Outside::new(TWO_TASKS, &trace);
    let verdict = "legal late 999999 first b 1\n";
    assert!(rt; ends(&rt, rt.alloc(), UNDER_ONE, &outside, &QuietGate, 6, verdict));
    Ok(())
}
