//! Tests of the jobs that a monitor reports when they become late.
use super::TWO_OF_TEN;
use super::watched::monitor;
use mc_model::{How, Run, Verdict};
use mc_task::Level::Low;
use mc_task::{JobId, Rule};
use std::alloc::Global;
use std::test::Fail;
use trace_judge::{Monitor, Turned};
use worked_sets::{Line, job, release, ticks};

macro_rules! turned {
    ($task:expr, $count:expr, $deadline:expr, $rows_before:expr) => {
        Turned {
            job: job!($task, $count),
            deadline: $deadline,
            rows_before: $rows_before,
        }
    };
}

// The jobs that become late with this run.
pub fn turned(alloc: Global, monitor: &mut Monitor, run: Run) -> Result<Vec<Turned>, Fail> {
    let since = monitor.ticks();
    monitor.observe(alloc, run)?;
    Ok(monitor.turned_late(alloc, since)?)
}

const LONG: Turned = turned!(1, 1, 10, 0);

const SHORT: Turned = turned!(2, 1, 11, 2);

// Runs of `TWO_OF_TEN`, each with the jobs that become late with it.
static BY_A_TICK: [(Run, &[Turned]); 7] = [
    (release!(1, 1, true), &[]),
    (ticks!(1, 1, How::More, 1), &[]),
    (release!(2, 1, true), &[]),
    (ticks!(1, 1, How::More, 8), &[]),
    (ticks!(1, 1, How::More, 1), &[LONG]),
    (ticks!(1, 1, How::More, 1), &[SHORT]),
    (ticks!(1, 1, How::More, 30), &[]),
];

// The first of the runs that does not turn those jobs late that stand beside it, by its place from 0.
fn first_wrong(
    alloc: Global,
    monitor: &mut Monitor,
    table: &[(Run, &[Turned])],
) -> Result<Option<usize>, Fail> {
    for (place, (run, expected)) in table.iter().enumerate() {
        if turned(alloc, monitor, *run)?.as_slice() != *expected {
            return Ok(Some(place));
        }
    }
    Ok(None)
}

// Whether the monitor has seen these numbers of ticks and rows, and has this verdict on them.
fn has_come_to(monitor: &Monitor, ticks: u64, rows: u64, verdict: Verdict) -> bool {
    monitor.ticks() == ticks && monitor.seen() == rows && monitor.verdict() == verdict
}

#[test]
fn a_job_is_reported_late_once_at_the_boundary_of_its_deadline(
    rt: HostRuntime,
) -> Result<(), Fail> {
    let mut monitor = monitor(rt.alloc(), &TWO_OF_TEN, Rule::Plain)?;
    let wrong = first_wrong(rt.alloc(), &mut monitor, &BY_A_TICK)?;
    let agrees = has_come_to(&monitor, 41, 43, late!(2, 1, 1));
    assert!(rt; wrong.is_none() && agrees, "{wrong:?}");
    Ok(())
}

// The last of these tasks has the earliest deadline, and takes 40 ticks.
const SEVERAL: [Line; 4] = [
    ("slow", Low, 20, 1, 1),
    ("twin", Low, 8, 1, 1),
    ("mid", Low, 9, 1, 1),
    ("busy", Low, 6, 40, 40),
];

// Runs of `SEVERAL`. Four deadlines come with the last one, two of them at one boundary.
static AT_ONCE: [(Run, &[Turned]); 6] = [
    (release!(1, 1, true), &[]),
    (release!(3, 1, true), &[]),
    (release!(4, 1, true), &[]),
    (ticks!(4, 1, How::More, 1), &[]),
    (release!(2, 1, true), &[]),
    (ticks!(4, 1, How::More, 30), &IN_ORDER),
];

// The late jobs of `AT_ONCE`: neither in the order of their releases nor in that of their tasks.
const IN_ORDER: [Turned; 4] = [
    turned!(4, 1, 6, 2),
    turned!(3, 1, 9, 1),
    turned!(2, 1, 9, 4),
    turned!(1, 1, 20, 0),
];

// Numbers of ticks, and how many of those jobs have deadlines at or before them.
const SINCE: [(u64, usize); 7] = [(1, 0), (5, 0), (6, 1), (8, 1), (9, 3), (19, 3), (20, 4)];

// The first of the numbers of ticks since which the late jobs are not the expected ones.
fn first_wrong_since(alloc: Global, monitor: &mut Monitor) -> Result<Option<u64>, Fail> {
    for (since, skipped) in SINCE {
        if monitor.turned_late(alloc, since)?.as_slice() != &IN_ORDER[skipped..] {
            return Ok(Some(since));
        }
    }
    Ok(None)
}

#[test]
fn late_jobs_come_in_the_order_of_their_deadlines(rt: HostRuntime) -> Result<(), Fail> {
    let mut monitor = monitor(rt.alloc(), &SEVERAL, Rule::Plain)?;
    let wrong = first_wrong(rt.alloc(), &mut monitor, &AT_ONCE)?;
    let since = first_wrong_since(rt.alloc(), &mut monitor)?;
    assert!(rt; wrong.is_none() && since.is_none(), "{wrong:?} {since:?}");
    Ok(())
}

// A task whose jobs take more ticks than they have until their deadlines.
const SLOW: [Line; 1] = [("slow", Low, 10, 15, 15)];

// The runs of 20 ticks in which a job is late by three.
fn round(count: u32) -> [Run; 4] {
    [
        release!(1, count, true),
        ticks!(1, count, How::More, 12),
        ticks!(1, count, How::Done, 1),
        Run::Idles { length: 7 },
    ]
}

// How many jobs are reported late in 500,000 rounds.
fn late_in_rounds(alloc: Global, monitor: &mut Monitor) -> Result<u64, Fail> {
    let mut reported = 0u64;
    for before in 0..500_000u32 {
        for run in round(before + 1) {
            let late = turned(alloc, monitor, run)?.len();
            reported = reported.saturating_add(late as u64);
        }
    }
    Ok(reported)
}

// Ten million rows cannot be read again: this test shows that a monitor goes on after them, and how long it takes. No
// clause says how much memory it uses: at most one job is pending here.
#[test]
fn ten_million_rows_are_judged_as_they_come(rt: HostRuntime) -> Result<(), Fail> {
    let mut monitor = monitor(rt.alloc(), &SLOW, Rule::Plain)?;
    let reported = late_in_rounds(rt.alloc(), &mut monitor)?;
    let agrees = has_come_to(&monitor, 10_000_000, 10_500_000, late!(500_000, 1, 1));
    assert!(rt; agrees && reported == 500_000 && monitor.pending() == 0);
    Ok(())
}
