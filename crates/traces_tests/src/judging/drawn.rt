//! Rows that are drawn at random, judged one by one by a monitor, and each time from the first on by the judge.
use super::turned::turned;
use super::watched::{agrees, monitor};
use super::{OVERLOAD, SCALED, TWO_OF_TEN, UNSCALED, is_legal, judged};
use mc_model::{How, Run, Verdict};
use mc_task::{JobId, Rule, TaskNo, TaskSet};
use std::alloc::Global;
use std::test::Fail;
use trace_judge::Monitor;
use worked_sets::{CONTROL, Line, set_of};

// The next number of a linear congruential generator (Knuth's MMIX).
fn next(seed: u64) -> u64 {
    seed.wrapping_mul(6_364_136_223_846_793_005)
        .wrapping_add(1_442_695_040_888_963_407)
}

fn how(number: u64) -> How {
    match number % 4 {
        0 => How::More,
        1 => How::Done,
        2 => How::Stop,
        _ => How::Over,
    }
}

// How many jobs of a task were released, and how many have ended.
#[derive(Clone, Copy)]
struct Jobs {
    released: u32,
    ended: u32,
}

const NONE_YET: Jobs = Jobs {
    released: 0,
    ended: 0,
};

// One of the task's jobs: the first after those that ended, the last that was released, or the next one.
fn job_of(task: u32, jobs: Jobs, number: u64) -> JobId {
    let count = match number % 3 {
        0 => jobs.ended.saturating_add(1),
        1 => jobs.released,
        _ => jobs.released.saturating_add(1),
    };
    JobId {
        task: TaskNo(task),
        count,
    }
}

// A row of a job of one of two tasks, or an idle one, which fits or does not fit.
fn drawn(number: u64, first: Jobs, second: Jobs) -> Run {
    let job = if number % 2 == 0 {
        job_of(1, first, number / 2)
    } else {
        job_of(2, second, number / 2)
    };
    match number / 8 % 8 {
        0 | 1 => Run::Release {
            job,
            kept: number / 64 % 8 != 0,
        },
        7 => Run::Idles { length: 1 },
        _ => Run::Ticks {
            job,
            how: how(number / 64),
            length: 1,
        },
    }
}

// The task's jobs after this row.
fn jobs_after(task: u32, jobs: Jobs, row: Run) -> Jobs {
    match row {
        Run::Release { job, .. } if job.task.0 == task => Jobs {
            released: job.count,
            ended: jobs.ended,
        },
        Run::Ticks { job, how, .. } if job.task.0 == task && is_last(how) => Jobs {
            released: jobs.released,
            ended: job.count,
        },
        _ => jobs,
    }
}

fn is_last(how: How) -> bool {
    match how {
        How::Done | How::Stop => true,
        How::More | How::Over => false,
    }
}

fn late_of(verdict: Verdict) -> u64 {
    match verdict {
        Verdict::Legal { late, .. } => late,
        Verdict::Illegal { .. } => 0,
    }
}

// The judge's verdict on these rows, if the monitor, which has seen all except the last one, predicts it.
fn predicted(
    alloc: Global,
    set: &TaskSet,
    rule: Rule,
    monitor: &Monitor,
    rows: &[Run],
    last: Run,
) -> Result<Option<Verdict>, Fail> {
    let unfit = monitor.would_fit(last)?;
    let verdict = judged(alloc, set, rule, rows)?;
    Ok(if agrees(unfit, verdict) {
        Some(verdict)
    } else {
        None
    })
}

// Draws rows, of which the monitor takes those that fit, and leaves these in `rows`. Returns whether the judge says of each
// of the drawn rows what the monitor says, and after each row that fits has the monitor's verdict and the number of jobs
// that it has reported late.
fn agree_on_drawn(
    alloc: Global,
    set: &TaskSet,
    rule: Rule,
    monitor: &mut Monitor,
    rows: &mut Vec<Run>,
) -> Result<bool, Fail> {
    let mut first = NONE_YET;
    let mut second = NONE_YET;
    let mut reported = 0u64;
    let mut seed = 1;
    for _ in 0..1500 {
        seed = next(seed);
        let row = drawn(seed >> 33, first, second);
        rows.push(row)?;
        let Some(verdict) = predicted(alloc, set, rule, monitor, rows, row)? else {
            return Ok(false);
        };
        if !is_legal(verdict) {
            rows.pop();
            continue;
        }
        let late = turned(alloc, monitor, row)?.len();
        reported = reported.saturating_add(late as u64);
        if monitor.verdict() != verdict || late_of(verdict) != reported {
            return Ok(false);
        }
        first = jobs_after(1, first, row);
        second = jobs_after(2, second, row);
    }
    Ok(true)
}

// How many of the drawn rows fit, or 0 if the monitor and the judge do not agree.
fn rows_that_fit(alloc: Global, lines: &[Line], rule: Rule) -> Result<usize, Fail> {
    let set = set_of(alloc, lines)?;
    let mut monitor = monitor(alloc, lines, rule)?;
    let mut rows = Vec::new(alloc);
    let agree = agree_on_drawn(alloc, &set, rule, &mut monitor, &mut rows)?;
    Ok(if agree { rows.len() } else { 0 })
}

static DRAWN: [(&[Line], Rule); 4] = [
    (&CONTROL, SCALED),
    (&CONTROL, UNSCALED),
    (&OVERLOAD, UNSCALED),
    (&TWO_OF_TEN, Rule::Plain),
];

#[test]
fn a_monitor_agrees_with_the_judge_at_each_row(rt: HostRuntime) -> Result<(), Fail> {
    for (place, (lines, rule)) in DRAWN.iter().enumerate() {
        let rows = rows_that_fit(rt.alloc(), lines, *rule)?;
        assert!(rt; rows > 200, "{place}: {rows}");
    }
    Ok(())
}
