//! A set of 128 tasks, which is the most that there may be, through each command that takes a set.
use super::outside::{Outside, ends};
use super::parts::Part::{Each, Once};
use super::parts::{LongCase, Part, first_long_wrong, push_parts, text_of};
use super::{CHART, CHECK, DEMAND, JUDGE, MIGRATE, REPORT, STRETCH};
use executive::QuietGate;
use std::alloc::{AllocError, Global};
use std::test::Fail;

// The tasks are low, are named t1 to t128, and have a period of 1280 ticks and a budget of one. The rule is plain EDF, and the
// deadlines are equal, so that the lowest number goes first.
const TASKS: &[Part] = &[Each(
    "[[task]]\nname = \"t$\"\nlevel = \"low\"\nperiod = 1280\nlow = 1\n",
    1,
    129,
)];

// The set with its periods as deadlines, for `demand`.
const DEMANDS: &[Part] = &[
    Once("task,period,deadline,budget\n"),
    Each("t$,1280,1280,1\n", 1, 129),
];

// A job of each task, released at 0.
const WORK: &[Part] = &[Once("task,release,need\n"), Each("t$,0,1\n", 1, 129)];

// The trace of that work for 1000 ticks: each task has one tick, in the order of the numbers, and then all is idle.
const TRACE: &[Part] = &[
    Once("event,tick,length,task,job,how\n"),
    Each("release,0,,t$,1,kept\n", 1, 129),
    Each("tick,@,1,t$,1,done\n", 1, 129),
    Once("idle,128,872,,,\n"),
];

// The trace of that work with a record for each row.
const ROWS: &[Part] = &[
    Once("event,tick,task,job,how\n"),
    Each("release,0,t$,1,kept\n", 1, 129),
    Each("tick,@,t$,1,done\n", 1, 129),
    Each("idle,$,,,\n", 128, 1000),
];

// The report of that trace: the job of task k ends with tick k - 1, so its response is k.
const REPORTED: &[Part] = &[
    Each(
        "task t$ released 1 kept 1 dropped 0 discarded 0 done 1 stopped 0 ticks 1 response $\n",
        1,
        129,
    ),
    Once("idle 872\nswitches 0\n"),
];

// All tasks are on the first of two processors.
const PLACED: &[Part] = &[
    Once("processor 1"),
    Each(" t$", 1, 129),
    Once("\nprocessor 2\n"),
];

const PLACED_TRACE: &[Part] = &[
    Once("processor 1\nevent,tick,length,task,job,how\n"),
    Each("release,0,,t$,1,kept\n", 1, 129),
    Each("tick,@,1,t$,1,done\n", 1, 129),
    Once("idle,128,872,,,\n"),
];

const CHECKED: &[Part] = &[Once("tasks 128\nU_LL 1/10\nU_HL 0/1\nU_HH 0/1\nrule plain\n")];

// Without high budgets no percentage is too much.
const STRETCHED: &[Part] = &[Once("stretch 1000\nU_HH 0/1 at 1000\n")];

const JUDGED: &[Part] = &[Once("legal late 0\n")];

const DEMANDED: &[Part] = &[Once("schedulable, demand checked to 1280\n")];

static CASES: &[LongCase] = &[
    (CHECK, TASKS, WORK, 0, CHECKED),
    (STRETCH, TASKS, WORK, 0, STRETCHED),
    (
        &["run", "tasks.toml", "second.csv", "1000"],
        TASKS,
        WORK,
        0,
        TRACE,
    ),
    // No period has passed by then, so that each task is released once.
    (&["live", "tasks.toml", "1000"], TASKS, WORK, 0, TRACE),
    (&["partition", "tasks.toml", "2"], TASKS, WORK, 0, PLACED),
    (
        &["runall", "tasks.toml", "second.csv", "1000", "2"],
        TASKS,
        WORK,
        0,
        PLACED_TRACE,
    ),
    (JUDGE, TASKS, TRACE, 0, JUDGED),
    (REPORT, TASKS, TRACE, 0, REPORTED),
    (MIGRATE, TASKS, TRACE, 0, TRACE),
    (JUDGE, TASKS, ROWS, 0, JUDGED),
    (REPORT, TASKS, ROWS, 0, REPORTED),
    (MIGRATE, TASKS, ROWS, 0, TRACE),
    (DEMAND, DEMANDS, &[], 0, DEMANDED),
];

#[test]
fn a_set_of_128_tasks_is_tested_run_and_reported(rt: HostRuntime) {
    assert_eq!(rt; first_long_wrong(&rt, rt.alloc(), CASES), None);
}

// The chart of the trace: the names at a width of 6, the one tick of each task, and the mode.
fn chart(alloc: Global) -> Result<String, AllocError> {
    let mut chart = String::new(alloc);
    for k in 1..129 {
        let length = match k {
            0..10 => 2,
            10..100 => 3,
            _ => 4,
        };
        let line = [
            Each("t$", k, k + 1),
            Each(" ", length, 7),
            Each(".", 1, k),
            Once("D"),
            Each(".", k, 1000),
            Once("\n"),
        ];
        push_parts(&mut chart, &line)?;
    }
    push_parts(
        &mut chart,
        &[Once("(mode) "), Each("L", 0, 1000), Once("\n")],
    )?;
    Ok(chart)
}

#[test]
fn a_trace_of_128_tasks_is_drawn(rt: HostRuntime) -> Result<(), Fail> {
    let alloc = rt.alloc();
    let (tasks, chart) = (text_of(alloc, TASKS)?, chart(alloc)?);
    for (version, parts) in [(2, TRACE), (1, ROWS)] {
        let trace = text_of(alloc, parts)?;
        let outside = Outside::new(&tasks, &trace);
        let is_drawn = ends(&rt, alloc, CHART, &outside, &QuietGate, 0, &chart);
        assert!(rt; is_drawn, "version {version}");
    }
    Ok(())
}
