//! `partition` and `runall`.
use super::gates::{CountingGate, TracedJob};
use super::outside::{Case, ends_as, first_wrong};
use super::parts::Part::{Each, Once};
use super::parts::{LongCase, long_ends_as};
use super::{CONTROL, OVERRUN_RUNS, OVERRUN_WORK, PLANT, PLANT_WORK, RUN_ALL, TAP_AND_ARM};
use executive::QuietGate;
use std::test::Fail;
use worked_gates::MeetingGate;

// The traces of the plant: the first processor in high mode, and the second beside it in low mode.
const PLANT_TRACES: &str = "processor 1
event,tick,length,task,job,how
release,0,,tap,1,kept
release,0,,arm,1,kept
tick,0,1,tap,1,done
tick,1,1,arm,1,over
release,2,,tap,2,dropped
tick,2,1,arm,1,more
tick,3,1,arm,1,done
release,4,,tap,3,dropped
idle,4,1,,,
processor 2
event,tick,length,task,job,how
release,0,,log,1,kept
tick,0,4,log,1,more
tick,4,1,log,1,done
";

const FIVE_TASKS: &str = "task = [
    {name='a', level='low', period=10, low=5},
    {name='b', level='low', period=10, low=8},
    {name='c', level='low', period=10, low=2},
    {name='d', level='low', period=10, low=3},
    {name='e', level='low', period=10, low=2},
]";

const TOO_LARGE_A_TASK: &str = "task = [
    {name='a', level='low', period=4294967295, low=1},
    {name='b', level='low', period=4294967294, low=1},
    {name='c', level='low', period=3, low=4},
]";

static CASES: &[Case] = &[
    (
        &["partition", "tasks.toml", "2"],
        PLANT,
        "",
        0,
        "processor 1 tap arm\nprocessor 2 log\n",
    ),
    (
        &["partition", "tasks.toml", "1"],
        PLANT,
        "",
        12,
        "not partitioned: task log fits on none of 1\n",
    ),
    (
        &["partition", "tasks.toml", "004"],
        PLANT,
        "",
        0,
        "processor 1 tap arm\nprocessor 2 log\nprocessor 3\nprocessor 4\n",
    ),
    (
        &["partition", "tasks.toml", "1"],
        TAP_AND_ARM,
        "",
        0,
        "processor 1 tap arm\n",
    ),
    // The last task still fits on a processor that is not the first.
    (
        &["partition", "tasks.toml", "2"],
        FIVE_TASKS,
        "",
        0,
        "processor 1 a c d\nprocessor 2 b e\n",
    ),
    // Together the periods are out of range, and one of the tasks fits nowhere.
    (
        &["partition", "tasks.toml", "16"],
        TOO_LARGE_A_TASK,
        "",
        12,
        "not partitioned: task c fits on none of 16\n",
    ),
    (
        &["partition", "tasks.toml", "16"],
        "task = []",
        "",
        3,
        "task file: no tasks\n",
    ),
    (RUN_ALL, PLANT, PLANT_WORK, 0, PLANT_TRACES),
    // A processor without tasks has no line.
    (
        &["runall", "tasks.toml", "second.csv", "5", "16"],
        PLANT,
        PLANT_WORK,
        0,
        PLANT_TRACES,
    ),
    // The work is read against the whole set.
    (
        RUN_ALL,
        PLANT,
        "task,release,need\nbob,0,1\n",
        4,
        "work file line 2: unknown task\n",
    ),
    (
        RUN_ALL,
        PLANT,
        "task,release,need\nlog,0,1\ntap,2,1\nlog,9,1\n",
        4,
        "work file line 4: too soon, next 10\n",
    ),
    (
        RUN_ALL,
        PLANT,
        "task,release,need\nlog,3,1\ntap,2,1\n",
        4,
        "work file line 3: release before the last one\n",
    ),
];

#[test]
fn each_task_is_on_its_processor_and_each_part_is_run_by_itself(rt: HostRuntime) {
    assert_eq!(rt; first_wrong(&rt, rt.alloc(), CASES), None);
}

const PLANT_RUN: Case = (RUN_ALL, PLANT, PLANT_WORK, 0, PLANT_TRACES);

#[test]
fn the_parts_are_run_at_once(rt: HostRuntime) {
    // Tasks 1 and 2 are on the first processor and task 3 on the second, by their numbers in the whole set.
    for first in [1, 2] {
        let gate = MeetingGate::of(first, 3);
        let is_same = ends_as(&rt, rt.alloc(), &PLANT_RUN, &gate);
        assert!(rt; is_same && gate.is_kept(), "task {first}");
    }
}

// The jobs of the plant. The only task of the second processor is task 3 of the whole set.
const PLANT_JOBS: &[TracedJob] = &[
    traced!(1, 1, 1, 1),
    traced!(1, 1, 2, 0),
    traced!(1, 1, 3, 0),
    traced!(2, 2, 1, 3),
    traced!(3, 1, 1, 5),
];

#[test]
fn each_release_and_each_step_calls_the_gate_by_the_number_in_the_whole_set(
    rt: HostRuntime,
) -> Result<(), Fail> {
    let gate = CountingGate::new(rt.alloc(), PLANT_JOBS)?;
    assert!(rt; ends_as(&rt, rt.alloc(), &PLANT_RUN, &gate) && gate.was_called_once_for_each());
    Ok(())
}

const SIXTEEN: LongCase = (
    &["runall", "tasks.toml", "second.csv", "3", "16"],
    &[
        Once("task = [\n"),
        Each("{name='t$', level='low', period=2, low=2},\n", 1, 17),
        Once("]"),
    ],
    &[Once("task,release,need\n"), Each("t$,0,2\n", 1, 17)],
    0,
    &[Each(
        "processor $\nevent,tick,length,task,job,how\nrelease,0,,t$,1,kept\ntick,0,1,t$,1,more\ntick,1,1,t$,1,done\nidle,2,1,,,\n",
        1,
        17,
    )],
);

// On one processor, what `runall` writes is the trace of `run`.
const ONE: LongCase = (
    &["runall", "tasks.toml", "second.csv", "12", "3"],
    &[Once(CONTROL)],
    &[Once(OVERRUN_WORK)],
    0,
    &[Once("processor 1\n"), Once(OVERRUN_RUNS)],
);

#[test]
fn sixteen_processors_have_a_full_task_each_and_run_at_once(rt: HostRuntime) {
    // The first and the last processor are run at once too.
    let gate = MeetingGate::of(1, 16);
    let ended = long_ends_as(&rt, rt.alloc(), &SIXTEEN, &gate);
    assert!(rt; ended == Ok(true) && gate.is_kept());
}

#[test]
fn one_processor_has_the_trace_of_run(rt: HostRuntime) {
    assert!(rt; long_ends_as(&rt, rt.alloc(), &ONE, &QuietGate) == Ok(true));
}
