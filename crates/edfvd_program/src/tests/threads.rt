//! What no clause can say of threads: that those of the tasks work beside each other, each step outside the turns.
use super::gates::{CountingGate, StepGate, TracedJob};
use super::outside::{Case, ends_as};
use super::{CONTROL, OVERRUN_RUNS, OVERRUN_WORK};
use std::test::Fail;
use worked_gates::MeetingGate;

const RUN: &[&str] = &["run", "tasks.toml", "second.csv", "12"];

const OVERRUN: Case = (RUN, CONTROL, OVERRUN_WORK, 0, OVERRUN_RUNS);

const SHORT_RUN: &[&str] = &["run", "tasks.toml", "second.csv", "4"];

const LATER_WORK: &str = "task,release,need\nctl,0,6\nlog,2,5\n";

// The low task is released while the high one overruns.
const DROPPED: &str = "event,tick,length,task,job,how
release,0,,ctl,1,kept
tick,0,1,ctl,1,more
tick,1,1,ctl,1,over
release,2,,log,1,dropped
tick,2,2,ctl,1,more
";

const DROPPED_RUN: Case = (SHORT_RUN, CONTROL, LATER_WORK, 0, DROPPED);

#[test]
fn each_thread_is_there_before_the_other_may_go_on(rt: HostRuntime) {
    let gate = MeetingGate::of(1, 2);
    assert!(rt; ends_as(&rt, rt.alloc(), &OVERRUN, &gate) && gate.is_kept());
}

#[test]
fn a_release_is_taken_while_a_step_runs(rt: HostRuntime) {
    let gate = StepGate::new();
    assert!(rt; ends_as(&rt, rt.alloc(), &DROPPED_RUN, &gate) && gate.is_kept());
}

// The jobs of the two traces, with the ticks that each has.
const OVERRUN_JOBS: &[TracedJob] = &[
    traced!(1, 1, 1, 6),
    traced!(2, 2, 1, 0),
    traced!(2, 2, 2, 2),
];

const DROPPED_JOBS: &[TracedJob] = &[traced!(1, 1, 1, 4), traced!(2, 2, 1, 0)];

#[test]
fn each_release_and_each_step_calls_the_gate_once(rt: HostRuntime) -> Result<(), Fail> {
    let alloc = rt.alloc();
    let cases = [
        ("overrun", OVERRUN, OVERRUN_JOBS),
        ("dropped", DROPPED_RUN, DROPPED_JOBS),
    ];
    for (shows, case, jobs) in cases {
        let gate = CountingGate::new(alloc, jobs)?;
        let is_same = ends_as(&rt, alloc, &case, &gate);
        assert!(rt; is_same && gate.was_called_once_for_each(), "{shows}");
    }
    Ok(())
}
