//! Traces that the program wrote, read again by it.
use super::outside::{Outside, ended, ends};
use super::{AVIONICS, CONTROL, JUDGE, REPORT};
use executive::QuietGate;
use std::alloc::Global;
use std::sync::Wait;
use std::thread::Threads;

const AVIONICS_WORK: &str = "task,release,need
attitude,0,400
gyro,0,600
engine,0,1500
nav,0,3000
display,0,2500
radio,0,2000
log,0,8000
maint,0,10000
attitude,5000,400
attitude,10000,400
gyro,10000,600
attitude,15000,400
display,16667,2500
";

const AVIONICS_REPORT: &str =
    "task attitude released 4 kept 4 dropped 0 discarded 0 done 4 stopped 0 ticks 1600 response 400
task gyro released 2 kept 2 dropped 0 discarded 0 done 2 stopped 0 ticks 1200 response 1000
task engine released 1 kept 1 dropped 0 discarded 0 done 1 stopped 0 ticks 1500 response 2500
task nav released 1 kept 1 dropped 0 discarded 0 done 1 stopped 0 ticks 3000 response 8400
task display released 2 kept 2 dropped 0 discarded 0 done 2 stopped 0 ticks 5000 response 5000
task radio released 1 kept 1 dropped 0 discarded 0 done 1 stopped 0 ticks 2000 response 11400
task log released 1 kept 1 dropped 0 discarded 0 done 0 stopped 0 ticks 5700 response -
task maint released 1 kept 1 dropped 0 discarded 0 done 0 stopped 0 ticks 0 response -
idle 0
switches 0
";

const RUN: &[&str] = &["run", "tasks.toml", "second.csv", "20000"];

// The trace that the words write of the tasks and the work, if their status is 0.
fn trace_of<R: Threads + Wait + Sync>(
    rt: &R,
    alloc: Global,
    words: &[&str],
    tasks: &str,
    work: &str,
) -> Option<String> {
    match ended(rt, alloc, words, &Outside::new(tasks, work), &QuietGate)? {
        (0, written) => String::from_utf8(written).ok(),
        _ => None,
    }
}

// Whether the words have the status 0 and write this text, of the tasks and the trace.
fn writes<R: Threads + Wait + Sync>(
    rt: &R,
    alloc: Global,
    words: &[&str],
    tasks: &str,
    trace: &str,
    text: &str,
) -> bool {
    ends(
        rt,
        alloc,
        words,
        &Outside::new(tasks, trace),
        &QuietGate,
        0,
        text,
    )
}

// Whether the trace of the avionics set has 40 lines, is legal, and is counted up.
fn avionics_are_reported<R: Threads + Wait + Sync>(rt: &R, alloc: Global) -> Option<bool> {
    let trace = trace_of(rt, alloc, RUN, AVIONICS, AVIONICS_WORK)?;
    Some(
        trace.as_str().lines().count() == 40
            && writes(rt, alloc, JUDGE, AVIONICS, &trace, "legal late 0\n")
            && writes(rt, alloc, REPORT, AVIONICS, &trace, AVIONICS_REPORT),
    )
}

#[test]
fn the_trace_of_an_avionics_set_is_legal_and_counted_up(rt: HostRuntime) {
    assert!(rt; avionics_are_reported(&rt, rt.alloc()) == Some(true));
}

fn live_run_is_legal<R: Threads + Wait + Sync>(rt: &R, alloc: Global) -> Option<bool> {
    let words = ["live", "tasks.toml", "1000"];
    let trace = trace_of(rt, alloc, &words, CONTROL, "")?;
    Some(writes(rt, alloc, JUDGE, CONTROL, &trace, "legal late 0\n"))
}

#[test]
fn a_live_run_is_judged_legal(rt: HostRuntime) {
    assert!(rt; live_run_is_legal(&rt, rt.alloc()) == Some(true));
}
