//! Tests of charts.
use crate::judging::{SCALED, has_at_most, is_trace};
use mc_model::How::{More, Stop};
use mc_model::Run;
use mc_task::TaskSet;
use sched_chart::chart;
use std::alloc::Global;
use std::test::Fail;
use worked_sets::{CONTROL, LONG_NAME, Line, OVERRUN_RUNS, release, set_of, ticks};

// Whether the runs are a trace of the set that has this chart.
fn has_chart(alloc: Global, set: &TaskSet, runs: &[Run], text: &str) -> Result<bool, Fail> {
    if !is_trace(alloc, set, SCALED, runs)? || !has_at_most(2_000_000, runs) {
        return Ok(false);
    }
    Ok(chart(alloc, set, runs)?.as_slice() == text.as_bytes())
}

// Runs of these lines, and their charts.
static CHARTS: [(&[Line], &[Run], &str); 3] = [
    // A job of ctl overruns its low budget and runs to its end; log's job is discarded, and log's next job runs.
    (
        &CONTROL,
        &OVERRUN_RUNS,
        "\
ctl    #O###D......
log    ..........##
(mode) LLHHHHHLLLLL
",
    ),
    (&CONTROL, &[], "ctl    \nlog    \n(mode) \n"),
    // The longest name is the width of the names.
    (
        &LONG_NAME,
        &[
            release!(2, 1, true),
            ticks!(2, 1, More, 4),
            ticks!(2, 1, Stop, 1),
            Run::Idles { length: 1 },
        ],
        "\
c                                ......
log_of_thirty-two_bytes_12345678 ####S.
(mode)                           LLLLLL
",
    ),
];

#[test]
fn each_trace_has_its_chart(rt: HostRuntime) -> Result<(), Fail> {
    for (lines, runs, text) in &CHARTS {
        let set = set_of(rt.alloc(), lines)?;
        assert!(rt; has_chart(rt.alloc(), &set, runs, text)?, "{text}");
    }
    Ok(())
}
