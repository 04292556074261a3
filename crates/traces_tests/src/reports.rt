//! Tests of reports.
use crate::judging::{SCALED, is_trace};
use mc_model::How::{Done, More, Stop};
use mc_model::Run;
use mc_task::{Rule, TaskSet};
use sched_report::{report, summary};
use std::alloc::Global;
use std::test::Fail;
use worked_sets::{
    CONTROL, LONG_NAME, Line, OVERRUN_RUNS, TAP_AND_ARM, TAP_AND_ARM_RUNS, release, set_of, ticks,
};

// A report, and a summary of the same runs.
type Texts = (&'static str, &'static str);

// Whether the runs are a trace of the set under the rule that has these texts.
fn has_texts(
    alloc: Global,
    set: &TaskSet,
    rule: Rule,
    runs: &[Run],
    texts: Texts,
) -> Result<bool, Fail> {
    if !is_trace(alloc, set, rule, runs)? {
        return Ok(false);
    }
    let is_reported = report(alloc, set, runs)?.as_slice() == texts.0.as_bytes();
    Ok(is_reported && summary(alloc, set, runs)?.as_slice() == texts.1.as_bytes())
}

// A job of ctl overruns its low budget and runs to its end; log's job is discarded, and log's next job runs.
const AN_OVERRUN: Texts = (
    "\
task ctl released 1 kept 1 dropped 0 discarded 0 done 1 stopped 0 ticks 6 response 6
task log released 2 kept 2 dropped 0 discarded 1 done 0 stopped 0 ticks 2 response -
idle 4
switches 1
",
    "\
released 3 kept 3 dropped 0 discarded 1 done 1 stopped 0
ticks 8 idle 4 switches 1
",
);

// tap's first job was done before arm overran, and tap's next two jobs are dropped.
const DONE_AND_DROPPED: Texts = (
    "\
task tap released 3 kept 1 dropped 2 discarded 0 done 1 stopped 0 ticks 1 response 1
task arm released 1 kept 1 dropped 0 discarded 0 done 1 stopped 0 ticks 3 response 4
idle 1
switches 1
",
    "\
released 4 kept 2 dropped 2 discarded 0 done 2 stopped 0
ticks 4 idle 1 switches 1
",
);

// A job that needs 5 ticks and is stopped, and then a job that is done at once.
const STOPPED_AND_DONE: [Run; 6] = [
    release!(2, 1, true),
    ticks!(2, 1, More, 4),
    ticks!(2, 1, Stop, 1),
    Run::Idles { length: 5 },
    release!(2, 2, true),
    ticks!(2, 2, Done, 1),
];

// The greatest response is reported.
const GREATEST_RESPONSE: Texts = (
    "\
task c released 0 kept 0 dropped 0 discarded 0 done 0 stopped 0 ticks 0 response -
task log_of_thirty-two_bytes_12345678 released 2 kept 2 dropped 0 discarded 0 done 1 stopped 1 ticks 6 response 5
idle 5
switches 0
",
    "\
released 2 kept 2 dropped 0 discarded 0 done 1 stopped 1
ticks 6 idle 5 switches 0
",
);

const NO_RUNS: Texts = (
    "\
task ctl released 0 kept 0 dropped 0 discarded 0 done 0 stopped 0 ticks 0 response -
task log released 0 kept 0 dropped 0 discarded 0 done 0 stopped 0 ticks 0 response -
idle 0
switches 0
",
    "\
released 0 kept 0 dropped 0 discarded 0 done 0 stopped 0
ticks 0 idle 0 switches 0
",
);

// Runs of these lines, legal under this rule, and their texts.
static REPORTS: [(&[Line], Rule, &[Run], Texts); 4] = [
    (&CONTROL, SCALED, &OVERRUN_RUNS, AN_OVERRUN),
    (
        &TAP_AND_ARM,
        Rule::Virtual { p: 1, q: 2 },
        &TAP_AND_ARM_RUNS,
        DONE_AND_DROPPED,
    ),
    (&LONG_NAME, SCALED, &STOPPED_AND_DONE, GREATEST_RESPONSE),
    (&CONTROL, SCALED, &[], NO_RUNS),
];

#[test]
fn each_trace_has_its_report_and_summary(rt: HostRuntime) -> Result<(), Fail> {
    for (lines, rule, runs, texts) in &REPORTS {
        let set = set_of(rt.alloc(), lines)?;
        assert!(rt;
            has_texts(rt.alloc(), &set, *rule, runs, *texts)?,
            "{}",
            texts.0
        );
    }
    Ok(())
}
