//! Charts and reports.
use super::outside::{Case, first_wrong};
use super::{CHART, CONTROL, HEADER, LOW_FIRST, OVERRUN, REPORT};

static CASES: &[Case] = &[
    (
        CHART,
        CONTROL,
        OVERRUN,
        0,
        "ctl    #O###D......\nlog    ..........##\n(mode) LLHHHHHLLLLL\n",
    ),
    (
        REPORT,
        CONTROL,
        OVERRUN,
        0,
        "task ctl released 1 kept 1 dropped 0 discarded 0 done 1 stopped 0 ticks 6 response 6\ntask log released 2 kept 2 dropped 0 discarded 1 done 0 stopped 0 ticks 2 response -\nidle 4\nswitches 1\n",
    ),
    (CHART, CONTROL, HEADER, 0, "ctl    \nlog    \n(mode) \n"),
    (
        REPORT,
        CONTROL,
        HEADER,
        0,
        "task ctl released 0 kept 0 dropped 0 discarded 0 done 0 stopped 0 ticks 0 response -\ntask log released 0 kept 0 dropped 0 discarded 0 done 0 stopped 0 ticks 0 response -\nidle 0\nswitches 0\n",
    ),
    (CHART, CONTROL, LOW_FIRST, 6, "illegal row 3 not_least\n"),
    (REPORT, CONTROL, LOW_FIRST, 6, "illegal row 3 not_least\n"),
    (
        CHART,
        CONTROL,
        "event,tick,task,job,how\nidle,1,,,\n",
        5,
        "trace line 2: wrong tick\n",
    ),
];

#[test]
fn traces_are_drawn_and_counted_up(rt: HostRuntime) {
    assert_eq!(rt; first_wrong(&rt, rt.alloc(), CASES), None);
}
