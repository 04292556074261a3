//! Traces whose equal ticks stand in one record.
use super::outside::{Case, first_wrong};
use super::{CHART, CONTROL, JUDGE, LOW_FIRST, MIGRATE, OVERRUN, OVERRUN_RUNS, REPORT};

static CASES: &[Case] = &[
    (MIGRATE, CONTROL, OVERRUN, 0, OVERRUN_RUNS),
    (MIGRATE, CONTROL, OVERRUN_RUNS, 0, OVERRUN_RUNS),
    (
        MIGRATE,
        CONTROL,
        "event,tick,length,task,job,how\nidle,0,1,,,\nidle,1,2,,,\n",
        0,
        "event,tick,length,task,job,how\nidle,0,3,,,\n",
    ),
    (MIGRATE, CONTROL, LOW_FIRST, 6, "illegal row 3 not_least\n"),
    (JUDGE, CONTROL, OVERRUN_RUNS, 0, "legal late 0\n"),
    (
        CHART,
        CONTROL,
        OVERRUN_RUNS,
        0,
        "ctl    #O###D......\nlog    ..........##\n(mode) LLHHHHHLLLLL\n",
    ),
    (
        JUDGE,
        CONTROL,
        "event,tick,length,task,job,how\nidle,0,100000000,,,\n",
        0,
        "legal late 0\n",
    ),
    (
        JUDGE,
        CONTROL,
        "event,tick,length,task,job,how\nidle,0,100000001,,,\n",
        5,
        "trace line 2: more than 100000000 ticks\n",
    ),
    (
        JUDGE,
        CONTROL,
        "event,tick,length,task,job,how\nrelease,0,,log,1,kept\ntick,0,5,log,1,more\n",
        6,
        "illegal row 6 wrong_how\n",
    ),
    (
        JUDGE,
        CONTROL,
        "event,tick,length,task,job,how\nrelease,0,,ctl,1,kept\ntick,0,2,ctl,1,done\n",
        5,
        "trace line 3: bad length\n",
    ),
    (
        CHART,
        CONTROL,
        "event,tick,length,task,job,how\nidle,0,100000000,,,\n",
        5,
        "trace has 100000000 ticks, a chart has at most 2000000\n",
    ),
    (
        CHART,
        CONTROL,
        "event,tick,length,task,job,how\nidle,0,100000000,,,\ntick,100000000,1,ctl,1,more\n",
        5,
        "trace line 3: more than 100000000 ticks\n",
    ),
    (
        CHART,
        CONTROL,
        "event,tick,length,task,job,how\nidle,0,2000001,,,\ntick,2000001,1,ctl,1,more\n",
        6,
        "illegal row 2000002 not_pending\n",
    ),
    (
        REPORT,
        CONTROL,
        "event,tick,length,task,job,how\nidle,0,100000000,,,\n",
        0,
        "task ctl released 0 kept 0 dropped 0 discarded 0 done 0 stopped 0 ticks 0 response -\ntask log released 0 kept 0 dropped 0 discarded 0 done 0 stopped 0 ticks 0 response -\nidle 100000000\nswitches 0\n",
    ),
];

#[test]
fn equal_ticks_stand_in_one_record(rt: HostRuntime) {
    assert_eq!(rt; first_wrong(&rt, rt.alloc(), CASES), None);
}
