//! Traces of runs.
use super::outside::{Case, first_wrong};
use super::{
    CONTROL, OVERRUN_RUNS, OVERRUN_WORK, PLAIN_PAIR, QUARTER_SCALE, TAP_AND_ARM, TWO_HIGH_TASKS,
};

const TEN_TICKS: &[&str] = &["run", "tasks.toml", "second.csv", "10"];

const NO_WORK: &str = "task,release,need\n";

static CASES: &[Case] = &[
    (
        &["run", "tasks.toml", "second.csv", "12"],
        CONTROL,
        OVERRUN_WORK,
        0,
        OVERRUN_RUNS,
    ),
    (
        &["run", "tasks.toml", "second.csv", "5"],
        QUARTER_SCALE,
        "task,release,need\na,0,3\nb,2,1\n",
        0,
        "event,tick,length,task,job,how\nrelease,0,,a,1,kept\ntick,0,2,a,1,more\nrelease,2,,b,1,kept\ntick,2,1,b,1,done\ntick,3,1,a,1,done\nidle,4,1,,,\n",
    ),
    (
        &["run", "tasks.toml", "second.csv", "5"],
        TAP_AND_ARM,
        "task,release,need\ntap,0,1\narm,0,3\ntap,2,1\ntap,4,1\n",
        0,
        "event,tick,length,task,job,how\nrelease,0,,tap,1,kept\nrelease,0,,arm,1,kept\ntick,0,1,tap,1,done\ntick,1,1,arm,1,over\nrelease,2,,tap,2,dropped\ntick,2,1,arm,1,more\ntick,3,1,arm,1,done\nrelease,4,,tap,3,dropped\nidle,4,1,,,\n",
    ),
    (
        &["run", "tasks.toml", "second.csv", "6"],
        TWO_HIGH_TASKS,
        "task,release,need\nfix,0,5\nlog,0,9\n",
        0,
        "event,tick,length,task,job,how\nrelease,0,,fix,1,kept\nrelease,0,,log,1,kept\ntick,0,1,fix,1,stop\ntick,1,3,log,1,more\ntick,4,1,log,1,stop\nidle,5,1,,,\n",
    ),
    (
        &["run", "tasks.toml", "second.csv", "4"],
        CONTROL,
        "task,release,need\nctl,0,6\nlog,2,5\n",
        0,
        "event,tick,length,task,job,how\nrelease,0,,ctl,1,kept\ntick,0,1,ctl,1,more\ntick,1,1,ctl,1,over\nrelease,2,,log,1,dropped\ntick,2,2,ctl,1,more\n",
    ),
    (
        &["run", "tasks.toml", "second.csv", "4"],
        PLAIN_PAIR,
        "task,release,need\nhi,0,2\nlo,0,2\n",
        0,
        "event,tick,length,task,job,how\nrelease,0,,hi,1,kept\nrelease,0,,lo,1,kept\ntick,0,1,hi,1,more\ntick,1,1,hi,1,done\ntick,2,1,lo,1,more\ntick,3,1,lo,1,done\n",
    ),
    // Idle ticks are one record.
    (
        &["run", "tasks.toml", "second.csv", "1"],
        CONTROL,
        NO_WORK,
        0,
        "event,tick,length,task,job,how\nidle,0,1,,,\n",
    ),
    (
        &["run", "tasks.toml", "second.csv", "1000000"],
        CONTROL,
        NO_WORK,
        0,
        "event,tick,length,task,job,how\nidle,0,1000000,,,\n",
    ),
    // Files of no work.
    (
        TEN_TICKS,
        CONTROL,
        "",
        4,
        "work file line 1: header is not task,release,need\n",
    ),
    (
        TEN_TICKS,
        CONTROL,
        "task,release,need\nctl,0,6\nctl,9,1\n",
        4,
        "work file line 3: too soon, next 10\n",
    ),
    (
        TEN_TICKS,
        CONTROL,
        "task,release,need\nbob,0,1\n",
        4,
        "work file line 2: unknown task\n",
    ),
    (
        TEN_TICKS,
        CONTROL,
        "task,release,need\nctl,0,0\n",
        4,
        "work file line 2: need is 0\n",
    ),
    (
        TEN_TICKS,
        CONTROL,
        "task,release,need\nlog,5,1\nctl,4,1\n",
        4,
        "work file line 3: release before the last one\n",
    ),
    (
        TEN_TICKS,
        CONTROL,
        "task,release,need\nctl,0\n",
        4,
        "work file line 2: not three fields\n",
    ),
    (
        TEN_TICKS,
        CONTROL,
        "task,release,need\nctl,-1,2\n",
        4,
        "work file line 2: bad number\n",
    ),
];

#[test]
fn runs_write_their_traces_or_refuse_the_work_by_line(rt: HostRuntime) {
    assert_eq!(rt; first_wrong(&rt, rt.alloc(), CASES), None);
}
