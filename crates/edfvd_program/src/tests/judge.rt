//! Recorded traces, judged.
use super::outside::{Case, first_wrong};
use super::{CONTROL, HEADER, JUDGE, LONG_PERIODS, LOW_FIRST, OVERLOADED, UNDER_HALF, UNDER_ONE};

static CASES: &[Case] = &[
    (
        UNDER_ONE,
        CONTROL,
        LOW_FIRST,
        6,
        "legal late 1 first ctl 1\n",
    ),
    (JUDGE, CONTROL, LOW_FIRST, 6, "illegal row 3 not_least\n"),
    (JUDGE, CONTROL, HEADER, 0, "legal late 0\n"),
    (
        JUDGE,
        CONTROL,
        "event,tick,task,job,how\nrelease,0,ctl,1,kept\ntick,0,ctl,1,done\nidle,1,,,\n",
        0,
        "legal late 0\n",
    ),
    (
        JUDGE,
        CONTROL,
        "event,tick,task,job,how\nrelease,0,ctl,1,kept\nidle,0,,,\n",
        6,
        "illegal row 2 idle_pending\n",
    ),
    (
        JUDGE,
        CONTROL,
        "event,tick,task,job,how\nrelease,0,ctl,1,kept\ntick,0,ctl,1,more\ntick,1,ctl,1,over\nrelease,2,log,1,kept\n",
        6,
        "illegal row 4 wrong_kept\n",
    ),
    // Lines of no trace.
    (
        JUDGE,
        CONTROL,
        "",
        5,
        "trace line 1: header is of no trace version\n",
    ),
    (
        JUDGE,
        CONTROL,
        "idle,0,,,\n",
        5,
        "trace line 1: header is of no trace version\n",
    ),
    (
        JUDGE,
        CONTROL,
        "event,tick,task,job,how\nrelease,0,ctl,1,kept\ntick,0,ct",
        5,
        "trace line 3: not five fields\n",
    ),
    (
        JUDGE,
        CONTROL,
        "event,tick,task,job,how\nrelease,0,ctl,1,kept\ntick,0,ctl,1,mor",
        5,
        "trace line 3: unknown event\n",
    ),
    (
        JUDGE,
        CONTROL,
        "event,tick,task,job,how\nidle,0,ctl,,\n",
        5,
        "trace line 2: unknown event\n",
    ),
    (
        JUDGE,
        CONTROL,
        "event,tick,task,job,how\nrelease,0,bob,1,kept\n",
        5,
        "trace line 2: unknown task\n",
    ),
    (
        JUDGE,
        CONTROL,
        "event,tick,task,job,how\nrelease,0,ctl,4294967296,kept\n",
        5,
        "trace line 2: bad number\n",
    ),
    (
        JUDGE,
        CONTROL,
        "event,tick,task,job,how\nrelease,00000000000,ctl,1,kept\n",
        5,
        "trace line 2: bad number\n",
    ),
    (
        JUDGE,
        CONTROL,
        "event,tick,task,job,how\nidle,0,,,\nidle,0,,,\n",
        5,
        "trace line 3: wrong tick\n",
    ),
    (
        JUDGE,
        CONTROL,
        "event,tick,task,job,how\nidle,1,,,\n",
        5,
        "trace line 2: wrong tick\n",
    ),
    // A number of ten digits is taken, and a header without its line feed.
    (
        JUDGE,
        CONTROL,
        "event,tick,task,job,how\nrelease,0000000000,ctl,0000000001,kept\n",
        0,
        "legal late 0\n",
    ),
    (
        JUDGE,
        CONTROL,
        "event,tick,task,job,how",
        0,
        "legal late 0\n",
    ),
    // Only a given scale judges sets that the test refuses.
    (UNDER_HALF, OVERLOADED, HEADER, 0, "legal late 0\n"),
    (UNDER_HALF, LONG_PERIODS, HEADER, 0, "legal late 0\n"),
    (UNDER_HALF, "", HEADER, 3, "task file: no tasks\n"),
];

#[test]
fn traces_get_their_verdict_or_are_refused_by_line(rt: HostRuntime) {
    assert_eq!(rt; first_wrong(&rt, rt.alloc(), CASES), None);
}
