//! Files that are cut or wrong.
use super::outside::{Case, first_wrong};
use super::{CHECK, CONTROL, JUDGE};

const EQUAL_NAMES: &str = "task = [
    {name='ctl', level='high', period=10, low=2, high=6},
    {name='ctl', level='low', period=10, low=5},
]";

static CASES: &[Case] = &[
    (
        JUDGE,
        CONTROL,
        "",
        5,
        "trace line 1: header is of no trace version\n",
    ),
    (
        JUDGE,
        CONTROL,
        "event,tick,task,job,how",
        0,
        "legal late 0\n",
    ),
    (
        JUDGE,
        CONTROL,
        "event,tick,task,job,how\nrel",
        5,
        "trace line 2: not five fields\n",
    ),
    (
        JUDGE,
        CONTROL,
        "event,tick,task,job,how\nrelease,0,ctl,1,",
        5,
        "trace line 2: unknown event\n",
    ),
    (
        JUDGE,
        CONTROL,
        "event,tick,task,job,how\nrelease,0,ct,1,kept",
        5,
        "trace line 2: unknown task\n",
    ),
    (
        JUDGE,
        CONTROL,
        "event,tick,task,job,how\nrelease,0,ctl,,kept",
        5,
        "trace line 2: bad number\n",
    ),
    (
        JUDGE,
        CONTROL,
        "event,tick,task,job,how\nrelease,4294967296,ctl,1,kept",
        5,
        "trace line 2: bad number\n",
    ),
    (
        JUDGE,
        CONTROL,
        "event,tick,task,job,how\nrelease,0000000000,ctl,1,kept",
        0,
        "legal late 0\n",
    ),
    (
        JUDGE,
        CONTROL,
        "event,tick,task,job,how\nrelease,00000000000,ctl,1,kept",
        5,
        "trace line 2: bad number\n",
    ),
    (
        JUDGE,
        CONTROL,
        "event,tick,length,task,job,how",
        0,
        "legal late 0\n",
    ),
    (
        JUDGE,
        CONTROL,
        "event,tick,length,task,job,how\nidl",
        5,
        "trace line 2: not six fields\n",
    ),
    (
        JUDGE,
        CONTROL,
        "event,tick,length,task,job,how\nidle,0,1,,",
        5,
        "trace line 2: not six fields\n",
    ),
    (
        JUDGE,
        CONTROL,
        "event,tick,length,task,job,how\nrelease,0,0,ctl,1,kept",
        5,
        "trace line 2: unknown event\n",
    ),
    (
        JUDGE,
        CONTROL,
        "event,tick,length,task,job,how\ntick,0,1,ct,1,more",
        5,
        "trace line 2: unknown task\n",
    ),
    (
        JUDGE,
        CONTROL,
        "event,tick,length,task,job,how\ntick,0,,ctl,1,more",
        5,
        "trace line 2: bad number\n",
    ),
    (
        JUDGE,
        CONTROL,
        "event,tick,length,task,job,how\nidle,0,4294967296,,,",
        5,
        "trace line 2: bad number\n",
    ),
    (
        JUDGE,
        CONTROL,
        "event,tick,length,task,job,how\nidle,0,00000000001,,,",
        5,
        "trace line 2: bad number\n",
    ),
    (
        JUDGE,
        CONTROL,
        "event,tick,length,task,job,how\nidle,1,0,,,",
        5,
        "trace line 2: wrong tick\n",
    ),
    (
        JUDGE,
        CONTROL,
        "event,tick,length,task,job,how\nidle,0,0,,,",
        5,
        "trace line 2: bad length\n",
    ),
    (
        JUDGE,
        CONTROL,
        "event,tick,length,task,job,how\ntick,0,4294967295,ctl,1,done",
        5,
        "trace line 2: bad length\n",
    ),
    (
        JUDGE,
        CONTROL,
        "event,tick,length,task,job,how\nidle,0,4294967295,,,",
        5,
        "trace line 2: more than 100000000 ticks\n",
    ),
    (
        JUDGE,
        CONTROL,
        "event,tick,length,task,job,how\nidle,0,0100000000,,,\nrelease,0100000000,,ctl,1,kept",
        0,
        "legal late 0\n",
    ),
    (
        CHECK,
        EQUAL_NAMES,
        "",
        3,
        "task file: tasks 1 and 2 have one name\n",
    ),
];

#[test]
fn hostile_files_get_their_status_and_line(rt: HostRuntime) {
    assert_eq!(rt; first_wrong(&rt, rt.alloc(), CASES), None);
}
