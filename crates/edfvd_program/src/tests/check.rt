//! Sets that the test admits, and sets that it refuses.
use super::outside::{Case, first_wrong};
use super::{AVIONICS, CHECK, CONTROL, CONTROL_TEXT, QUARTER_SCALE, TWO_HIGH_TASKS};

static CASES: &[Case] = &[
    (CHECK, CONTROL, "", 0, CONTROL_TEXT),
    (
        CHECK,
        "task = [{name='one', level='low', period=2, low=2}]",
        "",
        0,
        "tasks 1\nU_LL 1/1\nU_HL 0/1\nU_HH 0/1\nrule plain\n",
    ),
    (
        CHECK,
        "task = [{name='tap', level='low', period=2, low=1}, {name='arm', level='high', period=4, low=1, high=3}]",
        "",
        0,
        "tasks 2\nU_LL 1/2\nU_HL 1/4\nU_HH 3/4\nrule virtual\nx 1/2\n",
    ),
    (
        CHECK,
        "task = [{name='tap', level='low', period=2, low=1}, {name='arm', level='high', period=4, low=1, high=4}]",
        "",
        1,
        "not admitted: U_LL 1/2 U_HL 1/4 U_HH 1/1\n",
    ),
    (
        CHECK,
        "task = [{name='tap', level='low', period=2, low=2}, {name='arm', level='high', period=4, low=1, high=1}]",
        "",
        1,
        "not admitted: U_LL 1/1 U_HL 1/4 U_HH 1/4\n",
    ),
    (
        CHECK,
        "task = [{name='a', level='low', period=4294967295, low=1}, {name='b', level='low', period=4294967294, low=1}]",
        "",
        3,
        "task file: task 2: periods out of range\n",
    ),
    (
        CHECK,
        "task = [{name='a', level='low', period=2147483648, low=1}, {name='b', level='low', period=387420489, low=1}]",
        "",
        0,
        "tasks 2\nU_LL 2534904137/831979165027663872\nU_HL 0/1\nU_HH 0/1\nrule plain\n",
    ),
    (
        CHECK,
        "task = [{name='a', level='low', period=2147483648, low=1}, {name='b', level='low', period=387420489, low=1}, {name='c', level='low', period=5, low=1}]",
        "",
        3,
        "task file: task 3: periods out of range\n",
    ),
    (
        CHECK,
        AVIONICS,
        "",
        0,
        "tasks 8\nU_LL 600007/1666700\nU_HL 11/40\nU_HH 67/100\nrule virtual\nx 916685/2133386\n",
    ),
    (
        CHECK,
        QUARTER_SCALE,
        "",
        0,
        "tasks 2\nU_LL 3/5\nU_HL 1/10\nU_HH 3/5\nrule virtual\nx 1/4\n",
    ),
    (
        CHECK,
        TWO_HIGH_TASKS,
        "",
        0,
        "tasks 3\nU_LL 2/5\nU_HL 3/10\nU_HH 7/10\nrule virtual\nx 1/2\n",
    ),
    (CHECK, "", "", 3, "task file: no tasks\n"),
    (CHECK, "task", "", 3, "task file: not TOML\n"),
    (
        CHECK,
        "\"\u{e9}\" = 1",
        "",
        3,
        "task file: unknown key ??\n",
    ),
    (CHECK, "version = 3", "", 3, "task file: unknown version\n"),
    (
        CHECK,
        "task = 3",
        "",
        3,
        "task file: task 0: wrong kind of task\n",
    ),
    (
        CHECK,
        "task = [{name='a', period=1, low=1}]",
        "",
        3,
        "task file: task 1: missing key level\n",
    ),
    (
        CHECK,
        "task = [{name='a', level='high', period=1, low=1}]",
        "",
        3,
        "task file: task 1: missing key high\n",
    ),
    (
        CHECK,
        "task = [{name='a', level='low', period=1, low=1, due=1}]",
        "",
        3,
        "task file: task 1: unknown key due\n",
    ),
    (
        CHECK,
        "task = [{name='a', level='low', period=1.5, low=1}]",
        "",
        3,
        "task file: task 1: wrong kind of period\n",
    ),
    (
        CHECK,
        "task = [{name='a', level='low', period=1, low=0}]",
        "",
        3,
        "task file: task 1: out of range low\n",
    ),
    (
        CHECK,
        "task = [{name='a b', level='low', period=1, low=1}]",
        "",
        3,
        "task file: task 1: bad name\n",
    ),
    (
        CHECK,
        "task = [{name='a', level='low', period=1, low=1, high=1}]",
        "",
        3,
        "task file: task 1: high budget on a low task\n",
    ),
    (
        CHECK,
        "task = [{name='a', level='high', period=9, low=3, high=2}]",
        "",
        3,
        "task file: task 1: high budget below low budget\n",
    ),
    (
        CHECK,
        "task = [{name='a', level='low', period=1, low=1}, {name='a', level='low', period=1, low=1}]",
        "",
        3,
        "task file: tasks 1 and 2 have one name\n",
    ),
];

#[test]
fn task_files_get_their_status_and_text(rt: HostRuntime) {
    assert_eq!(rt; first_wrong(&rt, rt.alloc(), CASES), None);
}
