//! By how much the high budgets of sets could grow.
use super::outside::{Case, Outside, ended, first_wrong};
use super::{CONTROL, STRETCH, TAP_AND_ARM};
use executive::QuietGate;

// The counts are those of another program, over fractions.
const TABLE: &str = "100 50
110 49
120 16
130 0
140 0
150 0
160 0
170 0
180 0
190 0
200 0
";

static CASES: &[Case] = &[
    (
        STRETCH,
        CONTROL,
        "",
        0,
        "stretch 149\nU_HH 4/5 at 149\nU_HH 9/10 at 150\n",
    ),
    (
        STRETCH,
        TAP_AND_ARM,
        "",
        0,
        "stretch 133\nU_HH 3/4 at 133\nU_HH 1/1 at 134\n",
    ),
    (
        STRETCH,
        "task = [{name='tap', level='low', period=2, low=1}, {name='arm', level='high', period=4, low=1, high=4}]",
        "",
        0,
        "stretch 99\nU_HH 3/4 at 99\nU_HH 1/1 at 100\n",
    ),
    (
        STRETCH,
        "task = [{name='tap', level='low', period=2, low=2}, {name='arm', level='high', period=4, low=1, high=1}]",
        "",
        0,
        "stretch none\nU_HH 1/4 at 0\n",
    ),
    (
        STRETCH,
        "task = [{name='one', level='high', period=1000, low=1, high=1}]",
        "",
        0,
        "stretch 1000\nU_HH 1/100 at 1000\n",
    ),
    (
        STRETCH,
        "task = [{name='a', level='low', period=4294967295, low=1}, {name='b', level='low', period=4294967294, low=1}]",
        "",
        3,
        "task file: task 2: periods out of range\n",
    ),
    (STRETCH, "", "", 3, "task file: no tasks\n"),
    (&["accept", "1", "50", "8"], "", "", 0, TABLE),
    (&["accept", "0001", "050", "08"], "", "", 0, TABLE),
];

#[test]
fn sets_have_the_room_that_was_counted_outside(rt: HostRuntime) {
    assert_eq!(rt; first_wrong(&rt, rt.alloc(), CASES), None);
}

#[test]
fn the_last_number_of_a_set_is_taken(rt: HostRuntime) {
    let words = ["accept", "18446744073709551614", "1", "2"];
    let ended = ended(&rt, rt.alloc(), &words, &Outside::new("", ""), &QuietGate);
    assert!(rt; matches!(ended, Some((0, _))));
}
