//! Replies on the caller's thread.
use super::outside::{Case, first_wrong_alone, has_reply_alone};
use super::{CHECK, CONTROL, CONTROL_TEXT, JUDGE, LOW_FIRST, OVERRUN_RUNS, OVERRUN_WORK};

const TWELVE_TICKS: &[&str] = &["run", "tasks.toml", "second.csv", "12"];

static CASES: &[Case] = &[
    (CHECK, CONTROL, "", 0, CONTROL_TEXT),
    (TWELVE_TICKS, CONTROL, OVERRUN_WORK, 0, OVERRUN_RUNS),
    (
        TWELVE_TICKS,
        CONTROL,
        "",
        4,
        "work file line 1: header is not task,release,need\n",
    ),
    (JUDGE, CONTROL, LOW_FIRST, 6, "illegal row 3 not_least\n"),
];

#[test]
fn replies_on_the_callers_thread_are_the_programs(rt: HostRuntime) {
    assert_eq!(rt; first_wrong_alone(rt.alloc(), CASES), None);
}

#[test]
fn a_command_that_starts_threads_has_no_reply_on_the_callers_thread(rt: HostRuntime) {
    assert!(rt; !has_reply_alone(rt.alloc(), &["soak", "7", "8", "100"]));
    assert!(rt; !has_reply_alone(rt.alloc(), &["live", "tasks.toml", "10"]));
}
