//! The texts are those of another program, a plain simulation in fractions, written from the rules alone.
use super::outside::{Case, ends_as, first_wrong};
use worked_gates::MeetingGate;

const SOAK_7: &[&str] = &["soak", "7", "8", "20000"];

const SOAKED_7: &str =
    "soak 7 8 20000\nrule virtual x 325/1668\nreleased 226 kept 226 dropped 0 discarded 0 done 225 stopped 0\nticks 6302 idle 13698 switches 0\nlegal late 0\n";

static CASES: &[Case] = &[
    (SOAK_7, "", "", 0, SOAKED_7),
    (
        &["soak", "1", "16", "20000"],
        "",
        "",
        0,
        "soak 1 16 20000\nrule virtual x 1727/10064\nreleased 432 kept 430 dropped 2 discarded 0 done 430 stopped 0\nticks 6410 idle 13590 switches 5\nlegal late 0\n",
    ),
    (
        &["soak", "18446744073709551615", "32", "20000"],
        "",
        "",
        0,
        "soak 18446744073709551615 32 20000\nrule virtual x 3160/10067\nreleased 609 kept 602 dropped 7 discarded 10 done 592 stopped 0\nticks 6078 idle 13922 switches 5\nlegal late 0\n",
    ),
    (
        &["soak", "0", "2", "1"],
        "",
        "",
        0,
        "soak 0 2 1\nrule virtual x 321/1250\nreleased 2 kept 2 dropped 0 discarded 0 done 0 stopped 0\nticks 1 idle 0 switches 0\nlegal late 0\n",
    ),
    // Zeros before a number change nothing.
    (&["soak", "00007", "08", "20000"], "", "", 0, SOAKED_7),
];

#[test]
fn workloads_are_those_of_the_generator(rt: HostRuntime) {
    assert_eq!(rt; first_wrong(&rt, rt.alloc(), CASES), None);
}

#[test]
fn a_workload_is_run_by_threads_that_meet(rt: HostRuntime) {
    let gate = MeetingGate::of(1, 2);
    let case = (SOAK_7, "", "", 0, SOAKED_7);
    assert!(rt; ends_as(&rt, rt.alloc(), &case, &gate) && gate.is_kept());
}
