//! Tests of the deadline laws, on worked traces.
use crate::rules::set_under;
use demand_law::{low_mode_law, no_over_law, one_live_law, plain_law, switch_law};
use mc_task::Rule;
use std::test::Fail;
use worked_sets::{
    CONTROL, OVERRUN_ROWS, PLAIN_PAIR, PLAIN_PAIR_ROWS, QUARTER_SCALE, QUARTER_SCALE_ROWS,
    TAP_AND_ARM, TAP_AND_ARM_ROWS,
};

// A high job exceeds its low budget under EDF, where the mode never changes.
#[test]
fn under_plain_edf_no_job_is_late(rt: HostRuntime) -> Result<(), Fail> {
    let set = set_under(rt.alloc(), &PLAIN_PAIR, Rule::Plain)?;
    plain_law(&set, Rule::Plain, &PLAIN_PAIR_ROWS);
    one_live_law(&set, Rule::Plain, &PLAIN_PAIR_ROWS);
    no_over_law(&set, Rule::Plain, &PLAIN_PAIR_ROWS);
    Ok(())
}

// The virtual deadline of the high job is four and a half ticks, before the five ticks of the low job.
#[test]
fn in_low_mode_no_virtual_deadline_is_due(rt: HostRuntime) -> Result<(), Fail> {
    let quarter = Rule::Virtual { p: 1, q: 4 };
    let set = set_under(rt.alloc(), &QUARTER_SCALE, quarter)?;
    low_mode_law(&set, quarter, &QUARTER_SCALE_ROWS);
    switch_law(&set, quarter, &QUARTER_SCALE_ROWS);
    one_live_law(&set, quarter, &QUARTER_SCALE_ROWS);
    no_over_law(&set, quarter, &QUARTER_SCALE_ROWS);
    Ok(())
}

// The high job overruns, the low job is discarded, and the mode is low again after an idle tick.
#[test]
fn an_overrun_and_the_return_leave_no_job_late(rt: HostRuntime) -> Result<(), Fail> {
    let two_fifths = Rule::Virtual { p: 2, q: 5 };
    let set = set_under(rt.alloc(), &CONTROL, two_fifths)?;
    switch_law(&set, two_fifths, &OVERRUN_ROWS);
    one_live_law(&set, two_fifths, &OVERRUN_ROWS);
    Ok(())
}

// The job that overruns ends in the last tick before its deadline.
#[test]
fn a_deadline_is_met_exactly_in_high_mode(rt: HostRuntime) -> Result<(), Fail> {
    let half = Rule::Virtual { p: 1, q: 2 };
    let set = set_under(rt.alloc(), &TAP_AND_ARM, half)?;
    switch_law(&set, half, &TAP_AND_ARM_ROWS);
    one_live_law(&set, half, &TAP_AND_ARM_ROWS);
    Ok(())
}
