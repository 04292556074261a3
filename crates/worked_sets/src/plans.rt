//! Plans, and the rows of their schedules.
use crate::sets::{CONTROL, PLAIN_PAIR, QUARTER_SCALE, TAP_AND_ARM, TWO_HIGH_TASKS};
use crate::traces::{
    HELD_RELEASE_ROWS, OVERRUN_ROWS, PLAIN_PAIR_ROWS, QUARTER_SCALE_ROWS, TAP_AND_ARM_ROWS,
};
use crate::work::{HELD_RELEASE_WORK, Job, OVERRUN_WORK, TAP_AND_ARM_WORK};
use crate::{Line, kept, tick};
use mc_model::How::{More, Stop};
use mc_model::Row;
use mc_task::Rule;

/// A set, the rule of the test for it, work for `ticks` ticks, and the rows of its schedule.
#[derive(Clone, Copy)]
pub struct WorkedPlan {
    pub shows: &'static str,
    pub lines: &'static [Line],
    pub rule: Rule,
    pub jobs: &'static [Job],
    pub ticks: u32,
    pub rows: &'static [Row],
}

/// The worked plans.
pub const PLANS: [WorkedPlan; 6] = [
    WorkedPlan {
        shows: "a virtual deadline of 4.5 is before one of 5",
        lines: &QUARTER_SCALE,
        rule: Rule::Virtual { p: 1, q: 4 },
        jobs: &[(1, 0, 3), (2, 2, 1)],
        ticks: 5,
        rows: &QUARTER_SCALE_ROWS,
    },
    WorkedPlan {
        shows: "an overrun ends low jobs until an idle tick",
        lines: &CONTROL,
        rule: Rule::Virtual { p: 2, q: 5 },
        jobs: &OVERRUN_WORK,
        ticks: 12,
        rows: &OVERRUN_ROWS,
    },
    WorkedPlan {
        shows: "of equal keys the lower number runs, and high mode drops",
        lines: &TAP_AND_ARM,
        rule: Rule::Virtual { p: 1, q: 2 },
        jobs: &TAP_AND_ARM_WORK,
        ticks: 5,
        rows: &TAP_AND_ARM_ROWS,
    },
    WorkedPlan {
        shows: "needs above their budgets are stopped without a switch",
        lines: &TWO_HIGH_TASKS,
        rule: Rule::Virtual { p: 1, q: 2 },
        jobs: &[(2, 0, 5), (3, 0, 9)],
        ticks: 6,
        rows: &[
            kept!(2, 1),
            kept!(3, 1),
            tick!(2, 1, Stop),
            tick!(3, 1, More),
            tick!(3, 1, More),
            tick!(3, 1, More),
            tick!(3, 1, Stop),
            Row::Idle,
        ],
    },
    WorkedPlan {
        shows: "a low release in high mode is dropped",
        lines: &CONTROL,
        rule: Rule::Virtual { p: 2, q: 5 },
        jobs: &HELD_RELEASE_WORK,
        ticks: 4,
        rows: &HELD_RELEASE_ROWS,
    },
    WorkedPlan {
        shows: "nothing switches under plain EDF",
        lines: &PLAIN_PAIR,
        rule: Rule::Plain,
        jobs: &[(1, 0, 2), (2, 0, 2)],
        ticks: 4,
        rows: &PLAIN_PAIR_ROWS,
    },
];
