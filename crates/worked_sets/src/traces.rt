//! The rows of the schedules of worked plans, and the runs of some.
use crate::{dropped, kept, release, tick, ticks};
use mc_model::How::{Done, More, Over};
use mc_model::{Row, Run};

/// A job of `QUARTER_SCALE`'s high task runs before a low one, though its deadline is later.
pub const QUARTER_SCALE_ROWS: [Row; 7] = [
    kept!(1, 1),
    tick!(1, 1, More),
    tick!(1, 1, More),
    kept!(2, 1),
    tick!(2, 1, Done),
    tick!(1, 1, Done),
    Row::Idle,
];

/// The high job of `CONTROL` overruns, the low job is discarded, and the next low job runs after the return to low
/// mode.
pub const OVERRUN_ROWS: [Row; 15] = [
    kept!(1, 1),
    kept!(2, 1),
    tick!(1, 1, More),
    tick!(1, 1, Over),
    tick!(1, 1, More),
    tick!(1, 1, More),
    tick!(1, 1, More),
    tick!(1, 1, Done),
    Row::Idle,
    Row::Idle,
    Row::Idle,
    Row::Idle,
    kept!(2, 2),
    tick!(2, 2, More),
    tick!(2, 2, More),
];

/// The runs of `OVERRUN_ROWS`.
pub const OVERRUN_RUNS: [Run; 9] = [
    release!(1, 1, true),
    release!(2, 1, true),
    ticks!(1, 1, More, 1),
    ticks!(1, 1, Over, 1),
    ticks!(1, 1, More, 3),
    ticks!(1, 1, Done, 1),
    Run::Idles { length: 4 },
    release!(2, 2, true),
    ticks!(2, 2, More, 2),
];

/// The first low job of `TAP_AND_ARM` is done, the next two are dropped, and the high one ends at its deadline.
pub const TAP_AND_ARM_ROWS: [Row; 9] = [
    kept!(1, 1),
    kept!(2, 1),
    tick!(1, 1, Done),
    tick!(2, 1, Over),
    dropped!(1, 2),
    tick!(2, 1, More),
    tick!(2, 1, Done),
    dropped!(1, 3),
    Row::Idle,
];

/// The runs of `TAP_AND_ARM_ROWS`.
pub const TAP_AND_ARM_RUNS: [Run; 9] = [
    release!(1, 1, true),
    release!(2, 1, true),
    ticks!(1, 1, Done, 1),
    ticks!(2, 1, Over, 1),
    release!(1, 2, false),
    ticks!(2, 1, More, 1),
    ticks!(2, 1, Done, 1),
    release!(1, 3, false),
    Run::Idles { length: 1 },
];

/// The low job of `CONTROL` is released in high mode, and dropped.
pub const HELD_RELEASE_ROWS: [Row; 6] = [
    kept!(1, 1),
    tick!(1, 1, More),
    tick!(1, 1, Over),
    dropped!(2, 1),
    tick!(1, 1, More),
    tick!(1, 1, More),
];

/// The high job of `PLAIN_PAIR` exceeds its low budget, and the mode stays low.
pub const PLAIN_PAIR_ROWS: [Row; 6] = [
    kept!(1, 1),
    kept!(2, 1),
    tick!(1, 1, More),
    tick!(1, 1, Done),
    tick!(2, 1, More),
    tick!(2, 1, Done),
];
