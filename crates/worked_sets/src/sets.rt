//! The sets of the worked examples.
use crate::Line;
use mc_task::Level::{High, Low};

/// A set that EDF does not fit, and EDF-VD fits with the scale 2/5.
pub const CONTROL: [Line; 2] = [("ctl", High, 10, 2, 6), ("log", Low, 10, 5, 5)];

/// A set that EDF-VD fits with the scale 1/2, with which its load is exactly 1.
pub const TAP_AND_ARM: [Line; 2] = [("tap", Low, 2, 1, 1), ("arm", High, 4, 1, 3)];

/// A set that EDF-VD fits with the scale 1/4.
pub const QUARTER_SCALE: [Line; 2] = [("a", Low, 5, 3, 3), ("b", High, 10, 1, 6)];

/// A set that EDF-VD fits with the scale 1/2; one of its high tasks has one budget.
pub const TWO_HIGH_TASKS: [Line; 3] = [
    ("ctl", High, 10, 2, 6),
    ("fix", High, 10, 1, 1),
    ("log", Low, 10, 4, 4),
];

/// The tasks of `CONTROL`, with a name of one byte and one of the greatest length.
pub const LONG_NAME: [Line; 2] = [
    ("c", High, 10, 2, 6),
    ("log_of_thirty-two_bytes_12345678", Low, 10, 5, 5),
];

/// A set that EDF fits with a load of exactly 1.
pub const PLAIN_PAIR: [Line; 2] = [("hi", High, 4, 1, 2), ("lo", Low, 4, 2, 2)];
