//! The chart of a trace: a line for each task, with a character for each tick, and a line of the mode.
#![tactic(auto)]

mod drawing;
mod marks;
mod sheet;

pub use drawing::chart;
