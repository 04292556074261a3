//! The numbers of a trace: a report on each task, and a summary of all.
#![tactic(auto)]

mod counts;
mod pending_releases;
mod release_times;
mod tally;
mod task_tally;
mod writing;

pub use writing::{report, summary};
