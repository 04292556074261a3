//! How many ticks each task's pending job has had, against the task's budgets.
#![tactic(auto)]

mod used;

pub use used::{Spent, Used};
