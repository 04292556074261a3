//! The command `check`.
#![tactic(auto)]

mod check;
mod check_lines;

pub use check::CheckCommand;
