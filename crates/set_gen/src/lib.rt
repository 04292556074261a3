//! Workloads generated from a number: a set that the test admits, and work for it.
#![tactic(auto)]

mod jobs;
mod made;
mod tasks;
mod words;

pub use made::{Made, make};
pub use tasks::{Numbers, draw_numbers};
pub use words::words_of;
