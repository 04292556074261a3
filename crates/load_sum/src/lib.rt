//! The utilisations of a task set, exactly.
#![tactic(auto)]

mod loads;

pub use loads::{LoadFault, Loads, sum_loads};
