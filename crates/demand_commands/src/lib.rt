//! The command `demand`.
#![tactic(auto)]

mod demand;

pub use demand::DemandCommand;
