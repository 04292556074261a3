//! The deadline laws of EDF-VD: under a rule that holds, no job is late (Baruah et al., ECRTS 2012).
//!
//! A law is a function that does nothing. Its contract says what is so of the rows that it is given, and of every
//! trace of every set.
#![tactic(auto)]

mod law;

pub use law::{low_mode_law, no_over_law, one_live_law, plain_law, switch_law};
