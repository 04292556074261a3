//! Numbers written as decimal digits.
#![tactic(auto)]

mod digits;

pub use digits::{number, numeral};
