//! Exact fractions of whole numbers.
#![tactic(auto)]

mod divisor;
mod ratio;

pub use divisor::{gcd, lcm_within};
pub use ratio::Ratio;
