//! When each task of a set may be released again.
#![tactic(auto)]

mod arrivals;

pub use arrivals::{Arrivals, TooSoon};
