//! The schedulability test of EDF-VD (Baruah et al., ECRTS 2012), on the loads of a set.
#![tactic(auto)]

mod test;
mod tested;

pub use test::{admit, admit_scaled, holds_for, three_quarters};
pub use tested::{NoRule, Tested, test_set};
