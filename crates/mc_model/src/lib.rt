//! The model of EDF-VD that contracts cite: loads, the test, and the rows of a trace.
#![tactic(auto)]

mod row;
mod run;
mod verdict;
mod work;

pub use row::{How, Row, are_of_set};
pub use run::Run;
pub use verdict::{Verdict, Why};
pub use work::WorkRow;
