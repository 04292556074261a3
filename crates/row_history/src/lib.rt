//! Where the rows of a schedule go: into a list, or to a caller as they come.
#![tactic(auto)]

mod recorder;

pub use recorder::{Recorder, RowCount, row_count};
