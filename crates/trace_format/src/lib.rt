//! Traces as text: runs of equal rows written as lines, and read from records.
#![tactic(auto)]

mod event;
mod fault;
mod line_buffer;
mod packing;
mod read;
mod record;
mod run_list;
mod takes_runs;
mod version;
mod write;

pub use fault::{TraceCause, TraceFault};
pub use packing::{merge, pack};
pub use read::{read_runs, read_trace};
pub use takes_runs::TakesRuns;
pub use write::{how_word, kept_word, write_rows, write_trace};
