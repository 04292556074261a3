//! Work files: records that say the jobs of a run, read into lists of work.
#![tactic(auto)]

mod fault;
mod next;
mod read;
mod record;
mod work;

pub use fault::{WorkCause, WorkFault};
pub use read::read_work;
pub use work::{BadRow, Work};
