//! The judge of a trace: the first row that breaks a rule of EDF-VD (Baruah et al., ECRTS 2012), or else which jobs were late.
#![tactic(auto)]

mod heads;
mod late_jobs;
mod monitor;
mod pending_queues;
mod queue;
mod rules;
mod runs;
mod state;
mod step;
mod turned;
mod unfit;
mod verdict;

pub use monitor::{Monitor, ObserveFault};
pub use turned::Turned;
pub use unfit::Unfit;
pub use verdict::judge;
