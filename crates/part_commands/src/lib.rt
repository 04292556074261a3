//! The commands on several processors: `partition` and `runall`.
#![tactic(auto)]

mod floors;
mod numbered;
mod parted;
mod partition;
mod run_parts;
mod side_by_side;
mod traces;

pub use parted::{Parted, Processors};
pub use partition::PartitionCommand;
pub use run_parts::RunAllCommand;
pub use side_by_side::{Side, run_all};
