//! Task sets from numbers in memory, and the calls that test them.
mod demand;
mod given;
mod growth;
mod loaded;
mod margins;
mod parted;
mod tested;

pub use given::{CTask, NoSet, OUT_OF_MEMORY, set_of};
pub use loaded::{SetAndLoads, loads_of, set_and_loads};
