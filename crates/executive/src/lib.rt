//! An executive: a floor that threads share, a pass for each task, and one history of the calls that all passes made.
#![tactic(auto)]

mod calls;
mod closing;
mod count;
mod entry;
mod executive;
mod gate;
mod heap_floor;
mod opening;
mod pass;
mod state;
mod watching;

pub use calls::Taken;
pub use closing::Unclosed;
pub use count::Count;
pub use entry::{Answer, Call, Entry};
pub use executive::Executive;
pub use gate::{Gate, QuietGate};
pub use opening::NoMemory;
pub use pass::{Grant, TaskPass};
