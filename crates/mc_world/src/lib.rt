//! The outside as the program sees it: a shelf of files, and a sink for bytes.
#![tactic(auto)]

mod calm_shelf;
mod calm_sink;
mod device;
mod edge;
mod file_shelf;
mod memory_shelf;
mod memory_sink;
mod shelf;
mod sink;
mod stdout_sink;

pub use calm_shelf::CalmShelf;
pub use calm_sink::CalmSink;
pub use file_shelf::FileShelf;
pub use memory_shelf::MemoryShelf;
pub use memory_sink::MemorySink;
pub use shelf::{FetchFault, Shelf};
pub use sink::{Sink, SinkFault};
pub use stdout_sink::StdoutSink;

/// Out of memory.
#[derive(Clone, Copy, Debug, PartialEq, Eq)]
pub struct Memory;

#[cfg(test)]
mod tests;
