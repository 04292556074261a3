//! The pending jobs of a task set, at most one of each task, with the one that runs next known at once.
#![tactic(auto)]

mod item;
mod queue;
mod tree;

pub use item::Item;
pub use queue::ReadyQueue;
