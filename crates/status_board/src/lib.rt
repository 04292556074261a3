//! A board on which one thread shows ticks and mode, and which others read without waiting.
#![tactic(auto)]

mod board;
mod opening;
mod plays;
mod shown;
mod tokens;

pub use board::Board;
pub use opening::Memory;
pub use shown::{BoardId, Shown, TokenView};
pub use tokens::{Watcher, Writer};
