//! The commands that run tasks in threads: `run`, `soak` and `live`.
#![tactic(auto)]

mod live;
mod planned;
mod run;
mod soak;

pub use live::{LiveCommand, LiveTicks};
pub use run::RunCommand;
pub use soak::SoakCommand;
