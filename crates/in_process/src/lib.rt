//! The program's commands in process: words and files in memory, on the caller's thread.
#![tactic(auto)]

mod asked;
mod reply;

pub use asked::ask_in_process;
pub use reply::{NoReply, reply_alone};
