//! What the program promises of its answers: definitions, and the law that the answers keep them.
//!
//! The program's top call cites these definitions, and a caller that makes its replies elsewhere can cite them too. The law is a
//! function that does nothing: its contract says what is so of each answer.
#![tactic(auto)]

mod law;

pub use law::promises_law;
