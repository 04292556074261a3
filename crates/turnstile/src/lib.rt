//! A state that threads take in ticket order, and the one history of their turns: a ticket lock (Mellor-Crummey and
//! Scott, ACM TOCS 1991) whose callers know what the state stands for.
#![tactic(auto)]

mod board;
mod closing;
mod kept;
mod opening;
mod plays;
mod tokens;
mod turns;

pub use kept::{Added, Kept};
pub use opening::NewFault;
pub use tokens::{Seat, Turn};
pub use turns::Turnstile;
