//! The commands on how far the high budgets of sets could grow: `stretch` and `accept`.
#![tactic(auto)]

mod accept;
mod stretch;

pub use accept::{AcceptCommand, SetCount};
pub use stretch::StretchCommand;
