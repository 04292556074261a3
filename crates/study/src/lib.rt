//! The stretch of task sets, and how many random task sets have at least a given stretch.
#![tactic(auto)]

mod acceptance;
mod counting;
mod levels;
mod room;
mod shares;

pub use acceptance::{table, table_alone};
pub use room::{high_at, stretch};
