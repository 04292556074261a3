//! A plan, run by a thread for each of its tasks.
#![tactic(auto)]

mod live;
mod live_left;
mod live_needs;
mod live_room;
mod live_round;
mod parking_spots;
mod planned;
mod refused;
mod starts;
#[cfg(test)]
mod tests;
mod threads;
mod worker;

pub use live::run_live;
pub use live_room::live_capacity;
pub use threads::run_threads;
