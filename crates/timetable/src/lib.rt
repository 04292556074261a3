//! A floor: the scheduler's core with a plan, which is a list of work and a number of ticks, and the plan's next act.
#![tactic(auto)]

mod acts;
mod floor;
mod needs;
mod plan;

pub use acts::{Act, ActFault, PlanFault};
pub use floor::Floor;
pub use plan::Plan;
