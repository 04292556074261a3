//! What may change in a set, and by how much, with the published test still admitting it: the budgets of each task, the
//! scale, and the speed of the processor.
#![tactic(auto)]

mod budget;
mod change;
mod passing;
mod scale_range;
mod speed;

pub use budget::{
    Budget, GreatestBudgets, greatest_budgets, greatest_high, greatest_low, greatest_of,
};
pub use scale_range::{ScaleRange, scales};
pub use speed::{SPEED_STEPS, least_speed};
