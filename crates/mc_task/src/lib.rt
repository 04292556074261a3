//! Tasks of two criticality levels, and sets of them.
#![tactic(auto)]

mod name;
mod name_table;
mod set;
mod task;

pub use name::Name;
pub use set::{Memory, SetFault, TaskSet};
pub use task::{JobId, Level, Rule, Scale, Task, TaskNo};
