//! Task sets, lists of work and traces that were worked out by hand, for the tests of other crates.
#![tactic(auto)]

mod plans;
mod rows;
mod sets;
mod tasks;
mod traces;
mod work;

// The macros use these names.
pub use mc_model::{Row, Run};
pub use mc_task::{JobId, TaskNo};
pub use plans::{PLANS, WorkedPlan};
pub use sets::{CONTROL, LONG_NAME, PLAIN_PAIR, QUARTER_SCALE, TAP_AND_ARM, TWO_HIGH_TASKS};
pub use tasks::{Line, set_of, task};
pub use traces::{
    HELD_RELEASE_ROWS, OVERRUN_ROWS, OVERRUN_RUNS, PLAIN_PAIR_ROWS, QUARTER_SCALE_ROWS,
    TAP_AND_ARM_ROWS, TAP_AND_ARM_RUNS,
};
pub use work::{HELD_RELEASE_WORK, Job, OVERRUN_WORK, TAP_AND_ARM_WORK, work_row, work_rows};
