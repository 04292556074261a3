//! The commands on a trace: `judge`, `chart`, `report` and `migrate`.
#![tactic(auto)]

mod action;
mod judged_text;
mod judging;
mod on_trace;

pub use action::TraceAction;
pub use on_trace::TraceCommand;
