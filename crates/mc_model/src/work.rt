//! A row of a list of work.
use mc_task::TaskNo;

/// A job of a list of work: its task, its release time in ticks, and the number of ticks that it needs.
#[derive(Clone, Copy, Debug, PartialEq, Eq)]
pub struct WorkRow {
    pub task: TaskNo,
    pub release: u32,
    pub need: u32,
}
