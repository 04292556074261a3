//! The plan of a floor.
use work_file::Work;

/// What a floor has to do.
#[derive(Debug, Drop)]
pub enum Plan {
    /// No plan: the callers decide.
    Free,
    /// The jobs of this list are released at their times, and this number of ticks is given.
    Rows { work: Work, ticks: u64 },
}
