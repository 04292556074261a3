//! The verdict on a trace.
use mc_task::JobId;

/// The part of a row that does not fit the rows before it. The parts are tried in this order, and the first that fails
/// is reported.
#[derive(Clone, Copy, Debug, PartialEq, Eq)]
pub enum Why {
    TooSoon,
    WrongCount,
    WrongKept,
    NotPending,
    NotLeast,
    WrongHow,
    IdlePending,
}

/// The verdict of a judge on a trace.
#[derive(Clone, Copy, Debug, PartialEq, Eq)]
pub enum Verdict {
    /// Each row fits; `late` jobs missed their deadline, and `first` is the one of them released first.
    Legal { late: u64, first: Option<JobId> },
    /// The row with this number, from 1, is the first that does not fit the rows before it.
    Illegal { place: u64, why: Why },
}
