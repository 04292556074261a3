//! Why work files and lists of work are refused.

/// Why a record of a work file, or a row of a list, is refused.
#[derive(Clone, Copy, Debug, PartialEq, Eq)]
pub enum WorkCause {
    /// The record does not have three fields.
    BadRecord,
    /// The first record is absent, or is not `task,release,need`.
    Header,
    /// The set has no task of that name or number.
    UnknownTask,
    /// The release or the need is not 1 to 10 ASCII digits of a value of at most 4,294,967,295.
    BadNumber,
    /// The need is 0 ticks.
    ZeroNeed,
    /// The release is below that of the row before it.
    Unsorted,
    /// The release is below `next`, in ticks: the task's last release plus its period.
    TooSoon { next: u64 },
    /// There are already 1,000,000 rows.
    TooMany,
}

/// Why a work file is refused: the line and the cause, or out of memory.
pub type WorkFault = csv_records::Fault<WorkCause>;
