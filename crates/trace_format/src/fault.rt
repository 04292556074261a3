//! Why a trace is refused.

/// Why a record of a trace is refused.
#[derive(Clone, Copy, Debug, PartialEq, Eq)]
pub enum TraceCause {
    /// The record of version 1 does not have five fields.
    BadRecord,
    /// The first record is absent, or is the header of neither version.
    Header,
    /// The event and the outcome (field `how`) are not `release` with `kept` or `dropped`, nor `tick` with `more`,
    /// `done`, `stop` or `over`, nor `idle` with an empty task, job and outcome; or a release has a length.
    UnknownEvent,
    /// The set has no task of that name.
    UnknownTask,
    /// The tick, the length or the job's number is not 1 to 10 ASCII digits of a value of at most 4,294,967,295.
    BadNumber,
    /// The tick is not the sum of the lengths before it; in version 1 each length is 1.
    WrongTick,
    /// There are already 2,000,000 records.
    TooMany,
    /// The length is 0; or it is above 1, and the record is a tick after which its job does not go on.
    BadLength,
    /// With this record there are more than 100,000,000 ticks.
    TooManyTicks,
    /// The record of version 2 does not have six fields.
    NotSix,
}

/// Why a trace is refused: the line and the cause, or out of memory.
pub type TraceFault = csv_records::Fault<TraceCause>;
