//! The commands on a trace.
/// What a command writes of a good trace.
#[derive(Clone, Copy, Debug, PartialEq, Eq)]
pub enum TraceAction {
    /// The verdict under the test's rule.
    Judge,
    /// The verdict under EDF-VD with the scale `p/q`, even for a set that the test refuses.
    JudgeBy { p: u64, q: u64 },
    /// The chart.
    Chart,
    /// The report.
    Report,
    /// The trace itself, with equal ticks in one record.
    Migrate,
}
