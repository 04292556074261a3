//! Runs: equal rows of a trace in one record.
ghost use Rattle.std.specs.Prelude.{◌↔◌, IsTrue};
ghost use Rattle.mc_model.specs.Runs.{IsRun};

use crate::row::How;
use mc_task::JobId;

/// Neighbouring equal rows of a trace in one record.
#[derive(Clone, Copy, Debug, PartialEq, Eq)]
pub enum Run {
    /// One release.
    Release { job: JobId, kept: bool },
    /// `length` ticks of one job, each with this outcome.
    Ticks { job: JobId, how: How, length: u32 },
    /// `length` idle ticks.
    Idles { length: u32 },
}

impl Run {
    /// Whether the run has a row, and several ticks of a job only if the job goes on after each.
    pub fn is_valid(self) -> bool
        ensures { IsTrue result ↔ IsRun self }
    {
        match self {
            Run::Release { .. } => true,
            Run::Ticks { how, length, .. } => match how {
                How::More => length >= 1,
                How::Done | How::Stop | How::Over => length == 1,
            },
            Run::Idles { length } => length >= 1,
        }
    }
}
