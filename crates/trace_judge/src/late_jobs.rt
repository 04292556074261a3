//! The late jobs, counted in the order in which they are found.
ghost use Rattle.std.specs.Prelude.{◌≡◌};
ghost use Rattle.trace_judge.specs.LateJobs.{noted, earlier};

use mc_task::JobId;

/// A late job, and the number of rows before its release.
#[derive(Clone, Copy, Debug, PartialEq, Eq)]
pub struct LateJob {
    pub rows_before: u64,
    pub job: JobId,
}

/// How many jobs were late, and which of them was released first.
#[derive(Clone, Copy, Debug, PartialEq, Eq)]
pub struct LateJobs {
    pub count: u64,
    pub first: Option<LateJob>,
}

impl LateJobs {
    /// Counts one more late job.
    pub fn note(&mut self, late: LateJob)
        ensures { self.new ≡ noted self.old late }
    {
        self.count = self.count.saturating_add(1);
        self.first = earlier(self.first, late);
    }
}

// The late job that was released first: the one so far, if any, or this one.
fn earlier(first: Option<LateJob>, late: LateJob) -> Option<LateJob>
    ensures { result ≡ earlier first late }
{
    match first {
        None => Some(late),
        Some(first) => {
            if late.rows_before < first.rows_before {
                Some(late)
            } else {
                Some(first)
            }
        }
    }
}
