//! The release times of the pending jobs.
ghost use Rattle.std.specs.Prelude.{◌≡◌, OnOk, IfOk, Some, None};
ghost use Rattle.mc_task.specs.declared.task.JobId.{JobId};
ghost use Rattle.mc_task.specs.declared.task.Level.{Level};
ghost use Rattle.mc_task.specs.declared.task.Level.TheVariants.{Low, High};
ghost use Rattle.sched_report.specs.PendingReleases.{release_in, ChangesOnly};

use crate::release_times::ReleaseTimes;
use mc_task::{JobId, Level};
use std::alloc::{AllocError, Global};

// Jobs of low tasks are stored apart, since an overrun discards them all.
#[derive(Drop)]
pub struct PendingReleases {
    low: ReleaseTimes,
    high: ReleaseTimes,
}

impl PendingReleases {
    // Nothing is stored: none of these tasks has a pending job. Fails if an allocation fails.
    pub fn new(alloc: Global, tasks: u32) -> Result<PendingReleases, AllocError>
        ensures { IfOk result (λ pending. (level : Level) (job : JobId) → release_in pending level job ≡ None) }
    {
        Ok(PendingReleases {
            low: ReleaseTimes::new(alloc, tasks)?,
            high: ReleaseTimes::new(alloc, tasks)?,
        })
    }

    // Stores the release time of a job. Fails if an allocation fails.
    pub fn put(&mut self, level: Level, job: JobId, release: u32) -> Result<(), AllocError>
        ensures { OnOk result (ChangesOnly self.old self.new level job (Some release)) }
    {
        match level {
            Level::Low => self.low.put(job, release)?,
            Level::High => self.high.put(job, release)?,
        };
        Ok(())
    }

    // Takes out the release time of a job that ended.
    pub fn take(&mut self, level: Level, job: JobId) -> Option<u32>
        ensures release { result ≡ release_in self.old level job }
        ensures change { ChangesOnly self.old self.new level job None }
    {
        match level {
            Level::Low => self.low.take(job),
            Level::High => self.high.take(job),
        }
    }

    // Removes all jobs of low tasks.
    pub fn discard(&mut self)
        ensures low { (job : JobId) → release_in self.new Low job ≡ None }
        ensures high { (job : JobId) → release_in self.new High job ≡ release_in self.old High job }
    {
        self.low.clear();
    }
}
