//! The release times of the pending jobs of one level.
ghost use Rattle.std.specs.Prelude.{◌≡◌, OnOk, IfOk, Some, None, replicate, slice_get, vec_len};
ghost use Rattle.mc_task.specs.declared.task.JobId.{JobId};
ghost use Rattle.sched_report.specs.ReleaseTimes.{older, recent_or, stored, StoresOnly, SetsAside};

use mc_task::{JobId, TaskNo};
use std::alloc::{AllocError, Global};
use std::collections::BTreeMap;

// The job that stands in a task's slot: its number and its release time.
#[derive(Clone, Copy, Debug, PartialEq, Eq)]
pub struct Recent {
    pub count: u32,
    pub release: u32,
}

// A task mostly has at most one pending job. So the latest release of each task stands in an array, in the slot with
// the task's number (slot 0 is not used). Releases before the latest are in a map, by task number and job number.
#[derive(Drop)]
pub struct ReleaseTimes {
    recent: Vec<Option<Recent>>,
    older: BTreeMap<(u32, u32), u32>,
}

impl ReleaseTimes {
    // Nothing is stored. Each of these tasks has a slot in the array. Fails if an allocation fails.
    pub fn new(alloc: Global, tasks: u32) -> Result<ReleaseTimes, AllocError>
        ensures { IfOk result (λ times. (job : JobId) → stored times job ≡ None) }
    {
        let recent = no_jobs(alloc, tasks as usize + 1)?;
        Ok(ReleaseTimes {
            recent,
            older: BTreeMap::new(alloc),
        })
    }

    // Stores the release time of a job. Fails if an allocation fails.
    pub fn put(&mut self, job: JobId, release: u32) -> Result<(), AllocError>
        ensures { OnOk result (StoresOnly self.old self.new job (Some release)) }
    {
        match self.recent_at(job.task) {
            Some(recent) => {
                self.set_aside(job, recent)?;
                self.recent[job.task.0 as usize] = Some(Recent {
                    count: job.count,
                    release,
                });
                Ok(())
            }
            None => {
                self.older.insert((job.task.0, job.count), release)?;
                Ok(())
            }
        }
    }

    // Takes out the release time of a job.
    pub fn take(&mut self, job: JobId) -> Option<u32>
        ensures release { result ≡ stored self.old job }
        ensures change { StoresOnly self.old self.new job None }
    {
        let older = self.older.remove(&(job.task.0, job.count));
        match self.recent_of(job) {
            Some(release) => {
                self.recent[job.task.0 as usize] = None;
                Some(release)
            }
            None => older,
        }
    }

    // Removes all jobs.
    pub fn clear(&mut self)
        ensures { (job : JobId) → stored self.new job ≡ None }
    {
        self.older.clear();
        empty_all(&mut self.recent);
    }

    // What stands in the task's slot; `None` if the task has no slot.
    fn recent_at(&self, task: TaskNo) -> Option<Option<Recent>>
        ensures { result ≡ slice_get self.now.recent.items task.0 }
    {
        self.recent.get(task.0 as usize).copied()
    }

    // The release time of the job, if the job stands in its task's slot.
    fn recent_of(&self, job: JobId) -> Option<u32>
        ensures { result ≡ recent_or (slice_get self.now.recent.items job.task.0) job.count None }
    {
        let recent = self.recent_at(job.task)??;
        if recent.count == job.count {
            Some(recent.release)
        } else {
            None
        }
    }

    // Copies what stands in the task's slot to the map, unless it is the job's own release time.
    fn set_aside(&mut self, job: JobId, recent: Option<Recent>) -> Result<(), AllocError>
        ensures array { self.new.recent.items ≡ self.old.recent.items }
        ensures map { OnOk result (SetsAside job recent (older self.old) (older self.new)) }
    {
        let Some(recent) = recent else {
            return Ok(());
        };
        if recent.count == job.count {
            return Ok(());
        }
        self.older
            .insert((job.task.0, recent.count), recent.release)?;
        Ok(())
    }
}

// That many empty slots.
fn no_jobs(alloc: Global, slots: usize) -> Result<Vec<Option<Recent>>, AllocError>
    ensures { IfOk result (λ recent. recent.items ≡ replicate slots None) }
{
    vec![in alloc; None; slots]
}

// Removes the job from each slot.
fn empty_all(slots: &mut Vec<Option<Recent>>)
    ensures { slots.new.items ≡ replicate (vec_len slots.old) None }
{
    slots.fill(None);
}
