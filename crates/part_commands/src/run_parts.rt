//! The command `runall`.
ghost use Rattle.replies.specs.Stop.{Replies};
ghost use Rattle.command.specs.Serves.{Serves, IsOwn, Prepares};
ghost use Rattle.part_commands.specs.RunAll.{run_all};
ghost use Rattle.part_commands.specs.Planned.{IsRunAllJob, RepliesToRunAll};

use crate::floors::{PartFloors, floors_of};
use crate::parted::{Parted, Processors, read_parted};
use crate::side_by_side::run_all;
use crate::traces::traces_text;
use command::{FileName, MOST_TABLE_BYTES, Ticks, fetch, read_work_of};
use executive::Gate;
use mc_world::Shelf;
use replies::{Reply, Stop};
use std::alloc::Global;
use std::sync::Wait;
use std::thread::Threads;
use work_file::Work;

/// `runall TASKS WORK TICKS M`.
#[derive(Drop)]
pub struct RunAllCommand<'a> {
    pub tasks: FileName<'a>,
    pub work: FileName<'a>,
    pub ticks: Ticks,
    pub processors: Processors,
}

/// A set on several processors, and its work to run.
#[derive(Drop)]
pub struct RunAllJob {
    pub parted: Parted,
    pub work: Work,
}

impl<'a> RunAllCommand<'a> {
    /// The reply. The files are read first; then each processor with tasks has an executive and each task a thread, and the gate
    /// is called at its steps by the number that the task has in the whole set. This may wait.
    pub fn reply<R: Threads + Wait + Sync, S: Shelf, G: Gate + Sync>(
        &self,
        rt: &R,
        alloc: Global,
        shelf: &mut S,
        gate: &G,
    ) -> Result<Reply, Stop>
        ensures { Serves 1 (run_all self.now.tasks self.now.work self.now.ticks self.now.processors) (S.state shelf.old) (S.state shelf.new) result }
    {
        let job = self.job(alloc, shelf)?;
        finish_run_all(rt, alloc, job, &self.ticks, &self.processors, gate)
    }

    // The job to run, by both files. Without a runtime this cannot wait.
    fn job<S: Shelf>(&self, alloc: Global, shelf: &mut S) -> Result<RunAllJob, Stop>
        ensures { Prepares 1 (run_all self.now.tasks self.now.work self.now.ticks self.now.processors)
            (IsRunAllJob self.now.processors) (RepliesToRunAll self.now.ticks self.now.processors) (S.state shelf.old) (S.state shelf.new) result }
    {
        let bytes = fetch(alloc, shelf, 1, &self.tasks, MOST_TABLE_BYTES)?;
        let parted = read_parted(alloc, &bytes, &self.processors)?;
        let more = fetch(alloc, shelf, 2, &self.work, MOST_TABLE_BYTES)?;
        let work = read_work_of(alloc, &parted.set, &more)?;
        Ok(RunAllJob { parted, work })
    }
}

// The reply of a `runall` of this many ticks on this many processors, as `RunAllCommand::reply` gives it once the files are read.
fn finish_run_all<R: Threads + Wait + Sync, G: Gate + Sync>(
    rt: &R,
    alloc: Global,
    job: RunAllJob,
    ticks: &Ticks,
    processors: &Processors,
    gate: &G,
) -> Result<Reply, Stop>
    requires { IsRunAllJob processors.now job }
    ensures traces { Replies (RepliesToRunAll ticks.now processors.now job) result }
    ensures own { Replies IsOwn result }
{
    let PartFloors { used, sides } = floors_of(alloc, &job, ticks, processors)?;
    let done = run_all(rt, alloc, sides, gate)?;
    let text = traces_text(alloc, &used, &done)?;
    Ok(Reply::new(0, text))
}
