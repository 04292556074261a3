//! The command `run`.
ghost use Rattle.std.specs.Prelude.{◌≤◌, ℕ, IfOk, length};
ghost use Rattle.replies.specs.Stop.{Replies};
ghost use Rattle.command.specs.Serves.{Serves, IsOwn, Prepares};
ghost use Rattle.run_commands.specs.declared.run.RunJob.{RunJob as Job};
ghost use Rattle.run_commands.specs.Run.{IsShort, most_run_bytes, run};
ghost use Rattle.run_commands.specs.Jobs.{IsRunJob, RepliesToRun};
ghost use Rattle.run_commands.specs.Planned.{IsPlanned};

use crate::planned::{planned, planned_alone};
use command::{Admitted, FileName, MOST_TABLE_BYTES, Ticks, fetch, read_admitted, read_work_of};
use executive::Gate;
use mc_task::{Rule, TaskSet};
use mc_world::Shelf;
use replies::{Reply, Stop};
use std::alloc::Global;
use std::sync::Wait;
use std::thread::Threads;
use timetable::Floor;
use trace_format::write_rows;
use work_file::Work;

/// `run TASKS WORK TICKS`.
#[derive(Drop)]
pub struct RunCommand<'a> {
    pub tasks: FileName<'a>,
    pub work: FileName<'a>,
    pub ticks: Ticks,
}

/// A set, the rule and the work to run.
#[derive(Drop)]
pub struct RunJob {
    pub set: TaskSet,
    pub rule: Rule,
    pub work: Work,
}

impl<'a> RunCommand<'a> {
    /// The reply. The files are read first; then each task runs in a thread, and the gate is called at its steps. This may wait.
    pub fn reply<R: Threads + Wait + Sync, S: Shelf, G: Gate + Sync>(
        &self,
        rt: &R,
        alloc: Global,
        shelf: &mut S,
        gate: &G,
    ) -> Result<Reply, Stop>
        ensures serves { Serves 1 (run self.now.tasks self.now.work self.now.ticks) (S.state shelf.old) (S.state shelf.new) result }
        ensures short { IfOk result (IsShort most_run_bytes) }
    {
        let job = self.job(alloc, shelf)?;
        finish_run(rt, alloc, job, &self.ticks, gate)
    }

    /// The reply that [`RunCommand::reply`] gives, by the caller's thread alone: there is one trace, and this thread makes it.
    pub fn reply_alone<S: Shelf>(&self, alloc: Global, shelf: &mut S) -> Result<Reply, Stop>
        ensures serves { Serves 1 (run self.now.tasks self.now.work self.now.ticks) (S.state shelf.old) (S.state shelf.new) result }
        ensures short { IfOk result (IsShort most_run_bytes) }
    {
        let job = self.job(alloc, shelf)?;
        let floor = planned_alone(alloc, job, &self.ticks)?;
        trace_reply(alloc, &floor)
    }

    // The job to run, by both files. Without a runtime this cannot wait.
    fn job<S: Shelf>(&self, alloc: Global, shelf: &mut S) -> Result<RunJob, Stop>
        ensures { Prepares 1 (run self.now.tasks self.now.work self.now.ticks) IsRunJob (RepliesToRun self.now.ticks) (S.state shelf.old) (S.state shelf.new) result }
    {
        let bytes = fetch(alloc, shelf, 1, &self.tasks, MOST_TABLE_BYTES)?;
        let Admitted { set, rule, .. } = read_admitted(alloc, &bytes)?;
        let more = fetch(alloc, shelf, 2, &self.work, MOST_TABLE_BYTES)?;
        let work = read_work_of(alloc, &set, &more)?;
        Ok(RunJob { set, rule, work })
    }
}

// The reply of a `run` of this many ticks, as `RunCommand::reply` gives it once the files are read.
fn finish_run<R: Threads + Wait + Sync, G: Gate + Sync>(
    rt: &R,
    alloc: Global,
    job: RunJob,
    ticks: &Ticks,
    gate: &G,
) -> Result<Reply, Stop>
    requires { IsRunJob job }
    ensures trace { Replies (RepliesToRun ticks.now job) result }
    ensures short { IfOk result (IsShort most_run_bytes) }
    ensures own { Replies IsOwn result }
{
    let floor = planned(rt, alloc, job, ticks, gate)?;
    trace_reply(alloc, &floor)
}

// The reply with the text of the trace on a floor at the end of its plan.
fn trace_reply(alloc: Global, floor: &Floor) -> Result<Reply, Stop>
    requires { length floor.now.core.rows ≤ 2000000 }
    ensures trace { (job : Job) (ticks : ℕ) → IsPlanned job ticks floor.now → Replies (RepliesToRun ticks job) result }
    ensures short { (job : Job) (ticks : ℕ) → IsPlanned job ticks floor.now → IfOk result (IsShort most_run_bytes) }
    ensures own { Replies IsOwn result }
{
    let core = floor.core();
    let set = core.set();
    // The names of a set are short.
    let _is_set = set.len();
    let text = write_rows(alloc, set, core.rows())?;
    Ok(Reply::new(0, text))
}
