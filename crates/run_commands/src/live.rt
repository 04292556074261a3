//! The command `live`.
ghost use Rattle.std.specs.Prelude.{◌≤◌, ◌^◌, IfOk, reverse};
ghost use Rattle.mc_model.specs.LiveTrace.{LiveTrace};
ghost use Rattle.task_threads.specs.LiveLeft.{HasLiveTrace};
ghost use Rattle.replies.specs.Stop.{Replies};
ghost use Rattle.command.specs.Serves.{Serves, IsOwn, Prepares};
ghost use Rattle.run_commands.specs.Live.{IsLiveReply, live};
ghost use Rattle.run_commands.specs.Run.{IsShort};
ghost use Rattle.run_commands.specs.Jobs.{IsLiveJob};

use command::{Admitted, FileName, MOST_TABLE_BYTES, SetWithRule, Within, fetch, read_admitted};
use executive::Gate;
use mc_model::Row;
use mc_world::Shelf;
use mode_core::Core;
use replies::{Reply, Stop};
use std::alloc::Global;
use std::sync::Wait;
use std::thread::Threads;
use task_threads::{live_capacity, run_live};
use timetable::{Floor, Plan};
use trace_format::write_rows;

/// How many ticks a live run has, 1 to 100,000.
pub type LiveTicks = Within<1, 100_000>;

/// `live TASKS TICKS`.
#[derive(Drop)]
pub struct LiveCommand<'a> {
    pub tasks: FileName<'a>,
    pub ticks: LiveTicks,
}

impl<'a> LiveCommand<'a> {
    /// The reply. The file is read first; then each task runs in a thread that releases when it may, and the gate is called at
    /// its steps. This may wait.
    pub fn reply<R: Threads + Wait + Sync, S: Shelf, G: Gate + Sync>(
        &self,
        rt: &R,
        alloc: Global,
        shelf: &mut S,
        gate: &G,
    ) -> Result<Reply, Stop>
        ensures serves { Serves 1 (live self.now.tasks self.now.ticks) (S.state shelf.old) (S.state shelf.new) result }
        // `judge` reads a trace of at most this many bytes.
        ensures short { IfOk result (IsShort (2 ^ 27)) }
    {
        let job = self.job(alloc, shelf)?;
        finish_live(rt, alloc, job, &self.ticks, gate)
    }

    // The job to run, by the file. Without a runtime this cannot wait.
    fn job<S: Shelf>(&self, alloc: Global, shelf: &mut S) -> Result<SetWithRule, Stop>
        ensures { Prepares 1 (live self.now.tasks self.now.ticks) IsLiveJob (IsLiveReply self.now.ticks) (S.state shelf.old) (S.state shelf.new) result }
    {
        let bytes = fetch(alloc, shelf, 1, &self.tasks, MOST_TABLE_BYTES)?;
        let Admitted { set, rule, .. } = read_admitted(alloc, &bytes)?;
        Ok(SetWithRule { set, rule })
    }
}

// The reply of a `live` of this many ticks, as `LiveCommand::reply` gives it once the file is read.
fn finish_live<R: Threads + Wait + Sync, G: Gate + Sync>(
    rt: &R,
    alloc: Global,
    job: SetWithRule,
    ticks: &LiveTicks,
    gate: &G,
) -> Result<Reply, Stop>
    requires { IsLiveJob job }
    ensures live_reply { Replies (IsLiveReply ticks.now job) result }
    ensures short { IfOk result (IsShort (2 ^ 27)) }
    ensures own { Replies IsOwn result }
{
    let SetWithRule { set, rule } = job;
    // The set has at most 128 tasks, so its traces are short, and so are its names.
    let _is_set = set.len();
    let ticks = ticks.get();
    let places = live_capacity(&set, ticks) as usize;
    let core = Core::new(alloc, set, rule, places)?;
    let floor = Floor::new(core, Plan::Free);
    let floor = run_live(rt, alloc, floor, ticks, gate)?;
    let done = floor.core();
    let text = write_rows(alloc, done.set(), live_rows(done, ticks))?;
    Ok(Reply::new(0, text))
}

// The rows up to the one of the last of this many ticks.
fn live_rows(core: &Core, ticks: u64) -> &[Row]
    requires some { 1 ≤ ticks }
    requires live { HasLiveTrace core.now ticks }
    ensures { LiveTrace core.now.set core.now.rule ticks (reverse result.now) }
{
    let rows = core.rows();
    let mut left = ticks;
    for place in 0..rows.len() {
        match rows[place] {
            Row::Release { .. } => {}
            Row::Tick { .. } | Row::Idle => {
                left -= 1;
                if left == 0 {
                    return rows.split_at(place + 1).0;
                }
            }
        }
    }
    unreachable!()
}
