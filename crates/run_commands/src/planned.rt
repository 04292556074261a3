//! A plan run to its end.
ghost use Rattle.std.specs.Prelude.{◌≡◌, ◌≤◌, IfOk, length};
ghost use Rattle.run_commands.specs.Jobs.{IsRunJob};
ghost use Rattle.run_commands.specs.Planned.{IsPlanned, opening_for};

use crate::run::RunJob;
use command::Ticks;
use executive::Gate;
use mc_task::Memory;
use mode_core::Core;
use std::alloc::Global;
use std::sync::Wait;
use std::thread::Threads;
use task_threads::run_threads;
use timetable::{Floor, Plan};

/// The floor with the one trace of this many ticks that set, rule and work determine, run in a thread for each task.
#[tactic(auto, using(crate::proofs::PlannedTrace::is_planned))]
pub fn planned<R: Threads + Wait + Sync, G: Gate + Sync>(
    rt: &R,
    alloc: Global,
    job: RunJob,
    ticks: &Ticks,
    gate: &G,
) -> Result<Floor, Memory>
    requires { IsRunJob job }
    ensures { IfOk result (IsPlanned job ticks.now) }
{
    let ready = opened(alloc, job, ticks)?;
    run_threads(rt, alloc, ready, gate)
}

/// The floor with the one trace of this many ticks that set, rule and work determine, run on the caller's thread.
pub fn planned_alone(alloc: Global, job: RunJob, ticks: &Ticks) -> Result<Floor, Memory>
    requires { IsRunJob job }
    ensures { IfOk result (IsPlanned job ticks.now) }
{
    let mut floor = opened(alloc, job, ticks)?;
    floor.finish();
    Ok(floor)
}

// The floor before its first row, with capacity for each tick and each release.
fn opened(alloc: Global, job: RunJob, ticks: &Ticks) -> Result<Floor, Memory>
    requires { IsRunJob job }
    ensures opening { IfOk result (λ floor. floor ≡ opening_for job ticks.now) }
    ensures ticks { ticks.now ≤ 1000000 }
    ensures work { length job.work ≤ 1000000 }
{
    let RunJob { set, rule, work } = job;
    let ticks = ticks.get();
    let places = ticks as usize + work.rows().len();
    let core = Core::new(alloc, set, rule, places)?;
    Ok(Floor::new(core, Plan::Rows { work, ticks }))
}
