//! A scheduling loop of the caller's own over the core, for any device.
ghost use Rattle.std.specs.Prelude.{◌≡◌, ◌<◌, ◌≤◌, None, length, IfOk};
ghost use Rattle.mc_model.specs.Holds.{Fits, Holds};
ghost use Rattle.mc_model.specs.Legal.{Legal};
ghost use Rattle.mc_model.specs.Rows.{ticks};
ghost use Rattle.mode_core.specs.Timely.{IsTimely};
ghost use Rattle.calling_examples.specs.Loop.{AddsReleases, AddsTick};

use mc_task::{JobId, Memory, Rule, TaskNo, TaskSet};
use mode_core::Core;
use row_history::Recorder;
use std::alloc::Global;

/// What the loop drives.
pub trait Device {
    /// Whether the task is released at this boundary, just before tick `at`.
    fn releases(&mut self, task: TaskNo, at: u64) -> bool;

    /// Runs one tick of the job, and returns whether the job is then done.
    fn run(&mut self, job: JobId) -> bool;
}

/// Schedules `end` ticks of the set under the rule, whatever the device returns.
pub fn schedule<D: Device>(
    alloc: Global,
    set: TaskSet,
    rule: Rule,
    device: &mut D,
    end: u32,
) -> Result<Core, Memory>
    requires fits { Fits rule }
    requires holds { Holds set.tasks rule }
    requires few { end ≤ 1000000 }
    ensures ticks { IfOk result (λ core. ticks core.rows ≡ end) }
    ensures legal { IfOk result (λ core. Legal set.tasks rule core.rows) }
    ensures timely { IfOk result IsTimely }
    ensures same { IfOk result (λ core. (core.set ≡ set.tasks) × (core.rule ≡ rule) × (core.out ≡ None)) }
{
    let tasks = set.len();
    // A set has at most 128 tasks, so each boundary has at most 128 releases and one tick.
    let mut core = Core::new(alloc, set, rule, 129 * end as usize)?;
    for _tick in 0..end {
        release_due(&mut core, device, tasks);
        give_tick(&mut core, device);
    }
    let _sound = core.ticks();
    let _timely = core.rows();
    Ok(core)
}

/// Releases each task that the device wants released. A release that is too soon is refused, which changes nothing.
pub fn release_due<D: Device, R: Recorder>(core: &mut Core<R>, device: &mut D, tasks: u32)
    requires tasks { tasks ≡ length core.old.set }
    requires none_out { core.old.out ≡ None }
    ensures { AddsReleases tasks core.old core.new }
{
    for place in 0..tasks {
        let task = TaskNo(place + 1);
        if device.releases(task, core.ticks()) {
            let _ = core.release(task);
        }
    }
}

/// Gives the next tick to the chosen job, or makes an idle tick if nothing is pending.
pub fn give_tick<D: Device, R: Recorder>(core: &mut Core<R>, device: &mut D)
    requires none_out { core.old.out ≡ None }
    requires room { length core.old.rows < core.old.places }
    ensures { AddsTick core.old core.new }
{
    let _sound = core.ticks();
    match core.chosen() {
        Some(job) => {
            if let Ok(granted) = core.grant(job.task) {
                let done = device.run(granted.job);
                let _ = core.outcome(granted.job, done);
            }
        }
        None => {
            let _ = core.idle();
        }
    }
}
