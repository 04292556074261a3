//! A first program: a set, its rule, and a loop over the core. It looks each task up before it releases it, so its
//! proof needs no file.
ghost use Rattle.std.specs.Prelude.{IfOk, IfSome};
ghost use Rattle.mc_model.specs.Holds.{Fits, Holds};
ghost use Rattle.mode_core.specs.Timely.{IsTimely};

use admission::admit;
use anyhow::Context;
use load_sum::sum_loads;
use mc_task::{Level, Memory, Name, Rule, Task, TaskNo, TaskSet};
use mode_core::Core;
use std::alloc::Global;

/// Runs two tasks for 20 ticks, and prints the number of rows.
pub fn print_a_run(rt: &impl Print, alloc: Global) -> anyhow::Result<()> {
    let set = sensor_set(alloc).context("no set")?;
    let rule = rule_of(&set).context("no rule schedules the set")?;
    let core = run(alloc, set, rule, 20).ok().context("out of memory")?;
    println!(rt;
        "{} ticks, {} rows, and no job is late",
        core.ticks(),
        core.rows().len()
    )?;
    Ok(())
}

fn sensor_set(alloc: Global) -> Option<TaskSet> {
    let steer = Task {
        name: Name::new(b"steer")?,
        level: Level::High,
        period: 10,
        low: 2,
        high: 6,
    };
    let log = Task {
        name: Name::new(b"log")?,
        level: Level::Low,
        period: 10,
        low: 5,
        high: 5,
    };
    TaskSet::new(vec![in alloc; steer, log].ok()?).ok()
}

// The rule of the published test for the set.
fn rule_of(set: &TaskSet) -> Option<Rule>
    ensures fits { IfSome result Fits }
    ensures holds { IfSome result (Holds set.now.tasks) }
{
    let loads = sum_loads(set).ok()?;
    admit(&loads)
}

/// Runs the set for `end` ticks, with each task released as soon as it may be. No job is late in the rows.
pub fn run(alloc: Global, set: TaskSet, rule: Rule, end: u32) -> Result<Core, Memory>
    requires fits { Fits rule }
    requires holds { Holds set.tasks rule }
    ensures timely { IfOk result IsTimely }
{
    let tasks = set.len();
    let mut core = Core::new(alloc, set, rule, 1000)?;
    for tick in 0..end {
        for place in 0..tasks {
            release(&mut core, TaskNo(place + 1));
        }
        give_tick(&mut core, tick % 3 == 2);
    }
    let _timely = core.rows();
    Ok(core)
}

// If the task may not be released yet, the core refuses, and nothing changes.
fn release(core: &mut Core, task: TaskNo) {
    if core.set().get(task).is_some() {
        let _ = core.release(task);
    }
}

// Gives the next tick to the chosen job, if a job is pending.
fn give_tick(core: &mut Core, done: bool) {
    match core.chosen() {
        Some(job) => {
            if let Ok(granted) = core.grant(job.task) {
                // Here the job would run for one tick and say whether it is done.
                let _ = core.outcome(granted.job, done);
            }
        }
        None => {
            let _ = core.idle();
        }
    }
}
