//! Callers of this repository's crates, each on the set of a controller and a logger.
#![tactic(auto)]

ghost use Rattle.std.specs.Prelude.{IfOk};
ghost use Rattle.mc_model.specs.Holds.{Fits, Holds};

mod admitted;
mod demands;
mod guarded;
mod line;
mod live;
mod plant;
mod recorded;
mod schedule;
mod threads;
mod trace;
mod watched;

use admitted::{control_set, rule_for};
use anyhow::Context;
use demand_test::read_demands;
use demands::counterexample;
use guarded::print_a_run;
use live::run_live;
use mc_model::{How, Row, WorkRow};
use mc_task::{JobId, Rule, TaskNo, TaskSet};
use mode_core::Core;
use plant::Plant;
use recorded::verdict_on;
use schedule::schedule;
use std::alloc::Global;
use std::str;
use std::sync::Wait;
use std::thread::Threads;
use threads::{StepCounter, run_jobs};
use trace::trace_of;
use watched::{planned, run_watched};

fn main(rt: HostRuntime) -> anyhow::Result<()> {
    print_a_run(&rt, rt.alloc())?;
    admit_one(&rt, rt.alloc())?;
    let core = drive_a_plant(&rt, rt.alloc())?;
    judge_rows(&rt, rt.alloc(), &core)?;
    run_in_threads(&rt, rt.alloc(), &core)?;
    watch_a_run(&rt, rt.alloc(), &core)?;
    drive_without_an_end(&rt, rt.alloc())?;
    refute_a_set(&rt, rt.alloc())
}

// The set of a controller and a logger, and the rule of the test for it.
fn control(alloc: Global) -> anyhow::Result<(TaskSet, Rule)>
    ensures fits { IfOk result (λ r. Fits r.1) }
    ensures holds { IfOk result (λ r. Holds r.0.tasks r.1) }
{
    let set = control_set(alloc).context("no set")?;
    let rule = rule_for(&set)?;
    Ok((set, rule))
}

fn print_text(rt: &impl Print, text: &[u8]) -> anyhow::Result<()> {
    print!(rt; "{}", str::from_utf8(text)?)?;
    Ok(())
}

fn admit_one(rt: &impl Print, alloc: Global) -> anyhow::Result<()> {
    match control(alloc)?.1 {
        Rule::Plain => println!(rt; "EDF")?,
        Rule::Virtual { p, q } => println!(rt; "EDF-VD, x = {p}/{q}")?,
    }
    Ok(())
}

fn drive_a_plant(rt: &impl Print, alloc: Global) -> anyhow::Result<Core> {
    let (set, rule) = control(alloc)?;
    let mut plant = Plant::new();
    let core = schedule(alloc, set, rule, &mut plant, 12)
        .ok()
        .context("out of memory")?;
    print_a_trace(rt, alloc, &core, plant.ran)?;
    Ok(core)
}

fn print_a_trace(rt: &impl Print, alloc: Global, core: &Core, ran: u32) -> anyhow::Result<()> {
    let text = trace_of(alloc, core)?;
    print_text(rt, &text)?;
    println!(rt; "ticks that the plant ran: {ran}")?;
    Ok(())
}

fn judge_rows(rt: &impl Print, alloc: Global, core: &Core) -> anyhow::Result<()> {
    let (set, rule) = control(alloc)?;
    let ctl = first_job(1);
    let log = first_job(2);
    // The overrun has discarded the logger's job, so that job may not run.
    let recorded = [
        Row::Release {
            job: ctl,
            kept: true,
        },
        Row::Release {
            job: log,
            kept: true,
        },
        Row::Tick {
            job: ctl,
            how: How::More,
        },
        Row::Tick {
            job: ctl,
            how: How::Over,
        },
        Row::Tick {
            job: log,
            how: How::More,
        },
    ];
    print_verdict(rt, alloc, &set, rule, core.rows())?;
    print_verdict(rt, alloc, &set, rule, &recorded)
}

fn print_verdict(
    rt: &impl Print,
    alloc: Global,
    set: &TaskSet,
    rule: Rule,
    rows: &[Row],
) -> anyhow::Result<()>
    requires fits { Fits rule }
    requires holds { Holds set.now.tasks rule }
{
    println!(rt; "{:?}", verdict_on(alloc, set, rule, rows)?)?;
    Ok(())
}

fn first_job(task: u32) -> JobId {
    JobId {
        task: TaskNo(task),
        count: 1,
    }
}

fn run_in_threads<R: Print + Threads + Wait + Sync>(
    rt: &R,
    alloc: Global,
    core: &Core,
) -> anyhow::Result<()> {
    let jobs = overrun(alloc).context("out of memory")?;
    let (set, rule) = control(alloc)?;
    let counter = StepCounter::new();
    let floor = run_jobs(rt, alloc, set, rule, jobs, 12, &counter)?;
    let is_same = floor.core().rows() == core.rows();
    println!(rt;
        "steps in threads: {}\nthe same rows: {is_same}",
        counter.steps()
    )?;
    Ok(())
}

fn watch_a_run<R: Print + Threads + Wait + Sync>(
    rt: &R,
    alloc: Global,
    core: &Core,
) -> anyhow::Result<()> {
    let jobs = overrun(alloc).context("out of memory")?;
    let (set, rule) = control(alloc)?;
    let floor = planned(alloc, set, rule, jobs, 12).context("no floor")?;
    let (floor, ended) = run_watched(rt, alloc, floor, 12)
        .ok()
        .context("out of memory")?;
    let is_same = floor.core().rows() == core.rows();
    println!(rt; "ticks that a panel counted: {ended}\nthe same rows: {is_same}")?;
    Ok(())
}

fn drive_without_an_end(rt: &impl Print, alloc: Global) -> anyhow::Result<()> {
    let (set, rule) = control(alloc)?;
    let mut plant = Plant::new();
    let live = run_live(alloc, &set, rule, &mut plant, Vec::new(alloc))?;
    let verdict = live.monitor().verdict();
    print_text(rt, &live.into_lines())?;
    println!(rt; "{verdict:?}")?;
    Ok(())
}

fn refute_a_set(rt: &impl Print, alloc: Global) -> anyhow::Result<()> {
    let file = "task,period,deadline,budget\na,4,2,1\nb,6,3,3\n";
    let set = read_demands(alloc, file.as_bytes())?;
    match counterexample(alloc, &set).ok().context("out of memory")? {
        Some(text) => print_text(rt, &text),
        None => {
            println!(rt; "schedulable")?;
            Ok(())
        }
    }
}

// The jobs that the plant releases.
fn overrun(alloc: Global) -> Option<Vec<WorkRow>> {
    vec![in alloc; job(1, 0, 6), job(2, 0, 5), job(2, 10, 5)].ok()
}

fn job(task: u32, release: u32, need: u32) -> WorkRow {
    WorkRow {
        task: TaskNo(task),
        release,
        need,
    }
}
