//! The texts of a report and of a summary.
ghost use Rattle.std.specs.Prelude.{◌≡◌, ◌≤◌, ◌++◌, IfOk, OnOk, codes, length, reverse};
ghost use Rattle.sched_report.specs.ReportText.{report_text, summary_text, CountsAddUp};
ghost use Rattle.mc_model.specs.Traces.{IsTraceOf};
ghost use Rattle.mc_model.specs.Runs.{expand, AreRuns};
ghost use Rattle.sched_report.specs.Counts.{counts_in, response_of_tally, sum_tallies, tally_line};
ghost use Rattle.sched_report.specs.Tally.{Tallies};

use crate::counts::{Counts, push_count};
use crate::tally::Tally;
use crate::task_tally::TaskTally;
use mc_model::Run;
use mc_task::{Memory, TaskSet};
use std::alloc::{AllocError, Global};

/// The report of a trace: for each task in order how many jobs were released, kept, dropped, discarded, done and
/// stopped, its ticks, and its greatest response time in ticks; then the idle ticks and the switches to high mode.
/// Fails with `Memory` if an allocation fails.
#[tactic(auto, using(crate::proofs::AddUp::counts_add_up))]
pub fn report(alloc: Global, set: &TaskSet, runs: &[Run]) -> Result<Vec<u8>, Memory>
    requires runs { AreRuns runs.now }
    requires trace { IsTraceOf set.now.tasks (reverse (expand runs.now)) }
    ensures text { IfOk result (λ text. text.items ≡ report_text set.now.tasks (reverse (expand runs.now))) }
    // The counts of each task add up.
    ensures law { CountsAddUp }
{
    let tally = tally_of(alloc, set, runs)?;
    let mut text = Vec::new(alloc);
    let tasks = set.as_slice();
    for (i, task) in tasks.iter().enumerate() {
        push_task(&mut text, task.name.bytes(), &tally.tasks[i])?;
    }
    push_count(&mut text, "idle ", tally.idle)?;
    push_count(&mut text, "\nswitches ", tally.switches)?;
    text.extend_from_slice(b"\n")?;
    Ok(text)
}

/// The summary of a trace: the sums of a report's counts over all tasks in one line, and the ticks of jobs, the idle
/// ticks and the switches to high mode in another. Fails with `Memory` if an allocation fails.
pub fn summary(alloc: Global, set: &TaskSet, runs: &[Run]) -> Result<Vec<u8>, Memory>
    requires runs { AreRuns runs.now }
    requires trace { IsTraceOf set.now.tasks (reverse (expand runs.now)) }
    ensures { IfOk result (λ text. text.items ≡ summary_text set.now.tasks (reverse (expand runs.now))) }
{
    // There are at most 128 tasks, so the sums over all of them are in range.
    let _is_set = set.len();
    let tally = tally_of(alloc, set, runs)?;
    let mut text = Vec::new(alloc);
    sum_of(&tally).push_to(&mut text)?;
    push_count(&mut text, "\nticks ", tally.tick - tally.idle)?;
    push_count(&mut text, " idle ", tally.idle)?;
    push_count(&mut text, " switches ", tally.switches)?;
    text.extend_from_slice(b"\n")?;
    Ok(text)
}

fn tally_of(alloc: Global, set: &TaskSet, runs: &[Run]) -> Result<Tally, AllocError>
    requires runs { AreRuns runs.now }
    requires trace { IsTraceOf set.now.tasks (reverse (expand runs.now)) }
    ensures { IfOk result (λ tally. Tallies set.now.tasks (reverse (expand runs.now)) tally) }
{
    let mut tally = Tally::new(alloc, set)?;
    for run in runs {
        tally.count(*run)?;
    }
    Ok(tally)
}

fn push_task(text: &mut Vec<u8>, name: &[u8], task: &TaskTally) -> Result<(), AllocError>
    requires done { task.now.done ≤ 2000000 }
    requires stopped { task.now.stopped ≤ 2000000 }
    ensures { OnOk result (text.new.items ≡ text.old.items ++ tally_line name.now task.now) }
{
    text.extend_from_slice(b"task ")?;
    text.extend_from_slice(name)?;
    text.extend_from_slice(b" ")?;
    Counts::of(task).push_to(text)?;
    push_count(text, " ticks ", task.ticks)?;
    push_response(text, task)?;
    text.extend_from_slice(b"\n")?;
    Ok(())
}

// Adds the greatest response time, or a dash if no job was done or stopped.
fn push_response(text: &mut Vec<u8>, task: &TaskTally) -> Result<(), AllocError>
    requires done { task.now.done ≤ 2000000 }
    requires stopped { task.now.stopped ≤ 2000000 }
    ensures { OnOk result (text.new.items ≡ text.old.items ++ (codes " response " ++ response_of_tally task.now)) }
{
    if task.done + task.stopped == 0 {
        text.extend_from_slice(b" response -")?;
        return Ok(());
    }
    push_count(text, " response ", task.response)
}

ghost use Rattle.std.specs.Prelude.{All, ◌<◌};
ghost use Rattle.sched_report.specs.TaskTally.{IsSmall};

// The sums of the counts over all tasks.
fn sum_of(tally: &Tally) -> Counts
    requires few { length tally.now.tasks.items ≤ 128 }
    requires small { All IsSmall tally.now.tasks.items }
    ensures { counts_in result ≡ sum_tallies tally.now.tasks.items }
{
    let mut sum = Counts::none();
    for task in &tally.tasks {
        sum = sum.plus(Counts::of(task));
    }
    sum
}
