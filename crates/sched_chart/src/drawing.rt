//! The chart of a trace, drawn into a text of blank ticks.
ghost use Rattle.std.specs.Prelude.{◌≡◌, ◌+◌, ◌^◌, ◌++◌, ◌≤◌, [], IfOk, OnOk, length, replicate, reverse, vec_len};
ghost use Rattle.sched_chart.specs.ChartText.{chart_line, chart_text, name_width, ChartedModeLaw};
ghost use Rattle.mc_model.specs.Rows.{ticks};
ghost use Rattle.mc_model.specs.Traces.{IsTraceOf};
ghost use Rattle.mc_model.specs.Runs.{expand, AreRuns};
ghost use Rattle.sched_chart.specs.Sheet.{chart_to, IsSheet};

use crate::marks::{mark_runs, tick_after};
use crate::sheet::Sheet;
use mc_model::Run;
use mc_task::{Memory, Task, TaskSet};
use std::alloc::{AllocError, Global};

/// The chart of a trace: a line for each task in order, with a character for each tick, and a last line of the mode.
///
/// In the line of its task, a tick is `#` if its job has more to do, `D` if the job is done, `S` if it was stopped, and
/// `O` if it overran its low budget; in the other lines it is `.`. The mode is `H` or `L`, that before the tick.
///
/// Fails with `Memory` if an allocation fails.
#[tactic(auto, using(crate::proofs::ChartedMode::charted_mode))]
pub fn chart(alloc: Global, set: &TaskSet, runs: &[Run]) -> Result<Vec<u8>, Memory>
    requires runs { AreRuns runs.now }
    requires trace { IsTraceOf set.now.tasks (reverse (expand runs.now)) }
    requires few { ticks (expand runs.now) ≤ 2000000 }
    ensures text { IfOk result (λ text. text.items ≡ chart_text set.now.tasks (reverse (expand runs.now))) }
    // The mode in the chart is the mode under each rule for which the rows are legal.
    ensures mode { ChartedModeLaw }
{
    let sheet = Sheet {
        width: name_width(set.as_slice()),
        ticks: count_ticks(runs),
    };
    let mut text = blank(alloc, set, sheet)?;
    mark_runs(&mut text, set, sheet, runs);
    Ok(text)
}

// The width of names: 6, or the length of the longest name if that is greater.
fn name_width(tasks: &[Task]) -> usize
    ensures width { result ≡ name_width tasks.now }
    ensures most { result ≤ 32 }
{
    let mut width = 6;
    for task in tasks {
        width = task.name.bytes().len().max(width);
    }
    width
}

fn count_ticks(runs: &[Run]) -> usize
    requires { ticks (expand runs.now) ≤ 2000000 }
    ensures ticks { result ≡ ticks (reverse (expand runs.now)) }
    ensures most { result ≤ 2000000 }
{
    let mut tick = 0;
    for run in runs {
        tick = tick_after(tick, *run);
    }
    tick
}

// The chart with all ticks blank.
fn blank(alloc: Global, set: &TaskSet, sheet: Sheet) -> Result<Vec<u8>, AllocError>
    requires sheet { IsSheet sheet }
    requires width { sheet.width ≡ name_width set.now.tasks }
    ensures { IfOk result (λ text. text.items ≡ chart_to set.now.tasks sheet.ticks []) }
{
    let tasks = set.as_slice();
    let mut text = Vec::with_capacity(alloc, sheet.lines(tasks.len() + 1))?;
    for task in tasks {
        push_line(&mut text, sheet, task.name.bytes(), b'.')?;
    }
    push_line(&mut text, sheet, b"(mode)", b'L')?;
    Ok(text)
}

// Adds a line with one character at all its ticks.
fn push_line(text: &mut Vec<u8>, sheet: Sheet, name: &[u8], mark: u8) -> Result<(), AllocError>
    requires sheet { IsSheet sheet }
    requires name { length name.now ≤ sheet.width }
    requires room { vec_len text.old ≤ 2 ^ 32 }
    ensures line { OnOk result (text.new.items ≡ text.old.items ++ chart_line sheet.width name.now (replicate sheet.ticks mark)) }
    ensures length { OnOk result (vec_len text.new ≤ vec_len text.old + 2000034) }
{
    let start = text.len() + sheet.width + 1;
    text.extend_from_slice(name)?;
    text.resize(start, b' ')?;
    text.resize(start + sheet.ticks, mark)?;
    text.push(b'\n')?;
    Ok(())
}
