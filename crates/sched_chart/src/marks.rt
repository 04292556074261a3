//! The characters of the ticks, filled in run by run.
ghost use Rattle.std.specs.Prelude.{◌≡◌, ◌+◌, ◌*◌, ◌^◌, ◌++◌, ◌∷◌, ◌≤◌, [], All, List, length, reverse};
ghost use Rattle.mc_model.specs.declared.row.Row.{Row};
ghost use Rattle.sched_chart.specs.ChartText.{how_mark, name_width, over_stands};
ghost use Rattle.mc_model.specs.Legal.{IsOfSet};
ghost use Rattle.mc_model.specs.Mode.{is_over};
ghost use Rattle.mc_model.specs.Rows.{ticks};
ghost use Rattle.mc_model.specs.Runs.{expand, length_of, rows_of, AreRuns, IsRun, IsRunOfSet};
ghost use Rattle.sched_chart.specs.Sheet.{chart_to, filled, line_length, IsSheet};

use crate::sheet::Sheet;
use mc_model::{How, Run};
use mc_task::TaskSet;

// Fills in the characters of all ticks in a chart of blank ticks.
pub fn mark_runs(chart: &mut [u8], set: &TaskSet, sheet: Sheet, runs: &[Run])
    requires sheet { IsSheet sheet }
    requires width { sheet.width ≡ name_width set.now.tasks }
    requires runs { AreRuns runs.now }
    requires tasks { All (IsOfSet set.now.tasks) (expand runs.now) }
    requires ticks { sheet.ticks ≡ ticks (reverse (expand runs.now)) }
    requires blank { chart.old ≡ chart_to set.now.tasks sheet.ticks [] }
    ensures { chart.new ≡ chart_to set.now.tasks sheet.ticks (reverse (expand runs.now)) }
{
    let mut tick = 0;
    let mut high = false;
    for run in runs {
        mark_run(chart, set, sheet, tick, high, *run);
        tick = tick_after(tick, *run);
        high = high_after(high, *run);
    }
}

// Fills in the characters of one more run's ticks, if it has any; `high` is the mode before it.
fn mark_run(chart: &mut [u8], set: &TaskSet, sheet: Sheet, tick: usize, high: bool, run: Run)
    requires sheet { IsSheet sheet }
    requires width { sheet.width ≡ name_width set.now.tasks }
    requires run { IsRun run }
    requires task { IsRunOfSet set.now.tasks run }
    requires tick { tick + length_of run ≤ sheet.ticks }
    requires length { length chart.old ≡ (length set.now.tasks + 1) * line_length sheet.width sheet.ticks }
    ensures { (g : List Row) → ticks g ≡ tick → over_stands g ≡ high → chart.old ≡ chart_to set.now.tasks sheet.ticks g
        → chart.new ≡ chart_to set.now.tasks sheet.ticks (rows_of run ++ g) }
{
    let count = set.len() as usize;
    match run {
        Run::Release { .. } => {}
        Run::Ticks { job, how, length } => {
            let line = job.task.0 as usize - 1;
            fill_in(
                chart,
                sheet.place(line, tick),
                length as usize,
                how_mark(how),
            );
            if high {
                fill_in(chart, sheet.place(count, tick), length as usize, b'H');
            }
        }
        // The mode is low after the first idle tick.
        Run::Idles { .. } => {
            if high {
                chart[sheet.place(count, tick)] = b'H';
            }
        }
    }
}

// Sets `count` characters, from position `at` on.
fn fill_in(chart: &mut [u8], at: usize, count: usize, mark: u8)
    requires { at + count ≤ length chart.old }
    ensures { chart.new ≡ filled at count mark chart.old }
{
    chart[at..at + count].fill(mark);
}

fn how_mark(how: How) -> u8
    ensures { result ∷ [] ≡ how_mark how }
{
    match how {
        How::More => b'#',
        How::Done => b'D',
        How::Stop => b'S',
        How::Over => b'O',
    }
}

// The number of the tick after this run.
pub fn tick_after(tick: usize, run: Run) -> usize
    requires { tick + length_of run ≤ 2 ^ 31 }
    ensures { result ≡ tick + length_of run }
{
    match run {
        Run::Release { .. } => tick,
        Run::Ticks { length, .. } | Run::Idles { length } => tick + length as usize,
    }
}

// Whether the mode after this run is high.
fn high_after(high: bool, run: Run) -> bool
    requires { IsRun run }
    ensures { (g : List Row) → over_stands g ≡ high → result ≡ over_stands (rows_of run ++ g) }
{
    match run {
        Run::Release { .. } => high,
        Run::Ticks { how, .. } => high || is_over(how),
        Run::Idles { .. } => false,
    }
}

fn is_over(how: How) -> bool
    ensures { result ≡ is_over how }
{
    how == How::Over
}
