//! The verdict on the trace in a text, which is judged while it is read.
ghost use Rattle.std.specs.Prelude.{◌≡◌, true, [], IfOk, reverse};
ghost use Rattle.csv_records.specs.Reads.{Takes};
ghost use Rattle.mc_model.specs.Holds.{Fits};
ghost use Rattle.mc_model.specs.Rows.{ticks};
ghost use Rattle.mc_model.specs.Runs.{expand};
ghost use Rattle.mc_model.specs.Verdict.{verdict};
ghost use Rattle.trace_format.specs.TraceFile.{trace_file};
ghost use Rattle.trace_commands.specs.JudgedText.{IsMonitorOf};
ghost use Rattle.trace_commands.specs.OnTrace.{is_good};

use mc_model::{Run, Verdict};
use mc_task::{Memory, Rule, TaskSet};
use std::alloc::{AllocError, Global};
use trace_format::{TakesRuns, TraceFault, read_runs};
use trace_judge::Monitor;

/// The most runs that are stored before they are judged, if the runs are not kept.
const BATCH: usize = 4096;

/// The verdict on the trace in a text, with the number of its ticks if the verdict is good, and its runs if they are kept; or
/// the trace's first refusal, which comes before any verdict. If no run is kept, memory grows with the pending jobs alone,
/// apart from the text.
// Not inlined, so that the loop over the records need not share registers with the code of its caller.
#[inline(never)]
pub fn judge_text(
    alloc: Global,
    set: &TaskSet,
    rule: Rule,
    bytes: &[u8],
    keeps_runs: bool,
) -> Result<(Verdict, u64, Vec<Run>), TraceFault>
    requires { Fits rule }
    ensures { Takes (λ read runs. (read.0 ≡ verdict set.now.tasks rule (reverse (expand runs)))
        × (is_good read.0 ≡ true → read.1 ≡ ticks (reverse (expand runs))) × (keeps_runs ≡ true → read.2.items ≡ runs)) result (trace_file set.now.tasks bytes.now) }
{
    let Ok(monitor) = monitor_for(alloc, set, rule) else {
        return Err(TraceFault::Memory);
    };
    let runs = Vec::new(alloc);
    let mut judging = Judging { monitor, runs };
    let taker = JudgingTaker {
        alloc,
        rule,
        keeps_runs,
    };
    read_runs(alloc, set, bytes, &taker, &mut judging)?;
    let Judging { mut monitor, runs } = judging;
    match monitor.follow_all(alloc, &runs) {
        Ok(()) => Ok((monitor.verdict(), monitor.ticks(), runs)),
        Err(Memory) => Err(TraceFault::Memory),
    }
}

// A monitor of the set that has seen no row.
fn monitor_for(alloc: Global, set: &TaskSet, rule: Rule) -> Result<Monitor, Memory>
    requires { Fits rule }
    ensures { IfOk result (IsMonitorOf set.now.tasks rule []) }
{
    let set = set.copy(alloc)?;
    Monitor::new(alloc, set, rule)
}

// A trace that is being read: a monitor that has seen its first runs, and the runs after those.
#[derive(Drop)]
struct Judging {
    monitor: Monitor,
    runs: Vec<Run>,
}

// Stores each run, and hands the stored ones to a monitor under this rule when they are many, unless they are kept. To
// judge many runs in one call costs less than a call for each.
#[derive(Drop)]
struct JudgingTaker {
    alloc: Global,
    rule: Rule,
    keeps_runs: bool,
}

impl TakesRuns for JudgingTaker {
    ghost use Rattle.trace_commands.specs.JudgedText.{HasRead};

    type Runs = Judging;

    ghost took = { λ taker judging tasks runs. HasRead taker.keeps_runs taker.rule tasks runs judging };

    fn take(&self, judging: &mut Judging, run: Run) -> Result<(), AllocError> {
        judging.runs.push(run)?;
        if judging.runs.len() < BATCH || self.keeps_runs {
            return Ok(());
        }
        match judging.monitor.follow_all(self.alloc, &judging.runs) {
            Ok(()) => {
                judging.runs.clear();
                Ok(())
            }
            Err(Memory) => Err(AllocError),
        }
    }
}
