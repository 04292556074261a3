//! A trace, judged, and what a command writes of it.
ghost use Rattle.std.specs.Prelude.{◌≡◌, All, IfOk, reverse};
ghost use Rattle.mc_model.specs.Holds.{Fits};
ghost use Rattle.mc_model.specs.Rows as rows;
ghost use Rattle.mc_model.specs.Runs.{expand, AreRuns, IsRunOfSet};
ghost use Rattle.mc_model.specs.Traces.{IsTraceOf};
ghost use Rattle.mc_model.specs.TraceText.{trace_text};
ghost use Rattle.replies.specs.Reading.{reply_by};
ghost use Rattle.replies.specs.Stop.{Replies};
ghost use Rattle.command.specs.Serves.{IsOwn};
ghost use Rattle.trace_commands.specs.JudgedText.{needs_runs};
ghost use Rattle.trace_commands.specs.OnTrace as spec;
ghost use Rattle.trace_commands.specs.declared.action.TraceAction.TheVariants as actions;

use crate::action::TraceAction;
use crate::judged_text::judge_text;
use command::SetWithRule;
use mc_model::{Run, Verdict};
use mc_task::{Memory, TaskSet};
use replies::{Reply, Stop, refused, verdict_line};
use sched_chart::chart;
use sched_report::report;
use std::alloc::Global;
use trace_format::{merge, write_trace};

/// The most ticks of a chart.
const MOST_CHART_TICKS: u64 = 2_000_000;

/// The reply of a command on a trace, by the trace's bytes.
pub fn reply_to_trace(
    alloc: Global,
    action: TraceAction,
    ruled: &SetWithRule,
    bytes: &[u8],
) -> Result<Reply, Stop>
    requires { Fits ruled.now.rule }
    ensures reply { Replies (λ reply. reply ≡ reply_by (spec.output_for action ruled.now bytes.now)) result }
    ensures own { Replies IsOwn result }
{
    let keeps_runs = needs_runs(action);
    let (verdict, ticks, runs) = match judge_text(
        alloc, &ruled.set, ruled.rule, bytes, keeps_runs,
    ) {
        Ok(judged) => judged,
        Err(fault) => return Err(refused::trace(alloc, fault)),
    };
    if !is_good(verdict) {
        return Err(refused::bad_trace(alloc, &ruled.set, verdict));
    }
    match action {
        TraceAction::Judge | TraceAction::JudgeBy { .. } => {
            let line = verdict_line(alloc, &ruled.set, verdict)?;
            Ok(Reply::new(0, line))
        }
        TraceAction::Chart => chart_reply(alloc, ruled, ticks, &runs),
        TraceAction::Report => Ok(Reply::new(0, report(alloc, &ruled.set, &runs)?)),
        TraceAction::Migrate => Ok(Reply::new(0, merged_text(alloc, &ruled.set, &runs)?)),
    }
}

// Whether the command goes through the runs of a trace again after they were judged.
fn needs_runs(action: TraceAction) -> bool
    ensures { result ≡ needs_runs action }
{
    !matches!(action, TraceAction::Judge | TraceAction::JudgeBy { .. })
}

fn is_good(verdict: Verdict) -> bool
    ensures { result ≡ spec.is_good verdict }
{
    matches!(verdict, Verdict::Legal { late: 0, .. })
}

// The chart of the runs, which have this many ticks, or the refusal of a chart with too many ticks.
fn chart_reply(alloc: Global, ruled: &SetWithRule, ticks: u64, runs: &[Run]) -> Result<Reply, Stop>
    requires ticks { ticks ≡ rows.ticks (reverse (expand runs.now)) }
    requires runs { AreRuns runs.now }
    requires trace { IsTraceOf ruled.now.set.tasks (reverse (expand runs.now)) }
    ensures reply { Replies (λ reply. reply ≡ reply_by (spec.good_text actions.Chart ruled.now (reverse (expand runs.now)))) result }
    ensures own { Replies IsOwn result }
{
    if MOST_CHART_TICKS < ticks {
        return Err(refused::long_chart(alloc, ticks));
    }
    let text = chart(alloc, &ruled.set, runs)?;
    Ok(Reply::new(0, text))
}

// The text of the runs' rows, with equal ticks in one record.
fn merged_text(alloc: Global, set: &TaskSet, runs: &[Run]) -> Result<Vec<u8>, Memory>
    requires runs { AreRuns runs.now }
    requires tasks { All (IsRunOfSet set.now.tasks) runs.now }
    ensures { IfOk result (λ text. text.items ≡ trace_text set.now.tasks (expand runs.now)) }
{
    let merged = merge(alloc, runs)?;
    Ok(write_trace(alloc, set, &merged)?)
}
