//! The command `soak`.
ghost use Rattle.std.specs.Prelude.{◌≡◌, ◌≤◌, ◌++◌, IfOk, length, reverse, string_bytes};
ghost use Rattle.mc_model.specs.Holds.{Fits};
ghost use Rattle.mc_model.specs.Legal.{Legal};
ghost use Rattle.mc_model.specs.Verdict.{verdict};
ghost use Rattle.mc_model.specs.VerdictText.{verdict_line};
ghost use Rattle.sched_report.specs.ReportText.{summary_text};
ghost use Rattle.command.specs.Serves.{ServesAlone};
ghost use Rattle.run_commands.specs.Soak as spec;
ghost use Rattle.run_commands.specs.Soak.{soak};

use crate::planned::planned;
use crate::run::RunJob;
use command::{TaskCount, Ticks};
use executive::Gate;
use mc_model::Row;
use mc_task::{Memory, Rule, TaskSet};
use replies::{Reply, Stop, verdict_line};
use sched_report::summary;
use set_gen::{Made, make};
use std::alloc::{AllocError, Global};
use std::sync::Wait;
use std::thread::Threads;
use trace_format::pack;
use trace_judge::judge;

/// `soak NUMBER TASKS TICKS`.
#[derive(Drop)]
pub struct SoakCommand {
    pub number: u64,
    pub tasks: TaskCount,
    pub ticks: Ticks,
}

impl SoakCommand {
    /// The reply, which needs no file. Each task of the workload runs in a thread, and the gate is called at its steps; the trace
    /// is judged and summed up. This may wait.
    pub fn reply<R: Threads + Wait + Sync, G: Gate + Sync>(
        &self,
        rt: &R,
        alloc: Global,
        gate: &G,
    ) -> Result<Reply, Stop>
        ensures { ServesAlone (soak self.now.number self.now.tasks self.now.ticks) result }
    {
        let tasks = self.tasks.get() as u32;
        let Made { set, rule, work } = make(alloc, self.number, tasks, self.ticks.get())?;
        let floor = planned(rt, alloc, RunJob { set, rule, work }, &self.ticks, gate)?;
        let front = self.front(alloc, rule)?;
        let core = floor.core();
        let text = with_sums(alloc, front, core.set(), rule, core.rows())?;
        Ok(Reply::new(0, text))
    }

    // The first two lines: the call and the rule.
    fn front(&self, alloc: Global, rule: Rule) -> Result<Vec<u8>, AllocError>
        ensures { IfOk result (λ text. text.items ≡ spec.call_line self.now.number self.now.tasks self.now.ticks ++ spec.rule_line rule) }
    {
        let (number, tasks, ticks) = (self.number, self.tasks.get(), self.ticks.get());
        let rule = rule_line(alloc, rule)?;
        Ok(format!(in alloc; "soak {number} {tasks} {ticks}\n{rule}")?.into_bytes())
    }
}

fn rule_line(alloc: Global, rule: Rule) -> Result<String, AllocError>
    ensures { IfOk result (λ line. string_bytes line ≡ spec.rule_line rule) }
{
    match rule {
        Rule::Plain => String::from_str(alloc, "rule plain\n"),
        Rule::Virtual { p, q } => format!(in alloc; "rule virtual x {p}/{q}\n"),
    }
}

// The front, the sums over the rows and the verdict on them.
fn with_sums(
    alloc: Global,
    mut front: Vec<u8>,
    set: &TaskSet,
    rule: Rule,
    rows: &[Row],
) -> Result<Vec<u8>, Memory>
    requires fits { Fits rule }
    requires legal { Legal set.now.tasks rule (reverse rows.now) }
    requires few { length rows.now ≤ 2000000 }
    ensures { IfOk result (λ text. text.items ≡ front.items ++ (summary_text set.now.tasks (reverse rows.now) ++ verdict_line set.now.tasks (verdict set.now.tasks rule (reverse rows.now)))) }
{
    let runs = pack(alloc, rows)?;
    let sums = summary(alloc, set, &runs)?;
    let verdict = judge(alloc, set, rule, &runs)?;
    let line = verdict_line(alloc, set, verdict)?;
    front.extend_from_slice(&sums)?;
    front.extend_from_slice(&line)?;
    Ok(front)
}
