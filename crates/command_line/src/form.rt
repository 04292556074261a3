//! The forms of the command line: which words ask for which command.
ghost use Rattle.std.specs.Prelude.{◌≡◌, ◌+◌, ◌<◌, ◌≤◌, ◌^◌, IfOk, IfSome, IfNone, OnSome, None, length};
ghost use Rattle.command.specs.Serves.{Serves};
ghost use Rattle.trace_commands.specs.OnTrace.{IsScale};
ghost use Rattle.command_line.specs.Form as spec;

use command::{FileName, Within};
use demand_commands::DemandCommand;
use executive::Gate;
use mc_world::Shelf;
use numeral::numeral;
use part_commands::{PartitionCommand, RunAllCommand};
use replies::{Reply, Stop};
use run_commands::{LiveCommand, RunCommand, SoakCommand};
use std::alloc::{AllocError, Global};
use std::sync::Wait;
use std::thread::Threads;
use study_commands::{AcceptCommand, SetCount, StretchCommand};
use task_commands::CheckCommand;
use trace_commands::{TraceAction, TraceCommand};

// A number of a scale `p/q`.
type ScalePart = Within<1, 4_294_967_295>;

// The number that a random set is generated from.
type SetNumber = Within<0, 18_446_744_073_709_551_615>;

/// A command, as the words of the command line name it.
#[derive(Drop)]
pub enum Form<'a> {
    Check(CheckCommand<'a>),
    Run(RunCommand<'a>),
    OnTrace(TraceCommand<'a>),
    Soak(SoakCommand),
    Live(LiveCommand<'a>),
    Demand(DemandCommand<'a>),
    Partition(PartitionCommand<'a>),
    RunAll(RunAllCommand<'a>),
    Stretch(StretchCommand<'a>),
    Accept(AcceptCommand),
}

impl<'a> Form<'a> {
    /// The reply to the command. `run`, `soak`, `live` and `runall` run a thread for each task, and may wait.
    pub fn reply<R: Threads + Wait + Sync, S: Shelf, G: Gate + Sync>(
        &self,
        rt: &R,
        alloc: Global,
        shelf: &mut S,
        gate: &G,
    ) -> Result<Reply, Stop>
        requires { spec.IsInRange self.now }
        ensures { Serves 1 (spec.command_of self.now) (S.state shelf.old) (S.state shelf.new) result }
    {
        match self {
            Form::Check(check) => check.reply(alloc, shelf),
            Form::Run(run) => run.reply(rt, alloc, shelf, gate),
            Form::OnTrace(on_trace) => on_trace.reply(alloc, shelf),
            Form::Soak(soak) => soak.reply(rt, alloc, gate),
            Form::Live(live) => live.reply(rt, alloc, shelf, gate),
            Form::Demand(demand) => demand.reply(alloc, shelf),
            Form::Partition(partition) => partition.reply(alloc, shelf),
            Form::RunAll(run_all) => run_all.reply(rt, alloc, shelf, gate),
            Form::Stretch(stretch) => stretch.reply(alloc, shelf),
            Form::Accept(accept) => accept.reply(rt, alloc),
        }
    }

    /// The reply to the command, on the caller's thread; None where the command starts threads of its own.
    pub fn reply_alone<S: Shelf>(&self, alloc: Global, shelf: &mut S) -> Option<Result<Reply, Stop>>
        requires { spec.IsInRange self.now }
        ensures reply { IfSome result (Serves 1 (spec.command_of self.now) (S.state shelf.old) (S.state shelf.new)) }
        ensures threads { IfNone result (spec.StartsThreads self.now) }
        ensures alone { OnSome result (¬ spec.StartsThreads self.now) }
        ensures unchanged { IfNone result (S.state shelf.new ≡ S.state shelf.old) }
    {
        match self {
            Form::Check(check) => Some(check.reply(alloc, shelf)),
            Form::Run(run) => Some(run.reply_alone(alloc, shelf)),
            Form::OnTrace(on_trace) => Some(on_trace.reply(alloc, shelf)),
            Form::Demand(demand) => Some(demand.reply(alloc, shelf)),
            Form::Partition(partition) => Some(partition.reply(alloc, shelf)),
            Form::Stretch(stretch) => Some(stretch.reply(alloc, shelf)),
            Form::Accept(accept) => Some(accept.reply_alone(alloc)),
            Form::Soak(_) | Form::Live(_) | Form::RunAll(_) => None,
        }
    }
}

/// The form that the words have, if any.
#[tactic(auto, using(crate::proofs::WordLists::none_of_long))]
pub fn form_of<'a>(words: &[&'a str]) -> Option<Form<'a>>
    ensures form { result ≡ spec.form_in words.now }
    // More than five words have no form.
    ensures long { 5 < length words.now → spec.form_in words.now ≡ None }
    ensures range { IfSome result spec.IsInRange }
{
    match *words {
        ["check", tasks] => Some(Form::Check(CheckCommand {
            tasks: FileName::new(tasks),
        })),
        ["run", tasks, work, ticks] => Some(Form::Run(RunCommand {
            tasks: FileName::new(tasks),
            work: FileName::new(work),
            ticks: bounded(ticks)?,
        })),
        ["judge", tasks, trace] => Some(on_trace(TraceAction::Judge, tasks, trace)),
        ["judge", tasks, trace, p, q] => Some(on_trace(judge_by(p, q)?, tasks, trace)),
        ["chart", tasks, trace] => Some(on_trace(TraceAction::Chart, tasks, trace)),
        ["report", tasks, trace] => Some(on_trace(TraceAction::Report, tasks, trace)),
        ["soak", number, tasks, ticks] => {
            let number: SetNumber = bounded(number)?;
            Some(Form::Soak(SoakCommand {
                number: number.get(),
                tasks: bounded(tasks)?,
                ticks: bounded(ticks)?,
            }))
        }
        ["migrate", tasks, trace] => Some(on_trace(TraceAction::Migrate, tasks, trace)),
        ["live", tasks, ticks] => Some(Form::Live(LiveCommand {
            tasks: FileName::new(tasks),
            ticks: bounded(ticks)?,
        })),
        ["demand", demands] => Some(Form::Demand(DemandCommand {
            demands: FileName::new(demands),
        })),
        ["partition", tasks, processors] => Some(Form::Partition(PartitionCommand {
            tasks: FileName::new(tasks),
            processors: bounded(processors)?,
        })),
        ["runall", tasks, work, ticks, processors] => Some(Form::RunAll(RunAllCommand {
            tasks: FileName::new(tasks),
            work: FileName::new(work),
            ticks: bounded(ticks)?,
            processors: bounded(processors)?,
        })),
        ["stretch", tasks] => Some(Form::Stretch(StretchCommand {
            tasks: FileName::new(tasks),
        })),
        ["accept", number, sets, tasks] => Some(Form::Accept(study(number, sets, tasks)?)),
        _ => None,
    }
}

/// The one line that names every form.
pub fn usage_line(alloc: Global) -> Result<Vec<u8>, AllocError>
    ensures { IfOk result (λ line. line.items ≡ spec.usage_line) }
{
    "usage: check TASKS | run TASKS WORK TICKS | judge TASKS TRACE [P Q] | chart TASKS TRACE | report TASKS TRACE | soak NUMBER TASKCOUNT TICKS | migrate TASKS TRACE | live TASKS TICKS | demand DEMANDS | partition TASKS M | runall TASKS WORK TICKS M | stretch TASKS | accept NUMBER SETS TASKCOUNT\n"
        .as_bytes()
        .to_vec(alloc)
}

fn on_trace<'a>(action: TraceAction, tasks: &'a str, trace: &'a str) -> Form<'a>
    ensures { result ≡ spec.trace_form tasks.now trace.now action }
{
    let tasks = FileName::new(tasks);
    let trace = FileName::new(trace);
    Form::OnTrace(TraceCommand {
        action,
        tasks,
        trace,
    })
}

fn judge_by(p: &str, q: &str) -> Option<TraceAction>
    ensures form { result ≡ spec.judge_by (spec.number 1 4294967295 p.now) (spec.number 1 4294967295 q.now) }
    ensures scale { IfSome result IsScale }
{
    let p: ScalePart = bounded(p)?;
    let q: ScalePart = bounded(q)?;
    let (p, q) = (p.get(), q.get());
    if p <= q {
        Some(TraceAction::JudgeBy { p, q })
    } else {
        None
    }
}

fn study(first: &str, sets: &str, tasks: &str) -> Option<AcceptCommand>
    ensures form { result
        ≡ spec.study (spec.number 0 18446744073709551615 first.now) (spec.number 1 10000 sets.now) (spec.number 2 32 tasks.now) }
    ensures range { IfSome result (λ c. c.number + c.sets < 2 ^ 64) }
{
    let first: SetNumber = bounded(first)?;
    let number = first.get();
    let sets: SetCount = bounded(sets)?;
    let tasks = bounded(tasks)?;
    if sets.get() > u64::MAX - number {
        return None;
    }
    Some(AcceptCommand {
        number,
        sets,
        tasks,
    })
}

// A number within the bounds of its type.
fn bounded<const LEAST: u64, const MOST: u64>(word: &str) -> Option<Within<LEAST, MOST>>
    ensures number { result ≡ spec.number LEAST MOST word.now }
    ensures range { IfSome result (λ n. (LEAST ≤ n) × (n ≤ MOST)) }
{
    Within::new(numeral(word.as_bytes(), 20)?)
}
