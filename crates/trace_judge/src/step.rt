//! One run: whether its rows fit what is kept of the rows before it, and what is kept after it.
ghost use Rattle.std.specs.Prelude.{◌≡◌, ◌≢◌, ◌-◌, ◌+◌, ◌^◌, ◌<◌, ◌≤◌, Bool, true, IfOk, OnOk, IfErr, OnErr, Some, None, List, length};
ghost use Rattle.mc_task.specs.declared.task.Rule.{Rule};
ghost use Rattle.mc_task.specs.declared.task.Task.{Task};
ghost use Rattle.mc_task.specs.TaskSet.{task_at};
ghost use Rattle.mc_model.specs.Holds.{Fits};
ghost use Rattle.mc_model.specs.Runs.{size, IsRun, IsRunOfSet};
ghost use Rattle.mc_model.specs.declared.run.Run.TheVariants as run;
ghost use Rattle.trace_judge.specs.Entries.{HasQueues, Stands};
ghost use Rattle.std.specs.List.{list_all};
ghost use Rattle.trace_judge.specs.Rules.{fitting};
ghost use Rattle.trace_judge.specs.Steps.{TakesMemory};
ghost use Rattle.trace_judge.specs.Switch.{is_keyed};
ghost use Rattle.trace_judge.specs.Tracks.{IsStep, Looks};
ghost use Rattle.trace_judge.specs.declared.pending_queues.Standing.TheVariants as standing;

use crate::pending_queues::{Pending, Standing};
use crate::rules::fitting;
use crate::state::State;
use mc_model::{How, Run, Why};
use mc_task::{JobId, Memory, Rule, Task, TaskNo, TaskSet};

/// The first row of a run that does not fit: how many rows of the run stand before it, and which of its parts fails.
#[derive(Clone, Copy, Debug, PartialEq, Eq)]
pub struct Misfit {
    pub after: u32,
    pub why: Why,
}

impl Misfit {
    // The first row of a run does not fit.
    fn first(why: Why) -> Misfit
        ensures { result ≡ record { after = 0; why = why } }
    {
        Misfit { after: 0, why }
    }
}

// Equal ticks of a job: how each of them ended, and how many there are.
#[derive(Clone, Copy)]
struct JobTicks {
    job: JobId,
    how: How,
    length: u32,
}

/// The first row of the run that does not fit. The state follows the rows before it, or all rows if each fits, in one step.
pub fn step(
    state: &mut State,
    set: &TaskSet,
    rule: Rule,
    run: Run,
) -> Result<Option<Misfit>, Memory>
    requires fits { Fits rule }
    requires task { IsRunOfSet set.now.tasks run }
    requires is_run { IsRun run }
    requires count { length state.old.tasks.items ≡ length set.now.tasks }
    requires queues { HasQueues state.old.waiting set.now.tasks }
    requires keyed { (high : Bool) × (list_all (is_keyed set.now.tasks rule high) state.old.waiting.entries ≡ true) }
    requires room { state.old.rows + size run ≤ 2 ^ 62 }
    requires time { state.old.ticks + size run ≤ 2 ^ 62 }
    ensures step { IfOk result (λ misfit. IsStep set.now.tasks rule run state.old misfit state.new) }
    ensures unchanged { OnErr result (state.new ≡ state.old) }
    ensures memory { OnErr result (TakesMemory run state.old) }
{
    match run {
        Run::Release { job, kept } => release(state, set, rule, job, kept),
        Run::Ticks { job, how, length } => {
            Ok(tick(state, set, rule, JobTicks { job, how, length }))
        }
        Run::Idles { length } => Ok(idle(state, set, rule, length)),
    }
}

/// The first row of the run that does not fit. The state stays as it is.
pub fn look(state: &State, set: &TaskSet, rule: Rule, run: Run) -> Option<Misfit>
    requires task { IsRunOfSet set.now.tasks run }
    requires is_run { IsRun run }
    requires count { length state.now.tasks.items ≡ length set.now.tasks }
    requires queues { HasQueues state.now.waiting set.now.tasks }
    requires time { state.now.ticks + size run ≤ 2 ^ 62 }
    ensures { Looks set.now.tasks rule run state.now result }
{
    match run {
        Run::Release { job, kept } => release_misfit(state, set, job, kept),
        Run::Ticks { job, how, length } => {
            let task = task_in(set, job.task);
            match ticks_fit(state, set, rule, task, JobTicks { job, how, length }) {
                Ok(_) => None,
                Err(misfit) => Some(misfit),
            }
        }
        Run::Idles { length } => idle_misfit(state, length),
    }
}

// Follows a release, if it fits.
fn release(
    state: &mut State,
    set: &TaskSet,
    rule: Rule,
    job: JobId,
    kept: bool,
) -> Result<Option<Misfit>, Memory>
    requires fits { Fits rule }
    requires task { IsRunOfSet set.now.tasks (run.Release job kept) }
    requires count { length state.old.tasks.items ≡ length set.now.tasks }
    requires queues { HasQueues state.old.waiting set.now.tasks }
    requires room { state.old.rows + 1 ≤ 2 ^ 62 }
    requires time { state.old.ticks + 1 ≤ 2 ^ 62 }
    ensures step { IfOk result (λ misfit. IsStep set.now.tasks rule (run.Release job kept) state.old misfit state.new) }
    ensures unchanged { OnErr result (state.new ≡ state.old) }
    ensures memory { OnErr result (TakesMemory (run.Release job kept) state.old) }
{
    let task = task_in(set, job.task);
    if let Some(why) = state.release_why(task, job, kept) {
        return Ok(Some(Misfit::first(why)));
    }
    state.release(rule, task, job, kept)?;
    Ok(None)
}

// Whether a release does not fit, under any rule.
fn release_misfit(state: &State, set: &TaskSet, job: JobId, kept: bool) -> Option<Misfit>
    requires task { IsRunOfSet set.now.tasks (run.Release job kept) }
    requires count { length state.now.tasks.items ≡ length set.now.tasks }
    ensures { (rule : Rule) → Looks set.now.tasks rule (run.Release job kept) state.now result }
{
    let task = task_in(set, job.task);
    match state.release_why(task, job, kept) {
        None => None,
        Some(why) => Some(Misfit::first(why)),
    }
}

// Follows ticks of a job, up to the first that does not fit.
fn tick(state: &mut State, set: &TaskSet, rule: Rule, ticks: JobTicks) -> Option<Misfit>
    requires fits { Fits rule }
    requires task { IsRunOfSet set.now.tasks (run.Ticks ticks.job ticks.how ticks.length) }
    requires is_run { IsRun (run.Ticks ticks.job ticks.how ticks.length) }
    requires queues { HasQueues state.old.waiting set.now.tasks }
    requires keyed { (high : Bool) × (list_all (is_keyed set.now.tasks rule high) state.old.waiting.entries ≡ true) }
    requires room { state.old.rows + ticks.length ≤ 2 ^ 62 }
    requires time { state.old.ticks + ticks.length ≤ 2 ^ 62 }
    ensures { IsStep set.now.tasks rule (run.Ticks ticks.job ticks.how ticks.length) state.old result state.new }
{
    let task = task_in(set, ticks.job.task);
    match ticks_fit(state, set, rule, task, ticks) {
        Err(misfit) => {
            // Only ticks after which the job goes on stand before another tick of their run.
            if misfit.after > 0 {
                state.go_on(ticks.job, misfit.after);
            }
            Some(misfit)
        }
        Ok(pending) => {
            follow_ticks(state, set, rule, task, ticks, pending);
            None
        }
    }
}

// What is kept of the job whose ticks these are, if they all fit, and otherwise the first that does not. A job that goes on
// keeps the least key, so after its first tick only its budget can make a tick fail.
#[inline(always)]
fn ticks_fit(
    state: &State,
    set: &TaskSet,
    rule: Rule,
    task: &Task,
    ticks: JobTicks,
) -> Result<Pending, Misfit>
    requires task { IsRunOfSet set.now.tasks (run.Ticks ticks.job ticks.how ticks.length) }
    requires at { task_at set.now.tasks ticks.job.task.0 ≡ Some task.now }
    requires is_run { IsRun (run.Ticks ticks.job ticks.how ticks.length) }
    requires queues { HasQueues state.now.waiting set.now.tasks }
    requires time { state.now.ticks + ticks.length ≤ 2 ^ 62 }
    ensures least { IfOk result (λ pending. Stands state.now.waiting.entries ticks.job (standing.Least pending)) }
    ensures fitting { IfOk result (λ pending. ticks.length ≤ fitting rule state.now.high_mode (Some task.now) pending.used ticks.how ticks.length) }
    ensures fits { OnOk result (Looks set.now.tasks rule (run.Ticks ticks.job ticks.how ticks.length) state.now None) }
    ensures misfit { IfErr result (λ misfit. Looks set.now.tasks rule (run.Ticks ticks.job ticks.how ticks.length) state.now (Some misfit)) }
    ensures inside { IfErr result (λ misfit. misfit.after < ticks.length) }
{
    let _is_set = set.len();
    let JobTicks { job, how, length } = ticks;
    let pending = match state.waiting.standing_of(job) {
        Standing::NotPending => return Err(Misfit::first(Why::NotPending)),
        Standing::NotLeast => return Err(Misfit::first(Why::NotLeast)),
        Standing::Least { pending } => pending,
    };
    let fit = fitting(rule, state.high_mode, task, pending.used, how, length);
    if fit < length {
        return Err(Misfit {
            after: fit,
            why: Why::WrongHow,
        });
    }
    Ok(pending)
}

// Follows ticks of a job that all fit.
fn follow_ticks(
    state: &mut State,
    set: &TaskSet,
    rule: Rule,
    task: &Task,
    ticks: JobTicks,
    pending: Pending,
)
    requires fits { Fits rule }
    requires task { IsRunOfSet set.now.tasks (run.Ticks ticks.job ticks.how ticks.length) }
    requires at { task_at set.now.tasks ticks.job.task.0 ≡ Some task.now }
    requires is_run { IsRun (run.Ticks ticks.job ticks.how ticks.length) }
    requires queues { HasQueues state.old.waiting set.now.tasks }
    requires keyed { (high : Bool) × (list_all (is_keyed set.now.tasks rule high) state.old.waiting.entries ≡ true) }
    requires room { state.old.rows + ticks.length ≤ 2 ^ 62 }
    requires time { state.old.ticks + ticks.length ≤ 2 ^ 62 }
    requires least { Stands state.old.waiting.entries ticks.job (standing.Least pending) }
    requires fitting { ticks.length ≤ fitting rule state.old.high_mode (Some task.now) pending.used ticks.how ticks.length }
    ensures { IsStep set.now.tasks rule (run.Ticks ticks.job ticks.how ticks.length) state.old None state.new }
{
    let _is_set = set.len();
    let JobTicks { job, how, length } = ticks;
    match how {
        How::More => state.go_on(job, length),
        How::Done | How::Stop => state.end(task, job, pending),
        How::Over => state.overrun(set, rule, job),
    }
}

// Follows idle ticks, if they fit. They all fit if the first of them does.
fn idle(state: &mut State, set: &TaskSet, rule: Rule, length: u32) -> Option<Misfit>
    requires is_run { IsRun (run.Idles length) }
    requires room { state.old.rows + length ≤ 2 ^ 62 }
    requires time { state.old.ticks + length ≤ 2 ^ 62 }
    ensures { IsStep set.now.tasks rule (run.Idles length) state.old result state.new }
{
    if !state.waiting.is_empty() {
        return Some(Misfit::first(Why::IdlePending));
    }
    state.rest(length);
    None
}

// Whether idle ticks do not fit, for any set and rule.
fn idle_misfit(state: &State, length: u32) -> Option<Misfit>
    requires is_run { IsRun (run.Idles length) }
    ensures { (set : List Task) (rule : Rule) → Looks set rule (run.Idles length) state.now result }
{
    if state.waiting.is_empty() {
        None
    } else {
        Some(Misfit::first(Why::IdlePending))
    }
}

// The task with this number, which is in the set.
fn task_in(set: &TaskSet, task: TaskNo) -> &Task
    requires first { 1 ≤ task.0 }
    requires last { task.0 ≤ length set.now.tasks }
    ensures { task_at set.now.tasks task.0 ≡ Some result.now }
{
    &set.as_slice()[task.0 as usize - 1]
}
