//! The jobs that became late since a boundary, in the order of their deadlines, and when no pending job needs to be read.
ghost use Rattle.std.specs.Prelude.{◌≡◌, ◌+◌, ◌-◌, ◌^◌, ◌++◌, ℕ, true, min, IfOk, List};
ghost use Rattle.std.specs.List.Sorted.{IsPermutation};
ghost use Rattle.mc_task.specs.declared.task.Task.{Task};
ghost use Rattle.mc_model.specs.declared.row.Row.{Row};
ghost use Rattle.mc_model.specs.Rows.{ticks};
ghost use Rattle.mc_model.specs.Runs.{rows_of};
ghost use Rattle.mc_model.specs.Sums.{total};
ghost use Rattle.mc_model.specs.TaskNumbers.{period_in};
ghost use Rattle.trace_judge.specs.Turned.{turned_of, IsInOrder};
ghost use Rattle.trace_judge.specs.Quiet.{are_quiet, IsQuiet};

use crate::state::{State, is_due_task};
use mc_model::Run;
use mc_task::{JobId, Memory, Task, TaskSet};
use std::alloc::{AllocError, Global};

/// A job that became late: it was pending at its deadline.
#[derive(Clone, Copy, Debug, PartialEq, Eq)]
pub struct Turned {
    pub job: JobId,
    pub deadline: u64,
    /// How many rows stand before the job's release.
    pub rows_before: u64,
}

/// A stretch of time in which no pending job has its deadline: past boundary `after`, and before boundary `until`.
#[derive(Clone, Copy, Debug, PartialEq, Eq)]
pub struct Quiet {
    pub after: u64,
    pub until: u64,
}

impl Quiet {
    /// All time, before any job is pending.
    pub fn always() -> Quiet
        ensures { result ≡ record { after = 0; until = 2 ^ 64 - 1 } }
    {
        Quiet {
            after: 0,
            until: u64::MAX,
        }
    }

    /// No time: nothing is known of the deadlines of the pending jobs.
    pub fn empty() -> Quiet
        ensures { result ≡ record { after = 0; until = 0 } }
    {
        Quiet { after: 0, until: 0 }
    }

    /// The stretch after a run that began at boundary `now`. Only a kept release adds a deadline.
    pub fn after_run(self, set: &TaskSet, now: u64, run: Run) -> Quiet
        ensures { (h : List Row) → now ≡ ticks h → IsQuiet set.now.tasks h self → IsQuiet set.now.tasks (rows_of run ++ h) result }
    {
        match run {
            Run::Release { job, kept } => {
                if kept {
                    self.up_to(deadline_of(&set.get(job.task), now))
                } else {
                    self
                }
            }
            Run::Ticks { .. } | Run::Idles { .. } => self,
        }
    }

    // The stretch cut off at a new job's deadline.
    fn up_to(self, deadline: u64) -> Quiet
        ensures { result ≡ record { after = self.after; until = min self.until deadline } }
    {
        Quiet {
            after: self.after,
            until: self.until.min(deadline),
        }
    }
}

/// The pending jobs whose deadlines came after `since` ticks, in order, and a boundary that is not after any later deadline.
pub fn turned_late(
    state: &State,
    alloc: Global,
    set: &TaskSet,
    since: u64,
) -> Result<(Vec<Turned>, u64), Memory>
    ensures turned { IfOk result (λ r. (f : Turned → ℕ) → total f r.0.items ≡ total f (turned_of set.now.tasks since state.now.ticks state.now.waiting.entries)) }
    ensures order { IfOk result (λ r. IsInOrder r.0.items) }
    ensures until { IfOk result (λ r. are_quiet set.now.tasks state.now.ticks r.1 state.now.waiting.entries ≡ true) }
{
    let (mut turned, until) = gathered(state, alloc, set, since)?;
    put_in_order(&mut turned);
    Ok((turned, until))
}

// The pending jobs whose deadlines came after `since` ticks, in no order, and a boundary that is not after any later deadline.
fn gathered(
    state: &State,
    alloc: Global,
    set: &TaskSet,
    since: u64,
) -> Result<(Vec<Turned>, u64), AllocError>
    ensures turned { IfOk result (λ r. r.0.items ≡ turned_of set.now.tasks since state.now.ticks state.now.waiting.entries) }
    ensures until { IfOk result (λ r. are_quiet set.now.tasks state.now.ticks r.1 state.now.waiting.entries ≡ true) }
{
    let mut turned = Vec::new(alloc);
    let mut until = u64::MAX;
    let mut remaining = state.waiting.remaining();
    while let Some((rank, pending)) = remaining.pop() {
        let task = set.get(rank.job.task);
        let deadline = deadline_of(&task, pending.release);
        if !is_due_task(&task, pending.release, state.ticks) {
            until = until.min(deadline);
        } else if !is_due_task(&task, pending.release, since) {
            turned.push(Turned {
                job: rank.job,
                deadline,
                rows_before: pending.rows_before,
            })?;
        }
    }
    Ok((turned, until))
}

// Puts the jobs in the order of their deadlines, and those with one deadline in the order of their releases.
fn put_in_order(turned: &mut Vec<Turned>)
    ensures same { IsPermutation turned.old.items turned.new.items }
    ensures order { IsInOrder turned.new.items }
{
    turned.sort_unstable_by_key(|turned| (turned.deadline, turned.rows_before));
}

// The deadline of a job of the task that was released at this boundary, or the greatest number if the deadline is past it.
fn deadline_of(task: &Option<Task>, release: u64) -> u64
    ensures { result ≡ min (release + period_in task.now) (2 ^ 64 - 1) }
{
    match task {
        None => release,
        Some(task) => release.saturating_add(u64::from(task.period)),
    }
}
