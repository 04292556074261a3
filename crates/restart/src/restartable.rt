//! A core, and what is kept of the time before its counts began.
ghost use Rattle.std.specs.Prelude.{◌≡◌, ◌⊎◌, ◌-◌, ◌≤◌, ◌<◌, [], ℕ, length, max, slice_index_or, Some, None, IfOk, IfSome, OnOk, OnErr, IfErr};
ghost use Rattle.mc_task.specs.TaskSet.{IsIn};
ghost use Rattle.mc_model.specs.Core.{begun};
ghost use Rattle.mode_core.specs.Events as event;
ghost use Rattle.mode_core.specs.Runs.{run_answer, after_run, idles_answer, after_idle_for};
ghost use Rattle.restart.specs.Restarted.{opened, earliest, first_allowed_of, first_allowed_from_now, timing_refusal, release_answer, after_release, restart_refusal, IsRestarted};

use mc_model::{How, Row};
use mc_task::{JobId, Memory, TaskNo};
use mode_core::{Core, GrantFault, Granted, IdleFault, NotOut, ReleaseFault, Released, RunFault};
use row_history::Recorder;
use std::alloc::Global;
use std::marker::Model;

/// Why the counts cannot start anew.
#[derive(Clone, Copy, Debug, PartialEq, Eq)]
pub enum RestartFault {
    /// This job has a granted tick.
    TickOut { job: JobId },
    /// A job is pending, and this one is chosen.
    Pending { job: JobId },
    /// An allocation failed.
    Memory,
}

/// A core whose counts of ticks, rows and jobs can start anew at any moment when no job is pending. What it keeps then is
/// each task's earliest next release, so that two releases of a task are a period apart also across a restart.
#[derive(Drop)]
pub struct Restartable<R: Recorder = Vec<Row>> {
    core: Core<R>,
    // For each task, the boundary from which its first release since the counts began is allowed; 0 before any restart.
    first_allowed: Vec<u64>,
}

impl<R: Recorder> Model for Restartable<R> {
    ghost use Rattle.std.specs.Prelude.{◌≡◌, length};
    ghost use Rattle.restart.specs.Restarted.{Restarted};

    ghost Value = { Restarted };

    ghost view = { λ a. record { core = a.core; first_allowed = a.first_allowed.items } };

    ghost invariant = { λ a. length a.first_allowed.items ≡ length a.core.set };
}

impl<R: Recorder> Restartable<R> {
    /// The core, with each task's first release allowed from 0 on. If memory runs out, the core is dropped.
    pub fn new(alloc: Global, core: Core<R>) -> Result<Restartable<R>, Memory>
        ensures { IfOk result (λ s. s ≡ opened core) }
    {
        let first_allowed = vec![in alloc; 0; core.set().len() as usize]?;
        Ok(Restartable {
            core,
            first_allowed,
        })
    }

    /// The core since the counts began: what can be read of it holds of that time.
    pub fn core(&self) -> &Core<R>
        ensures { result.now ≡ self.now.core }
    {
        &self.core
    }

    /// The earliest next release of the task.
    pub fn earliest(&self, task: TaskNo) -> u64
        requires { IsIn self.now.core.set task.0 }
        ensures { result ≡ earliest self.now task.0 }
    {
        let next = self.core.next_allowed(task);
        next.max(self.first_allowed[task.0 as usize - 1])
    }

    /// Releases the task's next job, as `Core::release`, but not before its earliest next release.
    pub fn release(&mut self, task: TaskNo) -> Result<Released, ReleaseFault>
        requires { IsIn self.old.core.set task.0 }
        ensures answer { result ≡ release_answer self.old task.0 }
        ensures state { self.new ≡ after_release self.old task.0 }
    {
        match self.timing_fault(task) {
            Some(fault) => Err(fault),
            None => self.core.release(task),
        }
    }

    // Before the boundary from which the task's first release is allowed, why it may not be released, whatever the capacity: it has a
    // granted tick, or the release is too soon. From that boundary on the core alone decides, and this is `None`.
    fn timing_fault(&self, task: TaskNo) -> Option<ReleaseFault>
        requires { IsIn self.now.core.set task.0 }
        ensures before { begun self.now.core < first_allowed_of self.now task.0 → result ≡ timing_refusal self.now task.0 }
        ensures after { first_allowed_of self.now task.0 ≤ begun self.now.core → result ≡ None }
    {
        if self.core.ticks_begun() >= self.first_allowed[task.0 as usize - 1] {
            return None;
        }
        if let Some(job) = self.core.out() {
            if job.task == task {
                return Some(ReleaseFault::Running { job });
            }
        }
        let next = self.earliest(task);
        if self.core.ticks_begun() < next {
            return Some(ReleaseFault::TooSoon { next });
        }
        None
    }

    /// Grants a tick, as `Core::grant`.
    pub fn grant(&mut self, task: TaskNo) -> Result<Granted, GrantFault>
        requires { IsIn self.old.core.set task.0 }
        ensures answer { result ≡ event.grant_answer self.old.core task.0 }
        ensures state { self.new ≡ record self.old { core = event.after_grant self.old.core task.0 } }
    {
        self.core.grant(task)
    }

    /// Takes the outcome of the granted tick, as `Core::outcome`.
    pub fn outcome(&mut self, job: JobId, done: bool) -> Result<How, NotOut>
        ensures answer { result ≡ event.outcome_answer self.old.core job done }
        ensures state { self.new ≡ record self.old { core = event.after_outcome self.old.core job done } }
    {
        self.core.outcome(job, done)
    }

    /// Makes an idle tick, as `Core::idle`.
    pub fn idle(&mut self) -> Result<u64, IdleFault>
        ensures answer { result ≡ event.idle_answer self.old.core }
        ensures state { self.new ≡ record self.old { core = event.after_idle self.old.core } }
    {
        self.core.idle()
    }

    /// Runs the chosen job for several ticks, as `Core::run`.
    pub fn run(&mut self, job: JobId, ticks: u32, done: bool) -> Result<How, RunFault>
        requires { 1 ≤ ticks }
        ensures answer { result ≡ run_answer self.old.core job ticks done }
        ensures state { self.new ≡ record self.old { core = after_run self.old.core job ticks done } }
    {
        self.core.run(job, ticks, done)
    }

    /// Makes several idle ticks, as `Core::idle_for`.
    pub fn idle_for(&mut self, count: usize) -> Result<u64, IdleFault>
        requires { 1 ≤ count }
        ensures answer { result ≡ idles_answer self.old.core count }
        ensures state { self.new ≡ record self.old { core = after_idle_for self.old.core count } }
    {
        self.core.idle_for(count)
    }

    /// Starts the counts of ticks, rows and jobs anew, in low mode, with this recorder, which has taken no rows. Each task's
    /// earliest next release is kept.
    ///
    /// It is refused exactly if a tick is granted or a job is pending, or if memory runs out. A refusal changes nothing,
    /// and drops the recorder.
    pub fn restart(&mut self, alloc: Global, recorder: R) -> Result<(), RestartFault>
        requires fresh { R.rows recorder ≡ [] }
        requires room { self.old.core.places ≤ R.capacity recorder }
        requires recorder { R.is_for recorder self.old.core.set self.old.core.rule }
        ensures restarted { OnOk result (IsRestarted self.old self.new) }
        ensures allowed { OnOk result (restart_refusal self.old.core ≡ None) }
        ensures refused { IfSome (restart_refusal self.old.core) (λ fault. result ≡ Err fault) }
        ensures cause { IfErr result (λ fault. (fault ≡ RestartFault.Memory) ⊎ (restart_refusal self.old.core ≡ Some fault)) }
        ensures same { OnErr result (self.new ≡ self.old) }
    {
        if let Some(fault) = self.restart_fault() {
            return Err(fault);
        }
        let Ok(core) = opened_again(alloc, &self.core, recorder) else {
            return Err(RestartFault::Memory);
        };
        note_earliest(&mut self.first_allowed, &self.core);
        self.core = core;
        Ok(())
    }

    /// Why the counts cannot start anew now, even if no allocation fails.
    pub fn restart_fault(&self) -> Option<RestartFault>
        ensures { result ≡ restart_refusal self.now.core }
    {
        if let Some(job) = self.core.out() {
            return Some(RestartFault::TickOut { job });
        }
        match self.core.chosen() {
            Some(job) => Some(RestartFault::Pending { job }),
            None => None,
        }
    }
}

// A core with no rows, under the set, the rule and the capacity of this one.
fn opened_again<R: Recorder>(alloc: Global, core: &Core<R>, recorder: R) -> Result<Core<R>, Memory>
    requires fresh { R.rows recorder ≡ [] }
    requires room { core.now.places ≤ R.capacity recorder }
    requires recorder { R.is_for recorder core.now.set core.now.rule }
    ensures { IfOk result (λ new. new ≡ event.empty_state core.now.set core.now.rule core.now.places) }
{
    let places = core.places();
    let set = core.set().copy(alloc)?;
    Core::with_recorder(alloc, set, core.rule(), places, recorder)
}

// Keeps the earliest next release of each task, counted from now on.
fn note_earliest<R: Recorder>(first_allowed: &mut [u64], core: &Core<R>)
    requires each { length first_allowed.old ≡ length core.now.set }
    ensures { (k : ℕ) → IsIn core.now.set k → slice_index_or first_allowed.new (k - 1) 0 ≡ first_allowed_from_now core.now (slice_index_or first_allowed.old (k - 1) 0) k }
{
    let now = core.ticks();
    for index in 0..first_allowed.len() {
        let next = core.next_allowed(TaskNo(index as u32 + 1));
        first_allowed[index] = next.max(first_allowed[index]).saturating_sub(now);
    }
}
