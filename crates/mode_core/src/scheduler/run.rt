//! Runs: several ticks of the chosen job, or several idle ticks, in one call.
ghost use Rattle.std.specs.Prelude.{◌≡◌, ◌+◌, ◌≤◌, None, nat_lt, IfSome, OnOk};
ghost use Rattle.std.specs.Option.{option_or};
ghost use Rattle.mode_core.specs.declared.answers.RunFault.TheVariants as run_fault;
ghost use Rattle.mode_core.specs.Events.{refused_if};
ghost use Rattle.mc_model.specs.Rows.{ticks};
ghost use Rattle.mc_model.specs.Core.{outcome_of};
ghost use Rattle.mode_core.specs.Runs.{boundary_of, run_refusal, run_answer, after_run, AreRunTicks, IsLastTick, after_tick, after_ticks, going, is_too_full, idles_refusal, idles_answer, after_idles, after_idle_for, AreIdleTicks};

use super::Core;
use crate::{Boundary, IdleFault, RunFault};
use mc_model::How;
use mc_task::JobId;
use row_history::Recorder;

impl<R: Recorder> Core<R> {
    ghost use Rattle.mode_core.specs.Shape.{IsSoundUpTo};
    ghost use Rattle.mode_core.specs.Timely.{IsTimely};

    /// The chosen job, and how many ticks it may run in one go: up to the tick at its low budget, if the mode becomes
    /// high there, and otherwise up to the tick at its own budget. `None` exactly if no job is pending.
    ///
    /// The tick at the boundary is an overrun or the job's last.
    pub fn boundary(&self) -> Option<Boundary>
        ensures value { result ≡ boundary_of self.now }
        ensures some { IfSome result (λ boundary. 1 ≤ boundary.ticks) }
        ensures last { IfSome result (IsLastTick self.now) }
    {
        match self.log.first() {
            Some(x) => Some(Boundary {
                job: x.job,
                ticks: self.log.left(&x),
            }),
            None => None,
        }
    }

    /// Runs the chosen job for this many ticks, at least one, in one call: it leaves what a grant and an outcome for each
    /// tick leave, where only the last outcome may be `done`. Returns how the last tick ends.
    ///
    /// Report a run that ended at a boundary before the releases of that boundary. A refusal changes nothing.
    pub fn run(&mut self, job: JobId, ticks: u32, done: bool) -> Result<How, RunFault>
        requires some { 1 ≤ ticks }
        ensures answer { result ≡ run_answer self.old job ticks done }
        ensures state { self.new ≡ after_run self.old job ticks done }
        ensures ticks { OnOk result (AreRunTicks self.old job ticks) }
        ensures timely { IsTimely self.new }
    {
        match self.run_fault(job, ticks) {
            Some(fault) => Err(fault),
            None => Ok(self.run_on(job, ticks - 1, done)),
        }
    }

    // Why the job gets no run of this many ticks.
    fn run_fault(&self, job: JobId, ticks: u32) -> Option<RunFault>
        ensures value { result ≡ run_refusal self.now job ticks }
        ensures sound { IsSoundUpTo R.most self.now }
    {
        if let Some(job) = self.out {
            return Some(RunFault::TickOut { job });
        }
        let Some(
            Boundary {
                job: chosen,
                ticks: most,
            },
        ) = self.boundary()
        else {
            return Some(RunFault::NotChosen { chosen: None });
        };
        if chosen != job {
            let chosen = Some(chosen);
            return Some(RunFault::NotChosen { chosen });
        }
        self.length_fault(most, ticks)
    }

    // Why a run of the chosen job is refused that may have `most` ticks.
    fn length_fault(&self, most: u32, ticks: u32) -> Option<RunFault>
        ensures { result ≡ option_or (refused_if (nat_lt most ticks) (run_fault.Past most)) (refused_if (is_too_full self.now ticks) run_fault.Full) }
    {
        if most < ticks {
            return Some(RunFault::Past { most });
        }
        if self.is_too_full(ticks as usize) {
            Some(RunFault::Full)
        } else {
            None
        }
    }

    // Whether the capacity that is left is less than this many rows.
    fn is_too_full(&self, rows: usize) -> bool
        ensures { result ≡ is_too_full self.now rows }
    {
        self.log.places() - self.places_used() < rows
    }

    // A run that is not refused: this many ticks after which the job goes on, and one more.
    fn run_on(&mut self, job: JobId, more: u32, done: bool) -> How
        requires none { run_refusal self.old job (more + 1) ≡ None }
        ensures answer { result ≡ outcome_of self.old.set self.old.rule (after_ticks more self.old job).rows job done }
        ensures state { self.new ≡ after_tick (after_ticks more self.old job) job done }
        ensures sound { IsSoundUpTo R.most self.new }
    {
        self.go_on(job, more);
        let _granted = self.put_out(job.task);
        self.end_tick(job, done)
    }

    // The ticks of a run before its last.
    fn go_on(&mut self, job: JobId, ticks: u32)
        requires none { run_refusal self.old job (ticks + 1) ≡ None }
        ensures state { self.new ≡ going self.old job ticks }
        ensures before { IsSoundUpTo R.most self.old }
    {
        self.log.push_more(job, ticks);
    }

    /// Writes this many idle ticks, at least one, in one call, and returns the number of the first. The mode is low after
    /// them. A refusal changes nothing.
    pub fn idle_for(&mut self, count: usize) -> Result<u64, IdleFault>
        requires some { 1 ≤ count }
        ensures answer { result ≡ idles_answer self.old count }
        ensures state { self.new ≡ after_idle_for self.old count }
        ensures ticks { OnOk result (AreIdleTicks self.old count) }
        ensures timely { IsTimely self.new }
    {
        match self.idles_fault(count) {
            Some(fault) => Err(fault),
            None => Ok(self.add_idles(count)),
        }
    }

    // Why the ticks are not idle.
    fn idles_fault(&self, count: usize) -> Option<IdleFault>
        ensures value { result ≡ idles_refusal self.now count }
        ensures sound { IsSoundUpTo R.most self.now }
    {
        if let Some(job) = self.out {
            return Some(IdleFault::TickOut { job });
        }
        if let Some(job) = self.chosen() {
            return Some(IdleFault::Pending { job });
        }
        if self.is_too_full(count) {
            Some(IdleFault::Full)
        } else {
            None
        }
    }

    // Idle ticks that are not refused.
    fn add_idles(&mut self, count: usize) -> u64
        requires some { 1 ≤ count }
        requires none { idles_refusal self.old count ≡ None }
        ensures answer { result ≡ ticks self.old.rows }
        ensures state { self.new ≡ after_idles count self.old }
        ensures sound { IsSoundUpTo R.most self.new }
    {
        let first = self.log.ticks();
        self.log.push_idles(count);
        first
    }
}
