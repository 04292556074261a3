//! Ticks: granted to the chosen job and then ended, or idle.
ghost use Rattle.std.specs.Prelude.{◌≡◌, ◌∷◌, [], None};
ghost use Rattle.mc_task.specs.TaskSet.{IsIn};
ghost use Rattle.mc_model.specs.declared.row.Row.TheVariants as row;
ghost use Rattle.mc_model.specs.Rows.{ticks};
ghost use Rattle.mc_model.specs.Core.{outcome_of, settle};
ghost use Rattle.mode_core.specs.Events.{grant_refusal, grant_answer, after_grant, granted, chosen_now, job_in, outcome_refusal, outcome_answer, after_outcome, idle_refusal, idle_answer, after_idle};

use super::Core;
use crate::steps::{is_of_task, write_held};
use crate::{GrantFault, Granted, IdleFault, NotOut};
use mc_model::How;
use mc_task::{JobId, TaskNo};
use row_history::Recorder;

impl<R: Recorder> Core<R> {
    ghost use Rattle.mode_core.specs.Shape.{IsSoundUpTo};
    ghost use Rattle.mode_core.specs.Timely.{IsTimely};

    /// Grants a tick to the chosen job, which must be of this task, and reserves capacity for its row.
    ///
    /// A refusal changes nothing.
    pub fn grant(&mut self, task: TaskNo) -> Result<Granted, GrantFault>
        requires in_set { IsIn self.old.set task.0 }
        ensures answer { result ≡ grant_answer self.old task.0 }
        ensures state { self.new ≡ after_grant self.old task.0 }
        ensures timely { IsTimely self.new }
    {
        match self.grant_fault(task) {
            Some(fault) => Err(fault),
            None => Ok(self.put_out(task)),
        }
    }

    // Why the task gets no tick.
    fn grant_fault(&self, task: TaskNo) -> Option<GrantFault>
        ensures value { result ≡ grant_refusal self.now task.0 }
        ensures sound { IsSoundUpTo R.most self.now }
    {
        if let Some(job) = self.out {
            return Some(GrantFault::TickOut { job });
        }
        let chosen = self.chosen();
        if !is_of_task(chosen, task) {
            return Some(GrantFault::NotChosen { chosen });
        }
        if self.is_full() {
            Some(GrantFault::Full)
        } else {
            None
        }
    }

    // A grant that is not refused.
    pub(super) fn put_out(&mut self, task: TaskNo) -> Granted
        requires none { grant_refusal self.old task.0 ≡ None }
        ensures answer { result ≡ granted self.old (job_in (chosen_now self.old)) }
        ensures state { self.new ≡ record self.old { out = chosen_now self.old } }
        ensures sound { IsSoundUpTo R.most self.new }
    {
        match self.log.first() {
            Some(x) => {
                let job = x.job;
                let before = x.used;
                let at = self.log.ticks();
                self.out = Some(job);
                Granted { job, at, before }
            }
            None => unreachable!(),
        }
    }

    /// Writes the row of the granted tick, and then the held releases in the order in which they were taken.
    ///
    /// Returns `Done` if `done`; otherwise `Stop` at the job's own budget, `Over` if a high task passes its low budget in
    /// low mode under `Virtual`, and `More` in the other cases. A refusal changes nothing.
    #[inline(always)]
    pub fn outcome(&mut self, job: JobId, done: bool) -> Result<How, NotOut>
        ensures answer { result ≡ outcome_answer self.old job done }
        ensures state { self.new ≡ after_outcome self.old job done }
        ensures timely { IsTimely self.new }
    {
        match self.outcome_fault(job) {
            Some(fault) => Err(fault),
            None => Ok(self.end_tick(job, done)),
        }
    }

    // Why the outcome is refused.
    fn outcome_fault(&self, job: JobId) -> Option<NotOut>
        ensures value { result ≡ outcome_refusal self.now job }
        ensures sound { IsSoundUpTo R.most self.now }
    {
        let is_out = match self.out {
            Some(out) => out == job,
            None => false,
        };
        if is_out {
            None
        } else {
            Some(NotOut {
                given: job,
                out: self.out,
            })
        }
    }

    // An outcome that is not refused.
    #[inline(always)]
    pub(super) fn end_tick(&mut self, job: JobId, done: bool) -> How
        requires none { outcome_refusal self.old job ≡ None }
        ensures answer { result ≡ outcome_of self.old.set self.old.rule self.old.rows job done }
        ensures state { self.new ≡ record self.old { rows = settle self.old done; out = None; held = [] } }
        ensures sound { IsSoundUpTo R.most self.new }
    {
        self.out = None;
        let how = self.log.push_tick(job, done);
        write_held(&mut self.log, &self.held);
        self.held.clear();
        how
    }

    /// Writes an idle tick and returns its number. The mode is low after it. A refusal changes nothing.
    pub fn idle(&mut self) -> Result<u64, IdleFault>
        ensures answer { result ≡ idle_answer self.old }
        ensures state { self.new ≡ after_idle self.old }
        ensures timely { IsTimely self.new }
    {
        match self.idle_fault() {
            Some(fault) => Err(fault),
            None => Ok(self.add_idle()),
        }
    }

    // Why the tick is not idle.
    fn idle_fault(&self) -> Option<IdleFault>
        ensures value { result ≡ idle_refusal self.now }
        ensures sound { IsSoundUpTo R.most self.now }
    {
        if let Some(job) = self.out {
            return Some(IdleFault::TickOut { job });
        }
        if let Some(job) = self.chosen() {
            return Some(IdleFault::Pending { job });
        }
        if self.is_full() {
            Some(IdleFault::Full)
        } else {
            None
        }
    }

    // An idle tick that is not refused.
    fn add_idle(&mut self) -> u64
        requires none { idle_refusal self.old ≡ None }
        ensures answer { result ≡ ticks self.old.rows }
        ensures state { self.new ≡ record self.old { rows = row.Idle ∷ self.old.rows } }
        ensures sound { IsSoundUpTo R.most self.new }
    {
        let tick = self.log.ticks();
        self.log.push_idle();
        tick
    }
}
