//! Ticks under a plan.
ghost use Rattle.std.specs.Prelude.{◌≡◌, ◌≢◌, true, None, Err};
ghost use Rattle.mc_task.specs.TaskSet.{IsIn};
ghost use Rattle.mode_core.specs.Events as core_event;
ghost use Rattle.mode_core.specs.Timely.{IsTimely};
ghost use Rattle.mode_core.specs.declared.answers.GrantFault.TheVariants as grant_fault;
ghost use Rattle.mode_core.specs.declared.answers.IdleFault.TheVariants as idle_fault;
ghost use Rattle.timetable.specs.declared.acts.ActFault.TheVariants as act_fault;
ghost use Rattle.timetable.specs.Floor.{is_planned, tick_refusal, grant_answer, after_grant, outcome_answer, after_outcome, idle_answer, after_idle, of_core};

use super::Floor;
use crate::{ActFault, PlanFault};
use mc_model::How;
use mc_task::{JobId, TaskNo};
use mode_core::{GrantFault, Granted, IdleFault, NotOut};

impl Floor {
    /// Grants a tick to the chosen job, which must be of this task.
    ///
    /// It is refused with `Due` if a release is due, and with `Finished` if the plan's ticks have all begun. Otherwise
    /// it returns what the core returns. A refusal changes nothing.
    #[inline(always)]
    pub fn grant(&mut self, task: TaskNo) -> Result<Granted, ActFault<GrantFault>>
        requires in_set { IsIn self.old.core.set task.0 }
        ensures answer { result ≡ grant_answer self.old task.0 }
        ensures state { self.new ≡ after_grant self.old task.0 }
        ensures timely { IsTimely self.new.core }
        // A planned tick finds capacity.
        ensures no_full { is_planned self.old.plan ≡ true → result ≢ Err (act_fault.Core grant_fault.Full) }
    {
        match self.tick_fault() {
            Some(fault) => Err(ActFault::Plan(fault)),
            None => self.grant_now(task),
        }
    }

    // Why the plan refuses a tick, if it does.
    fn tick_fault(&self) -> Option<PlanFault>
        ensures value { result ≡ tick_refusal self.now }
        ensures timely { IsTimely self.now.core }
    {
        let _timely = self.core.rows();
        match self.due() {
            Some(row) => Some(PlanFault::Due { task: row.task }),
            None => {
                if self.is_finished() {
                    Some(PlanFault::Finished)
                } else {
                    None
                }
            }
        }
    }

    // Makes a grant that the plan does not refuse.
    #[inline(always)]
    fn grant_now(&mut self, task: TaskNo) -> Result<Granted, ActFault<GrantFault>>
        requires in_set { IsIn self.old.core.set task.0 }
        requires none { tick_refusal self.old ≡ None }
        ensures answer { result ≡ of_core (core_event.grant_answer self.old.core task.0) }
        ensures state { self.new ≡ record self.old { core = core_event.after_grant self.old.core task.0 } }
        ensures timely { IsTimely self.new.core }
        ensures no_full { is_planned self.old.plan ≡ true → result ≢ Err (act_fault.Core grant_fault.Full) }
    {
        let _sound = self.core.ticks();
        match self.core.grant(task) {
            Ok(granted) => {
                let need = self.needs.of(task);
                self.last = u64::from(granted.before) + 1 == u64::from(need);
                Ok(granted)
            }
            Err(fault) => Err(ActFault::Core(fault)),
        }
    }

    /// Writes the row of the granted tick, and then those of the held releases.
    ///
    /// Under `Rows` the job is done if this tick is the last that its row of the work needs, and `done` is ignored. It
    /// returns what the core returns. A refusal changes nothing.
    #[inline(always)]
    pub fn outcome(&mut self, job: JobId, done: bool) -> Result<How, NotOut>
        ensures answer { result ≡ outcome_answer self.old job done }
        ensures state { self.new ≡ after_outcome self.old job done }
        ensures timely { IsTimely self.new.core }
    {
        let _sound = self.core.ticks();
        let done = if self.is_planned() { self.last } else { done };
        self.core.outcome(job, done)
    }

    /// Writes an idle tick and returns its number.
    ///
    /// It is refused with `Due` if a release is due, and with `Finished` if the plan's ticks have all begun. Otherwise
    /// it returns what the core returns. A refusal changes nothing.
    #[inline(always)]
    pub fn idle(&mut self) -> Result<u64, ActFault<IdleFault>>
        ensures answer { result ≡ idle_answer self.old }
        ensures state { self.new ≡ after_idle self.old }
        ensures timely { IsTimely self.new.core }
        // A planned tick finds capacity.
        ensures no_full { is_planned self.old.plan ≡ true → result ≢ Err (act_fault.Core idle_fault.Full) }
    {
        match self.tick_fault() {
            Some(fault) => Err(ActFault::Plan(fault)),
            None => self.idle_now(),
        }
    }

    // Makes an idle tick that the plan does not refuse.
    #[inline(always)]
    fn idle_now(&mut self) -> Result<u64, ActFault<IdleFault>>
        requires none { tick_refusal self.old ≡ None }
        ensures answer { result ≡ of_core (core_event.idle_answer self.old.core) }
        ensures state { self.new ≡ record self.old { core = core_event.after_idle self.old.core } }
        ensures timely { IsTimely self.new.core }
        ensures no_full { is_planned self.old.plan ≡ true → result ≢ Err (act_fault.Core idle_fault.Full) }
    {
        let _sound = self.core.ticks();
        match self.core.idle() {
            Ok(tick) => Ok(tick),
            Err(fault) => Err(ActFault::Core(fault)),
        }
    }
}
