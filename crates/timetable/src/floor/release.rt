//! Releases under a plan.
ghost use Rattle.std.specs.Prelude.{◌≡◌, ◌≢◌, ℕ, true, None, Err};
ghost use Rattle.mc_task.specs.TaskSet.{IsIn};
ghost use Rattle.mode_core.specs.Events as core_event;
ghost use Rattle.mode_core.specs.Timely.{IsTimely};
ghost use Rattle.mode_core.specs.declared.answers.ReleaseFault.TheVariants as release_fault;
ghost use Rattle.timetable.specs.declared.acts.ActFault.TheVariants as act_fault;
ghost use Rattle.timetable.specs.Floor.{is_planned, release_refusal, release_answer, after_release, of_core, releasing};

use super::Floor;
use crate::{ActFault, Plan, PlanFault};
use mc_task::TaskNo;
use mode_core::{ReleaseFault, Released};

impl Floor {
    /// Releases the task's next job.
    ///
    /// Under `Rows` it is refused with `Due` if the release of another task is due, and with `NotPlanned` if no release
    /// is due. Otherwise it returns what the core returns. A refusal changes nothing.
    #[inline(always)]
    pub fn release(&mut self, task: TaskNo) -> Result<Released, ActFault<ReleaseFault>>
        requires in_set { IsIn self.old.core.set task.0 }
        ensures answer { result ≡ release_answer self.old task.0 }
        ensures state { self.new ≡ after_release self.old task.0 }
        ensures timely { IsTimely self.new.core }
        // A planned release is never too soon, and finds capacity.
        ensures no_too_soon { (next : ℕ) → is_planned self.old.plan ≡ true → result ≢ Err (act_fault.Core (release_fault.TooSoon next)) }
        ensures no_full { is_planned self.old.plan ≡ true → result ≢ Err (act_fault.Core release_fault.Full) }
    {
        match self.release_fault(task) {
            Some(fault) => Err(ActFault::Plan(fault)),
            None => self.release_now(task),
        }
    }

    // Why the plan refuses a release of the task.
    fn release_fault(&self, task: TaskNo) -> Option<PlanFault>
        ensures value { result ≡ release_refusal self.now task.0 }
        ensures timely { IsTimely self.now.core }
    {
        let _timely = self.core.rows();
        match &self.plan {
            Plan::Free => None,
            Plan::Rows { .. } => match self.due() {
                Some(row) => {
                    if row.task == task {
                        None
                    } else {
                        Some(PlanFault::Due { task: row.task })
                    }
                }
                None => Some(PlanFault::NotPlanned),
            },
        }
    }

    // Makes a release that the plan does not refuse.
    fn release_now(&mut self, task: TaskNo) -> Result<Released, ActFault<ReleaseFault>>
        requires in_set { IsIn self.old.core.set task.0 }
        requires none { release_refusal self.old task.0 ≡ None }
        ensures answer { result ≡ of_core (core_event.release_answer self.old.core task.0) }
        ensures state { self.new ≡ releasing self.old task.0 }
        ensures timely { IsTimely self.new.core }
        ensures no_too_soon { (next : ℕ) → is_planned self.old.plan ≡ true → result ≢ Err (act_fault.Core (release_fault.TooSoon next)) }
        ensures no_full { is_planned self.old.plan ≡ true → result ≢ Err (act_fault.Core release_fault.Full) }
    {
        let _sound = self.core.ticks();
        let due = self.due();
        match self.core.release(task) {
            Ok(released) => {
                if let Some(row) = due {
                    self.needs.note(row);
                    self.taken += 1;
                }
                Ok(released)
            }
            Err(fault) => Err(ActFault::Core(fault)),
        }
    }
}
