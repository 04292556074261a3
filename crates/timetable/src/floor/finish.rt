//! A plan, done to its end by one caller.
ghost use Rattle.std.specs.Prelude.{◌≡◌, true, false, None};
ghost use Rattle.demand_law.specs.NoOver.{NoOver, NoDrop, EndedInTime};
ghost use Rattle.mode_core.specs.Shape.{IsSound};
ghost use Rattle.mode_core.specs.Timely.{IsTimely};
ghost use Rattle.timetable.specs.declared.acts.Act.TheVariants as act;
ghost use Rattle.timetable.specs.Floor.{is_planned, is_finished, next_act};
ghost use Rattle.timetable.specs.Plans.{IsTraceOfPlan, HasTaken};
ghost use Rattle.timetable.specs.Shape.{AddsRow, KeepsToPlan};
ghost use Rattle.timetable.specs.OneTrace.{AtMostOneFollows};

use super::Floor;
use crate::Act;

impl Floor {
    /// Does the next acts of the plan until it is finished.
    ///
    /// The rows are then the one trace that the core's set and rule, the work and the ticks determine, whatever other
    /// calls did before. No job in it is late (Baruah et al., ECRTS 2012).
    pub fn finish(&mut self)
        requires planned { is_planned self.old.plan ≡ true }
        requires out { self.old.core.out ≡ None }
        // No other rows follow from the plan, whatever made them.
        ensures trace { IsTraceOfPlan self.new.plan self.new.core }
        ensures law { AtMostOneFollows }
        ensures timely { IsTimely self.new.core }
        // If no job overran, no release was dropped, and each job ended by its deadline.
        ensures kept { NoOver self.new.core.rows → NoDrop self.new.core.rows }
        ensures ended { NoOver self.new.core.rows → EndedInTime self.new.core.set self.new.core.rows }
        ensures taken { HasTaken self.new.plan self.new.taken }
        ensures finished { next_act self.new ≡ act.Finished }
        ensures stays { self.new ≡ record self.old { core = record self.old.core { rows = self.new.core.rows }; taken = self.new.taken } }
    {
        while !self.is_finished() {
            self.act();
        }
    }

    // Does the next act, if no tick is granted and the plan is not finished.
    fn act(&mut self)
        requires planned { is_planned self.old.plan ≡ true }
        requires out { self.old.core.out ≡ None }
        requires more { is_finished self.old ≡ false }
        requires sound { IsSound self.old.core }
        requires run { KeepsToPlan self.old.plan self.old.core self.old.taken }
        ensures { AddsRow self.old self.new }
    {
        match self.next_act() {
            Act::Release(task) => {
                let _ = self.release(task);
            }
            Act::Grant(task) => {
                if let Ok(granted) = self.grant(task) {
                    let _ = self.outcome(granted.job, false);
                }
            }
            Act::Idle => {
                let _ = self.idle();
            }
            Act::Wait(_) | Act::Finished => {}
        }
    }
}
