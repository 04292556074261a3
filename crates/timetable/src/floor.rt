//! The floor: its state, what can be read of it, and its next act.
ghost use Rattle.std.specs.Prelude.{◌≡◌, [], None, slice_get};
ghost use Rattle.mode_core.specs.Shape.{IsSound};
ghost use Rattle.mode_core.specs.Timely.{IsTimely};
ghost use Rattle.timetable.specs.Shape.{KeepsToPlan};
ghost use Rattle.timetable.specs.Floor.{opening, is_planned, due_row, due, is_finished, next_act};
ghost use Rattle.timetable.specs.Plans.{IsPlanFor, IsOnPlan};

mod finish;
mod release;
mod tick;

use crate::needs::Needs;
use crate::{Act, Plan};
use mc_model::WorkRow;
use mode_core::Core;
use std::marker::Model;

/// A scheduler's core with its plan. In contracts it is the core, the plan, and how many of the plan's releases were
/// taken.
#[derive(Debug, Drop)]
pub struct Floor {
    core: Core,
    plan: Plan,
    taken: usize,
    needs: Needs,
    // Whether the granted tick is the last that its job needs by the plan.
    last: bool,
}

impl Model for Floor {
    ghost use Rattle.timetable.specs.Floor.{FloorState};

    ghost Value = { FloorState };

    ghost use Rattle.timetable.specs.Shape.{floor_of, IsFloor};

    ghost view = { floor_of };

    ghost invariant = { IsFloor };
}

impl Floor {
    /// A floor with this core, which has no rows and no granted tick.
    ///
    /// Under `Rows` the work must be made for the core's set, `ticks` be 1 to 1,000,000, and the core have capacity for
    /// each tick and each row of the work. It allocates nothing, and neither do later calls.
    pub fn new(core: Core, plan: Plan) -> Floor
        requires rows { core.rows ≡ [] }
        requires out { core.out ≡ None }
        requires plan { IsPlanFor core plan }
        ensures value { result ≡ opening core plan }
        ensures timely { IsTimely result.core }
    {
        let _sound = core.ticks();
        Floor {
            core,
            plan,
            taken: 0,
            needs: Needs::new(),
            last: false,
        }
    }

    /// The scheduler's core.
    pub fn core(&self) -> &Core
        ensures value { result.now ≡ self.now.core }
        // So far the core's rows begin the one trace that the plan determines.
        ensures on_plan { IsOnPlan self.now.plan self.now.taken self.now.core }
    {
        let _sound = self.core.ticks();
        &self.core
    }

    /// Whether the plan is a list of work.
    pub fn is_planned(&self) -> bool
        ensures { result ≡ is_planned self.now.plan }
    {
        match &self.plan {
            Plan::Free => false,
            Plan::Rows { .. } => true,
        }
    }

    /// The floor's next act: the due release, unless its task has a granted tick; otherwise to wait for the outcome of
    /// the granted tick; otherwise nothing, once the plan's ticks have all begun; otherwise a tick of the chosen job,
    /// or an idle one.
    #[inline(always)]
    pub fn next_act(&self) -> Act
        ensures { result ≡ next_act self.now }
    {
        let out = self.core.out();
        if let Some(row) = self.due() {
            let waits = match out {
                Some(job) => job.task == row.task,
                None => false,
            };
            if !waits {
                return Act::Release(row.task);
            }
        }
        if let Some(job) = out {
            return Act::Wait(job);
        }
        if self.is_finished() {
            return Act::Finished;
        }
        match self.core.chosen() {
            Some(job) => Act::Grant(job.task),
            None => Act::Idle,
        }
    }

    // The release that is due.
    fn due(&self) -> Option<WorkRow>
        ensures { result ≡ due self.now }
    {
        match &self.plan {
            Plan::Free => None,
            Plan::Rows { work, ticks } => {
                let now = self.core.ticks_begun();
                if now < *ticks {
                    due_row(work.rows(), self.taken, now)
                } else {
                    None
                }
            }
        }
    }

    // Whether the plan's ticks have all begun.
    fn is_finished(&self) -> bool
        ensures value { result ≡ is_finished self.now }
        ensures sound { IsSound self.now.core }
        ensures run { KeepsToPlan self.now.plan self.now.core self.now.taken }
    {
        let _sound = self.core.ticks();
        match &self.plan {
            Plan::Free => false,
            Plan::Rows { ticks, .. } => self.core.ticks_begun() == *ticks,
        }
    }
}

// The row at this index, if it is released at this boundary.
fn due_row(rows: &[WorkRow], place: usize, tick: u64) -> Option<WorkRow>
    ensures { result ≡ due_row (slice_get rows.now place) tick }
{
    match rows.get(place) {
        Some(row) => {
            if u64::from(row.release) == tick {
                Some(*row)
            } else {
                None
            }
        }
        None => None,
    }
}
