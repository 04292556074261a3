//! A plan run in threads, from a floor with no rows to the plan's end.
ghost use Rattle.std.specs.Prelude.{◌≡◌, [], true, None, IfOk};
ghost use Rattle.mc_model.specs.Late.{late};
ghost use Rattle.demand_law.specs.NoOver.{NoOver, NoDrop, EndedInTime};
ghost use Rattle.timetable.specs.declared.acts.Act.TheVariants as act;
ghost use Rattle.timetable.specs.Floor.{is_planned, next_act};
ghost use Rattle.timetable.specs.Plans.{IsTraceOfPlan, HasTaken};
ghost use Rattle.timetable.specs.OneTrace.{AtMostOneFollows};
ghost use Rattle.executive.specs.Stands.{opening_of};

use crate::parking_spots::ParkingSpots;
use crate::starts::in_threads;
use crate::worker::Serving;
use executive::{Executive, Gate};
use mc_task::Memory;
use std::alloc::Global;
use std::sync::Wait;
use std::thread::Threads;
use timetable::Floor;

/// Runs the plan of a floor with no rows and no granted tick, in a thread for each task, and calls the gate on the way.
///
/// The rows are then the one trace that the set, the rule, the work and the ticks determine, however the threads
/// interleave, and no job is late in it (Baruah et al., ECRTS 2012). It may wait for other threads; nothing is proved
/// about how long. Fails with `Memory` if an allocation fails.
#[tactic(auto, using(crate::proofs::OneTrace::at_most_one))]
pub fn run_threads<R: Threads + Wait + Sync, G: Gate + Sync>(
    rt: &R,
    alloc: Global,
    floor: Floor,
    gate: &G,
) -> Result<Floor, Memory>
    requires planned { is_planned floor.plan ≡ true }
    requires rows { floor.core.rows ≡ [] }
    requires out { floor.core.out ≡ None }
    // No other rows follow from the plan, whatever made them.
    ensures trace { IfOk result (λ f. IsTraceOfPlan f.plan f.core) }
    ensures law { AtMostOneFollows }
    ensures timely { IfOk result (λ f. late f.core.set f.core.rows ≡ []) }
    // If no job overran, no release was dropped, and each job ended by its deadline.
    ensures kept { IfOk result (λ f. NoOver f.core.rows → NoDrop f.core.rows) }
    ensures ended { IfOk result (λ f. NoOver f.core.rows → EndedInTime f.core.set f.core.rows) }
    ensures taken { IfOk result (λ f. HasTaken f.plan f.taken) }
    ensures finished { IfOk result (λ f. next_act f ≡ act.Finished) }
    // The set, the rule, the capacity and the plan are as before.
    ensures same { IfOk result (λ f. opening_of f ≡ floor) }
    ensures none_out { IfOk result (λ f. f.core.out ≡ None) }
{
    let mut floor = serve_all(rt, alloc, floor, gate)?;
    floor.finish();
    Ok(floor)
}

// Serves the floor in a thread for each task, until none has anything left to do.
#[tactic(auto, using(crate::proofs::InOrder::from_fresh))]
fn serve_all<R: Threads + Wait + Sync, G: Gate + Sync>(
    rt: &R,
    alloc: Global,
    floor: Floor,
    gate: &G,
) -> Result<Floor, Memory>
    requires rows { floor.core.rows ≡ [] }
    requires out { floor.core.out ≡ None }
    ensures same { IfOk result (λ f. opening_of f ≡ floor) }
    ensures none_out { IfOk result (λ f. f.core.out ≡ None) }
{
    let tasks = floor.core().set().len();
    let spots = ParkingSpots::new(alloc, tasks)?;
    let starts = Vec::with_capacity(alloc, tasks as usize)?;
    let Ok((executive, passes)) = Executive::new(rt, alloc, floor) else {
        return Err(Memory);
    };
    let serving = Serving {
        rt,
        executive: &executive,
        gate,
        spots: &spots,
    };
    let passes = in_threads(&serving, passes, starts);
    match executive.close(rt, passes) {
        Ok(floor) => Ok(floor),
        Err(_unclosed) => unreachable!(),
    }
}
