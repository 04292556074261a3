//! A set with constrained deadlines, tested under plain EDF.
ghost use Rattle.std.specs.Prelude.{◌≡◌, ℕ, List, None, IfOk, IfSome};
ghost use Rattle.demand_test.specs.declared.row.EdfRow.{EdfRow};
ghost use Rattle.demand_test.specs.EdfRuns.{IsEdfSchedule, NoneLate};
ghost use Rattle.demand_test.specs.CounterText.{ShowsCounter};

use demand_test::{DemandSet, Fit, check_demand, counter};
use mc_task::Memory;
use std::alloc::Global;

/// The text of a schedule in which a job is late, if the set has one. If there is none, no job is late in any schedule
/// of the set.
pub fn counterexample(alloc: Global, set: &DemandSet) -> Result<Option<Vec<u8>>, Memory>
    ensures none { IfOk result (λ found. found ≡ None → (h : List EdfRow) → IsEdfSchedule set.now h → NoneLate set.now h) }
    ensures some { IfOk result (λ found. IfSome found (λ text. (n : ℕ) × ShowsCounter set.now n text.items)) }
{
    match check_demand(alloc, set)? {
        Fit::Within { .. } => Ok(None),
        Fit::Past { length, .. } => Ok(Some(counter(alloc, set, length)?)),
    }
}
