//! Counterexamples for sets that are past.
ghost use Rattle.std.specs.Prelude.{◌≡◌, IfOk};
ghost use Rattle.demand_test.specs.DemandSet.{hyperperiod};
ghost use Rattle.demand_test.specs.DemandBound.{IsPast};
ghost use Rattle.demand_test.specs.Counter.{OneCounter};
ghost use Rattle.demand_test.specs.CounterText.{ShowsCounter};
ghost use Rattle.demand_test.specs.Play.{first_due};

use crate::DemandSet;
use crate::lines::{push_late, push_rows};
use crate::play::{Job, played};
use mc_task::{JobId, Memory};
use std::alloc::Global;

/// A counterexample for a set that is past at `length`: the text of a schedule of that many ticks under plain EDF in
/// which a job is late. Each task releases at every multiple of its period, each job uses its whole budget, and ties go
/// to the lowest task number. Fails with `Memory` if an allocation fails.
#[tactic(auto, using(crate::proofs::Unique::one_counter))]
pub fn counter(alloc: Global, set: &DemandSet, length: u64) -> Result<Vec<u8>, Memory>
    requires past { IsPast set.now (hyperperiod set.now) length }
    ensures text { IfOk result (λ text. ShowsCounter set.now length text.items) }
    ensures law { OneCounter set.now length }
{
    // The tasks are valid, and the hyperperiod, which `length` is not above, is at most 500,000.
    let _is_set = set.len();
    let length = length as u32;
    let play = played(alloc, set, length)?;
    let mut out = Vec::new(alloc);
    push_rows(alloc, &mut out, set, &play.rows)?;
    push_late(&mut out, set, first_due(&play.jobs, length))?;
    Ok(out)
}

// The first of the jobs whose deadline has come, if any.
fn first_due(jobs: &[Job], ticks: u32) -> Option<JobId>
    ensures { result ≡ first_due ticks jobs.now }
{
    for job in jobs {
        if job.due <= u64::from(ticks) {
            return Some(job.id);
        }
    }
    None
}
