//! The verdict on a whole trace.
ghost use Rattle.std.specs.Prelude.{◌≡◌, IfOk, All, reverse};
ghost use Rattle.mc_model.specs.Holds.{Fits, Holds};
ghost use Rattle.mc_model.specs.Runs.{expand, AreRuns, IsRunOfSet};
ghost use Rattle.mc_model.specs.declared.verdict.Verdict.TheVariants.{Illegal};
ghost use Rattle.mc_model.specs.Verdict.{verdict, HasNoLate};

use crate::monitor::legal;
use crate::runs::follow_runs;
use crate::state::State;
use crate::unfit::Unfit;
use mc_model::{Run, Verdict};
use mc_task::{Memory, Rule, TaskSet};
use std::alloc::Global;

/// The verdict on the rows of these runs, the oldest first, under the rule, which need not hold for the set.
///
/// `Illegal` has the number, from 1, of the first row that does not fit the rows before it, and the first of its parts
/// that fails; each row of a run counts. `Legal` has the number of late jobs, those that were pending when their
/// deadlines came, and the one of them that was released first. Running out of memory is the only error.
pub fn judge(alloc: Global, set: &TaskSet, rule: Rule, runs: &[Run]) -> Result<Verdict, Memory>
    requires fits { Fits rule }
    requires runs { AreRuns runs.now }
    requires tasks { All (IsRunOfSet set.now.tasks) runs.now }
    ensures verdict { IfOk result (λ v. v ≡ verdict set.now.tasks rule (reverse (expand runs.now))) }

    // Under a rule that holds for the set no job of a legal trace is late.
    ensures no_late { IfOk result (λ v. Holds set.now.tasks rule → HasNoLate v) }
{
    let mut state = State::new(alloc, set.len())?;
    match follow_runs(&mut state, set, rule, runs)? {
        None => Ok(legal(state.all_late_jobs(set))),
        Some(unfit) => Ok(illegal(unfit)),
    }
}

// The verdict where this row is the first that does not fit.
fn illegal(unfit: Unfit) -> Verdict
    ensures { result ≡ Illegal unfit.place unfit.why }
{
    Verdict::Illegal {
        place: unfit.place,
        why: unfit.why,
    }
}
