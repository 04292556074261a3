//! Runs, followed one after another.
ghost use Rattle.std.specs.Prelude.{◌+◌, ◌++◌, ◌^◌, ◌≤◌, All, IfOk, OnErr, List, length, reverse};
ghost use Rattle.mc_model.specs.declared.row.Row.{Row};
ghost use Rattle.mc_model.specs.Holds.{Fits};
ghost use Rattle.mc_model.specs.Legal.{Legal};
ghost use Rattle.mc_model.specs.Runs.{expand, AreRuns, IsRunOfSet};
ghost use Rattle.trace_judge.specs.Tracks.{Tracks};
ghost use Rattle.trace_judge.specs.Watched.{HasFollowed, HasFollowedSome};

use crate::state::State;
use crate::step::step;
use crate::unfit::{Unfit, unfit_after};
use mc_model::Run;
use mc_task::{Memory, Rule, TaskSet};

/// Follows the rows of runs up to the first that does not fit, which is returned. If memory runs out, the state has followed
/// the runs before one of them that needs memory, and each row of them fits.
pub fn follow_runs(
    state: &mut State,
    set: &TaskSet,
    rule: Rule,
    runs: &[Run],
) -> Result<Option<Unfit>, Memory>
    requires fits { Fits rule }
    requires runs { AreRuns runs.now }
    requires tasks { All (IsRunOfSet set.now.tasks) runs.now }
    requires tracks { (h : List Row) × (Legal set.now.tasks rule h × Tracks set.now.tasks rule h state.old) }
    requires room { state.old.rows + length (expand runs.now) ≤ 2 ^ 62 }
    ensures answer { IfOk result (λ unfit. (h : List Row) → Legal set.now.tasks rule h → Tracks set.now.tasks rule h state.old → HasFollowed (reverse (expand runs.now) ++ h) set.now.tasks rule state.new unfit) }
    ensures some { OnErr result (HasFollowedSome runs.now set.now.tasks rule state.old state.new) }
    ensures tracks { (h : List Row) × (Legal set.now.tasks rule h × Tracks set.now.tasks rule h state.new) }
{
    for run in runs {
        let before = state.rows;
        if let Some(misfit) = step(state, set, rule, *run)? {
            return Ok(Some(unfit_after(before, misfit)));
        }
    }
    Ok(None)
}
