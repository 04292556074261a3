//! Rows from a recorder of the caller's own, judged.
ghost use Rattle.std.specs.Prelude.{◌≡◌, ◌<◌, All, Err, IfOk, length, reverse};
ghost use Rattle.mc_model.specs.Holds.{Fits, Holds};
ghost use Rattle.mc_model.specs.Legal.{IsOfSet};
ghost use Rattle.mc_model.specs.Verdict.{verdict, HasNoLate};

use mc_model::{Row, Verdict, are_of_set};
use mc_task::{Memory, Rule, TaskSet};
use std::alloc::Global;
use thiserror::Error;
use trace_format::pack;
use trace_judge::judge;

/// Why rows are not judged.
#[derive(Clone, Copy, Debug, PartialEq, Eq, Error)]
pub enum NotJudged {
    #[error("out of memory")]
    Memory,
    #[error("more than 2000000 rows")]
    TooMany,
    #[error("a row is of a task that the set does not have")]
    UnknownTask,
}

/// The verdict on these rows, the oldest first. The rule holds for the set, so if the rows are legal, no job is late.
pub fn verdict_on(
    alloc: Global,
    set: &TaskSet,
    rule: Rule,
    rows: &[Row],
) -> Result<Verdict, NotJudged>
    requires fits { Fits rule }
    requires holds { Holds set.now.tasks rule }
    ensures exact { IfOk result (λ v. v ≡ verdict set.now.tasks rule (reverse rows.now)) }
    ensures none_late { IfOk result HasNoLate }
    ensures too_many { result ≡ Err NotJudged.TooMany → 2000000 < length rows.now }
    ensures unknown { result ≡ Err NotJudged.UnknownTask → ¬ All (IsOfSet set.now.tasks) rows.now }
{
    if rows.len() > 2_000_000 {
        return Err(NotJudged::TooMany);
    }
    if !are_of_set(set, rows) {
        return Err(NotJudged::UnknownTask);
    }
    let Ok(runs) = pack(alloc, rows) else {
        return Err(NotJudged::Memory);
    };
    match judge(alloc, set, rule, &runs) {
        Ok(verdict) => Ok(verdict),
        Err(Memory) => Err(NotJudged::Memory),
    }
}
