//! A list of work, and why rows are not one.
ghost use Rattle.std.specs.Prelude.{◌≡◌, ◌++◌, ◌∷◌, [], ◌<◌, ◌≤◌, length, IfOk, IfErr, IfNone, Some, None};
ghost use Rattle.mc_model.specs.Work.{IsWork};
ghost use Rattle.work_file.specs.Rows.{first_bad, row_fault};
ghost use Rattle.work_file.specs.Tracks.{Tracks};

use crate::WorkCause;
use crate::next::NextReleases;
use mc_model::WorkRow;
use mc_task::TaskSet;
use std::marker::Model;

/// A row that is refused: its index from 0, and the cause.
#[derive(Clone, Copy, Debug, PartialEq, Eq)]
pub struct BadRow {
    pub index: usize,
    pub cause: WorkCause,
}

/// A list of work for the set that it was made with: at most 1,000,000 jobs in the order of their releases, each task's
/// at least its period apart. In contracts it is the list of its rows.
#[derive(Debug, Drop)]
pub struct Work {
    rows: Vec<WorkRow>,
}

impl Model for Work {
    ghost use Rattle.std.specs.Prelude.{List, length, ◌≤◌};
    ghost use Rattle.mc_model.specs.declared.work.WorkRow.{WorkRow};

    ghost Value = { List WorkRow };

    ghost view = { λ a. a.rows.items };

    ghost invariant = { λ a. length a.rows.items ≤ 1000000 };
}

impl Work {
    /// The list of these rows, for this set. On an error the rows are dropped. It allocates nothing.
    ///
    /// An error is the first row that is refused, with the first of these causes: `TooMany`, `UnknownTask`, `ZeroNeed`,
    /// `Unsorted`, `TooSoon`.
    pub fn new(set: &TaskSet, rows: Vec<WorkRow>) -> Result<Work, BadRow>
        ensures ok { IfOk result (λ work. (first_bad set.now.tasks rows.items ≡ None) × (work ≡ rows.items)) }
        ensures refused { IfErr result (λ bad. first_bad set.now.tasks rows.items ≡ Some bad) }
        ensures work { IfOk result (λ work. IsWork set.now.tasks work) }
        ensures few { IfOk result (λ work. length work ≤ 1000000) }
    {
        match first_bad(set, &rows) {
            Some(bad) => Err(bad),
            None => Ok(Work { rows }),
        }
    }

    // A list of work from at most 1,000,000 rows that are known to be one.
    pub(crate) fn from_rows(rows: Vec<WorkRow>) -> Work
        requires { length rows.items ≤ 1000000 }
        ensures { result ≡ rows.items }
    {
        Work { rows }
    }

    /// The rows, in the order of their releases.
    pub fn rows(&self) -> &[WorkRow]
        ensures value { result.now ≡ self.now }
        ensures few { length self.now ≤ 1000000 }
    {
        &self.rows
    }
}

fn first_bad(set: &TaskSet, rows: &[WorkRow]) -> Option<BadRow>
    ensures bad { result ≡ first_bad set.now.tasks rows.now }
    ensures work { IfNone result (IsWork set.now.tasks rows.now) }
    ensures few { IfNone result (length rows.now ≤ 1000000) }
{
    let mut next = NextReleases::new();
    for (index, row) in rows.iter().enumerate() {
        if let Some(cause) = row_fault(&mut next, set, &rows[..index], *row) {
            return Some(BadRow { index, cause });
        }
    }
    None
}

// Why the row may not stand after the rows before it. If it may, it counts as one of them from then on.
#[tactic(auto, unfolding(crate::specs::Rows::row_fault))]
fn row_fault(
    next: &mut NextReleases,
    set: &TaskSet,
    before: &[WorkRow],
    row: WorkRow,
) -> Option<WorkCause>
    requires tracks { Tracks set.now.tasks before.now next.old }
    ensures cause { result ≡ row_fault set.now.tasks before.now row }
    ensures tracks { IfNone result (Tracks set.now.tasks (before.now ++ row ∷ []) next.new) }
    ensures work { IsWork set.now.tasks before.now → IfNone result (IsWork set.now.tasks (before.now ++ row ∷ [])) }
    ensures few { IfNone result (length before.now < 1000000) }
{
    if before.len() >= 1_000_000 {
        return Some(WorkCause::TooMany);
    }
    if set.get(row.task).is_none() {
        return Some(WorkCause::UnknownTask);
    }
    next.take(set, before, row)
}
