//! What takes the rows of a schedule.
ghost use Rattle.std.specs.Prelude.{◌≡◌, ℕ, ◌-◌, ◌<◌, ◌^◌, List, [], ◌≤◌, ◌+◌, ◌∷◌, ◌++◌, IfOk, length, replicate, reverse, vec_capacity};
ghost use Rattle.mc_task.specs.declared.task.Task.{Task};
ghost use Rattle.mc_task.specs.declared.task.Rule.{Rule};
ghost use Rattle.mc_model.specs.declared.row.Row.{Row};

use mc_model::Row;
use std::alloc::{AllocError, Global};
use std::marker::Model;
use std::snapshot::Snapshot;

/// What takes the rows of a schedule, one after another.
pub trait Recorder: Drop {
    /// The rows that it took, the newest first.
    ghost rows: { Self → List Row };

    /// How many rows it may take in all.
    ghost capacity: { Self → ℕ };

    /// The largest number of rows that a schedule which it records may have.
    ghost most: { ℕ };

    /// Whether it is for schedules of this set under this rule.
    ghost is_for: { Self → List Task → Rule → Type 0 } = { λ _ _ _. Unit {0} };

    /// Takes the next row.
    fn add(&mut self, row: Row)
        requires room { length (rows self.old) < capacity self.old }
        ensures rows { rows self.new ≡ row ∷ rows self.old }
        ensures capacity { capacity self.new ≡ capacity self.old }
        ensures set { (set : List Task) (rule : Rule) → is_for self.old set rule → is_for self.new set rule };

    /// Takes this row this many times, one after another.
    fn add_run(&mut self, row: Row, times: usize)
        requires room { length (rows self.old) + times ≤ capacity self.old }
        ensures rows { rows self.new ≡ replicate times row ++ rows self.old }
        ensures capacity { capacity self.new ≡ capacity self.old }
        ensures set { (set : List Task) (rule : Rule) → is_for self.old set rule → is_for self.new set rule }
    {
        for _ in 0..times {
            self.add(row);
        }
    }

    /// How many rows it took.
    fn count(&self) -> usize
        ensures { result ≡ length (rows self.now) };
}

/// A list takes no more rows than its capacity, so that adding one never allocates.
impl Recorder for Vec<Row> {
    ghost rows = { λ v. reverse v.items };

    ghost capacity = { λ v. vec_capacity v };

    ghost most = { 2 ^ 32 - 1 };

    fn add(&mut self, row: Row) {
        self.push_reserved(row);
    }

    fn count(&self) -> usize {
        self.len()
    }
}

// A row that was taken, and how many times in one call.
#[derive(Clone, Copy, Debug, PartialEq, Eq)]
struct Taken {
    row: Row,
    times: usize,
}

/// The number of rows, without the rows. Clauses see the rows, as snapshots, which have no bytes: at run time it is two
/// numbers, and taking a row any number of times is one addition. A recorder of your own that hands its rows on holds one,
/// for its ghost `rows`.
#[derive(Drop)]
pub struct RowCount {
    taken: Vec<Snapshot<Taken>>,
    more: usize,
}

// Clauses see the rows, the newest first.
impl Model for RowCount {
    ghost use Rattle.std.specs.Prelude.{List};
    ghost use Rattle.mc_model.specs.declared.row.Row.{Row};

    ghost Value = { List Row };

    ghost use Rattle.row_history.specs.Counted.{counted_rows, IsCount};

    ghost view = { counted_rows };

    ghost invariant = { IsCount };
}

impl Recorder for RowCount {
    ghost rows = { λ count. count };

    ghost capacity = { λ _. 2 ^ 62 };

    ghost most = { 2 ^ 62 };

    fn add(&mut self, row: Row) {
        let taken = Taken { row, times: 1 };
        self.taken.push_reserved(Snapshot::of(&taken));
    }

    fn add_run(&mut self, row: Row, times: usize) {
        if times == 0 {
            return;
        }
        let taken = Taken { row, times };
        self.taken.push_reserved(Snapshot::of(&taken));
        self.more += times - 1;
    }

    fn count(&self) -> usize {
        self.taken.len() + self.more
    }
}

/// No rows, and capacity for 2^62 of them. It allocates nothing then.
pub fn row_count(alloc: Global) -> Result<RowCount, AllocError>
    ensures { IfOk result (λ count. count ≡ []) }
{
    Ok(RowCount {
        taken: Vec::with_capacity(alloc, 1 << 62)?,
        more: 0,
    })
}
