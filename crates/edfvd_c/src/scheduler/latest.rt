//! The latest runs of equal rows of a schedule without an end, and how many rows there were.
ghost use Rattle.std.specs.Prelude.{◌≡◌, ◌≤◌, ◌<◌, ◌-◌, ◌^◌, [], IfOk, reverse};
ghost use Rattle.edfvd_c.specs.Scheduler.Latest.{same_row, is_again, latest_from, IsLookup};

use mc_model::Row;
use row_history::{Recorder, RowCount, row_count};
use std::alloc::{AllocError, Global};
use std::marker::Model;

/// How many of the latest runs are kept.
const KEPT: usize = 256;

/// What is known of the row of a number, the oldest row being number 0.
#[derive(Clone, Copy)]
pub enum Lookup {
    /// The row, and how many equal rows begin with it.
    Here { row: Row, times: u32 },
    /// The schedule has had the row, and it is no longer kept.
    Gone,
    /// The schedule has not come that far.
    NotYet,
}

/// The row with which a run of equal rows begins, and its number.
#[derive(Clone, Copy)]
pub struct RunBegin {
    pub row: Row,
    pub number: u64,
}

/// A recorder that counts all rows and keeps the latest 256 runs of equal rows. Only `new` allocates.
#[derive(Drop)]
pub struct LatestRows {
    rows: RowCount,
    // The newest row, once there is one. Each row is compared with it, and no slot is looked up for that.
    newest: Row,
    // How many runs of equal rows there were, those included that are no longer kept.
    runs: usize,
    // The beginning of run n, counted from 0, is in slot n % 256, until run n + 256 takes that slot.
    slots: Vec<RunBegin>,
}

// Clauses see all rows, the newest first.
impl Model for LatestRows {
    ghost use Rattle.std.specs.Prelude.{List};
    ghost use Rattle.mc_model.specs.declared.row.Row.{Row};

    ghost Value = { List Row };

    ghost use Rattle.edfvd_c.specs.Scheduler.Slots.{rows_of, AreLatest};

    ghost view = { rows_of };

    ghost invariant = { AreLatest };
}

impl LatestRows {
    pub fn new(alloc: Global) -> Result<LatestRows, AllocError>
        ensures { IfOk result (λ latest. latest ≡ []) }
    {
        let rows = row_count(alloc)?;
        let none = RunBegin {
            row: Row::Idle,
            number: 0,
        };
        let slots = vec![in alloc; none; KEPT]?;
        Ok(LatestRows {
            rows,
            newest: none.row,
            runs: 0,
            slots,
        })
    }

    /// The row of this number, if it is in one of the latest 256 runs, and how many equal rows begin with it.
    pub fn row_at(&self, number: u64) -> Lookup
        ensures { IsLookup (latest_from self.now) (reverse self.now) number result }
    {
        let mut end = self.rows.count() as u64;
        if number < self.first_kept() {
            return Lookup::Gone;
        }
        if number >= end {
            return Lookup::NotYet;
        }
        for back in 0..self.runs.min(KEPT) {
            let begin = self.slots[(self.runs - 1 - back) % KEPT];
            if begin.number <= number {
                return Lookup::Here {
                    row: begin.row,
                    times: most_32(end - number),
                };
            }
            end = begin.number;
        }
        // The oldest run that is kept begins with row `first_kept()`, which is not after this row, so the loop has found the run.
        unreachable!()
    }

    // The number of the oldest row that is kept.
    fn first_kept(&self) -> u64
        ensures { result ≡ latest_from self.now }
    {
        if self.runs < KEPT {
            return 0;
        }
        self.slots[self.runs % KEPT].number
    }

    // Whether the row equals the newest one.
    fn is_again(&self, row: Row) -> bool
        ensures { result ≡ is_again row self.now }
    {
        same_row(self.newest, row) && self.runs > 0
    }
}

impl Recorder for LatestRows {
    ghost rows = { λ latest. latest };

    ghost capacity = { λ _. 2 ^ 62 };

    ghost most = { 2 ^ 62 };

    fn add(&mut self, row: Row) {
        self.add_run(row, 1);
    }

    fn add_run(&mut self, row: Row, times: usize) {
        if times == 0 {
            return;
        }
        if self.is_again(row) {
            self.rows.add_run(row, times);
            return;
        }
        self.newest = row;
        let slot = self.runs % KEPT;
        self.slots[slot] = RunBegin {
            row,
            number: self.rows.count() as u64,
        };
        self.runs += 1;
        self.rows.add_run(row, times);
    }

    fn count(&self) -> usize {
        self.rows.count()
    }
}

/// Whether the rows are equal.
pub fn same_row(first: Row, second: Row) -> bool
    ensures { result ≡ same_row first second }
{
    first == second
}

// The number, or the greatest of 32 bits if it is greater.
fn most_32(number: u64) -> u32
    ensures small { number < 2 ^ 32 → result ≡ number }
    ensures large { 2 ^ 32 ≤ number → result ≡ 2 ^ 32 - 1 }
{
    if number >= 1 << 32 {
        return u32::MAX;
    }
    number as u32
}
