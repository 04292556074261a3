//! A scheduler's rows by their numbers, and how many equal rows begin with each.
ghost use Rattle.std.specs.Prelude.{◌≡◌, ◌≢◌, ◌<◌, IfSome, MatchOption, slice_get, reverse, length};
ghost use Rattle.edfvd_c.specs.Handle.{core_of, kept_from};
ghost use Rattle.edfvd_c.specs.Scheduler.Latest.{latest_from, AreEqualFrom, IsRowStatus, IsRowFound, AreRowsFound};
ghost use Rattle.edfvd_c.specs.Row.{no_row, row_numbers};
ghost use Rattle.edfvd_c.specs.Status.{OK, CLOSED};

use crate::handle::{Handle, Held};
use crate::row::{CRow, NO_ROW, row_numbers};
use crate::scheduler::latest::{LatestRows, Lookup, same_row};
use crate::status;
use mc_model::Row;

/// A status, a row, and how many equal rows begin with it.
#[derive(Clone, Copy)]
struct Found {
    status: u32,
    row: CRow,
    times: u32,
}

/// Stores the row of this number, the oldest being number 0. Returns NO_ROW after the last row, and GONE for a row that a
/// scheduler without an end no longer keeps, which is any but those of its latest 256 runs of equal rows.
#[unsafe(no_mangle)]
pub extern "C" fn edfvd_raw_scheduler_row(scheduler: &mut Handle, place: u64, row: &mut CRow) -> u32
    ensures same { scheduler.new.block.held ≡ scheduler.old.block.held }
    ensures row { IfSome (core_of scheduler.old.block.held) (λ s. result ≡ OK → IfSome (slice_get (reverse s.rows) place) (λ r. row.new ≡ row_numbers r)) }
    ensures exactly { MatchOption (core_of scheduler.old.block.held) (result ≡ CLOSED) (λ s. IsRowStatus (kept_from scheduler.old.block.held) (length s.rows) place result) }
    ensures none { result ≢ OK → row.new ≡ no_row }
{
    *row = NO_ROW;
    let Some(held) = scheduler.held() else {
        return status::CLOSED;
    };
    let (ended, found) = match &*held {
        Held::Core(open) => row_in(open.core().rows(), place),
        Held::Endless(open) => row_of_latest(open.core().recorder(), place),
        Held::Monitor(_) => (status::CLOSED, NO_ROW),
    };
    *row = found;
    ended
}

/// Stores the row of this number, as `edfvd_raw_scheduler_row` does, and how many equal rows begin with it, which are 2^32 - 1
/// if there are more.
#[unsafe(no_mangle)]
pub extern "C" fn edfvd_raw_scheduler_rows(
    scheduler: &mut Handle,
    place: u64,
    row: &mut CRow,
    times: &mut u32,
) -> u32
    ensures same { scheduler.new.block.held ≡ scheduler.old.block.held }
    ensures row { IfSome (core_of scheduler.old.block.held) (λ s. result ≡ OK → IfSome (slice_get (reverse s.rows) place) (λ r. row.new ≡ row_numbers r)) }
    ensures times { IfSome (core_of scheduler.old.block.held) (λ s. result ≡ OK → AreEqualFrom (reverse s.rows) place times.new) }
    ensures exactly { MatchOption (core_of scheduler.old.block.held) (result ≡ CLOSED) (λ s. IsRowStatus (kept_from scheduler.old.block.held) (length s.rows) place result) }
    ensures none { result ≢ OK → (row.new ≡ no_row) × (times.new ≡ 0) }
{
    *row = NO_ROW;
    *times = 0;
    let Some(held) = scheduler.held() else {
        return status::CLOSED;
    };
    let found = match &*held {
        Held::Core(open) => rows_in(open.core().rows(), place),
        Held::Endless(open) => rows_of_latest(open.core().recorder(), place),
        Held::Monitor(_) => no_row(status::CLOSED),
    };
    *row = found.row;
    *times = found.times;
    found.status
}

// The row of this number among rows that are all kept, the oldest first.
fn row_in(rows: &[Row], place: u64) -> (u32, CRow)
    ensures { IsRowFound 0 rows.now place result.0 result.1 }
{
    match rows.get(place as usize) {
        Some(row) => (status::OK, row_numbers(*row)),
        None => (status::NO_ROW, NO_ROW),
    }
}

// The row of this number, if it is among the latest.
fn row_of_latest(latest: &LatestRows, place: u64) -> (u32, CRow)
    ensures { IsRowFound (latest_from latest.now) (reverse latest.now) place result.0 result.1 }
{
    let found = rows_of_latest(latest, place);
    (found.status, found.row)
}

// The row of this number among rows that are all kept, the oldest first, and how many equal rows begin with it.
fn rows_in(rows: &[Row], place: u64) -> Found
    ensures { AreRowsFound 0 rows.now place result.status result.row result.times }
{
    if place >= rows.len() as u64 {
        return no_row(status::NO_ROW);
    }
    Found {
        status: status::OK,
        row: row_numbers(rows[place as usize]),
        times: equal_from(rows, place as usize),
    }
}

// How many equal rows begin with the one in this place, up to 2^32 - 1.
fn equal_from(rows: &[Row], place: usize) -> u32
    requires { place < length rows.now }
    ensures { AreEqualFrom rows.now place result }
{
    let row = rows[place];
    for times in 1..u32::MAX {
        let next = rows.get(place + times as usize);
        let again = match next {
            Some(next) => same_row(row, *next),
            None => false,
        };
        if !again {
            return times;
        }
    }
    u32::MAX
}

// The row of this number, if it is among the latest, and how many equal rows begin with it.
fn rows_of_latest(latest: &LatestRows, place: u64) -> Found
    ensures { AreRowsFound (latest_from latest.now) (reverse latest.now) place result.status result.row result.times }
{
    match latest.row_at(place) {
        Lookup::Here { row, times } => Found {
            status: status::OK,
            row: row_numbers(row),
            times,
        },
        Lookup::NotYet => no_row(status::NO_ROW),
        Lookup::Gone => no_row(status::GONE),
    }
}

fn no_row(status: u32) -> Found
    ensures status { result.status ≡ status }
    ensures row { result.row ≡ no_row }
    ensures times { result.times ≡ 0 }
{
    Found {
        status,
        row: NO_ROW,
        times: 0,
    }
}
