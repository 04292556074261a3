//! Live runs: rows that can only come out in one way, and runs of several threads.
ghost use Rattle.std.specs.Prelude.{◌≤◌};

use super::floors::{LIVE_ROWS, free};
use crate::run_live;
use executive::{Gate, QuietGate};
use mc_model::How::Done;
use mc_model::Row;
use mc_task::Level::Low;
use mc_task::Memory;
use std::alloc::Global;
use std::sync::Wait;
use std::test::Fail;
use std::thread::Threads;
use worked_gates::MeetingGate;
use worked_sets::{CONTROL, Line, kept, tick};

// Whether a live run of these tasks, of `ticks` ticks, begins with these rows.
fn begins_with<R: Threads + Wait + Sync, G: Gate + Sync>(
    rt: &R,
    alloc: Global,
    lines: &[Line],
    ticks: u64,
    gate: &G,
    rows: &[Row],
) -> Result<bool, Fail>
    requires { (1 ≤ ticks) × (ticks ≤ 100_000) }
{
    let floor = free(alloc, lines, ticks)?;
    match run_live(rt, alloc, floor, ticks, gate) {
        Ok(floor) => Ok(floor.core().rows().starts_with(rows)),
        Err(Memory) => Ok(false),
    }
}

#[test]
fn a_live_run_of_the_control_set_gives_the_rows_that_were_worked_by_hand(
    rt: HostRuntime,
) -> Result<(), Fail> {
    assert!(rt; begins_with(&rt, rt.alloc(), &CONTROL, 10, &QuietGate, &LIVE_ROWS)?);
    Ok(())
}

const SHORT: [Line; 1] = [("a", Low, 1, 1, 1)];

static SHORT_ROWS: [Row; 6] = [
    kept!(1, 1),
    tick!(1, 1, Done),
    kept!(1, 2),
    tick!(1, 2, Done),
    kept!(1, 3),
    tick!(1, 3, Done),
];

#[test]
fn a_task_releases_again_where_its_period_allows(rt: HostRuntime) -> Result<(), Fail> {
    assert!(rt; begins_with(&rt, rt.alloc(), &SHORT, 3, &QuietGate, &SHORT_ROWS)?);
    Ok(())
}

#[test]
fn a_live_run_has_a_thread_for_each_task(rt: HostRuntime) -> Result<(), Fail> {
    let gate = MeetingGate::of(1, 2);
    let is_worked = begins_with(&rt, rt.alloc(), &CONTROL, 10, &gate, &LIVE_ROWS)?;
    assert!(rt; is_worked && gate.is_kept());
    Ok(())
}
