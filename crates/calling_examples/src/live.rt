//! A schedule without an end. Each row is judged, and written as a line of a trace, when it happens.
ghost use Rattle.std.specs.Prelude.{◌≡◌, ℕ, ◌^◌, ◌<◌, ◌∷◌, [], Option, Some, None, IfOk, IfSome, OnOk, List, true};
ghost use Rattle.mc_model.specs.declared.row.Row.{Row};
ghost use Rattle.mc_model.specs.Holds.{Fits, Holds};
ghost use Rattle.mc_model.specs.Rows.{ticks};
ghost use Rattle.mc_model.specs.Runs.{rows_of};
ghost use Rattle.trace_judge.specs.Watched.{Watches};
ghost use Rattle.calling_examples.specs.Live.{row_line, rows_text, with_line, IsLegalTrace};

use crate::line::line_of;
use crate::schedule::{Device, give_tick, release_due};
use mc_model::{Row, Run};
use mc_task::{Rule, TaskSet};
use mode_core::Core;
use row_history::{Recorder, RowCount, row_count};
use std::alloc::Global;
use std::marker::Model;
use thiserror::Error;
use trace_judge::Monitor;

/// The most ticks of a schedule: 570,000 years of them at 1 kHz.
const MOST_TICKS: u64 = 1 << 54;

/// A device that can be switched off.
pub trait Machine: Device {
    /// The device is switched off before this tick.
    ghost is_off_before: { Self → ℕ → Type 0 };

    /// Whether it is off before tick `at`.
    fn is_off(&mut self, at: u64) -> bool
        ensures { result ≡ true → is_off_before self.new at };
}

/// Where the lines of a trace go.
pub trait Lines: Drop {
    /// The bytes that were written, if this object can say them.
    ghost written: { Self → Option (List ℕ) };

    /// Writes the whole line.
    fn write_line(&mut self, line: &[u8]) -> Result<(), Stop>
        ensures { OnOk result (written self.new ≡ with_line (written self.old) line.now) };
}

impl Lines for Vec<u8> {
    ghost written = { λ v. Some v.items };

    fn write_line(&mut self, line: &[u8]) -> Result<(), Stop> {
        match self.extend_from_slice(line) {
            Ok(()) => Ok(()),
            Err(_) => Err(Stop::Write),
        }
    }
}

/// Why a schedule stopped before its device was switched off.
#[derive(Clone, Copy, Debug, PartialEq, Eq, Error)]
pub enum Stop {
    #[error("out of memory")]
    Memory,
    #[error("a row cannot be written")]
    Write,
    #[error("a row cannot be judged")]
    Judge,
    #[error("a schedule has at most 2^54 ticks")]
    Full,
}

/// A recorder that judges and writes each row as it comes, and keeps none. It stops at the first row that it cannot judge or
/// cannot write.
#[derive(Drop)]
pub struct Live<W: Lines> {
    alloc: Global,
    set: TaskSet,
    monitor: Monitor,
    out: W,
    rows: RowCount,
    ticks: u64,
    stop: Option<Stop>,
}

impl<W: Lines> Model for Live<W> {
    ghost use Rattle.calling_examples.specs.Live.{LiveRows};

    ghost Value = { LiveRows };

    ghost use Rattle.calling_examples.specs.Handed.{live_rows, IsLive};

    ghost view = { λ a. live_rows (W.written a.out) a };

    ghost invariant = { λ a. IsLive (W.written a.out) a };
}

impl<W: Lines> Live<W> {
    /// Writes the header of a trace, before anything else was written.
    pub fn new(alloc: Global, set: &TaskSet, rule: Rule, out: W) -> Result<Live<W>, Stop>
        requires fits { Fits rule }
        requires empty { IfSome (W.written out) (λ bytes. bytes ≡ []) }
        ensures state { IfOk result (λ live. (live.set ≡ set.now.tasks) × (live.rule ≡ rule) × (live.rows ≡ []) × (live.stop ≡ None)) }
        ensures text { IfOk result (λ live. IfSome live.written (λ bytes. bytes ≡ rows_text set.now.tasks [])) }
    {
        let mut out = out;
        let Ok(named) = set.copy(alloc) else {
            return Err(Stop::Memory);
        };
        let Ok(watched) = set.copy(alloc) else {
            return Err(Stop::Memory);
        };
        let Ok(monitor) = Monitor::new(alloc, watched, rule) else {
            return Err(Stop::Memory);
        };
        let Ok(rows) = row_count(alloc) else {
            return Err(Stop::Memory);
        };
        out.write_line(b"event,tick,task,job,how\n")?;
        Ok(Live {
            alloc,
            set: named,
            monitor,
            out,
            rows,
            ticks: 0,
            stop: None,
        })
    }

    /// Why it stopped. If it has not, the text of all rows was written.
    pub fn stop(&self) -> Option<Stop>
        ensures value { result ≡ self.now.stop }
        ensures text { result ≡ None → IfSome self.now.written (λ bytes. bytes ≡ rows_text self.now.set self.now.rows) }
    {
        self.stop
    }

    /// The monitor. If this recorder has not stopped, the monitor has seen all rows.
    pub fn monitor(&self) -> &Monitor
        ensures set { result.now.set.tasks ≡ self.now.set }
        ensures rule { result.now.rule ≡ self.now.rule }
        ensures rows { self.now.stop ≡ None → Watches self.now.rows result.now }
    {
        &self.monitor
    }

    /// The object to which the lines were written.
    pub fn into_lines(self) -> W
        ensures { W.written result ≡ self.written }
    {
        let Live {
            alloc: _,
            set: _,
            monitor: _,
            out,
            rows: _,
            ticks: _,
            stop: _,
        } = self;
        out
    }
}

impl<W: Lines> Recorder for Live<W> {
    ghost rows = { λ live. live.rows };

    ghost capacity = { λ _. 2 ^ 62 };

    ghost most = { 2 ^ 62 };

    ghost is_for = { λ live set rule. (live.set ≡ set) × (live.rule ≡ rule) };

    fn add(&mut self, row: Row) {
        self.stop = hand_on(
            self.stop,
            self.alloc,
            &self.set,
            &mut self.monitor,
            &mut self.out,
            self.ticks,
            row,
        );
        self.ticks = ticks_after(self.ticks, row);
        self.rows.add(row);
    }

    fn count(&self) -> usize {
        self.rows.count()
    }
}

/// Schedules the set under the rule until the machine is switched off, and judges and writes each row as it happens. The
/// trace ends with the last tick before the machine is off.
pub fn run_live<M: Machine, W: Lines>(
    alloc: Global,
    set: &TaskSet,
    rule: Rule,
    machine: &mut M,
    out: W,
) -> Result<Live<W>, Stop>
    requires fits { Fits rule }
    requires holds { Holds set.now.tasks rule }
    requires empty { IfSome (W.written out) (λ bytes. bytes ≡ []) }
    ensures trace { IfOk result (IsLegalTrace set.now.tasks rule) }
    ensures off { IfOk result (λ live. M.is_off_before machine.new (ticks live.rows)) }
{
    let tasks = set.len();
    let live = Live::new(alloc, set, rule, out)?;
    let Ok(copy) = set.copy(alloc) else {
        return Err(Stop::Memory);
    };
    // A set has at most 128 tasks, so each boundary has at most 128 releases and one tick.
    let Ok(mut core) = Core::with_recorder(alloc, copy, rule, 129 << 54, live) else {
        return Err(Stop::Memory);
    };
    for _tick in 0..MOST_TICKS {
        if machine.is_off(core.ticks()) {
            return finished(core);
        }
        release_due(&mut core, machine, tasks);
        give_tick(&mut core, machine);
        if let Some(stop) = core.recorder().stop() {
            return Err(stop);
        }
    }
    Err(Stop::Full)
}

/// Ends a live schedule. Whatever the calls of its core were, all rows were judged and written, unless it stopped.
pub fn finished<W: Lines>(core: Core<Live<W>>) -> Result<Live<W>, Stop>
    ensures rows { IfOk result (λ live. live.rows ≡ core.rows) }
    ensures trace { IfOk result (IsLegalTrace core.set core.rule) }
{
    let _legal = core.recorder();
    let live = core.into_recorder();
    match live.stop() {
        Some(stop) => Err(stop),
        None => Ok(live),
    }
}

// Hands a row on, unless the schedule stopped before.
fn hand_on<W: Lines>(
    stop: Option<Stop>,
    alloc: Global,
    set: &TaskSet,
    monitor: &mut Monitor,
    out: &mut W,
    tick: u64,
    row: Row,
) -> Option<Stop>
    ensures before { result ≡ None → stop ≡ None }
    ensures set { monitor.new.set ≡ monitor.old.set }
    ensures rule { monitor.new.rule ≡ monitor.old.rule }
    ensures watched { result ≡ None → (h : List Row) → Watches h monitor.old → Watches (row ∷ h) monitor.new }
    ensures line { result ≡ None → W.written out.new ≡ with_line (W.written out.old) (row_line set.now.tasks tick row) }
{
    match stop {
        Some(stop) => Some(stop),
        None => observe_and_write(alloc, set, monitor, out, tick, row).err(),
    }
}

// Hands a row on: first to the monitor, and then as a line.
fn observe_and_write<W: Lines>(
    alloc: Global,
    set: &TaskSet,
    monitor: &mut Monitor,
    out: &mut W,
    tick: u64,
    row: Row,
) -> Result<(), Stop>
    ensures set { monitor.new.set ≡ monitor.old.set }
    ensures rule { monitor.new.rule ≡ monitor.old.rule }
    ensures watched { OnOk result ((h : List Row) → Watches h monitor.old → Watches (row ∷ h) monitor.new) }
    ensures line { OnOk result (W.written out.new ≡ with_line (W.written out.old) (row_line set.now.tasks tick row)) }
{
    let Ok(_unfit) = monitor.observe(alloc, run_of(row)) else {
        return Err(Stop::Judge);
    };
    let Ok(line) = line_of(alloc, set, tick, row) else {
        return Err(Stop::Memory);
    };
    out.write_line(&line)
}

// The ticks of rows and one row more.
fn ticks_after(before: u64, row: Row) -> u64
    requires { before < 2 ^ 63 }
    ensures { (h : List Row) → before ≡ ticks h → result ≡ ticks (row ∷ h) }
{
    match row {
        Row::Release { .. } => before,
        Row::Tick { .. } | Row::Idle => before + 1,
    }
}

fn run_of(row: Row) -> Run
    ensures { rows_of result ≡ row ∷ [] }
{
    match row {
        Row::Release { job, kept } => Run::Release { job, kept },
        Row::Tick { job, how } => Run::Ticks {
            job,
            how,
            length: 1,
        },
        Row::Idle => Run::Idles { length: 1 },
    }
}
