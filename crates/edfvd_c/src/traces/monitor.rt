//! A monitor that a caller in C feeds with rows.
ghost use Rattle.std.specs.Prelude.{◌≡◌, ◌≢◌, ◌⊎◌, Some, None, IsSome, IfOk, IfErr, MatchOption};
ghost use Rattle.edfvd_c.specs.Handle.{monitor_of, Opens};
ghost use Rattle.edfvd_c.specs.Traces.Judged.{HaveNoRule};
ghost use Rattle.edfvd_c.specs.Traces.Monitor as spec;
ghost use Rattle.edfvd_c.specs.Status.{OK, CLOSED, OPEN};

use crate::handle::{Handle, Held};
use crate::row::{CRow, row_of};
use crate::sets::{CTask, NoSet, OUT_OF_MEMORY};
use crate::status;
use crate::traces::judged::{CVerdict, UNJUDGED, in_numbers, set_under_rule, why_number};
use mc_model::{Row, Run};
use std::alloc::Global;
use trace_judge::{Monitor, ObserveFault, Turned, Unfit};

/// The first row so far that does not fit: which rule it breaks, and its number, from 1. Both are 0 if each row fits.
#[repr(C)]
#[derive(Clone, Copy)]
pub struct CUnfit {
    pub why: u32,
    pub place: u64,
}

/// What a monitor has seen: how many rows have fitted, and whether each has; and the clock, the mode and the jobs after those
/// that have.
#[repr(C)]
#[derive(Clone, Copy)]
pub struct CWatch {
    pub rows: u64,
    pub ticks: u64,
    pub pending: u64,
    pub legal: u32,
    pub high_mode: u32,
}

/// A job that turned late, and its deadline in ticks.
#[repr(C)]
#[derive(Clone, Copy)]
pub struct CLate {
    pub task: u32,
    pub count: u32,
    pub deadline: u64,
}

const NO_WATCH: CWatch = CWatch {
    rows: 0,
    ticks: 0,
    pending: 0,
    legal: 0,
    high_mode: 0,
};

/// Opens a monitor of the tasks under the rule of the published test if `p` and `q` are 0, and otherwise under EDF-VD with the
/// scale `p/q`, which need not hold.
#[unsafe(no_mangle)]
pub extern "C" fn edfvd_raw_monitor_open(
    alloc: Global,
    monitor: &mut Handle,
    given: &[CTask],
    p: u64,
    q: u64,
    task: &mut u32,
) -> u32
    ensures opens { Opens monitor.old.block.held monitor.new.block.held result (spec.IsMonitorOpening given.now p q) }
    ensures no_rule { result ≢ OK → result ≢ OPEN → HaveNoRule given.now p q result task.new }
    ensures task { (result ≡ OK) ⊎ (result ≡ OPEN) → task.new ≡ 0 }
{
    *task = 0;
    if monitor.is_open() {
        return status::OPEN;
    }
    match opened(alloc, given, p, q) {
        Ok(held) => {
            monitor.put(held);
            status::OK
        }
        Err(no) => {
            *task = no.task;
            no.status
        }
    }
}

fn opened(alloc: Global, given: &[CTask], p: u64, q: u64) -> Result<Box<Held>, NoSet>
    ensures made { IfOk result (λ made. spec.IsMonitorOpening given.now p q made.value) }
    ensures no_rule { IfErr result (λ no. HaveNoRule given.now p q no.status no.task) }
    ensures status { IfErr result (λ no. (no.status ≢ OK) × (no.status ≢ OPEN)) }
{
    let (set, rule) = set_under_rule(alloc, given, p, q)?;
    let Ok(monitor) = Monitor::new(alloc, set, rule) else {
        return Err(OUT_OF_MEMORY);
    };
    match Box::new(alloc, Held::Monitor(monitor)) {
        Ok(held) => Ok(held),
        Err(_) => Err(OUT_OF_MEMORY),
    }
}

/// Closes the monitor, and frees what it took.
#[unsafe(no_mangle)]
pub extern "C" fn edfvd_raw_monitor_close(alloc: Global, monitor: &mut Handle) -> u32
    ensures closed { monitor_of monitor.new.block.held ≡ None }
    ensures emptied { IsSome (monitor_of monitor.old.block.held) → monitor.new.block.held ≡ None }
    ensures other { monitor_of monitor.old.block.held ≡ None → monitor.new.block.held ≡ monitor.old.block.held }
    ensures status { MatchOption (monitor_of monitor.old.block.held) (result ≡ CLOSED) (λ w. result ≡ OK) }
{
    let Some(held) = monitor.take(alloc) else {
        return status::CLOSED;
    };
    if let Held::Monitor(_) = &*held {
        return status::OK;
    }
    monitor.put(held);
    status::CLOSED
}

/// Takes this many of the row, and finds the first row so far that does not fit.
#[unsafe(no_mangle)]
pub extern "C" fn edfvd_raw_monitor_observe(
    alloc: Global,
    monitor: &mut Handle,
    row: &CRow,
    length: u32,
    unfit: &mut CUnfit,
) -> u32
    ensures observes { spec.Observes row.now length (monitor_of monitor.old.block.held) (monitor_of monitor.new.block.held) result unfit.new }
    ensures other { monitor_of monitor.old.block.held ≡ None → monitor.new.block.held ≡ monitor.old.block.held }
{
    *unfit = unfit_row(None);
    let Some(held) = monitor.held() else {
        return status::CLOSED;
    };
    let (ended, found) = match held {
        Held::Monitor(watching) => observed(alloc, watching, *row, length),
        _ => (status::CLOSED, unfit_row(None)),
    };
    *unfit = found;
    ended
}

fn observed(alloc: Global, monitor: &mut Monitor, row: CRow, length: u32) -> (u32, CUnfit)
    ensures { spec.Observed row length monitor.old (Some monitor.new) result.0 result.1 }
{
    let Some(run) = run_in(row, length) else {
        return (status::ARGUMENT, unfit_row(None));
    };
    match monitor.observe(alloc, run) {
        Ok(unfit) => (status::OK, unfit_row(unfit)),
        Err(fault) => (fault_status(fault), unfit_row(None)),
    }
}

fn fault_status(fault: ObserveFault) -> u32
    ensures { result ≡ spec.fault_status fault }
{
    match fault {
        ObserveFault::Memory => status::MEMORY,
        ObserveFault::UnknownTask => status::NO_TASK,
        ObserveFault::Full => status::FULL,
        ObserveFault::NotARun => status::ARGUMENT,
    }
}

fn unfit_row(unfit: Option<Unfit>) -> CUnfit
    ensures { result ≡ spec.unfit_row unfit }
{
    match unfit {
        Some(unfit) => CUnfit {
            why: why_number(unfit.why),
            place: unfit.place,
        },
        None => CUnfit { why: 0, place: 0 },
    }
}

fn run_in(row: CRow, length: u32) -> Option<Run>
    ensures { result ≡ spec.run_in row length }
{
    match row_of(row)? {
        Row::Release { job, kept } if length == 1 => Some(Run::Release { job, kept }),
        Row::Release { .. } => None,
        Row::Tick { job, how } => Some(Run::Ticks { job, how, length }),
        Row::Idle => Some(Run::Idles { length }),
    }
}

/// Finds the first row that would not fit if this many of the row came next. The monitor does not take them.
#[unsafe(no_mangle)]
pub extern "C" fn edfvd_raw_monitor_would_fit(
    monitor: &mut Handle,
    row: &CRow,
    length: u32,
    unfit: &mut CUnfit,
) -> u32
    ensures same { monitor.new.block.held ≡ monitor.old.block.held }
    ensures found { MatchOption (monitor_of monitor.old.block.held) ((result ≡ CLOSED) × (unfit.new ≡ spec.unfit_row None)) (λ w. spec.WouldFind row.now length w result unfit.new) }
{
    *unfit = unfit_row(None);
    let Some(held) = monitor.held() else {
        return status::CLOSED;
    };
    let (ended, found) = match &*held {
        Held::Monitor(watching) => would_find(watching, *row, length),
        _ => (status::CLOSED, unfit_row(None)),
    };
    *unfit = found;
    ended
}

fn would_find(monitor: &Monitor, row: CRow, length: u32) -> (u32, CUnfit)
    ensures { spec.WouldFind row length monitor.now result.0 result.1 }
{
    let Some(run) = run_in(row, length) else {
        return (status::ARGUMENT, unfit_row(None));
    };
    match monitor.would_fit(run) {
        Ok(unfit) => (status::OK, unfit_row(unfit)),
        Err(fault) => (fault_status(fault), unfit_row(None)),
    }
}

/// Stores the jobs that turned late after this many ticks, in the order of their deadlines, and their number. If the array is
/// too short for them, the call returns SHORT_BUFFER.
#[unsafe(no_mangle)]
pub extern "C" fn edfvd_raw_monitor_late(
    alloc: Global,
    monitor: &mut Handle,
    since: u64,
    jobs: &mut [CLate],
    many: &mut u64,
) -> u32
    ensures same { monitor.new.block.held ≡ monitor.old.block.held }
    ensures stored { MatchOption (monitor_of monitor.old.block.held) ((result ≡ CLOSED) × (many.new ≡ 0) × (jobs.new ≡ jobs.old)) (λ w. spec.StoresLate w since result many.new jobs.old jobs.new) }
{
    *many = 0;
    let Some(held) = monitor.held() else {
        return status::CLOSED;
    };
    let (ended, number) = match held {
        Held::Monitor(watching) => store_late(alloc, watching, since, jobs),
        _ => (status::CLOSED, 0),
    };
    *many = number;
    ended
}

fn store_late(alloc: Global, monitor: &mut Monitor, since: u64, jobs: &mut [CLate]) -> (u32, u64)
    ensures same { monitor.new ≡ monitor.old }
    ensures stored { spec.StoresLate monitor.old since result.0 result.1 jobs.old jobs.new }
{
    let Ok(turned) = monitor.turned_late(alloc, since) else {
        return (status::MEMORY, 0);
    };
    let many = turned.len() as u64;
    if jobs.len() < turned.len() {
        return (status::SHORT_BUFFER, many);
    }
    for place in 0..turned.len() {
        jobs[place] = late_job(turned[place]);
    }
    (status::OK, many)
}

fn late_job(turned: Turned) -> CLate
    ensures { result ≡ spec.late_job turned }
{
    CLate {
        task: turned.job.task.0,
        count: turned.job.count,
        deadline: turned.deadline,
    }
}

/// Stores the verdict on all rows that the monitor has seen.
#[unsafe(no_mangle)]
pub extern "C" fn edfvd_raw_monitor_verdict(monitor: &mut Handle, judged: &mut CVerdict) -> u32
    ensures same { monitor.new.block.held ≡ monitor.old.block.held }
    ensures verdict { MatchOption (monitor_of monitor.old.block.held) ((result ≡ CLOSED) × (judged.new ≡ spec.no_verdict)) (λ w. (result ≡ OK) × spec.IsVerdict w judged.new) }
{
    *judged = UNJUDGED;
    let Some(held) = monitor.held() else {
        return status::CLOSED;
    };
    let (ended, found) = match &*held {
        Held::Monitor(watching) => (status::OK, in_numbers(watching.verdict())),
        _ => (status::CLOSED, UNJUDGED),
    };
    *judged = found;
    ended
}

/// Stores the monitor's clock, mode and counts.
#[unsafe(no_mangle)]
pub extern "C" fn edfvd_raw_monitor_look(monitor: &mut Handle, watch: &mut CWatch) -> u32
    ensures same { monitor.new.block.held ≡ monitor.old.block.held }
    ensures watch { MatchOption (monitor_of monitor.old.block.held) ((result ≡ CLOSED) × (watch.new ≡ spec.no_watch)) (λ w. (result ≡ OK) × spec.IsWatch w watch.new) }
{
    *watch = NO_WATCH;
    let Some(held) = monitor.held() else {
        return status::CLOSED;
    };
    let (ended, found) = match &*held {
        Held::Monitor(watching) => (status::OK, look(watching)),
        _ => (status::CLOSED, NO_WATCH),
    };
    *watch = found;
    ended
}

fn look(monitor: &Monitor) -> CWatch
    ensures { spec.IsWatch monitor.now result }
{
    CWatch {
        rows: monitor.seen(),
        ticks: monitor.ticks(),
        pending: monitor.pending(),
        legal: if monitor.is_legal() { 1 } else { 0 },
        high_mode: if monitor.high_mode() { 1 } else { 0 },
    }
}
