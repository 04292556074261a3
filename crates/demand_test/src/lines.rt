//! The lines of a counterexample.
ghost use Rattle.std.specs.Prelude.{◌≡◌, ◌+◌, ◌<◌, ◌++◌, ◌∷◌, [], ◌^◌, OnOk, codes, decimal, reverse};
ghost use Rattle.demand_test.specs.DemandSet.{demand_at};
ghost use Rattle.demand_test.specs.Runs.{ticks};
ghost use Rattle.demand_test.specs.CounterText.{name_in, job_text, row_line, lines, late_text};
ghost use Rattle.demand_test.specs.TickLine.{IsLine};

use crate::tick_line::TickLine;
use crate::{DemandSet, EdfRow};
use itoa::Buffer;
use mc_task::JobId;
use std::alloc::{AllocError, Global};

// The lines of all rows.
pub fn push_rows(
    alloc: Global,
    out: &mut Vec<u8>,
    set: &DemandSet,
    rows: &[EdfRow],
) -> Result<(), AllocError>
    ensures { OnOk result (out.new.items ≡ out.old.items ++ lines set.now (reverse rows.now)) }
{
    let mut line = TickLine::new(alloc);
    let mut tick = 0;
    for row in rows {
        push_row(out, &mut line, set, tick, *row)?;
        tick = tick_after(tick, *row);
    }
    Ok(())
}

// The number of the tick after this row.
fn tick_after(tick: u64, row: EdfRow) -> u64
    requires { tick + 1 < 2 ^ 64 }
    ensures { result ≡ tick + ticks (row ∷ []) }
{
    match row {
        EdfRow::Release { .. } => tick,
        EdfRow::Tick { .. } | EdfRow::Idle => tick + 1,
    }
}

// Adds the line of a row.
#[tactic(auto, unfolding(crate::specs::CounterText::row_line))]
fn push_row(
    out: &mut Vec<u8>,
    line: &mut TickLine,
    set: &DemandSet,
    tick: u64,
    row: EdfRow,
) -> Result<(), AllocError>
    requires small { tick + 1 < 2 ^ 64 }
    requires line { IsLine set.now line.old }
    ensures text { OnOk result (out.new.items ≡ out.old.items ++ row_line set.now tick row) }
    ensures line { OnOk result (IsLine set.now line.new) }
{
    match row {
        EdfRow::Release { job } => push_release(out, set, tick, job),
        EdfRow::Tick { job, .. } => line.push(out, set, tick, job),
        EdfRow::Idle => push_idle(out, tick),
    }
}

// Adds the line of a release.
fn push_release(out: &mut Vec<u8>, set: &DemandSet, tick: u64, job: JobId) -> Result<(), AllocError>
    ensures { OnOk result (out.new.items ≡ out.old.items ++ (codes "release" ++ (job_text set.now job ++ (codes " at " ++ (decimal tick ++ codes "\n"))))) }
{
    let mut buffer = Buffer::new();
    out.extend_from_slice(b"release")?;
    push_job(out, set, job)?;
    out.extend_from_slice(b" at ")?;
    out.extend_from_slice(buffer.format(tick).as_bytes())?;
    out.extend_from_slice(b"\n")
}

// Adds the line of an idle tick.
fn push_idle(out: &mut Vec<u8>, tick: u64) -> Result<(), AllocError>
    ensures { OnOk result (out.new.items ≡ out.old.items ++ (codes "idle " ++ (decimal tick ++ codes "\n"))) }
{
    let mut buffer = Buffer::new();
    out.extend_from_slice(b"idle ")?;
    out.extend_from_slice(buffer.format(tick).as_bytes())?;
    out.extend_from_slice(b"\n")
}

// The line of the late job, if there is one.
pub fn push_late(out: &mut Vec<u8>, set: &DemandSet, late: Option<JobId>) -> Result<(), AllocError>
    ensures { OnOk result (out.new.items ≡ out.old.items ++ late_text set.now late) }
{
    let Some(job) = late else {
        return Ok(());
    };
    out.extend_from_slice(b"late")?;
    push_job(out, set, job)?;
    out.extend_from_slice(b"\n")?;
    Ok(())
}

// Adds a space, the name of the job's task, a space, and the job's number.
pub fn push_job(out: &mut Vec<u8>, set: &DemandSet, job: JobId) -> Result<(), AllocError>
    ensures { OnOk result (out.new.items ≡ out.old.items ++ job_text set.now job) }
{
    let mut buffer = Buffer::new();
    out.extend_from_slice(b" ")?;
    push_name(out, set, job)?;
    out.extend_from_slice(b" ")?;
    out.extend_from_slice(buffer.format(job.count).as_bytes())?;
    Ok(())
}

fn push_name(out: &mut Vec<u8>, set: &DemandSet, job: JobId) -> Result<(), AllocError>
    ensures { OnOk result (out.new.items ≡ out.old.items ++ name_in (demand_at set.now job.task.0)) }
{
    match set.get(job.task) {
        Some(task) => out.extend_from_slice(task.name.bytes()),
        None => Ok(()),
    }
}
