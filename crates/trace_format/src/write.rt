//! Traces, written.
ghost use Rattle.std.specs.Prelude.{◌≡◌, ◌+◌, ◌++◌, ◌≤◌, All, Ok, IfOk, OnOk, length, decimal, codes};
ghost use Rattle.mc_task.specs.TaskSet.{IsIn, name_in, task_at};
ghost use Rattle.mc_model.specs.Legal.{IsOfSet};
ghost use Rattle.mc_model.specs.Runs.{length_of, AreRuns, IsRunOfSet, pack};
ghost use Rattle.mc_model.specs.TraceText.{how_word, kept_word, run_line, runs_text, trace_text};
ghost use Rattle.trace_format.specs.TraceFile.{trace_file};
ghost use Rattle.trace_format.specs.Writable.{IsWritable};

use crate::line_buffer::LineBuffer;
use crate::packing::split_run;
use mc_model::{How, Row, Run};
use mc_task::{JobId, Memory, TaskSet};
use std::alloc::{AllocError, Global};

/// The runs as the text of a trace in version 2: the header, and a line for each run. Fails with `Memory` if an
/// allocation fails.
pub fn write_trace(alloc: Global, set: &TaskSet, runs: &[Run]) -> Result<Vec<u8>, Memory>
    requires runs { AreRuns runs.now }
    requires tasks { All (IsRunOfSet set.now.tasks) runs.now }
    ensures text { IfOk result (λ text. text.items ≡ runs_text set.now.tasks runs.now) }
    ensures reads_back { IfOk result (λ text. trace_file set.now.tasks text.items ≡ Ok runs.now) }
{
    // The names are valid and differ, so what is written can be read again.
    let _is_set = set.len();
    let mut out = header(alloc)?;
    let mut line = LineBuffer::new();
    let mut tick = 0u32;
    for run in runs {
        push_run(&mut out, &mut line, set, tick, *run)?;
        tick = tick_after(tick, *run);
    }
    Ok(out)
}

/// The rows, the oldest first, as the text of a trace in version 2: the header, and a line for each packed run. The runs
/// are written as they are found, without a list of them. Fails with `Memory` if an allocation fails.
pub fn write_rows(alloc: Global, set: &TaskSet, rows: &[Row]) -> Result<Vec<u8>, Memory>
    requires tasks { All (IsOfSet set.now.tasks) rows.now }
    requires few { length rows.now ≤ 2000000 }
    ensures text { IfOk result (λ text. text.items ≡ trace_text set.now.tasks rows.now) }
    ensures reads_back { IfOk result (λ text. trace_file set.now.tasks text.items ≡ Ok (pack rows.now)) }
{
    // The names are valid and differ, so what is written can be read again.
    let _is_set = set.len();
    let mut out = header(alloc)?;
    let mut line = LineBuffer::new();
    let mut tick = 0u32;
    let mut rest = rows;
    while let Some((run, after)) = split_run(rest) {
        push_run(&mut out, &mut line, set, tick, run)?;
        tick = tick_after(tick, run);
        rest = after;
    }
    Ok(out)
}

// The header alone.
fn header(alloc: Global) -> Result<Vec<u8>, AllocError>
    ensures { IfOk result (λ text. text.items ≡ codes "event,tick,length,task,job,how\n") }
{
    let mut text = Vec::new(alloc);
    text.extend_from_slice(b"event,tick,length,task,job,how\n")?;
    Ok(text)
}

// The number of the tick after this run.
pub fn tick_after(tick: u32, run: Run) -> u32
    requires { tick + length_of run ≤ 100000000 }
    ensures { result ≡ tick + length_of run }
{
    match run {
        Run::Release { .. } => tick,
        Run::Ticks { length, .. } | Run::Idles { length } => tick + length,
    }
}

// Adds the line of a run whose first tick has this number.
#[inline(always)]
fn push_run(
    out: &mut Vec<u8>,
    line: &mut LineBuffer,
    set: &TaskSet,
    tick: u32,
    run: Run,
) -> Result<(), AllocError>
    requires { IsRunOfSet set.now.tasks run }
    ensures line { OnOk result (out.new.items ≡ out.old.items ++ run_line set.now.tasks tick run) }
    ensures writable { IsWritable set.now.tasks run }
{
    put_run(line, set, tick, run);
    out.extend_from_slice(line.text())
}

// Makes the text the line of a run whose first tick has this number.
#[inline(always)]
#[tactic(auto, unfolding(mc_model::specs::TraceText::run_line))]
fn put_run(line: &mut LineBuffer, set: &TaskSet, tick: u32, run: Run)
    requires { IsRunOfSet set.now.tasks run }
    ensures line { line.new ≡ run_line set.now.tasks tick run }
    ensures writable { IsWritable set.now.tasks run }
{
    line.clear();
    match run {
        Run::Release { job, kept } => {
            put_kept(line, kept);
            put_job(line, set, job);
            line.put(b",,");
            line.put_number(tick);
            line.put(b"release,");
        }
        Run::Ticks { job, how, length } => {
            put_how(line, how);
            put_job(line, set, job);
            line.put(b",");
            line.put_number(length);
            line.put(b",");
            line.put_number(tick);
            line.put(b"tick,");
        }
        Run::Idles { length } => {
            line.put(b",,,\n");
            line.put_number(length);
            line.put(b",");
            line.put_number(tick);
            line.put(b"idle,");
        }
    }
}

// Puts the task's name and the job's number before the text, as two fields.
#[inline(always)]
fn put_job(line: &mut LineBuffer, set: &TaskSet, job: JobId)
    requires task { IsIn set.now.tasks job.task.0 }
    requires room { 43 + length line.old ≤ 96 }
    ensures text { line.new ≡ name_in (task_at set.now.tasks job.task.0) ++ (codes "," ++ (decimal job.count ++ line.old)) }
    ensures short { length line.new ≤ 43 + length line.old }
{
    // The task is lent, not copied: a call for each line of a trace.
    let task = &set.as_slice()[job.task.0 as usize - 1];
    line.put_number(job.count);
    line.put(b",");
    line.put(task.name.bytes());
}

// Puts the last field of a release and the end of its line before the text.
#[inline(always)]
fn put_kept(line: &mut LineBuffer, kept: bool)
    requires { 9 + length line.old ≤ 96 }
    ensures text { line.new ≡ codes "," ++ (kept_word kept ++ (codes "\n" ++ line.old)) }
    ensures short { length line.new ≤ 9 + length line.old }
{
    if kept {
        line.put(b",kept\n");
    } else {
        line.put(b",dropped\n");
    }
}

// Puts the last field of a tick and the end of its line before the text.
#[inline(always)]
fn put_how(line: &mut LineBuffer, how: How)
    requires { 6 + length line.old ≤ 96 }
    ensures text { line.new ≡ codes "," ++ (how_word how ++ (codes "\n" ++ line.old)) }
    ensures short { length line.new ≤ 6 + length line.old }
{
    match how {
        How::More => line.put(b",more\n"),
        How::Done => line.put(b",done\n"),
        How::Stop => line.put(b",stop\n"),
        How::Over => line.put(b",over\n"),
    }
}

/// The word of a release that is kept, or that is not.
pub fn kept_word(kept: bool) -> &'static str
    ensures { result.now ≡ kept_word kept }
{
    if kept { "kept" } else { "dropped" }
}

/// The word for how a tick ends.
pub fn how_word(how: How) -> &'static str
    ensures { result.now ≡ how_word how }
{
    match how {
        How::More => "more",
        How::Done => "done",
        How::Stop => "stop",
        How::Over => "over",
    }
}
