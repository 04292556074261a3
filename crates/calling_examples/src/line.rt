//! A row as a line of a trace, in version 1.
ghost use Rattle.std.specs.Prelude.{◌≡◌, ◌++◌, IfOk, OnOk, codes, decimal};
ghost use Rattle.mc_task.specs.TaskSet.{task_at, name_in};
ghost use Rattle.calling_examples.specs.Live.{fields, row_line};

use itoa::Buffer;
use mc_model::Row;
use mc_task::{JobId, TaskSet};
use std::alloc::{AllocError, Global};
use trace_format::{how_word, kept_word};

/// The line of a row after `tick` ticks, with its line feed.
pub fn line_of(alloc: Global, set: &TaskSet, tick: u64, row: Row) -> Result<Vec<u8>, AllocError>
    ensures { IfOk result (λ line. line.items ≡ row_line set.now.tasks tick row) }
{
    let mut line = Vec::new(alloc);
    push_row(&mut line, set, tick, row)?;
    Ok(line)
}

#[tactic(auto, unfolding(crate::specs::Live::row_line))]
fn push_row(line: &mut Vec<u8>, set: &TaskSet, tick: u64, row: Row) -> Result<(), AllocError>
    ensures { OnOk result (line.new.items ≡ line.old.items ++ row_line set.now.tasks tick row) }
{
    match row {
        Row::Release { job, kept } => push_job(line, "release", tick, set, job, kept_word(kept)),
        Row::Tick { job, how } => push_job(line, "tick", tick, set, job, how_word(how)),
        Row::Idle => push_fields(line, "idle", tick, b"", "", ""),
    }
}

fn push_job(
    line: &mut Vec<u8>,
    event: &str,
    tick: u64,
    set: &TaskSet,
    job: JobId,
    how: &str,
) -> Result<(), AllocError>
    ensures { OnOk result (line.new.items ≡ line.old.items
        ++ fields event.now (decimal tick) (name_in (task_at set.now.tasks job.task.0)) (decimal job.count) how.now) }
{
    let mut count = Buffer::new();
    let count = count.format(job.count);
    match set.get(job.task) {
        Some(task) => push_fields(line, event, tick, task.name.bytes(), count, how),
        None => push_fields(line, event, tick, b"", count, how),
    }
}

fn push_fields(
    line: &mut Vec<u8>,
    event: &str,
    tick: u64,
    task: &[u8],
    job: &str,
    how: &str,
) -> Result<(), AllocError>
    ensures { OnOk result (line.new.items ≡ line.old.items ++ fields event.now (decimal tick) task.now job.now how.now) }
{
    let mut buffer = Buffer::new();
    push_field(line, event.as_bytes())?;
    push_field(line, buffer.format(tick).as_bytes())?;
    push_field(line, task)?;
    push_field(line, job.as_bytes())?;
    line.extend_from_slice(how.as_bytes())?;
    line.push(b'\n')?;
    Ok(())
}

fn push_field(line: &mut Vec<u8>, field: &[u8]) -> Result<(), AllocError>
    ensures { OnOk result (line.new.items ≡ line.old.items ++ (field.now ++ codes ",")) }
{
    line.extend_from_slice(field)?;
    line.push(b',')?;
    Ok(())
}
