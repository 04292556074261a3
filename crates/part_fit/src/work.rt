//! The work of each processor.
ghost use Rattle.std.specs.Prelude.{◌≡◌, ◌≤◌, IfOk, length};
ghost use Rattle.mc_model.specs.Work.{IsWork};
ghost use Rattle.part_fit.specs.Parts.{part_of};
ghost use Rattle.part_fit.specs.PartWork.{part_rows};
ghost use Rattle.part_fit.specs.Numbering as spec;

use crate::parts::{Parts, part};
use mc_model::WorkRow;
use mc_task::{Memory, TaskNo, TaskSet};
use std::alloc::{AllocError, Global};
use work_file::Work;

/// The rows of work of the tasks on a processor, in order and with the tasks' numbers there: a list of work for these
/// tasks. Fails if an allocation fails.
pub fn part_work(
    alloc: Global,
    set: &TaskSet,
    parts: &Parts,
    processor: u32,
    work: &Work,
) -> Result<Work, Memory>
    requires parts { length parts.now ≡ length set.now.tasks }
    requires work { IsWork set.now.tasks work.now }
    requires some { 1 ≤ length (part_of set.now.tasks parts.now processor) }
    ensures rows { IfOk result (λ own. own ≡ part_rows processor parts.now work.now) }
    ensures work { IfOk result (IsWork (part_of set.now.tasks parts.now processor)) }
{
    // There are at most 128 tasks, so `parts` has at most 128 numbers.
    let _is_set = set.len();
    let tasks = part(alloc, set, parts, processor)?.unwrap();
    let rows = rows_on(alloc, &parts.of, processor, work.rows())?;
    Ok(work_of(&tasks, rows))
}

// These rows as a list of work.
fn work_of(set: &TaskSet, rows: Vec<WorkRow>) -> Work
    requires work { IsWork set.now.tasks rows.items }
    requires few { length rows.items ≤ 1000000 }
    ensures { result ≡ rows.items }
{
    // The tasks are valid, so `Work::new` takes each list of work of at most 1,000,000 rows.
    let _is_set = set.len();
    match Work::new(set, rows) {
        Ok(work) => work,
        Err(_) => unreachable!(),
    }
}

fn rows_on(
    alloc: Global,
    of: &[u32],
    processor: u32,
    rows: &[WorkRow],
) -> Result<Vec<WorkRow>, AllocError>
    requires { length of.now ≤ 128 }
    ensures { IfOk result (λ own. own.items ≡ part_rows processor of.now rows.now) }
{
    let numbers = numbers_on(alloc, of, processor)?;
    let mut own = Vec::new(alloc);
    for row in rows {
        if let Some(number) = number_in(&numbers, row.task) {
            own.push(WorkRow {
                task: TaskNo(number),
                ..*row
            })?;
        }
    }
    Ok(own)
}

// For each task, its number on the processor, if it is on it.
fn numbers_on(alloc: Global, of: &[u32], processor: u32) -> Result<Vec<Option<u32>>, AllocError>
    requires { length of.now ≤ 128 }
    ensures { IfOk result (λ numbers. numbers.items ≡ spec.numbers_there processor of.now (length of.now)) }
{
    let mut numbers = Vec::new(alloc);
    let mut last = 0;
    for i in 0..of.len() {
        if of[i] == processor {
            last += 1;
            numbers.push(Some(last))?;
        } else {
            numbers.push(None)?;
        }
    }
    Ok(numbers)
}

fn number_in(numbers: &[Option<u32>], task: TaskNo) -> Option<u32>
    ensures { result ≡ spec.number_in numbers.now task.0 }
{
    if task.0 == 0 {
        return None;
    }
    match numbers.get((task.0 - 1) as usize) {
        Some(number) => *number,
        None => None,
    }
}
