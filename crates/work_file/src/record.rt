//! A record of a work file as a row.
ghost use Rattle.std.specs.Prelude.{◌≡◌, ◌<◌, ◌++◌, ◌∷◌, [], IfOk, OnOk, IfSome, length, option_map};
ghost use Rattle.csv.specs.Records.{fields_of};
ghost use Rattle.mc_task.specs.TaskSet.{IsIn};
ghost use Rattle.mc_task.specs.Faults.{named};
ghost use Rattle.mc_model.specs.Work.{IsWork};
ghost use Rattle.work_file.specs.WorkFile as file;
ghost use Rattle.work_file.specs.Tracks.{Tracks};

use crate::WorkCause;
use crate::next::NextReleases;
use csv::ByteRecord;
use csv_records::{field, is};
use mc_model::WorkRow;
use mc_task::{TaskNo, TaskSet};
use numeral::number;

// Whether the record is `task,release,need`.
#[tactic(auto, using(csv_records::proofs::WordLemmas::words_by_column))]
pub fn is_header(fields: &ByteRecord) -> bool
    ensures { result ≡ file.is_header (fields_of fields.now) }
{
    fields.len() == 3
        && (is(field(fields, 0), "task")
            && (is(field(fields, 1), "release") && is(field(fields, 2), "need")))
}

// The row of a record after the rows before it, or why it is refused. A row returned counts as one of the rows from
// then on.
#[tactic(auto, unfolding(crate::specs::WorkFile::record_row))]
pub fn record_row(
    next: &mut NextReleases,
    set: &TaskSet,
    before: &[WorkRow],
    fields: &ByteRecord,
) -> Result<WorkRow, WorkCause>
    requires tracks { Tracks set.now.tasks before.now next.old }
    ensures row { result ≡ file.record_row set.now.tasks before.now (fields_of fields.now) }
    ensures tracks { IfOk result (λ row. Tracks set.now.tasks (before.now ++ row ∷ []) next.new) }
    ensures work { IsWork set.now.tasks before.now → IfOk result (λ row. IsWork set.now.tasks (before.now ++ row ∷ [])) }
    ensures few { OnOk result (length before.now < 1000000) }
{
    if before.len() >= 1_000_000 {
        return Err(WorkCause::TooMany);
    }
    if fields.len() != 3 {
        return Err(WorkCause::BadRecord);
    }
    let row = row_of(set, last_task(before), fields)?;
    match next.take(set, before, row) {
        Some(cause) => Err(cause),
        None => Ok(row),
    }
}

// The task of the last row; the first task before any row.
fn last_task(before: &[WorkRow]) -> TaskNo {
    match before.last() {
        Some(row) => row.task,
        None => TaskNo(1),
    }
}

// The task with this name. The task after that of the last row is tried first, and then that of the last row: this
// decides only how fast a task is found.
#[inline(always)]
fn find_likely(set: &TaskSet, name: &[u8], last: TaskNo) -> Option<TaskNo>
    ensures number { option_map (λ task. task.0) result ≡ named name.now set.now.tasks }
    ensures inside { IfSome result (λ task. IsIn set.now.tasks task.0) }
{
    // The names differ, so no other task has the name of the likely one.
    let _is_set = set.len();
    let likely = set.task_after(last);
    if set.is_named(likely, name) {
        return Some(likely);
    }
    set.find_near(name, last)
}

// The row that three fields say, or why they are refused.
fn row_of(set: &TaskSet, last: TaskNo, fields: &ByteRecord) -> Result<WorkRow, WorkCause>
    ensures row { result ≡ file.row_of set.now.tasks (fields_of fields.now) }
    ensures task { IfOk result (λ row. IsIn set.now.tasks row.task.0) }
{
    let Some(task) = find_likely(set, field(fields, 0), last) else {
        return Err(WorkCause::UnknownTask);
    };
    let Some(release) = number(field(fields, 1)) else {
        return Err(WorkCause::BadNumber);
    };
    let Some(need) = number(field(fields, 2)) else {
        return Err(WorkCause::BadNumber);
    };
    Ok(WorkRow {
        task,
        release,
        need,
    })
}
