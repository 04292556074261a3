//! A row and its job, in numbers.
ghost use Rattle.std.specs.Prelude.{◌≡◌, IfSome};
ghost use Rattle.edfvd_c.specs.Row as spec;

use crate::event_numbers::{DONE, DROPPED, IDLE, KEPT, MORE, OVER, STOP};
use mc_model::{How, Row};
use mc_task::{JobId, TaskNo};

/// A row: a release kept or dropped, a tick with more to do, done, stopped or over, or an idle tick.
#[repr(C)]
#[derive(Clone, Copy)]
pub struct CRow {
    pub event: u32,
    pub task: u32,
    pub count: u32,
}

pub const NO_ROW: CRow = CRow {
    event: 0,
    task: 0,
    count: 0,
};

/// The number of the job's task, or 0 for no job.
pub fn task_number(job: Option<JobId>) -> u32
    ensures { result ≡ spec.task_number job }
{
    match job {
        Some(job) => job.task.0,
        None => 0,
    }
}

/// The job's count, or 0 for no job.
pub fn count_number(job: Option<JobId>) -> u32
    ensures { result ≡ spec.count_number job }
{
    match job {
        Some(job) => job.count,
        None => 0,
    }
}

/// How a tick ended, in numbers.
pub fn how_number(how: How) -> u32
    ensures { result ≡ spec.how_number how }
{
    match how {
        How::More => MORE,
        How::Done => DONE,
        How::Stop => STOP,
        How::Over => OVER,
    }
}

/// The row in numbers.
pub fn row_numbers(row: Row) -> CRow
    ensures { result ≡ spec.row_numbers row }
{
    match row {
        Row::Release { job, kept } => CRow {
            event: if kept { KEPT } else { DROPPED },
            task: job.task.0,
            count: job.count,
        },
        Row::Tick { job, how } => CRow {
            event: how_number(how),
            task: job.task.0,
            count: job.count,
        },
        Row::Idle => CRow {
            event: IDLE,
            task: 0,
            count: 0,
        },
    }
}

/// The row that these numbers stand for, if they are those of a row.
pub fn row_of(given: CRow) -> Option<Row>
    ensures row { result ≡ spec.row_in given }
    ensures numbers { IfSome result (λ row. spec.row_numbers row ≡ given) }
{
    let job = JobId {
        task: TaskNo(given.task),
        count: given.count,
    };
    match given.event {
        KEPT => Some(Row::Release { job, kept: true }),
        DROPPED => Some(Row::Release { job, kept: false }),
        MORE => Some(Row::Tick {
            job,
            how: How::More,
        }),
        DONE => Some(Row::Tick {
            job,
            how: How::Done,
        }),
        STOP => Some(Row::Tick {
            job,
            how: How::Stop,
        }),
        OVER => Some(Row::Tick {
            job,
            how: How::Over,
        }),
        IDLE if given.task == 0 && given.count == 0 => Some(Row::Idle),
        _ => None,
    }
}
