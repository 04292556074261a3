//! Lists of work.
ghost use Rattle.std.specs.Prelude.{◌≡◌, IfOk, map};
ghost use Rattle.worked_sets.specs.Lines.{work_of};

use mc_model::WorkRow;
use mc_task::TaskNo;
use std::alloc::{AllocError, Global};

/// A job's task, release and need, in ticks.
pub type Job = (u32, u32, u32);

/// Work of `CONTROL` with an overrun, and with a low job after the return to low mode.
pub const OVERRUN_WORK: [Job; 3] = [(1, 0, 6), (2, 0, 5), (2, 10, 5)];

/// Work of `CONTROL` with a low release in high mode.
pub const HELD_RELEASE_WORK: [Job; 2] = [(1, 0, 6), (2, 2, 5)];

/// Work of `TAP_AND_ARM` with an overrun, and with two low releases in high mode.
pub const TAP_AND_ARM_WORK: [Job; 4] = [(1, 0, 1), (2, 0, 3), (1, 2, 1), (1, 4, 1)];

/// The row of this job.
pub fn work_row(task: u32, release: u32, need: u32) -> WorkRow
    ensures { result ≡ work_of (task, release, need) }
{
    WorkRow {
        task: TaskNo(task),
        release,
        need,
    }
}

/// The rows of these jobs, in order.
pub fn work_rows(alloc: Global, jobs: &[Job]) -> Result<Vec<WorkRow>, AllocError>
    ensures { IfOk result (λ rows. rows.items ≡ map work_of jobs.now) }
{
    let mut rows = Vec::new(alloc);
    for (task, release, need) in jobs {
        rows.push(work_row(*task, *release, *need))?;
    }
    Ok(rows)
}
