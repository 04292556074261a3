//! What is read of a scheduler, in numbers.
ghost use Rattle.std.specs.Prelude.{◌≡◌};
ghost use Rattle.edfvd_c.specs.Scheduler.Look as spec;

use crate::row::{count_number, task_number};
use mode_core::Core;
use row_history::Recorder;

/// A scheduler's numbers. A task and a count are 0 where there is no such job.
#[repr(C)]
#[derive(Clone, Copy)]
pub struct CLook {
    pub ticks: u64,
    pub rows: u64,
    pub high_mode: u32,
    pub out_task: u32,
    pub out_count: u32,
    pub chosen_task: u32,
    pub chosen_count: u32,
}

pub const NO_LOOK: CLook = CLook {
    ticks: 0,
    rows: 0,
    high_mode: 0,
    out_task: 0,
    out_count: 0,
    chosen_task: 0,
    chosen_count: 0,
};

/// A scheduler's clock, mode, jobs and number of rows.
pub fn look_at<R: Recorder>(core: &Core<R>) -> CLook
    ensures { result ≡ spec.look core.now }
{
    let (out, chosen) = (core.out(), core.chosen());
    CLook {
        ticks: core.ticks(),
        rows: core.recorder().count() as u64,
        high_mode: if core.high_mode() { 1 } else { 0 },
        out_task: task_number(out),
        out_count: count_number(out),
        chosen_task: task_number(chosen),
        chosen_count: count_number(chosen),
    }
}
