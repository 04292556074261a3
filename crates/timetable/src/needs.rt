//! The need of each task's latest job.
ghost use Rattle.std.specs.Prelude.{◌≡◌, ◌≤◌, ◌+◌, ℕ, List, Some, slice_get};
ghost use Rattle.mc_model.specs.declared.work.WorkRow.{WorkRow};
ghost use Rattle.timetable.specs.Needs.{latest_need, Tracks};

use mc_model::WorkRow;
use mc_task::TaskNo;

// At index k - 1, the need of task number k's latest row among those that were taken; 0 before its first. A task's
// pending job is always its latest, since no deadline is missed, so a tick needs no search in the work.
#[derive(Debug, Drop)]
pub struct Needs {
    needs: [u32; 128],
}

impl Needs {
    // No row was taken.
    pub fn new() -> Needs
        ensures { (work : List WorkRow) → Tracks work 0 result }
    {
        Needs { needs: [0; 128] }
    }

    // Notes that the row is taken.
    pub fn note(&mut self, row: WorkRow)
        requires first { 1 ≤ row.task.0 }
        requires last { row.task.0 ≤ 128 }
        ensures { (work : List WorkRow) (taken : ℕ) → Tracks work taken self.old → slice_get work taken ≡ Some row → Tracks work (taken + 1) self.new }
    {
        self.needs[row.task.0 as usize - 1] = row.need;
    }

    // The need of the task's latest job.
    pub fn of(&self, task: TaskNo) -> u32
        requires first { 1 ≤ task.0 }
        requires last { task.0 ≤ 128 }
        ensures { (work : List WorkRow) (taken : ℕ) → Tracks work taken self.now → result ≡ latest_need work taken task.0 }
    {
        self.needs[task.0 as usize - 1]
    }
}
