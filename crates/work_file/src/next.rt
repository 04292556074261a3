//! The first boundary at which each task may be released next.
ghost use Rattle.std.specs.Prelude.{◌≡◌, ◌<◌, ◌+◌, ◌++◌, ◌∷◌, [], IfNone, List};
ghost use Rattle.mc_task.specs.declared.task.Task.{Task};
ghost use Rattle.mc_task.specs.TaskSet.{IsIn, task_at};
ghost use Rattle.mc_model.specs.declared.work.WorkRow.{WorkRow};
ghost use Rattle.mc_model.specs.TaskNumbers.{period_in};
ghost use Rattle.mc_model.specs.Work.{IsWork};
ghost use Rattle.work_file.specs.Rows.{last_release, time_fault};
ghost use Rattle.work_file.specs.Tracks.{Tracks};

use crate::WorkCause;
use mc_model::WorkRow;
use mc_task::{TaskNo, TaskSet};

// At index k - 1, for task number k: 0 before its first row, otherwise its last release plus its period, in ticks.
#[derive(Drop)]
pub struct NextReleases {
    next: [u64; 128],
}

impl NextReleases {
    // Before the first row: each task may be released at 0.
    pub fn new() -> NextReleases
        ensures { (set : List Task) → Tracks set [] result }
    {
        NextReleases { next: [0; 128] }
    }

    // Why the row may not stand after the rows before it. If it may, it counts as one of them from then on.
    pub fn take(&mut self, set: &TaskSet, before: &[WorkRow], row: WorkRow) -> Option<WorkCause>
        requires task { IsIn set.now.tasks row.task.0 }
        requires tracks { Tracks set.now.tasks before.now self.old }
        ensures cause { result ≡ time_fault set.now.tasks before.now row }
        ensures tracks { IfNone result (Tracks set.now.tasks (before.now ++ row ∷ []) self.new) }
        ensures work { IsWork set.now.tasks before.now → IfNone result (IsWork set.now.tasks (before.now ++ row ∷ [])) }
    {
        let fault = self.time_fault(set, before, row);
        if fault.is_none() {
            self.note(set, row);
        }
        fault
    }

    #[tactic(auto, unfolding(crate::specs::Rows::time_fault))]
    fn time_fault(&self, set: &TaskSet, before: &[WorkRow], row: WorkRow) -> Option<WorkCause>
        requires task { IsIn set.now.tasks row.task.0 }
        requires tracks { Tracks set.now.tasks before.now self.now }
        ensures { result ≡ time_fault set.now.tasks before.now row }
    {
        let next = self.next[place_of(set, row.task)];
        if row.need == 0 {
            Some(WorkCause::ZeroNeed)
        } else if row.release < last_release(before) {
            Some(WorkCause::Unsorted)
        } else if (row.release as u64) < next {
            Some(WorkCause::TooSoon { next })
        } else {
            None
        }
    }

    fn note(&mut self, set: &TaskSet, row: WorkRow)
        requires { IsIn set.now.tasks row.task.0 }
        ensures { (before : List WorkRow) → Tracks set.now.tasks before self.old → Tracks set.now.tasks (before ++ row ∷ []) self.new }
    {
        self.next[place_of(set, row.task)] = row.release as u64 + period_of(set, row.task) as u64;
    }
}

fn place_of(set: &TaskSet, task: TaskNo) -> usize
    requires { IsIn set.now.tasks task.0 }
    ensures place { result + 1 ≡ task.0 }
    ensures few { result < 128 }
{
    let _few = set.len();
    task.0 as usize - 1
}

fn period_of(set: &TaskSet, task: TaskNo) -> u32
    ensures { result ≡ period_in (task_at set.now.tasks task.0) }
{
    match set.get(task) {
        Some(task) => task.period,
        None => 0,
    }
}

fn last_release(rows: &[WorkRow]) -> u32
    ensures { result ≡ last_release rows.now }
{
    match rows.last() {
        Some(row) => row.release,
        None => 0,
    }
}
