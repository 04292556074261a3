//! Floors with a plan and without one.
ghost use Rattle.std.specs.Prelude.{◌≡◌, ◌≤◌, ◌<◌, ◌^◌, [], true, None, IfOk};
ghost use Rattle.timetable.specs.Floor.{is_planned};

use admission::admit;
use load_sum::sum_loads;
use mc_model::WorkRow;
use mc_task::Level::{High, Low};
use mc_task::{Name, Task, TaskSet};
use mode_core::Core;
use std::alloc::Global;
use std::test::Fail;
use timetable::{Floor, Plan};
use work_file::Work;
use worked_sets::{CONTROL, Job, Line, set_of, work_row, work_rows};

/// A floor with no rows, whose plan is these jobs.
pub fn floor(alloc: Global, lines: &[Line], jobs: &[Job], ticks: u32) -> Result<Floor, Fail>
    ensures { IfOk result (λ f. (is_planned f.plan ≡ true) × (f.core.rows ≡ []) × (f.core.out ≡ None)) }
{
    planned(alloc, set_of(alloc, lines)?, work_rows(alloc, jobs)?, ticks)
}

/// A floor with no rows for this many periods: twenty low tasks, and twelve high ones that overrun in every second
/// period, the first among them.
pub fn crowd(alloc: Global, periods: u32, ticks: u32) -> Result<Floor, Fail>
    requires { periods ≤ 1000 }
    ensures { IfOk result (λ f. (is_planned f.plan ≡ true) × (f.core.rows ≡ []) × (f.core.out ≡ None)) }
{
    planned(alloc, crowd_set(alloc)?, crowd_rows(alloc, periods)?, ticks)
}

// Tasks 1 to 20 are low, and 21 to 32 are high.
fn crowd_set(alloc: Global) -> Result<TaskSet, Fail> {
    let mut tasks = Vec::with_capacity(alloc, 32)?;
    for number in 0..32 {
        tasks.push(crowd_task(number).ok_or("a name")?)?;
    }
    Ok(TaskSet::new(tasks)?)
}

fn crowd_task(number: u8) -> Option<Task>
    requires { number < 32 }
{
    let name = [b't', b'0' + number / 10, b'0' + number % 10];
    let (level, high) = if number < 20 { (Low, 1) } else { (High, 4) };
    Some(Task {
        name: Name::new(&name)?,
        level,
        period: 64,
        low: 1,
        high,
    })
}

// A release of each task in each period.
fn crowd_rows(alloc: Global, periods: u32) -> Result<Vec<WorkRow>, Fail>
    requires { periods ≤ 1000 }
{
    let mut rows = Vec::new(alloc);
    for period in 0..periods {
        for number in 1..=32u32 {
            let need = if period % 2 == 0 && number > 20 { 4 } else { 1 };
            rows.push(work_row(number, 64 * period, need))?;
        }
    }
    Ok(rows)
}

// A floor with no rows, of a set that is admitted.
fn planned(alloc: Global, set: TaskSet, rows: Vec<WorkRow>, ticks: u32) -> Result<Floor, Fail>
    ensures { IfOk result (λ f. (is_planned f.plan ≡ true) × (f.core.rows ≡ []) × (f.core.out ≡ None)) }
{
    if ticks == 0 || ticks > 1_000_000 {
        return Err("ticks".into());
    }
    let work = Work::new(&set, rows)?;
    let places = ticks as usize + work.rows().len();
    let core = admitted(alloc, set, places)?;
    let ticks = u64::from(ticks);
    Ok(Floor::new(core, Plan::Rows { work, ticks }))
}

/// A floor without a plan, of the control set, with a capacity of four rows.
pub fn free(alloc: Global) -> Result<Floor, Fail>
    ensures { IfOk result (λ f. (f.core.rows ≡ []) × (f.core.out ≡ None)) }
{
    let core = admitted(alloc, set_of(alloc, &CONTROL)?, 4)?;
    Ok(Floor::new(core, Plan::Free))
}

// A core with no rows and this capacity, of a set that is admitted.
fn admitted(alloc: Global, set: TaskSet, places: usize) -> Result<Core, Fail>
    requires { places < 2 ^ 32 }
    ensures { IfOk result (λ c. (c.rows ≡ []) × (c.out ≡ None) × (c.set ≡ set.tasks) × (c.places ≡ places)) }
{
    let rule = admit(&sum_loads(&set)?).ok_or("not admitted")?;
    Ok(Core::new(alloc, set, rule, places)?)
}
