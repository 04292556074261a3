//! Floors with a plan and without one, and rows that were worked by hand.
ghost use Rattle.std.specs.Prelude.{◌≡◌, ◌≤◌, ◌<◌, ◌^◌, [], true, None, IfOk};
ghost use Rattle.timetable.specs.Floor.{is_planned};
ghost use Rattle.timetable.specs.declared.plan.Plan.TheVariants.{Free};
ghost use Rattle.task_threads.specs.LivePasses.{live_capacity};

use crate::live_capacity;
use admission::admit;
use load_sum::sum_loads;
use mc_model::How::{Done, More};
use mc_model::Row;
use mc_task::TaskSet;
use mode_core::Core;
use std::alloc::Global;
use std::test::Fail;
use timetable::{Floor, Plan};
use work_file::Work;
use worked_sets::{Job, Line, kept, set_of, tick, work_rows};

/// The rows of ten ticks of a live run of the control set.
pub static LIVE_ROWS: [Row; 12] = [
    kept!(1, 1),
    kept!(2, 1),
    tick!(1, 1, More),
    tick!(1, 1, Done),
    tick!(2, 1, More),
    tick!(2, 1, More),
    tick!(2, 1, More),
    tick!(2, 1, More),
    tick!(2, 1, Done),
    Row::Idle,
    Row::Idle,
    Row::Idle,
];

/// A floor with no rows, whose plan is these jobs.
pub fn floor(alloc: Global, lines: &[Line], jobs: &[Job], ticks: u32) -> Result<Floor, Fail>
    ensures { IfOk result (λ f. (is_planned f.plan ≡ true) × (f.core.rows ≡ []) × (f.core.out ≡ None)) }
{
    if ticks == 0 || ticks > 1000 {
        return Err("ticks".into());
    }
    let set = set_of(alloc, lines)?;
    let work = Work::new(&set, work_rows(alloc, jobs)?)?;
    let places = ticks as usize + work.rows().len();
    let core = admitted(alloc, set, places)?;
    let ticks = u64::from(ticks);
    Ok(Floor::new(core, Plan::Rows { work, ticks }))
}

// A core with no rows and this capacity, of a set that is admitted.
fn admitted(alloc: Global, set: TaskSet, places: usize) -> Result<Core, Fail>
    requires { places < 2 ^ 32 }
    ensures { IfOk result (λ c. (c.rows ≡ []) × (c.out ≡ None) × (c.set ≡ set.tasks) × (c.places ≡ places)) }
{
    let rule = admit(&sum_loads(&set)?).ok_or("not admitted")?;
    Ok(Core::new(alloc, set, rule, places)?)
}

/// A floor without a plan, for a live run of this many ticks.
pub fn free(alloc: Global, lines: &[Line], ticks: u64) -> Result<Floor, Fail>
    requires { ticks ≤ 100_000 }
    ensures { IfOk result (λ f. (f.plan ≡ Free) × (f.core.rows ≡ []) × (f.core.out ≡ None) × (f.core.places ≡ live_capacity f.core.set ticks)) }
{
    let set = set_of(alloc, lines)?;
    let places = live_capacity(&set, ticks) as usize;
    Ok(Floor::new(admitted(alloc, set, places)?, Plan::Free))
}
