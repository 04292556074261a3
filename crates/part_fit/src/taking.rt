//! Whether a processor takes a task, by the loads of its tasks.
ghost use Rattle.std.specs.Prelude.{◌≡◌, ◌+◌, ◌*◌, ◌^◌, ◌<◌, ◌≤◌, ◌++◌, ◌∷◌, ◌↔◌, [], List, IfSome, IsNone};
ghost use Rattle.mc_task.specs.declared.task.Task.{Task};
ghost use Rattle.tick_frac.specs.Numbers.{lcm};
ghost use Rattle.mc_model.specs.Loads.{low_low, high_low, high_high, most_lcm};
ghost use Rattle.part_fit.specs.ProcessorLoads as spec;
ghost use Rattle.part_fit.specs.ProcessorLoads.{AreSmall, IsNext, IsNextOfSome, IsTried};

use admission::admit;
use load_sum::Loads;
use mc_task::{Level, Task};
use tick_frac::lcm_within;

/// The loads of no tasks.
pub const NO_LOADS: Loads = Loads {
    lcm: 1,
    low_low: 0,
    high_low: 0,
    high_high: 0,
};

const MOST_LCM: u64 = 1 << 60;

/// The loads of a processor's tasks with the next task, if these are within range and the published test gives them a
/// rule; `None` exactly if the processor does not take the task.
pub fn taken(loads: &Loads, task: &Task) -> Option<Loads>
    requires next { IsNextOfSome loads.now task.now }
    requires small { AreSmall loads.now }
    ensures exactly { (tasks : List Task) → IsNext tasks loads.now task.now → IsTried (tasks ++ task.now ∷ []) result }
    ensures small { IfSome result AreSmall }
{
    let more = with_task(loads, task)?;
    if admit(&more).is_some() {
        Some(more)
    } else {
        None
    }
}

// The loads with one more task; `None` exactly if its period takes their hyperperiod out of range.
fn with_task(loads: &Loads, task: &Task) -> Option<Loads>
    requires small { AreSmall loads.now }
    requires period { 0 < task.now.period }
    ensures some { IfSome result (λ more. more ≡ spec.with_task loads.now task.now) }
    ensures within { IfSome result (λ more. more.lcm ≤ most_lcm) }
    ensures none { IsNone result ↔ most_lcm < lcm loads.now.lcm task.now.period }
{
    let lcm = lcm_within(loads.lcm, u64::from(task.period), MOST_LCM)?;
    let times = lcm / loads.lcm;
    let jobs = lcm / u64::from(task.period);
    let (low_low, high_low, high_high) = budgets(task);
    Some(Loads {
        lcm,
        low_low: load_with(loads.low_low, times, low_low, jobs),
        high_low: load_with(loads.high_low, times, high_low, jobs),
        high_high: load_with(loads.high_high, times, high_high, jobs),
    })
}

// What the task adds to each of the three loads, in ticks of its budgets.
fn budgets(task: &Task) -> (u32, u32, u32)
    ensures { result ≡ (low_low task.now, high_low task.now, high_high task.now) }
{
    match task.level {
        Level::Low => (task.low, 0, 0),
        Level::High => (0, task.low, task.high),
    }
}

fn load_with(load: u128, times: u64, budget: u32, jobs: u64) -> u128
    requires load { load ≤ 2 ^ 60 }
    requires times { times ≤ 2 ^ 60 }
    requires jobs { jobs ≤ 2 ^ 60 }
    ensures { result ≡ load * times + budget * jobs }
{
    load * u128::from(times) + u128::from(budget) * u128::from(jobs)
}
