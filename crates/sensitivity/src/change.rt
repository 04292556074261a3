//! A task with another budget, and the loads of the set with that task.
ghost use Rattle.std.specs.Prelude.{◌≡◌, ◌*◌, ◌^◌, ◌≤◌};
ghost use Rattle.mc_model.specs.Loads as model;
ghost use Rattle.sensitivity.specs.Budgets as spec;
ghost use Rattle.sensitivity.specs.Changes.{AreSmall, IsPart, DifferBy};

use crate::Budget;
use load_sum::Loads;
use mc_task::{Level, Task};

/// The task with this budget of this kind. A low task has one budget, so its high budget changes with the low one.
pub fn with_budget(t: &Task, which: Budget, budget: u32) -> Task
    ensures { result ≡ spec.with_budget which budget t.now }
{
    match which {
        Budget::Low => Task {
            low: budget,
            high: by_level(t.level, budget, t.high),
            ..*t
        },
        Budget::High => Task { high: budget, ..*t },
    }
}

/// The least budget of this kind that the task may have.
pub fn least_of(t: &Task, which: Budget) -> u32
    ensures { result ≡ spec.least_of which t.now }
{
    match which {
        Budget::Low => 1,
        Budget::High => t.low,
    }
}

/// The greatest budget of this kind that the task may have.
pub fn most_of(t: &Task, which: Budget) -> u32
    ensures { result ≡ spec.most_of which t.now }
{
    match which {
        Budget::Low => by_level(t.level, u32::MAX, t.high),
        Budget::High => u32::MAX,
    }
}

/// The loads with the new task in the place of the old one, which has the same period.
pub fn loads_with(loads: &Loads, old: &Task, new: &Task) -> Loads
    requires small { AreSmall loads.now }
    requires part { IsPart old.now loads.now }
    requires same { new.now.period ≡ old.now.period }
    ensures { DifferBy old.now new.now loads.now result }
{
    let releases = loads.lcm / u64::from(old.period);
    Loads {
        lcm: loads.lcm,
        low_low: loads.low_low - share(by_level(old.level, old.low, 0), releases)
            + share(by_level(new.level, new.low, 0), releases),
        high_low: loads.high_low - share(by_level(old.level, 0, old.low), releases)
            + share(by_level(new.level, 0, new.low), releases),
        high_high: loads.high_high - share(by_level(old.level, 0, old.high), releases)
            + share(by_level(new.level, 0, new.high), releases),
    }
}

fn by_level(level: Level, low: u32, high: u32) -> u32
    ensures { result ≡ model.by_level level low high }
{
    match level {
        Level::Low => low,
        Level::High => high,
    }
}

// What a task with this budget asks for in this many periods.
fn share(budget: u32, releases: u64) -> u128
    requires { releases ≤ 2 ^ 60 }
    ensures value { result ≡ budget * releases }
    ensures small { result ≤ 2 ^ 92 }
{
    u128::from(budget) * u128::from(releases)
}
