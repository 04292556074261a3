//! The least speed of the processor.
ghost use Rattle.std.specs.Prelude.{◌≡◌, ◌+◌, ◌*◌, ◌^◌, ◌<◌, ◌≤◌, List, is_some};
ghost use Rattle.mc_task.specs.declared.task.Task.{Task};
ghost use Rattle.mc_model.specs.Test.{rule_of};
ghost use Rattle.load_sum.specs.Belong.{BelongTo, AreOfSomeSet};
ghost use Rattle.sensitivity.specs.Speeds as spec;
ghost use Rattle.sensitivity.specs.Changes.{AreSmall};

use crate::passing::is_admitted;
use load_sum::Loads;

/// The steps of `least_speed` in one: a step is a millionth of the speed for which the budgets of a set are given.
pub const SPEED_STEPS: u64 = 1_000_000;

/// The least speed of the processor, in millionths, at which the published test admits a set with these loads: it admits
/// the set at this speed, and not at a millionth less. On a processor of speed `s` a job takes its ticks divided by `s`,
/// so each load is divided by `s`. The least such fraction of whole numbers need not exist, since the bound has a square
/// root in it.
pub fn least_speed(loads: &Loads) -> u64
    requires { AreOfSomeSet loads.now }
    ensures least { (tasks : List Task) → BelongTo tasks loads.now → spec.IsLeastSpeed result 1000000 tasks }
    // At most 4/3, rounded up to a millionth.
    ensures four_thirds { (tasks : List Task) → BelongTo tasks loads.now → spec.AreAtMostOne tasks → result ≤ 1333334 }
    ensures small { result ≤ 2 ^ 60 }
    ensures law { spec.FourThirdsLaw }
    ensures faster { spec.FasterIsAdmitted }
    ensures equal { spec.EqualSpeeds }
    ensures one { spec.AtSpeedOne }
{
    // The test admits the set at the speed `high`, and at no speed below `low`.
    let mut low = 0;
    let mut high = speed_for_edf(loads);
    while low < high {
        let middle = (low + high) / 2;
        if admits_at(loads, middle) {
            high = middle;
        } else {
            low = middle + 1;
        }
    }
    high
}

// A speed at which EDF fits: above `U_LL + U_HH`.
fn speed_for_edf(loads: &Loads) -> u64
    requires { AreSmall loads.now }
    ensures fits { 1000000 * loads.now.low_low + 1000000 * loads.now.high_high ≤ result * loads.now.lcm }
    ensures small { result ≤ 2 ^ 60 }
{
    let asked = (loads.low_low + loads.high_high) * u128::from(SPEED_STEPS);
    (asked / u128::from(loads.lcm) + 1) as u64
}

// Whether the test admits the loads at this speed.
fn admits_at(loads: &Loads, speed: u64) -> bool
    requires loads { AreSmall loads.now }
    requires speed { speed ≤ 2 ^ 60 }
    ensures { result ≡ is_some (rule_of (speed * loads.now.lcm) (1000000 * loads.now.low_low) (1000000 * loads.now.high_low) (1000000 * loads.now.high_high)) }
{
    let steps = u128::from(SPEED_STEPS);
    is_admitted(
        u128::from(speed) * u128::from(loads.lcm),
        steps * loads.low_low,
        steps * loads.high_low,
        steps * loads.high_high,
    )
}
