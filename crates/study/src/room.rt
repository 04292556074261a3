//! The stretch of one set.
ghost use Rattle.std.specs.Prelude.{◌≡◌, ◌<◌, ◌≤◌, ◌^◌, ◌*◌, ◌/◌, nat_le};
ghost use Rattle.mc_model.specs.Loads.{load, high_high};
ghost use Rattle.load_sum.specs.Belong.{BelongTo};
ghost use Rattle.study.specs.Stretch as spec;
ghost use Rattle.study.specs.Loads.{with_high, budget_at, AdmitsUpTo};

use load_sum::Loads;
use mc_task::{Level, Task, TaskSet};

/// The stretch of a set with these loads: the greatest percentage, up to 1000, of its high budgets at which the
/// published test admits the set. Each high budget is multiplied by the percentage and rounded down, but is at least
/// the low budget and at most 4,294,967,295. `None` exactly if the test admits the set at no percentage.
pub fn stretch(set: &TaskSet, loads: &Loads) -> Option<u32>
    requires { BelongTo set.now.tasks loads.now }
    ensures value { result ≡ spec.stretch set.now.tasks }
    ensures greatest { spec.IsStretch set.now.tasks result }
    ensures law { spec.LessIsAdmitted }
{
    let most = most_high(u128::from(loads.lcm), loads.low_low, loads.high_low)?;
    greatest(set, loads.lcm, most)
}

/// The numerator of U_HH, over `loads.lcm`, of a set at `s` percent of its high budgets. With it, the loads belong to
/// that set.
pub fn high_at(set: &TaskSet, loads: &Loads, s: u32) -> u128
    requires loads { BelongTo set.now.tasks loads.now }
    requires most { s ≤ 1001 }
    ensures { BelongTo (spec.at_percent set.now.tasks s) (with_high loads.now result) }
{
    sum_at(set, loads.lcm, s)
}

// The greatest numerator of U_HH that the test admits if U_LL is `a/n` and U_HL is `b/n`: it admits `U_HH <= 1 -
// x*U_LL` by the scale `x = U_HL / (1 - U_LL)`. `None` if that scale is above 1, and nothing is admitted.
fn most_high(n: u128, a: u128, b: u128) -> Option<u128>
    requires { n ≤ 2 ^ 60 }
    ensures { AdmitsUpTo n a b result }
{
    if n < a || n - a < b {
        return None;
    }
    let rest = n - a;
    if rest == 0 {
        return Some(0);
    }
    Some((n * rest - a * b) / rest)
}

// The greatest percentage up to 1000 at which the high budgets ask for at most `most` of `lcm` ticks.
fn greatest(set: &TaskSet, lcm: u64, most: u128) -> Option<u32>
    requires { lcm ≤ 2 ^ 60 }
    ensures { result ≡ spec.greatest_below (λ s. nat_le (load high_high lcm (spec.at_percent set.now.tasks s)) most) 1001 }
{
    // The high budgets ask for at most `most` at each percentage below `low`, and for more from `high` on.
    let mut low = 0;
    let mut high = 1001;
    while low < high {
        let middle = (low + high) / 2;
        if sum_at(set, lcm, middle) <= most {
            low = middle + 1;
        } else {
            high = middle;
        }
    }
    if low == 0 { None } else { Some(low - 1) }
}

// What the high tasks ask for, of `lcm` ticks, at `s` percent of their high budgets.
fn sum_at(set: &TaskSet, lcm: u64, s: u32) -> u128
    requires lcm { lcm ≤ 2 ^ 60 }
    requires most { s ≤ 1001 }
    ensures { result ≡ load high_high lcm (spec.at_percent set.now.tasks s) }
{
    let tasks = set.as_slice();
    let mut sum = 0;
    for task in tasks {
        sum += share(task, lcm, s);
    }
    sum
}

// What one task asks for, of `lcm` ticks, at `s` percent of its high budget; 0 for a low task.
fn share(t: &Task, lcm: u64, s: u32) -> u128
    requires lcm { lcm ≤ 2 ^ 60 }
    requires period { 0 < t.now.period }
    requires most { s ≤ 1001 }
    ensures value { result ≡ budget_at s t.now * (lcm / t.now.period) }
    ensures small { result ≤ 2 ^ 92 }
{
    match t.level {
        Level::Low => 0,
        Level::High => {
            u128::from(percent(t.low, t.high, s)) * u128::from(lcm / u64::from(t.period))
        }
    }
}

// The given percentage of a high budget.
fn percent(low: u32, high: u32, s: u32) -> u32
    requires { s ≤ 1001 }
    ensures { result ≡ spec.percent low high s }
{
    let part = u64::from(high) * u64::from(s) / 100;
    low.max(part.min(u64::from(u32::MAX)) as u32)
}
