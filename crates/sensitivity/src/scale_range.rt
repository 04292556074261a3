//! The scales with which EDF-VD holds for a set.
ghost use Rattle.std.specs.Prelude.{◌≡◌, ◌-◌, ◌*◌, ◌^◌, ◌<◌, ◌≤◌, ◌↔◌, List, Some, IfSome, IfNone, IsSome, ℕ};
ghost use Rattle.mc_task.specs.declared.task.Task.{Task};
ghost use Rattle.mc_task.specs.declared.task.Rule.TheVariants.{Virtual};
ghost use Rattle.mc_model.specs.Test.{published, rule_of};
ghost use Rattle.mc_model.specs.Holds.{Holds, HoldsOver};
ghost use Rattle.load_sum.specs.Belong.{BelongTo, AreOfSomeSet};
ghost use Rattle.sensitivity.specs.Scales.{IsBetween, HoldBetween, NoScaleHolds};

use load_sum::Loads;
use tick_frac::Ratio;

/// The scales from `least` to `greatest`. If no task is high, `least` is `0/1`, which is no scale itself.
#[derive(Clone, Copy, Debug, PartialEq, Eq)]
pub struct ScaleRange {
    pub least: Ratio,
    pub greatest: Ratio,
}

/// The scales with which EDF-VD holds for a set with these loads: from `U_HL / (1 - U_LL)` to the lesser of 1 and
/// `(1 - U_HH) / U_LL`. `None` exactly if no scale holds, which is so exactly if the published test does not admit the set.
pub fn scales(loads: &Loads) -> Option<ScaleRange>
    requires { AreOfSomeSet loads.now }
    ensures between { IfSome result (λ s. (tasks : List Task) → BelongTo tasks loads.now → HoldBetween s.least s.greatest tasks) }
    ensures greatest { IfSome result (λ s. (tasks : List Task) → BelongTo tasks loads.now → Holds tasks (Virtual s.greatest.num s.greatest.den)) }
    ensures none { IfNone result ((tasks : List Task) → BelongTo tasks loads.now → NoScaleHolds tasks) }
    ensures admitted { (tasks : List Task) → BelongTo tasks loads.now → IsSome result ↔ IsSome (published tasks) }
    // If the published test gives a scale, it is the least one.
    ensures published { (tasks : List Task) (p q : ℕ) → BelongTo tasks loads.now → published tasks ≡ Some (Virtual p q) → IsSome result × IfSome result (λ s. (s.least.num ≡ p) × (s.least.den ≡ q)) }
    ensures order { IfSome result (λ s. (s.least.num ≤ s.least.den) × (s.greatest.num ≤ s.greatest.den)) }
    ensures small { IfSome result (λ s. (s.least.den ≤ 2 ^ 60) × (s.greatest.den ≤ 2 ^ 60)) }
{
    scales_over(
        u128::from(loads.lcm),
        loads.low_low,
        loads.high_low,
        loads.high_high,
    )
}

// The scales if U_LL is `a/n`, U_HL is `b/n` and U_HH is `c/n`.
fn scales_over(n: u128, a: u128, b: u128, c: u128) -> Option<ScaleRange>
    requires some { 0 < n }
    requires small { n ≤ 2 ^ 60 }
    requires order { b ≤ c }
    requires high { 0 < c → 0 < b }
    ensures between { IfSome result (λ s. (p q : ℕ) → 1 ≤ p → p ≤ q → HoldsOver n a b c (Virtual p q) ↔ IsBetween s.least s.greatest p q) }
    ensures greatest { IfSome result (λ s. HoldsOver n a b c (Virtual s.greatest.num s.greatest.den)) }
    ensures none { IfNone result ((p q : ℕ) → ¬ HoldsOver n a b c (Virtual p q)) }
    ensures published { IfSome result (λ s. (p q : ℕ) → rule_of n a b c ≡ Some (Virtual p q) → (s.least.num ≡ p) × (s.least.den ≡ q)) }
    ensures order { IfSome result (λ s. (s.least.num ≤ s.least.den) × (s.greatest.num ≤ s.greatest.den)) }
    ensures small { IfSome result (λ s. (s.least.den ≤ 2 ^ 60) × (s.greatest.den ≤ 2 ^ 60)) }
{
    if n < a || n < c || n - a < b || (n - a) * (n - c) < a * b {
        return None;
    }
    // If `n` is `a`, then `b` is 0, and so is the least scale.
    let least = Ratio::new(b, (n - a).max(1));
    let greatest = if a <= n - c {
        Ratio::new(1, 1)
    } else {
        Ratio::new(n - c, a)
    };
    Some(ScaleRange { least, greatest })
}
