//! The test, by the loads of a set.
ghost use Rattle.std.specs.Prelude.{◌≡◌, ◌↔◌, ◌+◌, ◌-◌, ◌*◌, ◌^◌, ◌<◌, ◌≤◌, ◌&&◌, nat_le, nat_lt, List, IfSome, IsSome, IsTrue};
ghost use Rattle.std.specs.Bool.{OnTrue};
ghost use Rattle.mc_task.specs.declared.task.Task.{Task};
ghost use Rattle.mc_task.specs.declared.task.Rule.TheVariants.{Virtual};
ghost use Rattle.mc_task.specs.TaskSet.{Set, IsScale};
ghost use Rattle.mc_model.specs.Test.{rule_of, published, test};
ghost use Rattle.mc_model.specs.Holds.{Holds, HoldsOver, Fits, IsThreeQuarters, IsThreeQuartersOver};
ghost use Rattle.mc_model.specs.Holds.{TestByHolds, PublishedRuleHolds, EdfOrScaled, TestRuleHolds, AdmittedIfHolds, NoneWherePublishedNone, ThreeQuartersLaw};
ghost use Rattle.load_sum.specs.Belong.{BelongTo, AreOfSomeSet};

use load_sum::Loads;
use mc_task::{Rule, Scale};
use tick_frac::Ratio;

/// The rule of the published test (Baruah et al., ECRTS 2012), or `None` exactly if it admits no set with these loads:
/// EDF if `U_LL + U_HH <= 1`, otherwise EDF-VD with `x = U_HL / (1 - U_LL)` if `U_LL < 1` and `x*U_LL + U_HH <= 1`.
pub fn admit(loads: &Loads) -> Option<Rule>
    requires { AreOfSomeSet loads.now }
    ensures published { (tasks : List Task) → BelongTo tasks loads.now → result ≡ published tasks }
    ensures fits { IfSome result Fits }
    ensures holds { IfSome result (λ rule. (tasks : List Task) → BelongTo tasks loads.now → Holds tasks rule) }
    ensures law { PublishedRuleHolds }
    // Trying plain EDF first admits nothing that the scaled test refuses, except low tasks alone whose load is exactly
    // 1.
    ensures edf_or_scaled { EdfOrScaled }
{
    rule_over(
        u128::from(loads.lcm),
        loads.low_low,
        loads.high_low,
        loads.high_high,
    )
}

/// The rule of the test for a set with this scale: EDF-VD with the scale if it holds, otherwise the rule of the
/// published test. It is `None` exactly if the published test gives no rule.
pub fn admit_scaled(loads: &Loads, scale: Option<Scale>) -> Option<Rule>
    requires loads { AreOfSomeSet loads.now }
    requires scale { IfSome scale IsScale }
    ensures test { (set : Set) → BelongTo set.tasks loads.now → set.scale ≡ scale → result ≡ test set }
    ensures fits { IfSome result Fits }
    ensures holds { IfSome result (λ rule. (tasks : List Task) → BelongTo tasks loads.now → Holds tasks rule) }
    ensures by_holds { TestByHolds }
    ensures law { TestRuleHolds }
    ensures none { NoneWherePublishedNone }
{
    match scale {
        Some(x) if holds_for(loads, x.p, x.q) => Some(Rule::Virtual { p: x.p, q: x.q }),
        _ => admit(loads),
    }
}

/// Whether EDF-VD with the scale `p/q` holds for the loads: `U_LL + U_HL/x <= 1` and `x*U_LL + U_HH <= 1`. If so, the
/// published test admits the set.
pub fn holds_for(loads: &Loads, p: u64, q: u64) -> bool
    requires loads { AreOfSomeSet loads.now }
    requires above { 1 ≤ p }
    requires order { p ≤ q }
    requires small { q ≤ 2 ^ 60 }
    ensures exactly { (tasks : List Task) → BelongTo tasks loads.now → (IsTrue result ↔ Holds tasks (Virtual p q)) }
    ensures admitted { (tasks : List Task) → BelongTo tasks loads.now → OnTrue result (IsSome (published tasks)) }
    ensures law { AdmittedIfHolds }
{
    let p = u128::from(p);
    let q = u128::from(q);
    holds_over(
        u128::from(loads.lcm),
        loads.low_low,
        loads.high_low,
        loads.high_high,
        p,
        q,
    )
}

/// Whether `U_LL + U_HL <= 3/4` and `U_HH <= 3/4`. If so, the published test admits the set.
pub fn three_quarters(loads: &Loads) -> bool
    requires { AreOfSomeSet loads.now }
    ensures exactly { (tasks : List Task) → BelongTo tasks loads.now → (IsTrue result ↔ IsThreeQuarters tasks) }
    ensures admitted { (tasks : List Task) → BelongTo tasks loads.now → OnTrue result (IsSome (published tasks)) }
    ensures law { ThreeQuartersLaw }
{
    is_three_quarters_over(
        u128::from(loads.lcm),
        loads.low_low,
        loads.high_low,
        loads.high_high,
    )
}

// Below, U_LL is `a/n`, U_HL is `b/n` and U_HH is `c/n`. A numerator may be far above `n`, so each is compared with it
// before any product is taken: no product then exceeds 128 bits.

fn rule_over(n: u128, a: u128, b: u128, c: u128) -> Option<Rule>
    requires n { n ≤ 2 ^ 60 }
    requires order { b ≤ c }
    requires high { 0 < c → 0 < b }
    ensures rule { result ≡ rule_of n a b c }
    ensures fits { IfSome result Fits }
{
    if is_plain(n, a, c) {
        Some(Rule::Plain)
    } else if is_virtual(n, a, b, c) {
        let x = Ratio::new(b, n - a);
        Some(Rule::Virtual {
            p: x.num() as u64,
            q: x.den() as u64,
        })
    } else {
        None
    }
}

fn is_plain(n: u128, a: u128, c: u128) -> bool
    ensures { result ≡ nat_le (a + c) n }
{
    a <= n && c <= n - a
}

fn is_virtual(n: u128, a: u128, b: u128, c: u128) -> bool
    requires n { n ≤ 2 ^ 60 }
    requires order { b ≤ c }
    ensures { result ≡ (nat_lt a n && nat_le (a * b + c * (n - a)) (n * (n - a))) }
{
    if n <= a || n < c {
        return false;
    }
    a * b + c * (n - a) <= n * (n - a)
}

fn holds_over(n: u128, a: u128, b: u128, c: u128, p: u128, q: u128) -> bool
    requires n { n ≤ 2 ^ 60 }
    requires above { 1 ≤ p }
    requires order { p ≤ q }
    requires small { q ≤ 2 ^ 60 }
    ensures { IsTrue result ↔ HoldsOver n a b c (Virtual p q) }
{
    if n < a || n < b || n < c {
        return false;
    }
    p * a + q * b <= p * n && p * a + q * c <= q * n
}

fn is_three_quarters_over(n: u128, a: u128, b: u128, c: u128) -> bool
    requires { n ≤ 2 ^ 60 }
    ensures { IsTrue result ↔ IsThreeQuartersOver n a b c }
{
    if n < a || n < b || n < c {
        return false;
    }
    4 * (a + b) <= 3 * n && 4 * c <= 3 * n
}
