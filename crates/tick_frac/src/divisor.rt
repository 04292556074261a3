//! The greatest common divisor and the least common multiple of two numbers.
ghost use Rattle.std.specs.Prelude.{◌≡◌, ℕ, ◌<◌, ◌≤◌, IfSome, IsNone, ◌↔◌};
ghost use Rattle.std.specs.Int.{IsGcd};
ghost use Rattle.tick_frac.specs.Numbers as numbers;
ghost use Rattle.tick_frac.specs.Numbers.{IsLcm};

/// The greatest common divisor, by Euclid's algorithm; `gcd(0, 0)` is 0.
pub fn gcd(a: u128, b: u128) -> u128
    ensures value { result ≡ numbers.gcd a b }
    // `numbers.gcd` computes; this clause says that it is the greatest: a common divisor that each common divisor
    // divides.
    ensures law { (x y : ℕ) → IsGcd x y (numbers.gcd x y) }
{
    let mut x = a;
    let mut y = b;
    'steps: while y != 0 {
        let rest = x % y;
        x = y;
        y = rest;
    }
    x
}

/// The least common multiple, or `None` exactly if it exceeds `limit`.
#[tactic(auto, unfolding(crate::specs::Numbers::lcm), using(crate::proofs::Numbers::gcd_pos_first))]
pub fn lcm_within(a: u64, b: u64, limit: u64) -> Option<u64>
    requires a { 0 < a }
    requires b { 0 < b }
    ensures some { IfSome result (λ m. (m ≡ numbers.lcm a b) × (m ≤ limit)) }
    ensures none { IsNone result ↔ (limit < numbers.lcm a b) }
    // `numbers.lcm` computes; this clause says that it is the least: a common multiple that divides each common
    // multiple.
    ensures law { (x y : ℕ) → IsLcm x y (numbers.lcm x y) }
{
    let divisor = gcd(u128::from(a), u128::from(b));
    let multiple = u128::from(a) * (u128::from(b) / divisor);
    if multiple <= u128::from(limit) {
        Some(multiple as u64)
    } else {
        None
    }
}
