//! Whether the published test admits loads, for numbers of any size.
ghost use Rattle.std.specs.Prelude.{◌≡◌, ◌*◌, ◌≤◌, ◌↔◌, IsTrue, is_some};
ghost use Rattle.mc_model.specs.Test.{rule_of};

/// Whether the published test admits loads if U_LL is `a/n`, U_HL is `b/n` and U_HH is `c/n`.
// `admission::admit` needs more time, since it reduces the scale to lowest terms, and takes no `n` above 2^60.
pub fn is_admitted(n: u128, a: u128, b: u128, c: u128) -> bool
    ensures { result ≡ is_some (rule_of n a b c) }
{
    if n < a || n < c {
        return false;
    }
    if a <= n - c {
        return true;
    }
    a < n && is_product_at_most(a, b, n - a, n - c)
}

// Whether `a * b` is at most `x * y`. Both products may exceed 128 bits.
fn is_product_at_most(a: u128, b: u128, x: u128, y: u128) -> bool
    ensures { IsTrue result ↔ (a * b ≤ x * y) }
{
    let (low, high) = a.carrying_mul(b, 0);
    let (most_low, most_high) = x.carrying_mul(y, 0);
    high < most_high || high == most_high && low <= most_low
}
