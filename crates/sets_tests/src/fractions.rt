//! Tests of divisors, multiples and fractions.
use std::test::Fail;
use tick_frac::{Ratio, gcd, lcm_within};

#[test]
fn divisors_and_multiples(rt: HostRuntime) {
    let divisors = [
        (0, 0, 0),
        (0, 7, 7),
        (7, 0, 7),
        (12, 18, 6),
        (8, 5, 1),
        (1 << 127, 1 << 100, 1 << 100),
        (u128::MAX, 3, 3),
    ];
    for (a, b, divisor) in divisors {
        assert_eq!(rt; gcd(a, b), divisor, "{a} {b}");
    }
    let multiples = [
        (4, 6, 12, Some(12)),
        (4, 6, 11, None),
        (u64::MAX, u64::MAX, u64::MAX, Some(u64::MAX)),
        (u64::MAX, 2, u64::MAX, None),
    ];
    for (a, b, limit, multiple) in multiples {
        assert_eq!(rt; lcm_within(a, b, limit), multiple, "{a} {b} {limit}");
    }
}

#[test]
fn a_ratio_prints_its_lowest_terms(rt: HostRuntime) -> Result<(), Fail> {
    let cases = [
        (0, 5, "0/1"),
        (6, 4, "3/2"),
        (7, 7, "1/1"),
        (1 << 127, 1 << 126, "2/1"),
    ];
    for (num, den, text) in cases {
        let ratio = Ratio::new(num, den);
        assert_eq!(rt; format!(in rt.alloc(); "{ratio}")?.as_str(), text);
    }
    Ok(())
}
