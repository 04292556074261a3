//! A number within bounds.
ghost use Rattle.std.specs.Prelude.{◌≡◌, ◌≤◌};
ghost use Rattle.command.specs.Within.{within};

use std::marker::Model;

/// A number from `LEAST` to `MOST`. Clauses see the number.
#[derive(Drop)]
pub struct Within<const LEAST: u64, const MOST: u64> {
    number: u64,
}

/// How many tasks a random set has, 2 to 32.
pub type TaskCount = Within<2, 32>;

/// How many ticks a run has, 1 to 1,000,000.
pub type Ticks = Within<1, 1_000_000>;

impl<const LEAST: u64, const MOST: u64> Model for Within<LEAST, MOST> {
    ghost use Rattle.std.specs.Prelude.{◌≤◌, ℕ};

    ghost Value = { ℕ };

    ghost view = { λ t. t.number };

    ghost invariant = { λ t. (LEAST ≤ t.number) × (t.number ≤ MOST) };
}

impl<const LEAST: u64, const MOST: u64> Within<LEAST, MOST> {
    /// The number, if it is within the bounds.
    pub fn new(number: u128) -> Option<Within<LEAST, MOST>>
        ensures { result ≡ within LEAST MOST number }
    {
        if u128::from(LEAST) <= number && number <= u128::from(MOST) {
            let number = number as u64;
            Some(Within { number })
        } else {
            None
        }
    }

    /// The number.
    pub fn get(&self) -> u64
        ensures value { result ≡ self.now }
        ensures least { LEAST ≤ result }
        ensures most { result ≤ MOST }
    {
        self.number
    }
}
