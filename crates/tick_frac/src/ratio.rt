//! A fraction in lowest terms.
ghost use Rattle.std.specs.Prelude.{◌≡◌, ◌<◌, ◌*◌, Some};
ghost use Rattle.tick_frac.specs.Fraction.{lowest, IsLowest, fraction_text};

use crate::gcd;
use std::fmt;
use std::marker::Model;

/// A fraction in lowest terms. Its `Display` text is `num/den`; zero is `0/1`.
#[derive(Clone, Copy, Debug, PartialEq, Eq)]
pub struct Ratio {
    num: u128,
    den: u128,
}

impl Model for Ratio {
    ghost use Rattle.tick_frac.specs.Fraction.{Fraction, IsLowest};

    ghost Value = { Fraction };

    ghost view = { λ r. record { num = r.num; den = r.den } };

    ghost invariant = { λ r. IsLowest (record { num = r.num; den = r.den }) };

    ghost inverse = { λ f. record { num = f.num; den = f.den } };
}

impl Ratio {
    /// The fraction `num/den` in lowest terms.
    pub fn new(num: u128, den: u128) -> Ratio
        requires { 0 < den }
        ensures value { result ≡ lowest num den }
        ensures equal { result.num * den ≡ num * result.den }
        ensures lowest { IsLowest result }
    {
        let divisor = gcd(num, den);
        Ratio {
            num: num / divisor,
            den: den / divisor,
        }
    }

    /// The numerator in lowest terms.
    pub fn num(&self) -> u128
        ensures { result ≡ self.now.num }
    {
        self.num
    }

    /// The denominator in lowest terms, which is above 0.
    pub fn den(&self) -> u128
        ensures value { result ≡ self.now.den }
        ensures lowest { IsLowest self.now }
    {
        self.den
    }
}

impl fmt::Display for Ratio {
    ghost output = { λ r. Some (fraction_text r) };

    fn fmt<W: fmt::Write>(&self, f: &mut fmt::Formatter<W>) -> fmt::Result {
        let num = self.num;
        let den = self.den;
        write!(f, "{num}/{den}")
    }
}
