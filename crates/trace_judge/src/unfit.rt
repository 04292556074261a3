//! The first row of a schedule that does not fit.
ghost use Rattle.std.specs.Prelude.{◌≡◌, ◌+◌, ◌^◌, ◌≤◌};

use crate::step::Misfit;
use mc_model::Why;

/// The first row that does not fit the rows before it: its number, from 1, and the first of its parts that fails.
#[derive(Clone, Copy, Debug, PartialEq, Eq)]
pub struct Unfit {
    pub place: u64,
    pub why: Why,
}

/// The first row that does not fit, in a run before which `before` rows stand.
pub fn unfit_after(before: u64, misfit: Misfit) -> Unfit
    requires { before ≤ 2 ^ 62 }
    ensures { result ≡ record { place = before + misfit.after + 1; why = misfit.why } }
{
    Unfit {
        place: before + u64::from(misfit.after) + 1,
        why: misfit.why,
    }
}
