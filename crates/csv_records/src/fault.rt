//! Why a text is refused.
ghost use Rattle.std.specs.Prelude.{◌≡◌};
ghost use Rattle.csv_records.specs.declared.fault.Fault.TheVariants.{Memory};

use std::alloc::{AllocError, AllocFailed};
use std::fmt::Debug;
use thiserror::Error;

/// Why a text is refused. Lines are numbers of records: the header is line 1, and lines that the reader skips do not
/// count.
#[derive(Clone, Copy, Debug, PartialEq, Eq, Error)]
#[error_bound(C: Debug + Drop)]
pub enum Fault<C> {
    /// Out of memory, which says nothing about the text.
    #[error("out of memory")]
    Memory,
    /// The first record that is refused, by its line, and the cause.
    #[error("line {line}: {cause:?}")]
    At { line: u32, cause: C },
}

impl<C> From<AllocError> for Fault<C> {
    ghost from_gives = { λ _ e. e ≡ Memory };

    fn from(_: AllocError) -> Fault<C> {
        Fault::Memory
    }
}

impl<T: Drop, C> From<AllocFailed<T>> for Fault<C> {
    ghost from_gives = { λ _ e. e ≡ Memory };

    fn from(_: AllocFailed<T>) -> Fault<C> {
        Fault::Memory
    }
}
