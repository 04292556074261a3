//! The trait of a shared state: which history it stands for.
ghost use Rattle.std.specs.Prelude.{ℕ, List};

/// A value that stands for a list of entries. The trait has no method that runs.
pub trait Kept {
    /// What one turn adds to the history.
    type Entry;

    /// The part that no turn changes, in contracts.
    type Fixed;

    /// The value stands for these entries, the first of which has this number.
    ghost stands: { ℕ → List Self.Entry → Self → Type 0 };

    /// The number of the seat that made the entry.
    ghost by: { Self.Entry → ℕ };

    /// The part of this value that no turn changes.
    ghost fixed: { Self → Self.Fixed };
}

/// The entry that a call of `leave` adds. The caller picks it by the type argument, as in `leave::<Brand>`.
pub trait Added<T> {
    ghost entry: { T };
}
