//! The trait of sinks, to which bytes are written.
ghost use Rattle.std.specs.Prelude.{◌≡◌, ◌<◌, ◌≤◌, List, ℕ, length, Option, IfOk, OnErr};
ghost use Rattle.mc_world.specs.Count.{Rose, one_more};
ghost use Rattle.mc_world.specs.Sink.{Appends, SinkState};

/// The sink took nothing of the piece.
#[derive(Clone, Copy, Debug, PartialEq, Eq)]
pub struct SinkFault;

/// A sink takes bytes piece by piece.
pub trait Sink {
    /// The sink in contracts: what was written, if it exposes that, and its counts.
    ghost state: { Self → SinkState };

    /// Writes bytes from the front of the piece, and returns how many; this may be fewer than there are.
    fn write(&mut self, piece: &[u8]) -> Result<usize, SinkFault>
        ensures count { IfOk result (λ n. n ≤ length piece.now) }
        ensures appends { IfOk result (λ n. Appends (state self.old).written (state self.new).written piece.now n) }
        ensures refused { OnErr result ((state self.new).written ≡ (state self.old).written) }

        // An error, and `Ok(0)` for a non-empty piece, come only if the count of faults rose.
        ensures cause { OnErr result (Rose (state self.old).faults (state self.new).faults) }
        ensures cause_none { IfOk result (λ n. n ≡ 0 → 0 < length piece.now
            → Rose (state self.old).faults (state self.new).faults) }

        // At an error the count rises by one, and the bytes taken are counted from 0 again.
        ensures once { OnErr result ((state self.new).faults ≡ one_more (state self.old).faults) }
        ensures anew { OnErr result ((state self.new).since_fault ≡ 0) }
        ensures once_none { IfOk result (λ n. n ≡ 0 → 0 < length piece.now
            → (state self.new).faults ≡ one_more (state self.old).faults) }
        ensures anew_none { IfOk result (λ n. n ≡ 0 → 0 < length piece.now → (state self.new).since_fault ≡ 0) }
        ensures since { IfOk result (λ n. 0 < n → Rose (state self.old).since_fault (state self.new).since_fault) }

        // If bytes are taken, the count of faults stays.
        ensures no_fault { IfOk result (λ n. 0 < n → (state self.new).faults ≡ (state self.old).faults) }
        ensures never_falls { (state self.old).faults ≤ (state self.new).faults };
}
