//! A sink that never fails.
ghost use Rattle.std.specs.Prelude.{◌≡◌, ◌-◌, ◌^◌, None, Ok, length};

use crate::{Sink, SinkFault};

/// A sink that takes every piece whole and stores nothing. It exposes no content, and its count of faults is always 0.
#[derive(Clone, Copy, Debug)]
pub struct CalmSink;

impl CalmSink {
    /// The calm sink, which has no state.
    pub fn new() -> CalmSink {
        CalmSink
    }
}

impl Sink for CalmSink {
    // It counts no bytes: the count stands at its end.
    ghost state = { λ s. record { written = None; faults = 0; since_fault = 2 ^ 64 - 1 } };

    fn write(&mut self, piece: &[u8]) -> Result<usize, SinkFault>
        ensures whole { result ≡ Ok (length piece.now) }
    {
        Ok(piece.len())
    }
}

#[cfg(test)]
mod tests {
    use super::*;
    use crate::tests::write_to;

    #[test]
    fn takes_every_piece_whole(rt: HostRuntime) {
        let mut sink = CalmSink::new();
        for (piece, count) in [("tasks 2\n", 8), ("", 0), ("x 2/5\n", 6)] {
            assert_eq!(rt; write_to(&mut sink, piece.as_bytes()), Ok(count));
        }
    }
}
