//! A sink over standard output.
ghost use Rattle.std.specs.Prelude.{◌≡◌, None};

use crate::device::Device;
use crate::edge::write_piece;
use crate::{Sink, SinkFault};
use std::io;
use std::marker::Model;

/// Standard output. It exposes no content.
#[derive(Drop)]
pub struct StdoutSink<'a, R: Print> {
    rt: &'a R,
    faults: u64,
    since_fault: u64,
}

impl<'a, R: Print> Model for StdoutSink<'a, R> {
    ghost use Rattle.mc_world.specs.StdoutSinkState.{StdoutSinkState};

    ghost Value = { StdoutSinkState };

    ghost view = { λ s. record { faults = s.faults; since_fault = s.since_fault } };
}

impl<'a, R: Print> StdoutSink<'a, R> {
    /// Standard output with no fault so far. In contracts it is its counts.
    pub fn new(rt: &'a R) -> StdoutSink<'a, R>
        ensures no_fault { result.faults ≡ 0 }
        ensures nothing_taken { result.since_fault ≡ 0 }
    {
        StdoutSink {
            rt,
            faults: 0,
            since_fault: 0,
        }
    }
}

impl<R: Print> Sink for StdoutSink<'_, R> {
    ghost state = { λ s. record { written = None; faults = s.faults; since_fault = s.since_fault } };

    fn write(&mut self, piece: &[u8]) -> Result<usize, SinkFault> {
        match write_piece(&mut Device::new(io::writer(self.rt)), piece) {
            Ok(n) => {
                self.since_fault = self.since_fault.saturating_add(n as u64);
                Ok(n)
            }
            Err(SinkFault) => {
                self.faults = self.faults.saturating_add(1);
                self.since_fault = 0;
                Err(SinkFault)
            }
        }
    }
}

#[cfg(test)]
mod tests {
    use super::*;
    use std::cell::Cell;
    use std::fmt::Display;

    // An output that nobody reads.
    struct ClosedOutput;

    impl Print for ClosedOutput {
        fn print<D: Display + Drop>(&self, _value: D) -> io::Result<()> {
            Err(io::Error::from(io::ErrorKind::BrokenPipe))
        }

        fn println<D: Display + Drop>(&self, _value: D) -> io::Result<()> {
            Err(io::Error::from(io::ErrorKind::BrokenPipe))
        }

        fn write_all(&self, _bytes: &[u8]) -> io::Result<()> {
            Err(io::Error::from(io::ErrorKind::BrokenPipe))
        }
    }

    // An output at which a signal interrupts all writes but every third.
    #[derive(Drop)]
    struct SignalledOutput {
        writes: Cell<u64>,
    }

    impl Print for SignalledOutput {
        fn print<D: Display + Drop>(&self, _value: D) -> io::Result<()> {
            self.write_all(b"")
        }

        fn println<D: Display + Drop>(&self, _value: D) -> io::Result<()> {
            self.write_all(b"")
        }

        fn write_all(&self, _bytes: &[u8]) -> io::Result<()> {
            self.writes.set(self.writes.get().saturating_add(1));
            if self.writes.get() % 3 == 0 {
                Ok(())
            } else {
                Err(io::Error::from(io::ErrorKind::Interrupted))
            }
        }
    }

    // Whether the write of this piece has this result, and leaves this number of faults.
    fn answers<R: Print>(
        sink: &mut StdoutSink<'_, R>,
        piece: &str,
        answer: Result<usize, SinkFault>,
        faults: u64,
    ) -> bool {
        sink.write(piece.as_bytes()) == answer && sink.faults == faults
    }

    #[test]
    fn a_failed_write_is_counted_and_an_interrupted_one_is_not(rt: HostRuntime) {
        let mut sink = StdoutSink::new(&rt);
        assert!(rt; answers(&mut sink, "printed by a sink\n", Ok(18), 0));
        assert!(rt; answers(&mut sink, "", Ok(0), 0));
        let mut closed = StdoutSink::new(&ClosedOutput);
        assert!(rt; answers(&mut closed, "lost\n", Err(SinkFault), 1));
        let output = SignalledOutput {
            writes: Cell::new(0),
        };
        let mut signalled = StdoutSink::new(&output);
        assert!(rt; answers(&mut signalled, "tasks 2\n", Ok(8), 0));
        assert!(rt; answers(&mut signalled, "x 2/5\n", Ok(6), 0));
        assert_eq!(rt; output.writes.get(), 6);
    }
}
