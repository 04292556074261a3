//! A reader or a writer with a tally of its calls, in which an interruption is not a failure.
ghost use Rattle.std.specs.Prelude.{◌≡◌, ◌<◌, ◌-◌, ◌^◌, true, false, length, IfOk, OnOk};
ghost use Rattle.std.specs.Io.{ReadsAtMost, WritesAtMost};
ghost use Rattle.std.specs.Io.KnownBytes.{Keeps, ReadConsumes, WriteAppends};
ghost use Rattle.std.specs.IoError.{error_kind};
ghost use Rattle.mc_world.specs.Tally.{Counts, Tallies};

use std::io;
use std::io::{ErrorKind, Read, Write};

// Why a call of a reader or a writer gave nothing.
#[derive(Clone, Copy)]
pub enum CallError {
    // A signal came first. The call did nothing, and can be tried again.
    Interrupted,
    Failed,
}

// The calls that gave nothing.
#[derive(Clone, Copy)]
pub struct Tally {
    // How many interruptions may still come. The one after these counts as a failure, so that trying again terminates.
    tries: u64,
    failures: u64,
}

impl Tally {
    fn note(&mut self, error: io::Error) -> CallError
        ensures interrupted { error_kind error ≡ ErrorKind.Interrupted → 0 < self.old.tries
            → result ≡ CallError.Interrupted }
        ensures counts { Counts self.old self.new result }
    {
        if error.kind() == ErrorKind::Interrupted && self.tries > 0 {
            self.tries -= 1;
            return CallError::Interrupted;
        }
        self.fail()
    }

    fn fail(&mut self) -> CallError
        ensures failed { result ≡ CallError.Failed }
        ensures counts { Counts self.old self.new result }
    {
        self.failures = self.failures.saturating_add(1);
        CallError::Failed
    }
}

// A reader or a writer, and the tally of its calls.
#[derive(Drop)]
pub struct Device<D> {
    inner: D,
    tally: Tally,
    // Whether bytes may wait in a buffer: no flush has succeeded since the last write.
    waits: bool,
}

impl<D> Device<D> {
    pub fn new(inner: D) -> Device<D>
        ensures inner { result.inner ≡ inner }
        ensures tries { result.tally.tries ≡ 2 ^ 64 - 1 }
        ensures no_failure { result.tally.failures ≡ 0 }
    {
        Device {
            inner,
            tally: Tally {
                tries: u64::MAX,
                failures: 0,
            },
            waits: false,
        }
    }
}

impl<R: Read> Device<R> {
    pub fn read(&mut self, buffer: &mut [u8]) -> Result<usize, CallError>
        ensures bound { ReadsAtMost result buffer.new }
        ensures bytes { ReadConsumes (R.remaining self.old.inner) (R.remaining self.new.inner) result buffer.new }
        ensures tallies { Tallies self.old.tally self.new.tally result }
    {
        match self.inner.read(buffer) {
            Ok(n) => Ok(n),
            Err(error) => Err(self.tally.note(error)),
        }
    }
}

impl<W: Write> Device<W> {
    // Taking nothing of a non-empty piece is a failure.
    pub fn write(&mut self, piece: &[u8]) -> Result<usize, CallError>
        ensures bound { WritesAtMost result piece.now }
        ensures some { IfOk result (λ n. n ≡ 0 → length piece.now ≡ 0) }
        ensures bytes { WriteAppends (W.contents self.old.inner) (W.contents self.new.inner) result piece.now }
        ensures tallies { Tallies self.old.tally self.new.tally result }
        ensures waits { self.new.waits ≡ true }
    {
        self.waits = true;
        match self.inner.write(piece) {
            Ok(0) if !piece.is_empty() => Err(self.tally.fail()),
            Ok(n) => Ok(n),
            Err(error) => Err(self.tally.note(error)),
        }
    }

    pub fn flush(&mut self) -> Result<(), CallError>
        ensures bytes { Keeps (W.contents self.old.inner) (W.contents self.new.inner) }
        ensures tallies { Tallies self.old.tally self.new.tally result }
        ensures done { OnOk result (self.new.waits ≡ false) }
    {
        match self.inner.flush() {
            Ok(()) => {
                self.waits = false;
                Ok(())
            }
            Err(error) => Err(self.tally.note(error)),
        }
    }
}
