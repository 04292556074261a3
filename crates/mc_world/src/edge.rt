//! Reading all of any reader, and writing to any writer. A call that a signal interrupts is tried again.
ghost use Rattle.std.specs.Prelude.{◌≡◌, ◌+◌, ◌-◌, ◌<◌, ◌≤◌, ◌^◌, ◌⊎◌, min, take, length, false, IfOk, IfSome, IsErrOf, OnErr, OnOk};
ghost use Rattle.std.specs.Io.{WritesAtMost};
ghost use Rattle.std.specs.Io.KnownBytes.{Appends, Keeps};
ghost use Rattle.mc_world.specs.Count.{RoseByMoreThan, one_more};

use crate::device::{CallError, Device};
use crate::{FetchFault, SinkFault};
use std::alloc::Global;
use std::io::{Read, Write};

const PIECE_BYTES: usize = 8192;

// All bytes that a reader has left, if there are at most `limit`. The bytes read are counted.
pub fn read_whole<T: Read>(
    alloc: Global,
    reader: &mut Device<T>,
    limit: usize,
    bytes_read: &mut u64,
) -> Result<Vec<u8>, FetchFault>
    requires { limit < 2 ^ 40 }

    // If the reader's remaining bytes are known, exactly these are returned, and `TooLong` means that they exceed the
    // limit.
    ensures whole { IfOk result (λ bytes. IfSome (T.remaining reader.old.inner) (λ left. bytes.items ≡ left)) }
    ensures short { IfOk result (λ bytes. length bytes.items ≤ limit) }
    ensures long { IsErrOf result FetchFault.TooLong → IfSome (T.remaining reader.old.inner) (λ left. limit < length left) }
    ensures long_hidden { IsErrOf result FetchFault.TooLong → RoseByMoreThan limit bytes_read.old bytes_read.new }
    ensures more_read { bytes_read.old ≤ bytes_read.new }

    // Each byte returned was counted once.
    ensures counted { IfOk result (λ bytes. bytes_read.new ≡ min (bytes_read.old + length bytes.items) (2 ^ 64 - 1)) }

    // It fails only if a read failed; an interruption is not a failure.
    ensures failed { IsErrOf result FetchFault.Failed → reader.new.tally.failures ≡ one_more reader.old.tally.failures }
    ensures no_failure { (reader.new.tally.failures ≡ reader.old.tally.failures) ⊎ IsErrOf result FetchFault.Failed }
{
    // Its value is a number of 64 bits.
    let _before = *bytes_read;
    let mut bytes = Vec::new(alloc);
    let mut buffer = [0; PIECE_BYTES];
    // One byte past the limit is asked for, since only that byte shows that there are too many.
    'pieces: while bytes.len() <= limit {
        let room = (limit + 1 - bytes.len()).min(PIECE_BYTES);
        match reader.read(&mut buffer[..room]) {
            Ok(0) => return Ok(bytes),
            Ok(n) => {
                *bytes_read = bytes_read.saturating_add(n as u64);
                if bytes.extend_from_slice(&buffer[..n]).is_err() {
                    return Err(FetchFault::Memory);
                }
            }
            Err(CallError::Interrupted) => continue,
            Err(CallError::Failed) => return Err(FetchFault::Failed),
        }
    }
    Err(FetchFault::TooLong)
}

// Writes bytes from the front of the piece, and makes sure that they do not wait in a buffer. Returns how many; 0 only
// for an empty piece.
pub fn write_piece<W: Write>(out: &mut Device<W>, piece: &[u8]) -> Result<usize, SinkFault>
    ensures count { IfOk result (λ n. n ≤ length piece.now) }
    ensures some { IfOk result (λ n. n ≡ 0 → length piece.now ≡ 0) }

    // If the writer's content is known, it grows by these bytes.
    ensures appends { IfOk result (λ n. Appends (W.contents out.old.inner) (W.contents out.new.inner) (take n piece.now)) }

    // The bytes were flushed: a flush that fails is a fault.
    ensures flushed { OnOk result (out.new.waits ≡ false) }

    // A fault comes only if the write or the flush failed; an interruption is not a failure.
    ensures failed { OnErr result (out.new.tally.failures ≡ one_more out.old.tally.failures) }
    ensures no_failure { OnOk result (out.new.tally.failures ≡ out.old.tally.failures) }
{
    let n = write_some(out, piece)?;
    flush_all(out)?;
    Ok(n)
}

fn write_some<W: Write>(out: &mut Device<W>, piece: &[u8]) -> Result<usize, SinkFault>
    ensures bound { WritesAtMost result piece.now }
    ensures some { IfOk result (λ n. n ≡ 0 → length piece.now ≡ 0) }
    ensures appends { IfOk result (λ n. Appends (W.contents out.old.inner) (W.contents out.new.inner) (take n piece.now)) }
    ensures failed { OnErr result (out.new.tally.failures ≡ one_more out.old.tally.failures) }
    ensures no_failure { OnOk result (out.new.tally.failures ≡ out.old.tally.failures) }
{
    'tries: loop {
        match out.write(piece) {
            Ok(n) => return Ok(n),
            Err(CallError::Interrupted) => {}
            Err(CallError::Failed) => return Err(SinkFault),
        }
    }
}

fn flush_all<W: Write>(out: &mut Device<W>) -> Result<(), SinkFault>
    ensures keeps { Keeps (W.contents out.old.inner) (W.contents out.new.inner) }
    ensures flushed { OnOk result (out.new.waits ≡ false) }
    ensures failed { OnErr result (out.new.tally.failures ≡ one_more out.old.tally.failures) }
    ensures no_failure { OnOk result (out.new.tally.failures ≡ out.old.tally.failures) }
{
    'tries: loop {
        match out.flush() {
            Ok(()) => return Ok(()),
            Err(CallError::Interrupted) => {}
            Err(CallError::Failed) => return Err(SinkFault),
        }
    }
}
