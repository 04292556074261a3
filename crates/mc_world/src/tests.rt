//! What the tests of several kinds of shelves and sinks share, and a reader and a writer that signals interrupt.
ghost use Rattle.std.specs.Prelude.{◌≡◌, ◌<◌, ◌⊎◌, Some, IsSomeAnd, IsErrOf, length};
ghost use Rattle.mc_world.specs.Count.{Rose};
ghost use Rattle.mc_world.specs.Shelf.{Files};

mod signals;

use crate::{FetchFault, Shelf, Sink, SinkFault};
use std::alloc::Global;

// A fetch as a program calls it, which only knows that this is a shelf. A file that is exposed and too long is reported
// as too long, if memory and the shelf do not fail.
fn fetch_from<S: Shelf>(
    shelf: &mut S,
    alloc: Global,
    name: &str,
    limit: u32,
) -> Result<Vec<u8>, FetchFault>
    ensures exposed { (files : Files) → (S.state shelf.old).holds ≡ Some files
        → IsSomeAnd (files name.now) (λ bytes. limit < length bytes)
        → (Rose (S.state shelf.old).faults (S.state shelf.new).faults → ⊥)
        → IsErrOf result FetchFault.TooLong ⊎ IsErrOf result FetchFault.Memory }
{
    shelf.fetch(alloc, name, limit as usize)
}

// Whether the fetch returns this text, or is refused for this reason.
pub fn fetch_returns<S: Shelf>(
    shelf: &mut S,
    alloc: Global,
    name: &str,
    limit: u32,
    expected: Result<&str, FetchFault>,
) -> bool {
    match (fetch_from(shelf, alloc, name, limit), expected) {
        (Ok(bytes), Ok(text)) => bytes.as_slice() == text.as_bytes(),
        (Err(fault), Err(other)) => fault == other,
        _ => false,
    }
}

// A write as a program makes it, which only knows that this is a sink.
pub fn write_to<K: Sink>(sink: &mut K, piece: &[u8]) -> Result<usize, SinkFault> {
    sink.write(piece)
}
