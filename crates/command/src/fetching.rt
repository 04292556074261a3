//! How a command's file is fetched.
ghost use Rattle.std.specs.Prelude.{◌≡◌, ◌<◌, ◌^◌, IfOk, OnOk, IfErr};
ghost use Rattle.replies.specs.Stop.{StopsBy};
ghost use Rattle.command.specs.Outcome.{HasBytes, IsRefused, AddsAtMost};

use crate::file_name::FileName;
use mc_world::{FetchFault, Shelf};
use replies::{Stop, refused};
use std::alloc::Global;

/// The bytes of the command's file number `file`, if there are at most `limit`; otherwise the reply that refuses the file.
pub fn fetch<S: Shelf>(
    alloc: Global,
    shelf: &mut S,
    file: u32,
    name: &FileName<'_>,
    limit: usize,
) -> Result<Vec<u8>, Stop>
    requires { limit < 2 ^ 40 }
    ensures bytes { IfOk result (λ bytes. HasBytes name.now limit bytes.items (S.state shelf.old) (S.state shelf.new)) }
    ensures refused { IfErr result (StopsBy (IsRefused file name.now limit (S.state shelf.old) (S.state shelf.new))) }
    ensures memory_faults { OnOk result ((S.state shelf.new).memory_faults ≡ (S.state shelf.old).memory_faults) }
    ensures memory_faults_refused { IfErr result (StopsBy (λ reply. (S.state shelf.new).memory_faults ≡ (S.state shelf.old).memory_faults)) }
    ensures asked { AddsAtMost name.now (S.state shelf.old) (S.state shelf.new) }
{
    match shelf.fetch(alloc, name.text(), limit) {
        Ok(bytes) => Ok(bytes),
        Err(FetchFault::Failed) => Err(refused::read_fault(alloc, file)),
        Err(FetchFault::TooLong) => Err(refused::longer(alloc, file, limit)),
        Err(FetchFault::Memory) => Err(Stop::Memory),
    }
}
