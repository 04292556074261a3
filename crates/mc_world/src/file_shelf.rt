//! A shelf over the system's files.
ghost use Rattle.std.specs.Prelude.{◌≡◌, None};

use crate::device::Device;
use crate::edge::read_whole;
use crate::{FetchFault, Shelf};
use std::alloc::Global;
use std::fs::File;
use std::marker::Model;
use std::rt::Files;

/// The system's files, by their paths. It exposes no content. A file that cannot be opened or read, such as a directory
/// or a path that does not exist, is a fault.
#[derive(Drop)]
pub struct FileShelf<'a, R: Files> {
    rt: &'a R,
    faults: u64,
    memory_faults: u64,
    bytes_read: u64,
}

impl<'a, R: Files> Model for FileShelf<'a, R> {
    ghost use Rattle.mc_world.specs.FileShelfState.{FileShelfState};

    ghost Value = { FileShelfState };

    ghost view = { λ s. record { faults = s.faults; memory_faults = s.memory_faults; bytes_read = s.bytes_read } };
}

impl<'a, R: Files> FileShelf<'a, R> {
    /// A shelf that has read nothing so far. In contracts it is its counts.
    pub fn new(rt: &'a R) -> FileShelf<'a, R>
        ensures no_fault { result.faults ≡ 0 }
        ensures no_memory_fault { result.memory_faults ≡ 0 }
        ensures nothing_read { result.bytes_read ≡ 0 }
    {
        FileShelf {
            rt,
            faults: 0,
            memory_faults: 0,
            bytes_read: 0,
        }
    }
}

impl<R: Files> Shelf for FileShelf<'_, R> {
    ghost state = { λ s. record {
      holds = None;
      fetches = None;
      faults = s.faults;
      memory_faults = s.memory_faults;
      bytes_read = s.bytes_read;
    } };

    fn fetch(&mut self, alloc: Global, name: &str, limit: usize) -> Result<Vec<u8>, FetchFault> {
        let Ok(file) = File::open(self.rt, name) else {
            self.faults = self.faults.saturating_add(1);
            return Err(FetchFault::Failed);
        };
        let answer = read_whole(alloc, &mut Device::new(file), limit, &mut self.bytes_read);
        match answer {
            Err(FetchFault::Failed) => self.faults = self.faults.saturating_add(1),
            Err(FetchFault::Memory) => self.memory_faults = self.memory_faults.saturating_add(1),
            _ => {}
        }
        answer
    }
}

#[cfg(test)]
mod tests {
    use super::*;
    use std::alloc::AllocError;
    use std::fs;
    use std::test::Fail;

    const NAME: &str = "file_shelf_test";

    // Whether a file with this content is read whole with a limit of its length, and is too long for one byte less; in
    // both cases all of it is read.
    fn is_read_back(rt: &HostRuntime, content: &[u8]) -> bool {
        if fs::write(rt, NAME, content).is_err() {
            return false;
        }
        let mut shelf = FileShelf::new(rt);
        is_whole(&mut shelf, rt.alloc(), content)
            && is_too_long(&mut shelf, rt.alloc(), content)
            && fs::remove_file(rt, NAME).is_ok()
    }

    fn is_whole(shelf: &mut FileShelf<'_, HostRuntime>, alloc: Global, content: &[u8]) -> bool {
        match shelf.fetch(alloc, NAME, content.len().min(20_000)) {
            Ok(bytes) => bytes.as_slice() == content && shelf.bytes_read == content.len() as u64,
            Err(_) => false,
        }
    }

    fn is_too_long(shelf: &mut FileShelf<'_, HostRuntime>, alloc: Global, content: &[u8]) -> bool {
        let answer = shelf.fetch(alloc, NAME, content.len().saturating_sub(1).min(20_000));
        matches!(answer, Err(FetchFault::TooLong))
            && shelf.bytes_read / 2 == content.len() as u64
            && shelf.faults == 0
    }

    // More bytes than are read at once, with a last byte of its own.
    fn in_order(alloc: Global) -> Result<Vec<u8>, AllocError> {
        let mut content = Vec::new(alloc);
        for place in 0..8193u32 {
            content.push((place % 251) as u8)?;
        }
        Ok(content)
    }

    #[test]
    fn keeps_the_order_of_more_than_two_pieces_and_a_last_byte(
        rt: HostRuntime,
    ) -> Result<(), Fail> {
        let content = in_order(rt.alloc())?;
        assert!(rt; is_read_back(&rt, &[7u8; 20_000]));
        assert!(rt; is_read_back(&rt, content.as_slice()));
        Ok(())
    }

    #[test]
    fn what_cannot_be_read_is_a_fault(rt: HostRuntime) {
        let mut shelf = FileShelf::new(&rt);
        for (name, faults) in [("no such file", 1), (".", 2), ("", 3)] {
            let answer = shelf.fetch(rt.alloc(), name, 100);
            let failed = matches!(answer, Err(FetchFault::Failed));
            assert!(rt; failed && shelf.faults == faults, "at {name}");
        }
    }
}
