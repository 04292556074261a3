//! A shelf in memory that never fails.
ghost use Rattle.std.specs.Prelude.{◌≡◌, Some};
ghost use Rattle.mc_world.specs.CalmShelfState.{new_calm_shelf, bytes_at, calm_files, after_calm_fetch};
ghost use Rattle.mc_world.specs.MemoryShelfState.{Answers, files_of, answer_of};
ghost use Rattle.mc_world.specs.Shelf.{NamesDiffer};

use crate::memory_shelf::copied;
use crate::{FetchFault, Shelf};
use std::alloc::Global;
use std::marker::Model;

/// Files in memory, of which no fetch fails: a name that it lacks has no bytes, and its count of faults is always 0. A
/// fetch that runs out of memory is counted, and changes nothing else.
#[derive(Debug, Drop)]
pub struct CalmShelf {
    alloc: Global,
    files: Vec<(String, Vec<u8>)>,
    asked: Vec<String>,
    memory_faults: u64,
}

impl Model for CalmShelf {
    ghost use Rattle.mc_world.specs.Shelf.{NamesDiffer};
    ghost use Rattle.mc_world.specs.CalmShelfState.{CalmShelfState, calm_fetches};
    ghost use Rattle.mc_world.specs.MemoryShelfState.{files_of};

    ghost Value = { CalmShelfState };

    ghost view = { λ s. record { files = files_of s.files.items; fetches = calm_fetches s.asked.items; memory_faults = s.memory_faults } };

    ghost invariant = { λ s. NamesDiffer (files_of s.files.items) };
}

impl CalmShelf {
    /// A shelf with these files, each a name and its bytes.
    pub fn new(alloc: Global, files: Vec<(String, Vec<u8>)>) -> CalmShelf
        requires { NamesDiffer (files_of files.items) }
        ensures { result ≡ new_calm_shelf (files_of files.items) }
    {
        CalmShelf {
            alloc,
            files,
            asked: Vec::new(alloc),
            memory_faults: 0,
        }
    }
}

impl Shelf for CalmShelf {
    // It exposes its files, so no clause needs the count of bytes read.
    ghost state = { λ s. record {
      holds = Some (calm_files s.files);
      fetches = Some s.fetches;
      faults = 0;
      memory_faults = s.memory_faults;
      bytes_read = 0;
    } };

    fn fetch(&mut self, alloc: Global, name: &str, limit: usize) -> Result<Vec<u8>, FetchFault>
        // If memory suffices, exactly one result is right; the clauses of the trait follow from these two.
        ensures answer { Answers result (answer_of (Some (bytes_at name.now self.old.files)) limit) }
        ensures leaves { self.new ≡ after_calm_fetch self.old name.now result }
    {
        let Ok(copy) = String::from_str(self.alloc, name) else {
            self.memory_faults = self.memory_faults.saturating_add(1);
            return Err(FetchFault::Memory);
        };
        let answer = copied(alloc, held(&self.files, name), limit);
        if let Err(FetchFault::Memory) = answer {
            self.memory_faults = self.memory_faults.saturating_add(1);
            return answer;
        }
        if self.asked.push(copy).is_err() {
            self.memory_faults = self.memory_faults.saturating_add(1);
            return Err(FetchFault::Memory);
        }
        answer
    }
}

// The bytes under the name; none if it is absent.
fn held<'a>(files: &'a [(String, Vec<u8>)], name: &str) -> &'a [u8]
    ensures { result.now ≡ bytes_at name.now (files_of files.now) }
{
    for (key, bytes) in files {
        if key.as_str() == name {
            return bytes;
        }
    }
    &[]
}

#[cfg(test)]
mod tests {
    use super::*;
    use crate::tests::fetch_returns;
    use std::alloc::AllocError;

    fn shelf_with(alloc: Global, bytes: &[u8]) -> Result<CalmShelf, AllocError> {
        let mut files = Vec::new(alloc);
        files.push((String::from_str(alloc, "s.toml")?, bytes.to_vec(alloc)?))?;
        Ok(CalmShelf::new(alloc, files))
    }

    // How many fetches the shelf has, if each has the result checked here.
    fn asked(alloc: Global) -> Option<usize> {
        let mut shelf = shelf_with(alloc, b"abcd").ok()?;
        let fetches = [
            ("s.toml", 4, Ok("abcd")),
            ("s", 4, Ok("")),
            ("s.toml", 4, Ok("abcd")),
            ("s.toml", 3, Err(FetchFault::TooLong)),
        ];
        for (name, limit, answer) in fetches {
            if !fetch_returns(&mut shelf, alloc, name, limit, answer) {
                return None;
            }
        }
        Some(shelf.asked.len())
    }

    #[test]
    fn an_absent_name_holds_no_bytes(rt: HostRuntime) {
        assert_eq!(rt; asked(rt.alloc()), Some(4));
    }
}
