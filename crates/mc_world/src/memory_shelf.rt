//! A shelf in memory that fails where it is configured to.
ghost use Rattle.std.specs.Prelude.{◌≡◌, Some};
ghost use Rattle.mc_world.specs.MemoryShelfState.{Answers, files_of, new_shelf, answer_of, next_answer, after_fetch};
ghost use Rattle.mc_world.specs.Shelf.{NamesDiffer, file_at};

use crate::{FetchFault, Shelf};
use std::alloc::Global;
use std::marker::Model;

/// Files in memory. A fetch fails if the shelf is so configured, or lacks the name. A fetch that runs out of memory is
/// counted apart and takes no number; the next one has that number.
#[derive(Debug, Drop)]
pub struct MemoryShelf {
    alloc: Global,
    files: Vec<(String, Vec<u8>)>,
    fails: Vec<u64>,
    // The name of each fetch, and whether the fetch failed.
    fetches: Vec<(String, bool)>,
    faults: u64,
    memory_faults: u64,
}

impl Model for MemoryShelf {
    ghost use Rattle.std.specs.Prelude.{◌≤◌, length};
    ghost use Rattle.mc_world.specs.Shelf.{NamesDiffer};
    ghost use Rattle.mc_world.specs.MemoryShelfState.{MemoryShelfState, files_of, fetches_of};

    ghost Value = { MemoryShelfState };

    ghost view = { λ s. record {
      files = files_of s.files.items;
      fails = s.fails.items;
      fetches = fetches_of s.fetches.items;
      faults = s.faults;
      memory_faults = s.memory_faults;
    } };

    ghost invariant = { λ s. NamesDiffer (files_of s.files.items) × (s.faults ≤ length s.fetches.items) };
}

impl MemoryShelf {
    /// A shelf with these files, each a name and its bytes, which fails at these fetches, counted from 1.
    pub fn new(alloc: Global, files: Vec<(String, Vec<u8>)>, fails: Vec<u64>) -> MemoryShelf
        requires { NamesDiffer (files_of files.items) }
        ensures { result ≡ new_shelf (files_of files.items) fails.items }
    {
        MemoryShelf {
            alloc,
            files,
            fails,
            fetches: Vec::new(alloc),
            faults: 0,
            memory_faults: 0,
        }
    }
}

impl Shelf for MemoryShelf {
    // It exposes its files, so no clause needs this count.
    ghost state = { λ s. record {
      holds = Some (λ name. file_at name s.files);
      fetches = Some s.fetches;
      faults = s.faults;
      memory_faults = s.memory_faults;
      bytes_read = 0;
    } };

    fn fetch(&mut self, alloc: Global, name: &str, limit: usize) -> Result<Vec<u8>, FetchFault>
        // If memory suffices, exactly one result is right; the clauses of the trait follow from these two.
        ensures answer { Answers result (next_answer self.old name.now limit) }
        ensures leaves { self.new ≡ after_fetch self.old name.now result }
    {
        let Ok(copy) = String::from_str(self.alloc, name) else {
            self.memory_faults = self.memory_faults.saturating_add(1);
            return Err(FetchFault::Memory);
        };
        let answer = if self.fails.contains(&(self.fetches.len() as u64 + 1)) {
            Err(FetchFault::Failed)
        } else {
            found(alloc, &self.files, name, limit)
        };
        if let Err(FetchFault::Memory) = answer {
            self.memory_faults = self.memory_faults.saturating_add(1);
            return answer;
        }
        let failed = matches!(answer, Err(FetchFault::Failed));
        if self.fetches.push((copy, failed)).is_err() {
            self.memory_faults = self.memory_faults.saturating_add(1);
            return Err(FetchFault::Memory);
        }
        if failed {
            self.faults += 1;
        }
        answer
    }
}

// The result of a fetch that the shelf is not configured to fail.
fn found(
    alloc: Global,
    files: &[(String, Vec<u8>)],
    name: &str,
    limit: usize,
) -> Result<Vec<u8>, FetchFault>
    ensures { Answers result (answer_of (file_at name.now (files_of files.now)) limit) }
{
    for (key, bytes) in files {
        if key.as_str() == name {
            return copied(alloc, bytes, limit);
        }
    }
    Err(FetchFault::Failed)
}

// The result of a fetch of a file with these bytes.
pub(crate) fn copied(alloc: Global, bytes: &[u8], limit: usize) -> Result<Vec<u8>, FetchFault>
    ensures { Answers result (answer_of (Some bytes.now) limit) }
{
    if bytes.len() > limit {
        return Err(FetchFault::TooLong);
    }
    bytes.to_vec(alloc).map_err(|_| FetchFault::Memory)
}

#[cfg(test)]
mod tests;
