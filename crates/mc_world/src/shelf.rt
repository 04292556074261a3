//! The trait of shelves: files that are fetched by name.
ghost use Rattle.std.specs.Prelude.{◌≡◌, ◌<◌, ◌≤◌, ◌^◌, ◌++◌, [], ◌∷◌, List, ℕ, length, Option, Some, None, option_map, IfOk, IfSome, IsSome, IsSomeAnd, IsErrOf, ◌⊎◌};
ghost use Rattle.mc_world.specs.Count.{Rose, RoseByMoreThan};
ghost use Rattle.mc_world.specs.Shelf.{ShelfState, fetch_of, is_failed};

use std::alloc::Global;

/// Why a fetch returns no bytes.
#[derive(Clone, Copy, Debug, PartialEq, Eq)]
pub enum FetchFault {
    /// The shelf failed, for example because it has no file of that name.
    Failed,
    /// The file has more bytes than the limit.
    TooLong,
    /// Out of memory: for the bytes, or for what the shelf stores.
    Memory,
}

/// Files that are fetched whole, by name.
pub trait Shelf {
    /// The shelf in contracts: its files, if it exposes them, and its counts.
    ghost state: { Self → ShelfState };

    /// The bytes of the file of that name, if there are at most `limit`.
    fn fetch(&mut self, alloc: Global, name: &str, limit: usize) -> Result<Vec<u8>, FetchFault>
        requires { limit < 2 ^ 40 }

        // If the shelf exposes its files, `Ok` has the bytes of the file.
        ensures bytes { IfOk result (λ bytes. IfSome (state self.old).holds (λ files.
            files name.now ≡ Some bytes.items)) }
        ensures short { IfOk result (λ bytes. length bytes.items ≤ limit) }

        // `Failed` comes only if the count of faults rose, and the count rises with no other result.
        ensures failed { IsErrOf result FetchFault.Failed → Rose (state self.old).faults (state self.new).faults }
        ensures never_falls { (state self.old).faults ≤ (state self.new).faults }
        ensures no_fault { ((state self.new).faults ≡ (state self.old).faults) ⊎ IsErrOf result FetchFault.Failed }

        // `Memory` comes only if the count of fetches out of memory rose, and that count rises with no other result.
        ensures memory_faults { IsErrOf result FetchFault.Memory → Rose (state self.old).memory_faults (state self.new).memory_faults }
        ensures no_memory_fault { ((state self.new).memory_faults ≡ (state self.old).memory_faults) ⊎ IsErrOf result FetchFault.Memory }

        // `TooLong` means that the bytes of the file exceed the limit; if the shelf does not expose them, that more
        // bytes than the limit were read.
        ensures long { IsErrOf result FetchFault.TooLong → IfSome (state self.old).holds (λ files.
            IsSomeAnd (files name.now) (λ bytes. limit < length bytes)) }
        ensures long_hidden { IsErrOf result FetchFault.TooLong → (state self.old).holds ≡ None
            → RoseByMoreThan limit (state self.old).bytes_read (state self.new).bytes_read }
        ensures more_read { (state self.old).bytes_read ≤ (state self.new).bytes_read }

        // The files stay, and each call with enough memory is added to the fetches, which are exposed if the files are.
        ensures same { (state self.new).holds ≡ (state self.old).holds }
        ensures memory { IsErrOf result FetchFault.Memory → (state self.new).fetches ≡ (state self.old).fetches }
        ensures adds { IsErrOf result FetchFault.Memory ⊎ ((state self.new).fetches
            ≡ option_map (λ fetches. fetches ++ fetch_of name.now (is_failed result) ∷ []) (state self.old).fetches) }
        ensures exposes { IsSome (state self.old).holds → IsSome (state self.old).fetches };
}
