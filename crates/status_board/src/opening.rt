//! How a board is made, with its tokens.
ghost use Rattle.std.specs.Prelude.{◌≡◌, ◌≤◌, ◌∷◌, [], IfOk, vec_len, vec_capacity, All};
ghost use Rattle.status_board.specs.Logs.{start};
ghost use Rattle.status_board.specs.Tokens.{shown, IsWriterOf, IsFresh};

use crate::board::Board;
use crate::plays::SplitToken;
use crate::tokens::{Watcher, Writer};
use atomic_table::Table;
use std::alloc::Global;

/// Out of memory.
#[derive(Clone, Copy, Debug, PartialEq, Eq, Drop)]
pub struct Memory;

impl Board {
    /// A board that shows (0, low), with its one writer and 1 to 128 watchers. Fails with `Memory` if an allocation
    /// fails; no later call allocates.
    pub fn new(alloc: Global, watchers: u32) -> Result<(Board, Writer, Vec<Watcher>), Memory>
        requires { (1 ≤ watchers) × (watchers ≤ 128) }
        ensures writer { IfOk result (λ r. IsWriterOf r.0 r.1 × (shown r.1 ≡ start ∷ [])) }
        ensures watchers { IfOk result (λ r. (vec_len r.2 ≡ watchers) × All (IsFresh r.0) r.2.items) }
    {
        let Ok(mut list) = Vec::with_capacity(alloc, watchers as usize) else {
            return Err(Memory);
        };
        let Ok((table, seat)) = Table::of_words(alloc, &[0], &()) else {
            return Err(Memory);
        };
        let board = Board { table };
        let mut writer = Writer { seat };
        board.make_watchers(&mut writer, watchers, &mut list);
        Ok((board, writer, list))
    }

    // Makes this number of watchers, each with a copy of what the writer showed.
    fn make_watchers(&self, writer: &mut Writer, watchers: u32, list: &mut Vec<Watcher>)
        requires writer { IsWriterOf self.now writer.old × (shown writer.old ≡ start ∷ []) }
        requires room { (list.old.items ≡ []) × (watchers ≤ vec_capacity list.old) }
        ensures writer { IsWriterOf self.now writer.new × (shown writer.new ≡ shown writer.old) }
        ensures watchers { (vec_len list.new ≡ watchers) × All (IsFresh self.now) list.new.items }
    {
        for _place in 0..watchers {
            list.push_reserved(self.watcher(writer));
        }
    }

    // One more watcher, which has seen what the writer showed.
    fn watcher(&self, writer: &mut Writer) -> Watcher
        requires of { IsWriterOf self.now writer.old }
        requires first { shown writer.old ≡ start ∷ [] }
        ensures writer { IsWriterOf self.now writer.new × (shown writer.new ≡ shown writer.old) }
        ensures watcher { IsFresh self.now result }
    {
        Watcher {
            seat: self.table.shared.split_seat::<SplitToken>(&mut writer.seat),
        }
    }
}
