//! The board, and how pairs are shown and read.
ghost use Rattle.std.specs.Prelude.{◌≡◌, ◌+◌, ◌≤◌, ◌^◌, ◌++◌, ◌∷◌, []};
ghost use Rattle.status_board.specs.Logs.{StartsWith, start, last_of, word_of};

use crate::plays::{BoardRule, JoinToken, LoadWord, Show, SplitToken};
use crate::shown::{Shown, TokenView};
use crate::tokens::{Watcher, Writer};
use atomic_table::Table;
use std::alloc::Global;

// The table's word for a pair: twice the ticks, and 1 more in high mode.
const WORD: usize = 0;

/// A board that shows one pair of ticks and mode at a time.
#[derive(Drop)]
pub struct Board {
    pub(crate) table: Table<(), TokenView, (), BoardRule, Global>,
    ghost sized: { table.shared.table_id.words ≡ 1 },
}

// The word for a pair.
fn word(now: Shown) -> u64
    requires { now.ticks ≤ 2 ^ 62 }
    ensures { result ≡ word_of now }
{
    2 * now.ticks + u64::from(now.high_mode)
}

impl Board {
    ghost use Rattle.status_board.specs.Tokens.{shown, seen, IsWriterOf, IsWatcherOf};

    /// Shows one more pair, with one tick more than the last. It never waits.
    pub fn show(&self, writer: &mut Writer, now: Shown)
        requires of { IsWriterOf self.now writer.old }
        requires next { now.ticks ≡ (last_of start (shown writer.old)).ticks + 1 }
        requires few { now.ticks ≤ 2 ^ 62 }
        ensures of { IsWriterOf self.now writer.new }
        ensures shown { shown writer.new ≡ shown writer.old ++ now ∷ [] }
    {
        self.table
            .shared
            .store::<Show>(&mut writer.seat, WORD, word(now));
    }

    /// The pair that the board shows now. It never waits.
    pub fn read(&self, watcher: &mut Watcher) -> Shown
        requires of { IsWatcherOf self.now watcher.old }
        ensures of { IsWatcherOf self.now watcher.new }
        ensures begins { StartsWith (seen watcher.new) (seen watcher.old) }
        ensures last { result ≡ last_of start (seen watcher.new) }
    {
        let found = self.table.shared.load::<LoadWord>(&mut watcher.seat, WORD);
        Shown {
            ticks: found / 2,
            high_mode: found % 2 == 1,
        }
    }

    /// From now on the watcher sees no less than the writer has shown so far. It never waits.
    pub fn tell(&self, writer: &mut Writer, watcher: &mut Watcher)
        requires of { IsWriterOf self.now writer.old × IsWatcherOf self.now watcher.old }
        ensures of { IsWriterOf self.now writer.new × IsWatcherOf self.now watcher.new }
        ensures shown { shown writer.new ≡ shown writer.old }
        ensures begins { StartsWith (seen watcher.new) (seen watcher.old) }
        ensures learned { StartsWith (seen watcher.new) (shown writer.old) }
    {
        let shared = &self.table.shared;
        let note = shared.split_seat::<SplitToken>(&mut writer.seat);
        shared.join_seat::<JoinToken>(&mut watcher.seat, note);
        shared.load::<LoadWord>(&mut watcher.seat, WORD);
    }
}
