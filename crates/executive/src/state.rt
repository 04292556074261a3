//! The state that the passes share: the floor, the last call, and the writer of the board.
ghost use Rattle.std.specs.Prelude.{◌≡◌, ◌+◌, ◌≤◌, ◌^◌, ◌++◌, ◌∷◌, [], List, option_map};
ghost use Rattle.mc_task.specs.TaskSet.{IsIn};
ghost use Rattle.executive.specs.Histories.{MayCall, answer_to, after_call, entry};
ghost use Rattle.executive.specs.Stands.{IsKept};
ghost use Rattle.executive.specs.Shows.{HasShown, IsUpTo, shows_now};
ghost use Rattle.mc_model.specs.Rows.{ticks};
ghost use Rattle.status_board.specs.Tokens.{board_id, writer_board, watcher_board, seen};
ghost use Rattle.status_board.specs.declared.shown.Shown.{Shown};

use crate::entry::{Answer, Call, Entry};
use crate::heap_floor::HeapFloor;
use mc_task::TaskNo;
use status_board::{Board, BoardId, Shown, Watcher, Writer};
use std::marker::Brand;
use timetable::Floor;
use turnstile::{Added, Kept};

/// The floor with the last entry of the history, and the writer, if there is a board.
#[derive(Drop)]
pub struct State {
    pub(crate) called: HeapFloor,
    pub(crate) writer: Option<Writer>,
}

/// The part of the state that no call changes. No value of this type is ever made.
pub struct Opened {
    /// The floor before any call.
    pub floor: Floor,
    /// The name of the board, if there is one.
    pub board: Option<BoardId>,
}

impl Kept for State {
    ghost use Rattle.executive.specs.Stands.{Stands, opened};
    ghost use Rattle.executive.specs.Histories.{seat_number};

    type Entry = Entry;

    type Fixed = Opened;

    ghost stands = { λ first log s. Stands log s };

    ghost by = { seat_number };

    ghost fixed = { opened };
}

impl Added<Entry> for Brand {
    ghost use Rattle.executive.specs.Histories.{no_entry};

    ghost entry = { no_entry };
}

impl State {
    // Makes one call of a task. If there is a board, a tick that the call ends is shown there.
    #[inline(always)]
    pub(crate) fn act(&mut self, board: &Option<Board>, task: TaskNo, call: Call) -> Answer
        requires in_set { IsIn self.old.called.floor.core.set task.0 }
        requires may { MayCall self.old.called.floor task.0 call }
        requires board { option_map writer_board self.old.writer ≡ option_map board_id board.now }
        requires shown { IsUpTo (ticks self.old.called.floor.core.rows) self.old.writer }
        ensures answer { result ≡ answer_to self.old.called.floor task.0 call }
        ensures floor { self.new.called.floor ≡ after_call self.old.called.floor task.0 call }
        ensures last { self.new.called.last ≡ entry task.0 call result }
        ensures kept { IsKept self.new.called.floor }
        ensures board { option_map writer_board self.new.writer ≡ option_map writer_board self.old.writer }
        ensures shown { (log : List Shown) → HasShown log self.old.writer → HasShown (log ++ shows_now self.new.called.floor result) self.new.writer }
    {
        let answer = self.called.answer(task, call);
        if answer.ends_tick() {
            show(board, &mut self.writer, self.called.shown());
        }
        answer
    }
}

impl State {
    ghost use Rattle.turnstile.specs.History.{StartsWith};
    ghost use Rattle.std.specs.Prelude.{Some};

    // Brings the watcher up to what was shown.
    pub(crate) fn tell(&mut self, board: &Option<Board>, watcher: &mut Watcher)
        requires board { option_map writer_board self.old.writer ≡ option_map board_id board.now }
        requires watcher { option_map board_id board.now ≡ Some (watcher_board watcher.old) }
        ensures same { (self.new.called.floor ≡ self.old.called.floor) × (self.new.called.last ≡ self.old.called.last) }
        ensures board { option_map writer_board self.new.writer ≡ option_map writer_board self.old.writer }
        ensures watcher { watcher_board watcher.new ≡ watcher_board watcher.old }
        ensures shown { (log : List Shown) → HasShown log self.old.writer → HasShown log self.new.writer }
        ensures begins { StartsWith (seen watcher.new) (seen watcher.old) }
        ensures learned { (log : List Shown) → HasShown log self.old.writer → StartsWith (seen watcher.new) log }
    {
        match self.writer.take() {
            Some(mut writer) => match board {
                Some(board) => {
                    board.tell(&mut writer, watcher);
                    self.writer = Some(writer);
                }
                None => unreachable!(),
            },
            None => unreachable!(),
        }
    }
}

// Shows one more pair, if there is a board.
fn show(board: &Option<Board>, writer: &mut Option<Writer>, now: Shown)
    requires board { option_map writer_board writer.old ≡ option_map board_id board.now }
    requires next { (ticks : _) × IsUpTo ticks writer.old × (now.ticks ≡ ticks + 1) }
    requires few { now.ticks ≤ 2 ^ 62 }
    ensures board { option_map writer_board writer.new ≡ option_map writer_board writer.old }
    ensures shown { (log : List Shown) → HasShown log writer.old → HasShown (log ++ now ∷ []) writer.new }
{
    match writer.take() {
        None => {}
        Some(mut inner) => match board {
            Some(board) => {
                board.show(&mut inner, now);
                *writer = Some(inner);
            }
            None => unreachable!(),
        },
    }
}
