//! The executive, and one call on it.
ghost use Rattle.std.specs.Prelude.{◌≡◌, ◌-◌, ◌≤◌, ◌++◌, ◌∷◌, [], vec_capacity, vec_len, length, option_map};
ghost use Rattle.std.specs.Coded.{Coded-set, coded_option};
ghost use Rattle.mc_task.specs.TaskSet.{IsIn};
ghost use Rattle.turnstile.specs.Seats.{seats_of, IsOf, IsTurnOf, number, mine, seen, fixed_part, history, state_of, turn_number};
ghost use Rattle.status_board.specs.Ids.{board_id_coded};
ghost use Rattle.status_board.specs.Tokens.{board_id};
ghost use Rattle.executive.specs.Histories.{MayCall, entry, calls_of};
ghost use Rattle.executive.specs.Stands.{opened, Stands};
ghost use Rattle.executive.specs.Seats.{lists, lists_left, floor_seen};

use crate::entry::{Answer, Call};
use crate::pass::CountedSeat;
use crate::state::State;
use mc_task::TaskNo;
use status_board::Board;
use std::marker::Brand;
use std::sync::{Mutex, Wait};
use turnstile::{Seat, Turn, Turnstile};

// An empty list with capacity for each seat.
#[derive(Drop)]
pub(crate) struct Reserved {
    pub(crate) list: Vec<Seat<State>>,
    ghost empty: { vec_len list ≡ 0 },
    ghost room: { 128 ≤ vec_capacity list },
}

/// A floor that threads share. Only `close` ends it.
pub struct Executive {
    pub(crate) turns: Turnstile<State>,
    // A list of seats cannot be shared with other threads, but a lock around it can. Only `close` takes it out.
    pub(crate) reserved: Mutex<Reserved>,
    pub(crate) tasks: u32,
    // The writer in the shared state is the writer of this board.
    pub(crate) board: Option<Board>,
    ghost seats: { tasks ≡ seats_of turns },
    ghost few: { tasks ≤ 128 },
    ghost set: { tasks ≡ length (fixed_part opened turns).floor.core.set },
    ghost beside: { (fixed_part opened turns).board ≡ option_map board_id board } by { Coded-set (coded_option board_id_coded) _ _ },
}

impl Executive {
    ghost use Rattle.executive.specs.Passes.{floor_of, IsCountedSeatOf, of_counted_seat, Adds, Calls};

    // Makes a call, whose answer is counted.
    //
    // Each function on the way to the core is inlined, here and in turnstile, timetable and mode_core, so that each
    // kind of call has code of its own. One function for all kinds would branch on the kind three times and clear a
    // large frame first: a tick of the avionics set would take 660 instructions, not 369.
    #[inline(always)]
    pub(crate) fn call<R: Wait>(
        &self,
        rt: &R,
        counted_seat: CountedSeat,
        call: Call,
    ) -> (CountedSeat, Answer)
        requires of { IsCountedSeatOf self.now counted_seat }
        requires may { MayCall (floor_seen (lists counted_seat.seat)) counted_seat.task.0 call }
        ensures of { IsCountedSeatOf self.now result.0 }
        ensures calls { Calls call result.1 (of_counted_seat counted_seat) (of_counted_seat result.0) }
    {
        let CountedSeat { task, count, seat } = counted_seat;
        let (seat, answer) = self.turn(rt, seat, task, call);
        (CountedSeat::counted(task, count, seat, &answer), answer)
    }

    // One turn of the task's seat.
    #[inline(always)]
    fn turn<R: Wait>(
        &self,
        rt: &R,
        seat: Seat<State>,
        task: TaskNo,
        call: Call,
    ) -> (Seat<State>, Answer)
        requires of { IsOf self.now.turns seat }
        requires number { number seat ≡ task.0 - 1 }
        requires whole { mine seat ≡ calls_of task.0 (seen seat) }
        requires in_set { IsIn (floor_of self.now).core.set task.0 }
        requires may { MayCall (floor_seen (lists seat)) task.0 call }
        ensures of { IsOf self.now.turns result.0 }
        ensures number { number result.0 ≡ task.0 - 1 }
        ensures adds { Adds (entry task.0 call result.1) (lists seat) (lists result.0) }
    {
        let (turn, answer) = self.begin(rt, seat, task, call);
        (self.turns.leave::<Brand>(turn), answer)
    }

    // A turn in which the task's call was made, and which must still be left.
    #[inline(always)]
    pub(crate) fn begin<R: Wait>(
        &self,
        rt: &R,
        seat: Seat<State>,
        task: TaskNo,
        call: Call,
    ) -> (Turn<'_, State>, Answer)
        requires of { IsOf self.now.turns seat }
        requires number { number seat ≡ task.0 - 1 }
        requires whole { mine seat ≡ calls_of task.0 (seen seat) }
        requires in_set { IsIn (floor_of self.now).core.set task.0 }
        requires may { MayCall (floor_seen (lists seat)) task.0 call }
        ensures of { IsTurnOf self.now.turns result.0 }
        ensures number { turn_number result.0 ≡ task.0 - 1 }
        ensures adds { Adds (entry task.0 call result.1) (lists seat) (lists_left result.0) }
        ensures last { (state_of result.0).called.last ≡ entry task.0 call result.1 }
        ensures stands { Stands (history result.0 ++ (state_of result.0).called.last ∷ []) (state_of result.0) }
        ensures fixed { opened (state_of result.0) ≡ fixed_part opened self.now.turns }
    {
        let mut turn = self.turns.enter(rt, seat);
        let answer = turn.state().act(&self.board, task, call);
        (turn, answer)
    }
}
