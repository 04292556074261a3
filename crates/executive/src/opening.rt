//! How an executive is made, with its passes.
ghost use Rattle.std.specs.Prelude.{◌≡◌, ◌-◌, ◌≤◌, [], ◌∷◌, None, IfOk, IfErr, vec_len, vec_capacity, All, length, option_map};
ghost use Rattle.status_board.specs.Logs.{start};
ghost use Rattle.status_board.specs.Tokens.{board_id, writer_board, seen};
ghost use Rattle.executive.specs.Shows.{HasShown};
ghost use Rattle.turnstile.specs.Seats.{IsOf};
ghost use Rattle.turnstile.specs.Seats as turn_seats;
ghost use Rattle.executive.specs.Counts.{tally};
ghost use Rattle.executive.specs.Opening.{AreFresh};
ghost use Rattle.executive.specs.Passes.{floor_of};
ghost use Rattle.executive.specs.Watching.{IsWatcherOf};

use crate::count::Count;
use crate::executive::{Executive, Reserved};
use crate::heap_floor::HeapFloor;
use crate::pass::{CountedSeat, TaskPass};
use crate::state::State;
use mc_task::TaskNo;
use status_board::{Board, Watcher, Writer};
use std::alloc::Global;
use std::sync::{Mutex, Wait};
use timetable::Floor;
use turnstile::{NewFault, Seat, Turnstile};

/// Out of memory. The floor comes back.
#[derive(Drop)]
pub struct NoMemory {
    pub floor: Floor,
}

impl Executive {
    /// An executive over a floor with no rows and no granted tick, without a board, and a pass for each task in the
    /// order of their numbers. Fails with `NoMemory` if an allocation fails; no later call allocates.
    pub fn new<R: Wait>(
        rt: &R,
        alloc: Global,
        floor: Floor,
    ) -> Result<(Executive, Vec<TaskPass>), NoMemory>
        requires rows { floor.core.rows ≡ [] }
        requires out { floor.core.out ≡ None }
        ensures floor { IfOk result (λ r. floor_of r.0 ≡ floor) }
        ensures passes { IfOk result (λ r. (vec_len r.1 ≡ length floor.core.set) × AreFresh r.0 r.1.items) }
        ensures memory { IfErr result (λ e. e.floor ≡ floor) }
    {
        let _ = rt;
        Executive::open(alloc, floor, None, None)
    }

    /// An executive with a board, which shows the number of ticks that ended and the mode, a pass for each task in the
    /// order of their numbers, and 1 to 128 watchers of the board. Fails with `NoMemory` if an allocation fails; no
    /// later call allocates.
    pub fn with_watchers<R: Wait>(
        rt: &R,
        alloc: Global,
        floor: Floor,
        watchers: u32,
    ) -> Result<(Executive, Vec<TaskPass>, Vec<Watcher>), NoMemory>
        requires rows { floor.core.rows ≡ [] }
        requires out { floor.core.out ≡ None }
        requires watchers { (1 ≤ watchers) × (watchers ≤ 128) }
        ensures floor { IfOk result (λ r. floor_of r.0 ≡ floor) }
        ensures passes { IfOk result (λ r. (vec_len r.1 ≡ length floor.core.set) × AreFresh r.0 r.1.items) }
        ensures watchers { IfOk result (λ r. (vec_len r.2 ≡ watchers) × All (λ w. IsWatcherOf r.0 w × (seen w ≡ start ∷ [])) r.2.items) }
        ensures memory { IfErr result (λ e. e.floor ≡ floor) }
    {
        let _ = rt;
        let Ok((board, writer, list)) = Board::new(alloc, watchers) else {
            return Err(NoMemory { floor });
        };
        let (executive, passes) = Executive::open(alloc, floor, Some(board), Some(writer))?;
        Ok((executive, passes, list))
    }

    // An executive, with the board and its writer if there is one.
    fn open(
        alloc: Global,
        floor: Floor,
        board: Option<Board>,
        writer: Option<Writer>,
    ) -> Result<(Executive, Vec<TaskPass>), NoMemory>
        requires rows { floor.core.rows ≡ [] }
        requires out { floor.core.out ≡ None }
        requires board { option_map writer_board writer ≡ option_map board_id board }
        requires shown { HasShown (start ∷ []) writer }
        ensures floor { IfOk result (λ r. floor_of r.0 ≡ floor) }
        ensures passes { IfOk result (λ r. (vec_len r.1 ≡ length floor.core.set) × AreFresh r.0 r.1.items) }
        ensures board { IfOk result (λ r. r.0.board ≡ board) }
        ensures memory { IfErr result (λ e. e.floor ≡ floor) }
    {
        // The core is sound, which `Turnstile::new` asks of the state.
        let _sound = floor.core().ticks();
        let tasks = floor.core().set().len();
        let Ok(list) = Vec::with_capacity(alloc, 128) else {
            return Err(NoMemory { floor });
        };
        let Ok(mut passes) = Vec::with_capacity(alloc, tasks as usize) else {
            return Err(NoMemory { floor });
        };
        let called = match HeapFloor::new(alloc, floor) {
            Ok(called) => called,
            Err(floor) => return Err(NoMemory { floor }),
        };
        let state = State { called, writer };
        match Turnstile::new(alloc, state, tasks) {
            Ok((turns, seats)) => {
                let executive = Executive {
                    turns,
                    reserved: Mutex::new(Reserved { list }),
                    tasks,
                    board,
                };
                executive.make_passes(seats, &mut passes);
                Ok((executive, passes))
            }
            Err(NewFault::Memory(state)) => {
                let State { called, writer: _ } = state;
                Err(NoMemory {
                    floor: called.into_floor(),
                })
            }
        }
    }

    // Makes a pass of each seat.
    fn make_passes(&self, seats: Vec<Seat<State>>, passes: &mut Vec<TaskPass>)
        requires seats { (vec_len seats ≡ self.now.tasks) × turn_seats.AreFresh seats.items × All (λ s. IsOf self.now.turns s) seats.items }
        requires room { (vec_len passes.old ≡ 0) × (self.now.tasks ≤ vec_capacity passes.old) }
        ensures { (vec_len passes.new ≡ self.now.tasks) × AreFresh self.now passes.new.items }
    {
        let mut task = 0;
        for seat in seats {
            task += 1;
            passes.push_reserved(new_counted_seat(TaskNo(task), seat).at_rest());
        }
    }
}

// A task that made no call.
fn new_counted_seat(task: TaskNo, seat: Seat<State>) -> CountedSeat
    requires some { 1 ≤ task.0 }
    requires seat { turn_seats.IsFresh (task.0 - 1) seat }
    ensures { (result.task ≡ task) × (result.seat ≡ seat) × (result.count ≡ tally []) }
{
    CountedSeat {
        task,
        count: Count::ZERO,
        seat,
    }
}
