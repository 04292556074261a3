//! How a turnstile is closed.
ghost use Rattle.std.specs.Prelude.{◌≡◌, ◌++◌, [], map, All};
ghost use Rattle.turnstile.specs.Views.{with_reports};
ghost use Rattle.turnstile.specs.Steps.{IsIdle};
ghost use Rattle.turnstile.specs.Seats.{IsOf, HasEach, seats_of, Closes};
ghost use Rattle.turnstile.specs.Joined.{report, Covers, Unseats};

use crate::board::TableSeat;
use crate::kept::Kept;
use crate::plays::JoinSeat;
use crate::tokens::Seat;
use crate::turns::Turnstile;

impl<S: Kept> Turnstile<S> {
    /// Ends the turnstile, takes every seat back, and returns the state after all turns. It never waits and allocates
    /// nothing.
    pub fn close(self, seats: Vec<Seat<S>>) -> S
        requires of { All (λ s. IsOf self s) seats.items }
        requires each { HasEach (seats_of self) seats.items }
        ensures { Closes self seats.items result }
    {
        let mut seats = seats;
        let first = seats.pop().unwrap();
        let mut table_seat = first.into_table_seat();
        self.gather(&mut table_seat, seats);
        self.unseat(table_seat)
    }

    // Joins all seats into this one.
    fn gather(&self, table_seat: &mut TableSeat<S>, seats: Vec<Seat<S>>)
        requires table { table_seat.old.table_id ≡ self.now.board.shared.table_id }
        requires idle { IsIdle table_seat.old.me }
        requires of { All (λ s. s.table_seat.table_id ≡ self.now.board.shared.table_id) seats.items }
        ensures table { (table_seat.new.table_id ≡ table_seat.old.table_id) × (table_seat.new.id ≡ table_seat.old.id) }
        ensures me { table_seat.new.me ≡ (with_reports table_seat.old.me.0 (map report seats.items ++ table_seat.old.me.0.joined), []) }
    {
        let mut seats = seats;
        while let Some(seat) = seats.pop() {
            self.board
                .shared
                .join_seat::<JoinSeat>(table_seat, seat.into_table_seat());
        }
    }

    // Takes the state out of the table, once one seat has taken in all others.
    fn unseat(self, table_seat: TableSeat<S>) -> S
        requires table { table_seat.table_id ≡ self.board.shared.table_id }
        requires idle { IsIdle table_seat.me }
        requires all { Covers (seats_of self) table_seat.me.0 }
        ensures { Unseats S.Kept self table_seat.me.0 result }
    {
        let Turnstile {
            board,
            parkers: _,
            resting: _,
        } = self;
        let mut closed = board.close_with(table_seat);
        let state = closed.take(0);
        closed.free();
        state.unwrap()
    }
}
