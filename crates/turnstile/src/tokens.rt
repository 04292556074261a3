//! The tokens that threads own: seats, and turns.
ghost use Rattle.std.specs.Prelude.{◌≡◌};
ghost use Rattle.turnstile.specs.Steps.{IsIdle, IsServed};

use crate::board::TableSeat;
use crate::kept::Kept;
use crate::turns::Turnstile;
use std::marker::PhantomData;

/// The right to take turns at one turnstile. In contracts it has a number and two lists of entries: `seen`, a beginning
/// of the history, and `mine`, the entries that this seat made. It has no bytes. If a seat is dropped, its turnstile
/// cannot be closed.
pub struct Seat<S: Kept> {
    pub(crate) table_seat: TableSeat<S>,
    ghost idle: { IsIdle table_seat.me },
}

// A seat that has the turn. It is separate from the state, so that the state can be lent without it.
pub(crate) struct Claim<S: Kept> {
    pub(crate) table_seat: TableSeat<S>,
    ghost served: { IsServed table_seat.me },
}

/// A turn: the state, taken out of its turnstile, and the seat. Only `Turnstile::leave` ends it.
pub struct Turn<'a, S: Kept> {
    pub(crate) claim: Claim<S>,
    pub(crate) state: S,
    pub(crate) of: PhantomData<&'a Turnstile<S>>,
}

impl<S: Kept> Drop for Seat<S> {
    fn drop(self) {
        let Seat { table_seat: _ } = self;
    }
}

impl<S: Kept> Seat<S> {
    pub(crate) fn of(table_seat: TableSeat<S>) -> Seat<S>
        requires { IsIdle table_seat.me }
        ensures { result.table_seat ≡ table_seat }
    {
        Seat { table_seat }
    }

    pub(crate) fn into_table_seat(self) -> TableSeat<S>
        ensures { (result ≡ self.table_seat) × IsIdle result.me }
    {
        let Seat { table_seat } = self;
        table_seat
    }
}

impl<'a, S: Kept> Turn<'a, S> {
    ghost use Rattle.std.specs.Borrow.{sem};
    ghost use Rattle.turnstile.specs.Lending.{LendsState};
    ghost use Rattle.turnstile.specs.Seats.{state_of};

    /// The state, to read and to write.
    pub fn state(&mut self) -> &mut S
        ensures* writes_back { sem 𝓛 (LendsState S.row S.Entry.row S.Fixed.row S.Kept self.entry result) }
        ensures value { result.now ≡ state_of self.old }
    {
        &mut self.state
    }
}
