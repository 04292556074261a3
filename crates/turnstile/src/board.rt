//! The table under a turnstile. Its words are the next ticket and the served one; its one slot has the state.
use crate::kept::Kept;
use atomic_table::{Table, TableRule};
use std::alloc::Global;
use std::collections::LinkedList;
use std::marker::PhantomData;
use std::snapshot::Snapshot;

/// What a seat reports when it is joined into another: its number, the history that it saw, and the entries that it
/// made. No value of this type is ever made.
pub struct Report<E> {
    pub number: u64,
    pub seen: LinkedList<E>,
    pub mine: LinkedList<E>,
}

/// What a seat knows. No value of this type is ever made.
pub struct SeatView<E, F> {
    /// The seat's number.
    pub number: u64,
    /// Whether the seat was not joined into another.
    pub live: bool,
    /// Whether the seat drew a ticket, and has not ended its turn.
    pub has_ticket: bool,
    /// Whether the seat's ticket is served.
    pub served: bool,
    /// The seat's ticket, if it has one.
    pub ticket: u64,
    /// Whether the seat was made last; it then makes the next one.
    pub is_newest: bool,
    /// The number of the next seat that this seat would make.
    pub next_number: u64,
    /// The history up to the end of the seat's last turn, or during a turn up to its beginning.
    pub seen: LinkedList<E>,
    /// The entries that the seat made.
    pub mine: LinkedList<E>,
    /// The reports of the seats that were joined into this one.
    pub joined: LinkedList<Report<E>>,
    /// How many seats the turnstile will have.
    pub seats: u64,
    /// The part of the state that no turn changes.
    pub fixed: Option<F>,
}

/// What the table is given when it is opened: the number of seats, and the first state.
#[derive(Drop)]
pub struct Opening<S> {
    pub seats: u64,
    pub state: Snapshot<S>,
}

/// The rule that each step keeps.
pub struct TicketRule<S> {
    marker: PhantomData<S>,
}

impl<S: Kept> TableRule<Option<S>, SeatView<S::Entry, S::Fixed>, Opening<S>> for TicketRule<S> {
    ghost use Rattle.turnstile.specs.Rule.{Orderly};
    ghost use Rattle.turnstile.specs.Views.{newest_view};

    ghost holds = { λ key. Orderly S.Kept (S.fixed key.state.value) key.seats };

    ghost first = { λ key. newest_view (S.fixed key.state.value) key.seats 0 };
}

/// The table of a turnstile.
pub type TicketTable<S> = Table<
    Option<S>,
    SeatView<<S as Kept>::Entry, <S as Kept>::Fixed>,
    Opening<S>,
    TicketRule<S>,
    Global,
>;

/// A seat at the table, with which a thread makes steps.
pub type TableSeat<S> = atomic_table::Seat<
    Option<S>,
    SeatView<<S as Kept>::Entry, <S as Kept>::Fixed>,
>;
