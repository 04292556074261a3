//! The result of each kind of step. These types are used in proofs alone.
ghost use Rattle.turnstile.specs.Steps.{Draws, Looks, PassesOn};
ghost use Rattle.turnstile.specs.Views.{older_view, next_view, both_views, spent_view};

use crate::board::SeatView;
use crate::kept::{Added, Kept};
use atomic_table::{Join, Play, Split};
use std::marker::PhantomData;

/// A step that draws a ticket.
pub struct Draw;

impl<S, E, F> Play<Option<S>, SeatView<E, F>> for Draw {
    ghost then = { Draws };
}

/// A look at the ticket that is served.
pub struct LookAtServing;

impl<S: Kept> Play<Option<S>, SeatView<S::Entry, S::Fixed>> for LookAtServing {
    ghost then = { Looks S.Kept };
}

/// A step that ends the turn with E's entry.
pub struct PassOn<E> {
    marker: PhantomData<E>,
}

impl<S, T, F, E: Added<T>> Play<Option<S>, SeatView<T, F>> for PassOn<E> {
    ghost then = { PassesOn E.entry };
}

/// A step that makes one more seat.
pub struct SplitSeat;

impl<E, F> Split<SeatView<E, F>> for SplitSeat {
    ghost left = { older_view };

    ghost right = { next_view };
}

/// A step that joins a seat into another, which keeps its report.
pub struct JoinSeat;

impl<E, F> Join<SeatView<E, F>> for JoinSeat {
    ghost both = { both_views };

    ghost spent = { spent_view };
}
