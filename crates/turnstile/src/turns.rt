//! The turnstile, and how a turn begins and ends.
ghost use Rattle.std.specs.Prelude.{◌≡◌, ◌+◌, ◌%◌, ◌^◌, ◌<◌, [], ◌∷◌, ◌++◌, IfSome, IfNone, None};
ghost use Rattle.turnstile.specs.History.{StartsWith, made_by};
ghost use Rattle.turnstile.specs.Views.{drawn_view};
ghost use Rattle.turnstile.specs.Steps.{IsIdle, IsWaiting, Serves};

use crate::board::{TableSeat, TicketTable};
use crate::kept::{Added, Kept};
use crate::plays::{Draw, LookAtServing, PassOn};
use crate::tokens::{Claim, Seat, Turn};
use crossbeam_utils::Backoff;
use std::marker::PhantomData;
use std::sync::Wait;
use std::sync::atomic::AtomicU64;
use std::sync::atomic::Ordering::SeqCst;
use std::thread::Parker;
use std::time::Duration;

// The words of the table: the next ticket, and the ticket that is served.
const NEXT: usize = 0;

const SERVING: usize = 1;

// At least the number of tickets that can wait at once, so that waiting tickets have different parkers.
const PLACES: usize = 128;

// A thread whose ticket is not served spins and looks this often, and then rests: if more threads run than there are
// processors, a thread that spins or yields keeps the one with the turn from its work.
const SPINS: u32 = 10;

/// A state that threads take in ticket order. Only `close` ends it.
pub struct Turnstile<S: Kept> {
    pub(crate) board: TicketTable<S>,
    // Threads whose tickets are not served rest here, each at the parker of its ticket. A late wake-up costs only time.
    pub(crate) parkers: [Parker; PLACES],
    // How many threads rest, or are about to.
    pub(crate) resting: AtomicU64,
    ghost sized: { (board.shared.table_id.words ≡ 2) × (board.shared.table_id.slots ≡ 1) },
    ghost some: { 0 < board.shared.key.seats },
}

impl<S: Kept> Turnstile<S> {
    ghost use Rattle.turnstile.specs.Seats.{IsOf, IsTurnOf, number, seen, mine, history, state_of, turn_number, turn_mine, fixed_part};

    /// Draws a ticket, waits until it is served, and takes the state. It may wait for other turns to end; nothing is
    /// proved about how long. After a look that finds another ticket it backs off; after some of these looks it sleeps
    /// until another thread's `leave` wakes it, or for a while.
    #[inline(always)]
    pub fn enter<R: Wait>(&self, rt: &R, seat: Seat<S>) -> Turn<'_, S>
        requires of { IsOf self.now seat }
        ensures of { IsTurnOf self.now result }
        ensures seat { (turn_number result ≡ number seat) × (turn_mine result ≡ mine seat) }

        // There is one history: it begins with what the seat saw, and its entries with the seat's number are those that
        // the seat made.
        ensures begins { StartsWith (history result) (seen seat) }
        ensures own { mine seat ≡ made_by S.by (number seat) (history result) }
        ensures stands { S.stands 0 (history result) (state_of result) }
        ensures fixed { S.fixed (state_of result) ≡ fixed_part S.fixed self.now }
    {
        let mut table_seat = seat.into_table_seat();
        let ticket = self.draw(&mut table_seat);
        let backoff = Backoff::new();
        let mut spun = 0;
        let mut rests = false;
        for _ in rt.forever() {
            if let Some(state) = self.look(&mut table_seat, ticket) {
                if rests {
                    self.resting.fetch_sub(1, SeqCst);
                }
                return Turn {
                    claim: Claim { table_seat },
                    state,
                    of: PhantomData,
                };
            }
            if spun < SPINS {
                spun += 1;
                backoff.spin();
            } else if rests {
                self.rest(rt, ticket);
            } else {
                // Counted before one more look, so that either this look sees the `leave` before the turn, or that
                // `leave` sees the count.
                self.resting.fetch_add(1, SeqCst);
                rests = true;
            }
        }
        unreachable!()
    }

    /// Puts the state back, which stands for one more entry of this seat, and ends the turn. It never waits and
    /// allocates nothing.
    pub fn leave<E: Added<S::Entry>>(&self, turn: Turn<'_, S>) -> Seat<S>
        requires of { IsTurnOf self.now turn }
        requires by { S.by E.entry ≡ turn_number turn }
        requires stands { S.stands 0 (history turn ++ E.entry ∷ []) (state_of turn) }
        requires fixed { S.fixed (state_of turn) ≡ fixed_part S.fixed self.now }
        ensures of { IsOf self.now result }
        ensures number { number result ≡ turn_number turn.entry }
        ensures seen { seen result ≡ history turn.entry ++ E.entry ∷ [] }
        ensures mine { mine result ≡ turn_mine turn.entry ++ E.entry ∷ [] }
    {
        let Turn {
            claim,
            state,
            of: _,
        } = turn;
        let Claim { mut table_seat } = claim;
        let shared = &self.board.shared;
        let empty = shared.exchange(&mut table_seat, 0, Some(state));
        let None = empty else { unreachable!() };
        let served = shared.fetch_add::<PassOn<E>>(&mut table_seat, SERVING, 1);
        self.wake(served.wrapping_add(1));
        Seat::of(table_seat)
    }

    // Draws a ticket.
    fn draw(&self, table_seat: &mut TableSeat<S>) -> u64
        requires table { table_seat.old.table_id ≡ self.now.board.shared.table_id }
        requires idle { IsIdle table_seat.old.me }
        ensures table { table_seat.new.table_id ≡ table_seat.old.table_id }
        ensures waits { IsWaiting table_seat.new.me }
        ensures drawn { table_seat.new.me ≡ (drawn_view table_seat.old.me.0 table_seat.new.me.0.ticket, []) }
        ensures ticket { table_seat.new.me.0.ticket % 2 ^ 64 ≡ result }
    {
        self.board.shared.fetch_add::<Draw>(table_seat, NEXT, 1)
    }

    // Takes the state, if the ticket is served.
    fn look(&self, table_seat: &mut TableSeat<S>, ticket: u64) -> Option<S>
        requires table { table_seat.old.table_id ≡ self.now.board.shared.table_id }
        requires waits { IsWaiting table_seat.old.me }
        requires ticket { table_seat.old.me.0.ticket % 2 ^ 64 ≡ ticket }
        ensures table { table_seat.new.table_id ≡ table_seat.old.table_id }
        ensures none { IfNone result (table_seat.new.me ≡ table_seat.old.me) }
        ensures some { IfSome result (λ x. Serves S.Kept None table_seat.old.me x table_seat.new.me) }
    {
        let shared = &self.board.shared;
        if shared.load::<LookAtServing>(table_seat, SERVING) == ticket {
            Some(shared.exchange(table_seat, 0, None).unwrap())
        } else {
            None
        }
    }

    // Rests until the ticket is said to be served, at most 16 milliseconds.
    fn rest<R: Wait>(&self, rt: &R, ticket: u64) {
        let parker = &self.parkers[(ticket % PLACES as u64) as usize];
        parker.park_timeout(rt, Duration::from_millis(16));
    }

    // Wakes the thread with this ticket, which is now served, if any thread rests.
    fn wake(&self, ticket: u64) {
        if self.resting.load(SeqCst) != 0 {
            self.parkers[(ticket % PLACES as u64) as usize].unpark();
        }
    }
}
