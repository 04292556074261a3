//! How a turnstile is made, with its seats.
ghost use Rattle.std.specs.Prelude.{◌≡◌, ◌<◌, ◌≤◌, ◌∷◌, [], vec_len, vec_capacity, IfOk, IfErr, All, Some};
ghost use Rattle.turnstile.specs.Views.{newest_view};
ghost use Rattle.turnstile.specs.Seats.{IsOf, seats_of, fixed_part, AreFresh};
ghost use Rattle.turnstile.specs.declared.opening.NewFault.TheVariants.{Memory};

use crate::board::{Opening, TableSeat};
use crate::kept::Kept;
use crate::plays::SplitSeat;
use crate::tokens::Seat;
use crate::turns::Turnstile;
use atomic_table::{Refused, Table};
use std::alloc::Global;
use std::array;
use std::snapshot::Snapshot;
use std::sync::atomic::AtomicU64;
use std::thread::Parker;

/// Why a turnstile could not be made.
#[derive(Drop)]
pub enum NewFault<S> {
    /// Out of memory. The state is returned.
    Memory(S),
}

impl<S: Kept> Turnstile<S> {
    /// A turnstile with 1 to 128 seats, numbered from 0. Fails with `Memory` if an allocation fails; no later call
    /// allocates.
    pub fn new(
        alloc: Global,
        state: S,
        seats: u32,
    ) -> Result<(Turnstile<S>, Vec<Seat<S>>), NewFault<S>>
        requires seats { (0 < seats) × (seats ≤ 128) }
        requires stands { S.stands 0 [] state }
        ensures turnstile { IfOk result (λ r. (fixed_part S.fixed r.0 ≡ S.fixed state) × (seats_of r.0 ≡ seats)) }
        ensures seats { IfOk result (λ r. (vec_len r.1 ≡ seats) × AreFresh r.1.items × All (λ s. IsOf r.0 s) r.1.items) }

        // The list, once emptied, has capacity for the seats when they come back.
        ensures room { IfOk result (λ r. seats ≤ vec_capacity r.1) }
        ensures memory { IfErr result (λ e. e ≡ Memory state) }
    {
        let Ok(mut list) = Vec::with_capacity(alloc, seats as usize) else {
            return Err(NewFault::Memory(state));
        };
        let (turnstile, table_seat) = Turnstile::set_up(alloc, state, seats)?;
        turnstile.seat_all(table_seat, seats, &mut list);
        Ok((turnstile, list))
    }

    // The turnstile, and the table's seat of its first seat.
    fn set_up(
        alloc: Global,
        state: S,
        seats: u32,
    ) -> Result<(Turnstile<S>, TableSeat<S>), NewFault<S>>
        requires seats { (0 < seats) × (seats ≤ 128) }
        requires stands { S.stands 0 [] state }
        ensures turnstile { IfOk result (λ r. (fixed_part S.fixed r.0 ≡ S.fixed state) × (seats_of r.0 ≡ seats)) }
        ensures table_seat { IfOk result (λ r. (r.1.table_id ≡ r.0.board.shared.table_id) × (r.1.me ≡ (newest_view (S.fixed state) seats 0, []))) }
        ensures memory { IfErr result (λ e. e ≡ Memory state) }
    {
        let Ok(mut slots) = Vec::with_capacity(alloc, 1) else {
            return Err(NewFault::Memory(state));
        };
        let about = Opening {
            seats: seats as u64,
            state: Snapshot::of(&state),
        };
        slots.push_reserved(Some(state));
        match Table::new(alloc, &[0, 0], slots, &about) {
            Ok((board, table_seat)) => Ok((
                Turnstile {
                    board,
                    parkers: array::from_fn(|_| Parker::new()),
                    resting: AtomicU64::new(0),
                },
                table_seat,
            )),
            Err(Refused { slots }) => Err(NewFault::Memory(given_back(slots))),
        }
    }

    // Makes a seat of each number, each by splitting the one before it.
    fn seat_all(&self, table_seat: TableSeat<S>, seats: u32, list: &mut Vec<Seat<S>>)
        requires table { table_seat.table_id ≡ self.now.board.shared.table_id }
        requires table_seat { table_seat.me ≡ (newest_view (fixed_part S.fixed self.now) seats 0, []) }
        requires room { (list.old.items ≡ []) × (seats ≤ vec_capacity list.old) × (0 < seats) }
        ensures seats { (vec_len list.new ≡ seats) × AreFresh list.new.items × All (λ s. IsOf self.now s) list.new.items }
        ensures room { vec_capacity list.new ≡ vec_capacity list.old }
    {
        let mut table_seat = table_seat;
        for i in 1..seats {
            let next = self.board.shared.split_seat::<SplitSeat>(&mut table_seat);
            list.push_reserved(Seat::of(table_seat));
            table_seat = next;
        }
        list.push_reserved(Seat::of(table_seat));
    }
}

// The state, taken out of the one slot for which no table could be made.
fn given_back<S>(mut slots: Vec<Option<S>>) -> S
    requires { (x : S) × (slots.items ≡ Some x ∷ []) }
    ensures { slots.items ≡ Some result ∷ [] }
{
    let state = slots.pop().unwrap().unwrap();
    slots.destroy_empty();
    state
}
