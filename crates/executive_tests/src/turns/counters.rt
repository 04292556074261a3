//! The state of the tests: a counter for each seat. An entry has the number of a seat.
ghost use Rattle.std.specs.Prelude.{◌≡◌, ◌+◌, ◌<◌, ◌∷◌, ◌++◌, [], List, length, vec_len};
ghost use Rattle.turnstile.specs.Seats.{IsOf, number, mine, fixed_part};
ghost use Rattle.executive_tests.specs.Counting.{CountsTurns};

use std::marker::Brand;
use std::sync::Wait;
use turnstile::{Added, Kept, Seat, Turnstile};

/// What a turn adds to the history: the number of the seat. No value of this type is ever made.
pub struct Entry {
    pub which: u32,
}

/// A counter for each seat.
#[derive(Drop)]
pub struct Counters {
    pub counters: Vec<u64>,
}

impl Kept for Counters {
    type Entry = Entry;

    type Fixed = u64;

    ghost stands = { λ first history state. CountsTurns (λ e. e.which) history state.counters.items };

    ghost by = { λ e. e.which };

    ghost fixed = { λ state. vec_len state.counters };
}

impl Added<Entry> for Brand {
    ghost entry = { record { which = 0 } };
}

impl Counters {
    // Adds one to a counter.
    fn raise(&mut self, which: u32)
        requires { which < vec_len self.old.counters }
        ensures counts { (history : List Entry) → CountsTurns (λ e. e.which) history self.old.counters.items → CountsTurns (λ e. e.which) (history ++ record { which = which } ∷ []) self.new.counters.items }
        ensures len { vec_len self.new.counters ≡ vec_len self.old.counters }
    {
        let at = which as usize;
        self.counters[at] = self.counters[at].wrapping_add(1);
    }
}

/// A seat together with its number.
#[derive(Drop)]
pub struct Player {
    pub which: u32,
    pub seat: Seat<Counters>,
    ghost own: { number seat ≡ which },
}

impl Player {
    pub fn new(which: u32, seat: Seat<Counters>) -> Player
        requires { number seat ≡ which }
        ensures { (result.which ≡ which) × (result.seat ≡ seat) }
    {
        Player { which, seat }
    }

    // One turn.
    fn turn<R: Wait>(self, rt: &R, turns: &Turnstile<Counters>) -> Player
        requires of { IsOf turns.now self.seat }
        requires inside { self.which < fixed_part (λ s. vec_len s.counters) turns.now }
        ensures of { IsOf turns.now result.seat }
        ensures which { result.which ≡ self.which }
        ensures mine { mine result.seat ≡ mine self.seat ++ record { which = self.which } ∷ [] }
    {
        let Player { which, seat } = self;
        let mut turn = turns.enter(rt, seat);
        turn.state().raise(which);
        Player::new(which, turns.leave::<Brand>(turn))
    }

    /// Takes `each` turns.
    pub fn play<R: Wait>(self, rt: &R, turns: &Turnstile<Counters>, each: u32) -> Player
        requires of { IsOf turns.now self.seat }
        requires inside { self.which < fixed_part (λ s. vec_len s.counters) turns.now }
        ensures of { IsOf turns.now result.seat }
        ensures which { result.which ≡ self.which }
        ensures mine { length (mine result.seat) ≡ length (mine self.seat) + each }
    {
        let mut player = self;
        for _ in 0..each {
            player = player.turn(rt, turns);
        }
        player
    }
}
