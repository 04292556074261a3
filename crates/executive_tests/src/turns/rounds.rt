//! A turnstile over counters, from opening to close.
ghost use Rattle.std.specs.Prelude.{◌≡◌, ℕ, ◌+◌, ◌<◌, ◌≤◌, [], length, vec_len, vec_capacity, All, map, slice_index_or};
ghost use Rattle.turnstile.specs.Seats.{IsOf, AreFresh, mine, fixed_part, seats_of};

use super::counters::{Counters, Player};
use std::alloc::Global;
use std::process::Abort;
use std::sync::Wait;
use std::thread::{Threads, map_vec};
use turnstile::{Seat, Turnstile};

/// A turnstile over counters that are 0, a player for each seat, and the empty list that the seats came in.
pub fn opened<R: Abort>(
    rt: &R,
    alloc: Global,
    seats: u32,
) -> (Turnstile<Counters>, Vec<Player>, Vec<Seat<Counters>>)
    requires { (0 < seats) × (seats ≤ 128) }
    ensures turns { (fixed_part (λ s. vec_len s.counters) result.0 ≡ seats) × (seats_of result.0 ≡ seats) }
    ensures players { (vec_len result.1 ≡ seats) × All (λ p. IsOf result.0 p.seat) result.1.items × All (λ p. length (mine p.seat) ≡ 0) result.1.items }
    ensures order { (k : ℕ) (d : Player) → k < length result.1.items → (slice_index_or result.1.items k d).which + k + 1 ≡ seats }
    ensures list { (result.2.items ≡ []) × (seats ≤ vec_capacity result.2) }
{
    let counters = vec![in alloc; 0; seats as usize].expect(rt, "memory");
    let mut players = Vec::with_capacity(alloc, seats as usize).expect(rt, "memory");
    let Ok((turns, mut list)) = Turnstile::new(alloc, Counters { counters }, seats) else {
        panic!(rt; "memory")
    };
    seat_all(&turns, &mut list, &mut players);
    (turns, players, list)
}

// Makes a player of each seat, the last one first.
fn seat_all(turns: &Turnstile<Counters>, list: &mut Vec<Seat<Counters>>, players: &mut Vec<Player>)
    requires list { (vec_len list.old ≤ 128) × AreFresh list.old.items × All (λ s. IsOf turns.now s) list.old.items }
    requires room { (players.old.items ≡ []) × (vec_len list.old ≤ vec_capacity players.old) }
    ensures players { (vec_len players.new ≡ vec_len list.old) × All (λ p. IsOf turns.now p.seat) players.new.items × All (λ p. length (mine p.seat) ≡ 0) players.new.items }
    ensures order { (k : ℕ) (d : Player) → k < length players.new.items → (slice_index_or players.new.items k d).which + k + 1 ≡ vec_len list.old }
    ensures list { (list.new.items ≡ []) × (vec_capacity list.new ≡ vec_capacity list.old) }
{
    let _ = turns;
    while let Some(seat) = list.pop() {
        players.push_reserved(Player::new(list.len() as u32, seat));
    }
}

/// One turn of each of two players, the one with the lower number first.
pub fn turn_of_each<R: Wait>(rt: &R, turns: &Turnstile<Counters>, players: &mut Vec<Player>)
    requires two { vec_len players.old ≡ 2 }
    requires inside { 2 ≤ fixed_part (λ s. vec_len s.counters) turns.now }
    requires players { All (λ p. IsOf turns.now p.seat) players.old.items × All (λ p. length (mine p.seat) ≡ 0) players.old.items }
    requires order { (k : ℕ) (d : Player) → k < length players.old.items → (slice_index_or players.old.items k d).which + k + 1 ≡ 2 }
    ensures players { (vec_len players.new ≡ 2) × All (λ p. IsOf turns.now p.seat) players.new.items × All (λ p. length (mine p.seat) ≡ 1) players.new.items }
    ensures order { (k : ℕ) (d : Player) → k < length players.new.items → (slice_index_or players.new.items k d).which + k + 1 ≡ 2 }
{
    let first = players.pop().unwrap();
    let second = players.pop().unwrap();
    let first = first.play(rt, turns, 1);
    let second = second.play(rt, turns, 1);
    players.push_reserved(second);
    players.push_reserved(first);
}

/// Each player takes `each` turns, in a thread of its own if one can be started.
pub fn in_threads<R: Threads + Wait + Abort + Sync>(
    rt: &R,
    turns: &Turnstile<Counters>,
    players: Vec<Player>,
    each: u32,
) -> Vec<Player>
    requires players { All (λ p. IsOf turns.now p.seat) players.items × All (λ p. length (mine p.seat) ≡ 0) players.items }
    requires inside { All (λ p. p.which < fixed_part (λ s. vec_len s.counters) turns.now) players.items }
    ensures players { (vec_len result ≡ vec_len players) × All (λ p. IsOf turns.now p.seat) result.items × All (λ p. length (mine p.seat) ≡ each) result.items }
    ensures order { (k : ℕ) (d : Player) → k < length players.items → (slice_index_or result.items k d).which ≡ (slice_index_or players.items k d).which }
{
    map_vec(
        rt,
        players,
        &|player: Player| -> Player
            requires { IsOf turns.now player.seat × (length (mine player.seat) ≡ 0) × (player.which < fixed_part (λ s. vec_len s.counters) turns.now) }
            ensures { IsOf turns.entry.now result.seat × (length (mine result.seat) ≡ each) × (result.which ≡ player.which) }
        { player.play(rt, turns, each) },
    )
    .expect(rt, "memory")
}

/// The counters after each seat has taken its turns.
pub fn closed(
    turns: Turnstile<Counters>,
    players: Vec<Player>,
    list: Vec<Seat<Counters>>,
    each: u32,
) -> Counters
    requires turns { fixed_part (λ s. vec_len s.counters) turns ≡ seats_of turns }
    requires players { (vec_len players ≡ seats_of turns) × All (λ p. IsOf turns p.seat) players.items × All (λ p. length (mine p.seat) ≡ each) players.items }
    requires order { (k : ℕ) (d : Player) → k < length players.items → (slice_index_or players.items k d).which + k + 1 ≡ seats_of turns }
    requires list { (list.items ≡ []) × (seats_of turns ≤ vec_capacity list) }
    ensures { (vec_len result.counters ≡ seats_of turns) × All (λ n. n ≡ each) result.counters.items }
{
    let _ = each;
    let mut list = list;
    give_seats(players, &mut list);
    turns.close(list)
}

// Puts the seats back into their list.
fn give_seats(players: Vec<Player>, list: &mut Vec<Seat<Counters>>)
    requires { (list.old.items ≡ []) × (vec_len players ≤ vec_capacity list.old) }
    ensures { list.new.items ≡ map (λ p. p.seat) players.items }
{
    for player in players {
        let Player { which: _, seat } = player;
        list.push_reserved(seat);
    }
}

/// The counters after `each` turns of each seat, in threads.
pub fn counted<R: Threads + Wait + Abort + Sync>(
    rt: &R,
    alloc: Global,
    seats: u32,
    each: u32,
) -> Counters
    requires { (0 < seats) × (seats ≤ 128) }
    ensures { (vec_len result.counters ≡ seats) × All (λ n. n ≡ each) result.counters.items }
{
    let (turns, players, list) = opened(rt, alloc, seats);
    let players = in_threads(rt, &turns, players, each);
    closed(turns, players, list, each)
}
