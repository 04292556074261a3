//! A sink in memory that fails where it is configured to.
ghost use Rattle.std.specs.Prelude.{◌≡◌, ◌≤◌, ◌<◌, ◌+◌, ◌⊎◌, ◌↔◌, IfOk, IsErr, IsTrue, OnErr, Some, Contains, [], length};
ghost use Rattle.mc_world.specs.Count.{Rose, one_more};
ghost use Rattle.mc_world.specs.MemorySinkState.{new_sink, next_count, after_write, after_fault};
ghost use Rattle.mc_world.specs.Sink.{Appends};

use crate::{Memory, Sink, SinkFault};
use std::alloc::Global;
use std::marker::Model;

/// A sink in memory with a fixed capacity. A write fails if the sink is so configured, or is full. Other writes may be
/// configured to take nothing and return 0, which is a fault too. Writes are numbered from 1, up to the last `u64`.
#[derive(Debug, Drop)]
pub struct MemorySink {
    bytes: Vec<u8>,
    room: usize,
    most: usize,
    fails: Vec<u64>,
    stops: Vec<u64>,
    writes: u64,
    faults: u64,
    since_fault: u64,
}

impl Model for MemorySink {
    ghost use Rattle.std.specs.Prelude.{◌≤◌, vec_len, vec_capacity};
    ghost use Rattle.mc_world.specs.MemorySinkState.{MemorySinkState};

    ghost Value = { MemorySinkState };

    ghost view = { λ s. record {
      written = s.bytes.items;
      room = s.room;
      most = s.most;
      fails = s.fails.items;
      stops = s.stops.items;
      writes = s.writes;
      faults = s.faults;
      since_fault = s.since_fault;
    } };

    ghost invariant = { λ s. (vec_len s.bytes ≤ s.room) × (s.room ≤ vec_capacity s.bytes)
        × (1 ≤ s.most) };
}

impl MemorySink {
    /// A sink with capacity for `room` bytes, which takes at most `most` of them in one write and fails at these
    /// writes, counted from 1. It allocates its whole capacity here.
    pub fn new(
        alloc: Global,
        room: usize,
        most: usize,
        fails: Vec<u64>,
    ) -> Result<MemorySink, Memory>
        requires { 1 ≤ most }
        ensures { IfOk result (λ sink. sink ≡ new_sink room most fails.items []) }
    {
        MemorySink::with_stops(alloc, room, most, fails, Vec::new(alloc))
    }

    /// A sink as from `new`, except that the writes in `stops`, counted from 1, take nothing and return 0. A write that
    /// would fail without that list still fails.
    pub fn with_stops(
        alloc: Global,
        room: usize,
        most: usize,
        fails: Vec<u64>,
        stops: Vec<u64>,
    ) -> Result<MemorySink, Memory>
        requires { 1 ≤ most }
        ensures { IfOk result (λ sink. sink ≡ new_sink room most fails.items stops.items) }
    {
        match Vec::with_capacity(alloc, room) {
            Ok(bytes) => Ok(MemorySink {
                bytes,
                room,
                most,
                fails,
                stops,
                writes: 0,
                faults: 0,
                since_fault: 0,
            }),
            Err(_) => Err(Memory),
        }
    }

    /// The bytes written so far.
    pub fn written(&self) -> &[u8]
        ensures { result.now ≡ self.now.written }
    {
        &self.bytes
    }
}

impl Sink for MemorySink {
    ghost state = { λ s. record { written = Some s.written; faults = s.faults; since_fault = s.since_fault } };

    fn write(&mut self, piece: &[u8]) -> Result<usize, SinkFault>
        // It fails exactly at the listed writes, and if no capacity is left for a non-empty piece.
        ensures fails { IsErr result ↔ (Contains self.old.fails self.new.writes
            ⊎ ((0 < length piece.now) × (self.old.room ≤ length self.old.written))) }

        // Other writes that are listed to stop take nothing, and the rest take what they can.
        ensures stops { Contains self.old.stops self.new.writes → IfOk result (λ n. n ≡ 0) }
        ensures takes { (Contains self.old.stops self.new.writes → ⊥) → IfOk result (λ n. n ≡ next_count self.old piece.now) }

        // Each write is counted, and each that fails or takes nothing as configured is a fault.
        ensures fault { OnErr result (self.new ≡ after_fault self.old) }
        ensures stopped { Contains self.old.stops self.new.writes → self.new ≡ after_fault self.old }
        ensures taken { (Contains self.old.stops self.new.writes → ⊥)
            → IfOk result (λ n. self.new ≡ after_write self.old piece.now n) }

        // These clauses of the trait do not follow from those above.
        ensures count { IfOk result (λ n. n ≤ length piece.now) }
        ensures appends { IfOk result (λ n. Appends (Some self.old.written) (Some self.new.written) piece.now n) }
        ensures no_fault { IfOk result (λ n. 0 < n → self.new.faults ≡ self.old.faults) }
        ensures cause_none { IfOk result (λ n. n ≡ 0 → 0 < length piece.now
            → Rose self.old.faults self.new.faults) }
        ensures once_none { IfOk result (λ n. n ≡ 0 → 0 < length piece.now → self.new.faults ≡ one_more self.old.faults) }
        ensures anew_none { IfOk result (λ n. n ≡ 0 → 0 < length piece.now → self.new.since_fault ≡ 0) }
        ensures since { IfOk result (λ n. 0 < n → Rose self.old.since_fault self.new.since_fault) }
        ensures never_falls { self.old.faults ≤ self.new.faults }
    {
        self.writes = self.writes.saturating_add(1);
        let left = self.room.saturating_sub(self.bytes.len());
        let count = piece.len().min(self.most).min(left);
        if is_listed(&self.fails, self.writes) || (count == 0 && !piece.is_empty()) {
            self.faults = self.faults.saturating_add(1);
            self.since_fault = 0;
            return Err(SinkFault);
        }
        if is_listed(&self.stops, self.writes) {
            self.faults = self.faults.saturating_add(1);
            self.since_fault = 0;
            return Ok(0);
        }
        match self.bytes.extend_from_slice(&piece[..count]) {
            Ok(()) => {
                self.since_fault = self.since_fault.saturating_add(count as u64);
                Ok(count)
            }
            // The capacity was reserved by `new`.
            Err(_) => unreachable!(),
        }
    }
}

fn is_listed(writes: &[u64], write: u64) -> bool
    ensures { IsTrue result ↔ Contains writes.now write }
{
    writes.contains(&write)
}

#[cfg(test)]
mod tests {
    use super::*;
    use crate::tests::write_to;

    // A sink and the writes to it: each with its piece, its result and the count of faults after it.
    struct Case {
        shows: &'static str,
        room: usize,
        most: usize,
        fails: &'static [u64],
        stops: &'static [u64],
        writes: &'static [(&'static str, Result<usize, SinkFault>, u64)],
        written: &'static str,
    }

    static CASES: [Case; 3] = [
        Case {
            shows: "a failed second write leaves the first eight bytes",
            room: 100,
            most: 8,
            fails: &[2],
            stops: &[],
            writes: &[
                ("tasks 2\nU_LL 1/2\n", Ok(8), 0),
                ("U_LL 1/2\n", Err(SinkFault), 1),
            ],
            written: "tasks 2\n",
        },
        Case {
            shows: "a stop takes nothing and is a fault",
            room: 12,
            most: 8,
            fails: &[3],
            stops: &[2, 3, 5],
            writes: &[
                ("tasks 2\nU_LL 1/2\n", Ok(8), 0),
                ("U_LL 1/2\n", Ok(0), 1),
                ("U_LL 1/2\n", Err(SinkFault), 2),
                ("U_LL 1/2\n", Ok(4), 2),
                (" 1/2\n", Err(SinkFault), 3),
            ],
            written: "tasks 2\nU_LL",
        },
        Case {
            shows: "it fails where it is full, and an empty piece needs no room",
            room: 3,
            most: 8,
            fails: &[],
            stops: &[],
            writes: &[("abcd", Ok(3), 0), ("", Ok(0), 0), ("d", Err(SinkFault), 1)],
            written: "abc",
        },
    ];

    fn sink_of(alloc: Global, case: &Case) -> Option<MemorySink> {
        let fails = case.fails.to_vec(alloc).ok()?;
        let most = case.most.max(1);
        if case.stops.is_empty() {
            return MemorySink::new(alloc, case.room, most, fails).ok();
        }
        let stops = case.stops.to_vec(alloc).ok()?;
        MemorySink::with_stops(alloc, case.room, most, fails, stops).ok()
    }

    fn takes(sink: &mut MemorySink, case: &Case) -> bool {
        for (piece, answer, faults) in case.writes {
            if write_to(sink, piece.as_bytes()) != *answer || sink.faults != *faults {
                return false;
            }
        }
        sink.written() == case.written.as_bytes() && sink.writes == case.writes.len() as u64
    }

    fn is_met(alloc: Global, case: &Case) -> bool {
        match sink_of(alloc, case) {
            Some(mut sink) => takes(&mut sink, case),
            None => false,
        }
    }

    #[test]
    fn fails_and_stops_where_listed_and_where_it_is_full(rt: HostRuntime) {
        for case in &CASES {
            assert!(rt; is_met(rt.alloc(), case), "{}", case.shows);
        }
    }
}
