//! Calls of the program over two files and a sink in memory, and tables of them.
ghost use Rattle.std.specs.Prelude.{IfOk};
ghost use Rattle.mc_world.specs.Shelf.{NamesDiffer};
ghost use Rattle.mc_world.specs.MemoryShelfState.{files_of};

use crate::edfvd::{Call, edfvd};
use command_line::form_of;
use executive::{Gate, QuietGate};
use mc_world::{CalmShelf, CalmSink, MemoryShelf, MemorySink};
use replies::Stop;
use std::alloc::{AllocError, Global};
use std::sync::Wait;
use std::thread::Threads;

const ROOM: usize = 1_000_000;

/// What goes wrong: the fetches and the writes that fail, the writes that take nothing, and how many bytes a write takes at most.
#[derive(Clone, Copy)]
pub struct Faults<'a> {
    pub fetches: &'a [u64],
    pub writes: &'a [u64],
    pub stops: &'a [u64],
    pub most: usize,
}

pub const NO_FAULTS: Faults<'static> = Faults {
    fetches: &[],
    writes: &[],
    stops: &[],
    most: ROOM,
};

/// The files `tasks.toml` and `second.csv`, and what goes wrong.
#[derive(Clone, Copy)]
pub struct Outside<'a> {
    pub tasks: &'a str,
    pub second: &'a str,
    pub faults: Faults<'a>,
}

impl<'a> Outside<'a> {
    /// These files, and nothing goes wrong.
    pub fn new(tasks: &'a str, second: &'a str) -> Outside<'a> {
        Outside {
            tasks,
            second,
            faults: NO_FAULTS,
        }
    }

    fn shelf(&self, alloc: Global) -> Result<MemoryShelf, AllocError> {
        let files = files(alloc, self.tasks, self.second)?;
        let fails = self.faults.fetches.to_vec(alloc)?;
        Ok(MemoryShelf::new(alloc, files, fails))
    }

    fn sink(&self, alloc: Global) -> Option<MemorySink> {
        let fails = self.faults.writes.to_vec(alloc).ok()?;
        let stops = self.faults.stops.to_vec(alloc).ok()?;
        // A sink takes one byte of a write at least.
        let most = self.faults.most.max(1);
        MemorySink::with_stops(alloc, ROOM, most, fails, stops).ok()
    }
}

fn files(alloc: Global, tasks: &str, second: &str) -> Result<Vec<(String, Vec<u8>)>, AllocError>
    ensures { IfOk result (λ files. NamesDiffer (files_of files.items)) }
{
    let mut files = Vec::new(alloc);
    let tasks_name = String::from_str(alloc, "tasks.toml")?;
    files.push((tasks_name, tasks.as_bytes().to_vec(alloc)?))?;
    let second_name = String::from_str(alloc, "second.csv")?;
    files.push((second_name, second.as_bytes().to_vec(alloc)?))?;
    Ok(files)
}

/// The status of these words over a shelf and a sink that never fail.
pub fn calm_status<R: Threads + Wait + Sync>(
    rt: &R,
    alloc: Global,
    words: &[&str],
    outside: &Outside<'_>,
) -> Option<u8> {
    let files = files(alloc, outside.tasks, outside.second).ok()?;
    let mut call = Call {
        words,
        shelf: CalmShelf::new(alloc, files),
        out: CalmSink::new(),
    };
    Some(edfvd(rt, alloc, &mut call, &QuietGate))
}

/// The status of these words and what they write, or nothing if memory runs out. The threads call the gate.
pub fn ended<R: Threads + Wait + Sync, G: Gate + Sync>(
    rt: &R,
    alloc: Global,
    words: &[&str],
    outside: &Outside<'_>,
    gate: &G,
) -> Option<(u8, Vec<u8>)> {
    let mut call = Call {
        words,
        shelf: outside.shelf(alloc).ok()?,
        out: outside.sink(alloc)?,
    };
    let status = edfvd(rt, alloc, &mut call, gate);
    Some((status, call.out.written().to_vec(alloc).ok()?))
}

/// Whether these words have this status and write this text.
pub fn ends<R: Threads + Wait + Sync, G: Gate + Sync>(
    rt: &R,
    alloc: Global,
    words: &[&str],
    outside: &Outside<'_>,
    gate: &G,
    status: u8,
    text: &str,
) -> bool {
    match ended(rt, alloc, words, outside, gate) {
        Some((ended, written)) => ended == status && written.as_slice() == text.as_bytes(),
        None => false,
    }
}

/// The words, the two files, and the status and the text that they give.
pub type Case = (
    &'static [&'static str],
    &'static str,
    &'static str,
    u8,
    &'static str,
);

/// Whether the case ends as it says. The threads call the gate.
pub fn ends_as<R: Threads + Wait + Sync, G: Gate + Sync>(
    rt: &R,
    alloc: Global,
    case: &Case,
    gate: &G,
) -> bool {
    let (words, tasks, second, status, text) = *case;
    ends(
        rt,
        alloc,
        words,
        &Outside::new(tasks, second),
        gate,
        status,
        text,
    )
}

/// The index of the first case that does not end as it says.
pub fn first_wrong<R: Threads + Wait + Sync>(
    rt: &R,
    alloc: Global,
    cases: &[Case],
) -> Option<usize> {
    for (index, case) in cases.iter().enumerate() {
        if !ends_as(rt, alloc, case, &QuietGate) {
            return Some(index);
        }
    }
    None
}

// The status and the text of the reply to these words on the caller's thread. There is none if their command starts threads.
fn alone(alloc: Global, words: &[&str], outside: &Outside<'_>) -> Option<(u8, Vec<u8>)> {
    let mut shelf = outside.shelf(alloc).ok()?;
    let form = form_of(words)?;
    match form.reply_alone(alloc, &mut shelf)? {
        Ok(reply) | Err(Stop::Refused(reply)) => {
            Some((reply.status(), reply.text().to_vec(alloc).ok()?))
        }
        Err(Stop::Memory) => None,
    }
}

/// Whether these words have a reply on the caller's thread, over files without a byte.
pub fn has_reply_alone(alloc: Global, words: &[&str]) -> bool {
    alone(alloc, words, &Outside::new("", "")).is_some()
}

/// The index of the first case whose reply on the caller's thread is not the one that it says.
pub fn first_wrong_alone(alloc: Global, cases: &[Case]) -> Option<usize> {
    for (index, (words, tasks, second, status, text)) in cases.iter().enumerate() {
        let is_right = match alone(alloc, words, &Outside::new(tasks, second)) {
            Some((ended, written)) => ended == *status && written.as_slice() == text.as_bytes(),
            None => false,
        };
        if !is_right {
            return Some(index);
        }
    }
    None
}
