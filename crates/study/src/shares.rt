//! The sets of a table, in pieces that threads take as they come.
//!
//! A thread that starts late takes fewer pieces. No contract says what the shared counter returns, so for each piece
//! the results of the threads are searched.
ghost use Rattle.std.specs.Prelude.{◌≡◌, ◌+◌, ◌/◌, ◌<◌, ◌≤◌, ◌^◌, IfOk};
ghost use Rattle.study.specs.Shares as spec;

use crate::counting::counts_of;
use rayon::{current_num_threads, join};
use std::alloc::{AllocError, Global};
use std::sync::atomic::{AtomicU64, Ordering};
use std::thread::Threads;

// How many sets a piece has; the last piece has those that are left.
const PIECE: u32 = 128;

// Starting a thread takes as long as trying some hundred sets, so each thread gets at least this number of sets.
const LEAST_SHARE: u32 = 1250;

// A piece by its number, and the counts of its sets.
#[derive(Clone, Copy)]
pub struct Piece {
    index: u32,
    counts: [u32; 11],
}

// How many pieces this number of sets has.
pub fn pieces_of(sets: u32) -> u32
    ensures { result ≡ spec.pieces_of sets }
{
    sets.div_ceil(PIECE)
}

// The number of threads that take pieces beside this one: none on one processor, otherwise the number of processors.
// That is one too many, since the system may put the first onto the processor of this thread, which waits.
pub fn others_for<R: Threads>(rt: &R, sets: u32) -> usize
    ensures { result ≤ sets / 1250 }
{
    let processors = current_num_threads(rt);
    if processors == 1 {
        return 0;
    }
    processors.min((sets / LEAST_SHARE) as usize)
}

// The pieces that this thread and `others` others take, from the next one on. It starts all of them itself, since a
// thread that starts others may wait before it does, and gives each a list with capacity, so that none has to allocate.
#[cycle(starting)]
pub fn pieces<R: Threads>(
    rt: &R,
    alloc: Global,
    next: &AtomicU64,
    others: usize,
    number: u64,
    sets: u32,
    tasks: u32,
) -> Result<Vec<Piece>, AllocError>
    requires few_others { others ≤ sets / 1250 }
    requires few_sets { sets ≤ 10000 }
    requires some_tasks { 2 ≤ tasks }
    requires few_tasks { tasks ≤ 32 }
    requires numbers { number + sets < 2 ^ 64 }
    ensures { IfOk result (λ pieces. spec.ArePiecesOf number sets tasks pieces.items) }
{
    let room = Vec::with_capacity(alloc, pieces_of(sets) as usize)?;
    if others == 0 {
        return share(room, next, number, sets, tasks);
    }
    let one = move || -> Result<Vec<Piece>, AllocError>
        requires { (sets ≤ 10000) × (2 ≤ tasks) × (tasks ≤ 32) × (number + sets < 2 ^ 64) × spec.ArePiecesOf number sets tasks room.items }
        ensures { IfOk result (λ pieces. spec.ArePiecesOf number sets tasks pieces.items) }
    { share(room, next, number, sets, tasks) };
    let rest = || -> Result<Vec<Piece>, AllocError>
        requires { (0 < others) × (others ≤ sets / 1250) × (sets ≤ 10000) × (2 ≤ tasks) × (tasks ≤ 32) × (number + sets < 2 ^ 64) }
        ensures { IfOk result (λ pieces. spec.ArePiecesOf number sets tasks pieces.items) }
    { pieces(rt, alloc, next, others - 1, number, sets, tasks) };
    let (one, rest) = join(rt, one, rest);
    let (mut one, mut rest) = (one?, rest?);
    one.append(&mut rest)?;
    Ok(one)
}

// Takes the next piece that no thread has taken, until none is left.
fn share(
    mut pieces: Vec<Piece>,
    next: &AtomicU64,
    number: u64,
    sets: u32,
    tasks: u32,
) -> Result<Vec<Piece>, AllocError>
    requires pieces { spec.ArePiecesOf number sets tasks pieces.items }
    requires few_sets { sets ≤ 10000 }
    requires some_tasks { 2 ≤ tasks }
    requires few_tasks { tasks ≤ 32 }
    requires numbers { number + sets < 2 ^ 64 }
    ensures { IfOk result (λ pieces. spec.ArePiecesOf number sets tasks pieces.items) }
{
    let most = pieces_of(sets);
    for _turn in 0..most {
        let index = next.fetch_add(1, Ordering::SeqCst);
        if u64::from(most) <= index {
            break;
        }
        let index = index as u32;
        let counts = count_piece(number, sets, tasks, index);
        pieces.push(Piece { index, counts })?;
    }
    Ok(pieces)
}

// The counts of the sets of the piece with this number.
fn count_piece(number: u64, sets: u32, tasks: u32, index: u32) -> [u32; 11]
    requires index { index < spec.pieces_of sets }
    requires few_sets { sets ≤ 10000 }
    requires some_tasks { 2 ≤ tasks }
    requires few_tasks { tasks ≤ 32 }
    requires numbers { number + sets < 2 ^ 64 }
    ensures { result ≡ spec.piece_counts number sets tasks index }
{
    let before = PIECE * index;
    counts_of(number + u64::from(before), PIECE.min(sets - before), tasks)
}

// The counts of the piece with this number, as a thread returned them; if none did, they are counted here.
pub fn piece_counts(pieces: &[Piece], number: u64, sets: u32, tasks: u32, index: u32) -> [u32; 11]
    requires pieces { spec.ArePiecesOf number sets tasks pieces.now }
    requires index { index < spec.pieces_of sets }
    requires few_sets { sets ≤ 10000 }
    requires some_tasks { 2 ≤ tasks }
    requires few_tasks { tasks ≤ 32 }
    requires numbers { number + sets < 2 ^ 64 }
    ensures { result ≡ spec.piece_counts number sets tasks index }
{
    for piece in pieces {
        if piece.index == index {
            return piece.counts;
        }
    }
    count_piece(number, sets, tasks, index)
}
