//! The table of an acceptance study: how many random sets have at least a given stretch.
ghost use Rattle.std.specs.Prelude.{◌≡◌, ◌+◌, ◌<◌, ◌≤◌, ◌^◌, IfOk};
ghost use Rattle.study.specs.Acceptance as spec;
ghost use Rattle.study.specs.Shares.{ArePiecesOf};

use crate::counting::add;
use crate::shares::{Piece, others_for, piece_counts, pieces, pieces_of};
use mc_task::Memory;
use std::alloc::Global;
use std::sync::atomic::AtomicU64;
use std::thread::Threads;

/// Of `sets` random sets of `tasks` tasks, generated from the numbers `number`, `number + 1` and so on: how many have a
/// stretch of at least 100 percent, of at least 110 and so on to 200. The sets are tried in parallel, and the counts
/// are those of one thread. The only error is `Memory`, if an allocation fails.
pub fn table<R: Threads + Sync>(
    rt: &R,
    alloc: Global,
    number: u64,
    sets: u32,
    tasks: u32,
) -> Result<Vec<u32>, Memory>
    requires some_sets { 1 ≤ sets }
    requires few_sets { sets ≤ 10000 }
    requires some_tasks { 2 ≤ tasks }
    requires few_tasks { tasks ≤ 32 }
    requires numbers { number + sets < 2 ^ 64 }
    ensures counts { IfOk result (λ counts. counts.items ≡ spec.accept_table number sets tasks) }
    ensures parts { spec.PartsAdd }
    ensures admitted { spec.AcceptedAreAdmitted }
{
    let (next, others) = (AtomicU64::new(0), others_for(rt, sets));
    let pieces = pieces(rt, alloc, &next, others, number, sets, tasks)?;
    let counts = total(&pieces, number, sets, tasks);
    Ok(counts.as_slice().to_vec(alloc)?)
}

/// The counts that [`table`] gives, by the caller's thread alone. It takes no memory.
pub fn table_alone(number: u64, sets: u32, tasks: u32) -> [u32; 11]
    requires some_sets { 1 ≤ sets }
    requires few_sets { sets ≤ 10000 }
    requires some_tasks { 2 ≤ tasks }
    requires few_tasks { tasks ≤ 32 }
    requires numbers { number + sets < 2 ^ 64 }
    ensures { result ≡ spec.accept_table number sets tasks }
{
    total(&[], number, sets, tasks)
}

// The counts of all sets, added piece by piece.
fn total(pieces: &[Piece], number: u64, sets: u32, tasks: u32) -> [u32; 11]
    requires pieces { ArePiecesOf number sets tasks pieces.now }
    requires few_sets { sets ≤ 10000 }
    requires some_tasks { 2 ≤ tasks }
    requires few_tasks { tasks ≤ 32 }
    requires numbers { number + sets < 2 ^ 64 }
    ensures { result ≡ spec.accept_table number sets tasks }
{
    let mut counts = [0; 11];
    for index in 0..pieces_of(sets) {
        add(
            &mut counts,
            piece_counts(pieces, number, sets, tasks, index),
        );
    }
    counts
}
