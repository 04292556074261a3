//! The counts of a few random sets, on one thread and without allocation.
ghost use Rattle.std.specs.Prelude.{◌≡◌, ◌+◌, ◌<◌, ◌≤◌, ◌^◌, ℕ, length, map, slice_index};
ghost use Rattle.std.specs.List.{AllZip, range_with_len};
ghost use Rattle.study.specs.Acceptance.{generated_stretch, accept_table};
ghost use Rattle.study.specs.Shares as spec;
ghost use Rattle.study.specs.Levels.{IsReached, more_than};

use crate::levels::levels_passed;
use arrayvec::ArrayVec;

// Of `sets` random sets of `tasks` tasks, generated from `number` on: how many reach each of the percentages.
pub fn counts_of(number: u64, sets: u32, tasks: u32) -> [u32; 11]
    requires few_sets { sets ≤ 128 }
    requires some_tasks { 2 ≤ tasks }
    requires few_tasks { tasks ≤ 32 }
    requires numbers { number + sets < 2 ^ 64 }
    ensures { result ≡ accept_table number sets tasks }
{
    let reached = reached(number, sets, tasks);
    counts(reached.as_slice())
}

// How many of the percentages each set reaches.
fn reached(number: u64, sets: u32, tasks: u32) -> ArrayVec<u32, 128>
    requires few_sets { sets ≤ 128 }
    requires some_tasks { 2 ≤ tasks }
    requires few_tasks { tasks ≤ 32 }
    requires numbers { number + sets < 2 ^ 64 }
    ensures { AllZip (λ i k. IsReached (generated_stretch (number + i) tasks) k) (range_with_len 0 sets) result.items }
{
    let mut reached = ArrayVec::new();
    for i in 0..sets {
        reached.push(levels_passed(number + u64::from(i), tasks));
    }
    reached
}

// For each of the percentages, how many sets reach it.
fn counts(reached: &[u32]) -> [u32; 11]
    requires { length reached.now ≤ 128 }
    ensures { result ≡ map (λ i. more_than i reached.now) (range_with_len 0 11) }
{
    let mut counts = [0; 11];
    for step in 0..11u32 {
        counts[step as usize] = how_many(reached, step);
    }
    counts
}

// How many sets reach more than `step` percentages.
#[tactic(auto, unfolding(crate::specs::Levels::more_than))]
fn how_many(reached: &[u32], step: u32) -> u32
    requires { length reached.now ≤ 128 }
    ensures { result ≡ more_than step reached.now }
{
    reached.iter().filter(|levels| step < **levels).count() as u32
}

// Adds counts to others, index by index.
pub fn add(counts: &mut [u32; 11], more: [u32; 11])
    requires { (k : ℕ) → k < 11 → slice_index counts.old k + slice_index more k < 2 ^ 32 }
    ensures { counts.new ≡ spec.added counts.old more }
{
    for k in 0..11 {
        counts[k] += more[k];
    }
}
