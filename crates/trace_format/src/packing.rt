//! Rows, and runs, packed into the fewest runs.
ghost use Rattle.std.specs.Prelude.{◌≡◌, ◌+◌, ◌++◌, ◌≤◌, All, IfOk, MatchOption, OnOk, List, [], ◌∷◌, length, replicate};
ghost use Rattle.mc_task.specs.declared.task.Task.{Task};
ghost use Rattle.mc_model.specs.Legal.{IsOfSet};
ghost use Rattle.mc_model.specs.Sums.{total};
ghost use Rattle.mc_model.specs.Runs as model;
ghost use Rattle.mc_model.specs.Runs.{rows_of, expand, length_of, joins, IsRun, IsRunOfSet, AreRuns, IsPacked};
ghost use Rattle.mc_model.specs.Rows.{same_job};
ghost use Rattle.trace_format.specs.Packing.{ArePacked, StartsApart, joined, with_last};

use mc_model::{How, Row, Run};
use mc_task::{JobId, Memory};
use std::alloc::{AllocError, Global};

/// The rows as runs, of which no two neighbours could be one: neighbouring idle ticks are one run, and so are ticks of
/// a job that goes on after each. Fails with `Memory` if an allocation fails.
pub fn pack(alloc: Global, rows: &[Row]) -> Result<Vec<Run>, Memory>
    requires few { length rows.now ≤ 2000000 }
    ensures pack { IfOk result (λ runs. runs.items ≡ model.pack rows.now) }
    ensures expands { IfOk result (λ runs. expand runs.items ≡ rows.now) }
    ensures packed { IfOk result (λ runs. IsPacked runs.items) }
    // These are the only valid packed runs with these rows.
    ensures only { IfOk result (λ runs. (others : List Run) → AreRuns others → IsPacked others → expand others ≡ rows.now → others ≡ runs.items) }
    ensures valid { IfOk result (λ runs. AreRuns runs.items) }
    ensures tasks { (set : List Task) → All (IsOfSet set) rows.now → IfOk result (λ runs. All (IsRunOfSet set) runs.items) }
{
    let mut runs = Vec::new(alloc);
    let mut rest = rows;
    while let Some((run, after)) = split_run(rest) {
        if runs.push(run).is_err() {
            return Err(Memory);
        }
        rest = after;
    }
    Ok(runs)
}

/// Runs with the same rows, of which no two neighbours could be one; there are no more of them than before. Fails with
/// `Memory` if an allocation fails.
pub fn merge(alloc: Global, runs: &[Run]) -> Result<Vec<Run>, Memory>
    requires { AreRuns runs.now }
    ensures pack { IfOk result (λ merged. merged.items ≡ model.pack (expand runs.now)) }
    ensures expands { IfOk result (λ merged. expand merged.items ≡ expand runs.now) }
    ensures packed { IfOk result (λ merged. IsPacked merged.items) }
    ensures valid { IfOk result (λ merged. AreRuns merged.items) }
    ensures tasks { (set : List Task) → All (IsRunOfSet set) runs.now → IfOk result (λ merged. All (IsRunOfSet set) merged.items) }
    ensures shorter { IfOk result (λ merged. length merged.items ≤ length runs.now) }
{
    let mut merged = Vec::new(alloc);
    for run in runs {
        add(&mut merged, *run)?;
    }
    Ok(merged)
}

// The first of the packed runs of the rows, and the rows after it. Inlined, so that the caller's code is compiled apart
// for each kind of run.
#[inline(always)]
pub fn split_run(rows: &[Row]) -> Option<(Run, &[Row])>
    requires few { length rows.now ≤ 2000000 }
    ensures { MatchOption result (rows.now ≡ []) (λ split. model.pack rows.now ≡ split.0 ∷ model.pack split.1.now) }
{
    let [first, after @ ..] = rows else {
        return None;
    };
    match *first {
        Row::Release { job, kept } => Some((Run::Release { job, kept }, after)),
        Row::Tick { job, how } => match how {
            How::More => {
                let (more, rest) = split_repeats(Row::Tick { job, how }, after);
                let length = 1 + more;
                Some((Run::Ticks { job, how, length }, rest))
            }
            _ => Some((
                Run::Ticks {
                    job,
                    how,
                    length: 1,
                },
                after,
            )),
        },
        Row::Idle => {
            let (more, rest) = split_repeats(Row::Idle, after);
            let length = 1 + more;
            Some((Run::Idles { length }, rest))
        }
    }
}

// How many of the rows, from the first on, could stand in one run with this row, and the rows after them.
#[inline(always)]
fn split_repeats(row: Row, rows: &[Row]) -> (u32, &[Row])
    requires few { length rows.now ≤ 2000000 }
    ensures rows { rows.now ≡ replicate result.0 row ++ result.1.now }
    ensures all { result.0 + length result.1.now ≡ length rows.now }
    ensures apart { StartsApart row result.1.now }
{
    let mut count = 0u32;
    let mut rest = rows;
    while let [next, after @ ..] = rest {
        if !repeats(row, *next) {
            return (count, rest);
        }
        count += 1;
        rest = after;
    }
    (count, rest)
}

// Whether the two rows could be one run.
#[inline(always)]
fn repeats(row: Row, next: Row) -> bool
    ensures { result ≡ joins (model.run_of row) (model.run_of next) }
{
    match (row, next) {
        (Row::Idle, Row::Idle) => true,
        (
            Row::Tick {
                job,
                how: How::More,
            },
            Row::Tick {
                job: other,
                how: How::More,
            },
        ) => same_job(job, other),
        _ => false,
    }
}

// Adds a run at the end, joined to the last one if it can be.
fn add(runs: &mut Vec<Run>, run: Run) -> Result<(), AllocError>
    requires is_run { IsRun run }
    requires packed { ArePacked runs.old.items }
    requires short { total length_of runs.old.items + length_of run ≤ 100000000 }
    ensures rows { OnOk result (expand runs.new.items ≡ expand runs.old.items ++ rows_of run) }
    ensures packed { OnOk result (ArePacked runs.new.items) }
{
    if let Some(both) = with_last(runs, run) {
        let last = runs.len() - 1;
        runs[last] = both;
        return Ok(());
    }
    runs.push(run)?;
    Ok(())
}

// The last run and this one as one, if they could be.
fn with_last(runs: &[Run], run: Run) -> Option<Run>
    requires short { total length_of runs.now + length_of run ≤ 100000000 }
    ensures { result ≡ with_last runs.now run }
{
    match runs.last() {
        None => None,
        Some(last) => joined(*last, run),
    }
}

// The two runs as one, if they could be.
fn joined(first: Run, next: Run) -> Option<Run>
    requires short { length_of first + length_of next ≤ 100000000 }
    ensures { result ≡ joined first next }
{
    match (first, next) {
        (Run::Idles { length: first }, Run::Idles { length: next }) => Some(Run::Idles {
            length: first + next,
        }),
        (
            Run::Ticks {
                job,
                how: How::More,
                length: first,
            },
            Run::Ticks {
                job: other,
                how: How::More,
                length: next,
            },
        ) => {
            if same_job(job, other) {
                Some(Run::Ticks {
                    job,
                    how: How::More,
                    length: first + next,
                })
            } else {
                None
            }
        }
        _ => None,
    }
}

fn same_job(i: JobId, j: JobId) -> bool
    ensures { result ≡ same_job i j }
{
    i.task.0 == j.task.0 && i.count == j.count
}
