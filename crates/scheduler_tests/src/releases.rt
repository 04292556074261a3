//! Tests of release times.
ghost use Rattle.std.specs.Prelude.{◌≡◌, ◌+◌, ◌-◌, ◌<◌, ◌≤◌, ◌^◌, ℕ, IfOk, length};
ghost use Rattle.arrivals.specs.Arrived.{count_of};

use arrivals::{Arrivals, TooSoon};
use mc_task::Level::Low;
use mc_task::TaskNo;
use std::alloc::Global;
use std::test::Fail;
use worked_sets::{Line, set_of};

const TWO_TASKS: [Line; 2] = [("a", Low, 10, 1, 1), ("b", Low, u32::MAX, 1, 1)];

// The arrivals of the two tasks.
fn two_tasks(alloc: Global) -> Result<Arrivals, Fail>
    ensures two { IfOk result (λ a. length a ≡ 2) }
    ensures fresh { IfOk result (λ a. (j : ℕ) → count_of a j ≡ 0) }
{
    let set = set_of(alloc, &TWO_TASKS)?;
    if set.len() != 2 {
        return Err("two tasks".into());
    }
    Ok(Arrivals::new(alloc, &set)?)
}

// Notes a release; `left` more may come.
fn note(arrivals: &mut Arrivals, left: u32, task: u32, at: u64) -> Result<u32, TooSoon>
    requires some { 1 ≤ task }
    requires task { task ≤ 2 }
    requires time { at ≤ 2 ^ 62 }
    requires left { 0 < left }
    requires two { length arrivals.old ≡ 2 }
    requires few { (j : ℕ) → count_of arrivals.old j + left < 2 ^ 32 }
    ensures two { length arrivals.new ≡ 2 }
    ensures few { (j : ℕ) → count_of arrivals.new j + (left - 1) < 2 ^ 32 }
{
    arrivals.note(TaskNo(task), at)
}

// From when each task may be released again, as asked after some of the releases, and what each release returned.
fn releases(arrivals: &mut Arrivals) -> ([u64; 5], [Result<u32, TooSoon>; 7])
    requires two { length arrivals.old ≡ 2 }
    requires fresh { (j : ℕ) → count_of arrivals.old j ≡ 0 }
{
    let before = arrivals.next_allowed(TaskNo(1));
    let first = note(arrivals, 9, 1, 3);
    let after = arrivals.next_allowed(TaskNo(1));
    let other_before = arrivals.next_allowed(TaskNo(2));
    let early = note(arrivals, 8, 1, 12);
    let other = note(arrivals, 7, 2, 0);
    let other_after = arrivals.next_allowed(TaskNo(2));
    let second = note(arrivals, 6, 1, 13);
    // A release that comes late delays the next one.
    let late = note(arrivals, 5, 1, 30);
    let early_again = note(arrivals, 4, 1, 33);
    let last = note(arrivals, 3, 2, 4611686018427387904);
    let other_last = arrivals.next_allowed(TaskNo(2));
    (
        [before, after, other_before, other_after, other_last],
        [first, early, other, second, late, early_again, last],
    )
}

#[test]
fn two_releases_are_a_period_apart(rt: HostRuntime) -> Result<(), Fail> {
    let mut arrivals = two_tasks(rt.alloc())?;
    let (allowed, noted) = releases(&mut arrivals);
    assert!(rt; allowed == [0, 13, 0, 4294967295, 4611686022722355199]);
    let expected = [
        Ok(1),
        Err(TooSoon { next: 13 }),
        Ok(1),
        Ok(2),
        Ok(3),
        Err(TooSoon { next: 40 }),
        Ok(2),
    ];
    assert!(rt; noted == expected);
    Ok(())
}
