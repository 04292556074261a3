//! Tests of studies. Expected values come from worked examples, and from an independent program over fractions.
ghost use Rattle.std.specs.Prelude.{◌≤◌};

use admission::admit;
use load_sum::sum_loads;
use mc_task::Level::{High, Low};
use mc_task::{TaskNo, TaskSet};
use set_gen::make;
use std::alloc::Global;
use std::test::Fail;
use std::thread::Threads;
use study::{high_at, stretch, table};
use tick_frac::Ratio;
use worked_sets::{CONTROL, Line, TAP_AND_ARM, set_of};

const MOST: u32 = u32::MAX;

const PERCENTAGES: [u32; 11] = [100, 110, 120, 130, 140, 150, 160, 170, 180, 190, 200];

// Sets, each with a description and its stretch.
static SETS: [(&str, &[Line], Option<u32>); 8] = [
    ("control", &CONTROL, Some(149)),
    ("the scaled load reaches 1", &TAP_AND_ARM, Some(133)),
    (
        "low tasks take all time",
        &[("tap", Low, 2, 2, 2), ("arm", High, 4, 1, 1)],
        None,
    ),
    (
        "low tasks take all time and there are no others",
        &[("tap", Low, 2, 2, 2)],
        Some(1000),
    ),
    (
        "a budget that ends at the greatest number",
        &[("big", High, MOST, 1, MOST)],
        Some(1000),
    ),
    (
        "no more than given",
        &[
            ("cap", High, 2147483648, 1, 2147483648),
            ("log", Low, 2147483648, 1, 1),
        ],
        Some(99),
    ),
    ("much room", &[("one", High, 1000, 1, 1)], Some(1000)),
    (
        "only with none of the high budget",
        &[("all", High, 100, 100, 10000)],
        Some(1),
    ),
];

// The set with this percentage of its high budgets, by plain arithmetic.
fn with_percent(alloc: Global, set: &TaskSet, s: u32) -> Result<TaskSet, Fail> {
    let mut tasks = Vec::new(alloc);
    for number in 1..129 {
        if let Some(mut task) = set.get(TaskNo(number)) {
            if task.level == High {
                let part = u128::from(task.high) * u128::from(s) / 100;
                task.high = task.low.max(u32::try_from(part).unwrap_or(MOST));
            }
            tasks.push(task)?;
        }
    }
    Ok(TaskSet::new(tasks)?)
}

// The last percentage up to 1000 at which the test admits the set, when all are tried one by one.
fn last_admitted(alloc: Global, set: &TaskSet) -> Result<Option<u32>, Fail> {
    let mut last = None;
    for s in 0..1001 {
        let loads = sum_loads(&with_percent(alloc, set, s)?)?;
        if admit(&loads).is_some() {
            last = Some(s);
        }
    }
    Ok(last)
}

#[test]
fn a_stretch_is_the_last_percentage_admitted(rt: HostRuntime) -> Result<(), Fail> {
    for (name, lines, expected) in &SETS {
        let set = set_of(rt.alloc(), lines)?;
        let loads = sum_loads(&set)?;
        assert!(rt; stretch(&set, &loads) == *expected, "{name}");
        assert!(rt;
            last_admitted(rt.alloc(), &set)? == *expected,
            "{name}, one by one"
        );
    }
    Ok(())
}

#[test]
fn the_load_of_high_tasks_follows_the_percentage(rt: HostRuntime) -> Result<(), Fail> {
    let cases: [(u32, u128, u128); 6] = [
        (0, 1, 5),
        (33, 1, 5),
        (50, 3, 10),
        (149, 4, 5),
        (150, 9, 10),
        (1001, 6, 1),
    ];
    let set = set_of(rt.alloc(), &CONTROL)?;
    let loads = sum_loads(&set)?;
    for (s, num, den) in cases {
        if s > 1001 {
            continue;
        }
        let load = Ratio::new(high_at(&set, &loads, s), u128::from(loads.lcm));
        assert!(rt; load.num() == num && load.den() == den, "at {s}");
    }
    Ok(())
}

// Whether one set is counted at the percentages up to its stretch.
fn are_up_to(counts: &[u32], stretch: Option<u32>) -> bool {
    for (count, s) in counts.iter().zip(PERCENTAGES.iter()) {
        if *count != u32::from(stretch >= Some(*s)) {
            return false;
        }
    }
    counts.len() == PERCENTAGES.len()
}

// Whether the generated set with this number is counted up to its stretch, which is the last percentage admitted.
fn is_counted<R: Threads + Sync>(rt: &R, alloc: Global, number: u32) -> Result<bool, Fail>
    requires some { 1 ≤ number }
    requires few { number ≤ 31 }
{
    let tasks = 1 + number;
    let made = make(alloc, u64::from(number), tasks, 1)?;
    let loads = sum_loads(&made.set)?;
    let stretch = stretch(&made.set, &loads);
    let counts = table(rt, alloc, u64::from(number), 1, tasks)?;
    Ok(are_up_to(&counts, stretch) && stretch == last_admitted(alloc, &made.set)?)
}

#[test]
fn a_generated_set_is_counted_up_to_its_stretch(rt: HostRuntime) -> Result<(), Fail> {
    for number in 1..25u32 {
        assert!(rt; is_counted(&rt, rt.alloc(), number)?, "{number}");
    }
    Ok(())
}

#[test]
fn generated_sets_are_counted_by_their_stretch(rt: HostRuntime) -> Result<(), Fail> {
    let alloc = rt.alloc();
    let cases: [(u64, u32, u32, [u32; 3]); 2] = [(1, 50, 8, [50, 49, 16]), (7, 20, 5, [20, 17, 5])];
    for (number, sets, tasks, expected) in cases {
        let is_counted = are_counted(&rt, alloc, number, sets, tasks, &expected)?;
        assert!(rt; is_counted, "sets of {tasks}");
    }
    Ok(())
}

// Whether the table of these sets begins with these counts and goes on with zeros, at each of two calls.
fn are_counted<R: Threads + Sync>(
    rt: &R,
    alloc: Global,
    number: u64,
    sets: u32,
    tasks: u32,
    expected: &[u32],
) -> Result<bool, Fail> {
    if number > 1000 || sets < 1 || sets > 10000 || tasks < 2 || tasks > 32 {
        return Ok(false);
    }
    let counts = table(rt, alloc, number, sets, tasks)?;
    let again = table(rt, alloc, number, sets, tasks)?;
    Ok(counts == again && begin_with(&counts, expected))
}

// Whether the eleven counts begin with these three and go on with zeros.
fn begin_with(counts: &[u32], expected: &[u32]) -> bool {
    counts.len() == 11
        && counts.iter().take(3).eq(expected.iter())
        && counts.iter().skip(3).all(|count| *count == 0)
}

// A call for one set starts no thread; a call for 10,000 sets starts some.
#[test]
fn several_threads_count_what_one_counts(rt: HostRuntime) -> Result<(), Fail> {
    let alloc = rt.alloc();
    let counts = table(&rt, alloc, 1, 10000, 12)?;
    let mut sums = [0u64; 11];
    for number in 1..10001u64 {
        let one = table(&rt, alloc, number, 1, 12)?;
        for (sum, count) in sums.iter_mut().zip(one.iter()) {
            *sum = sum.saturating_add(u64::from(*count));
        }
    }
    assert!(rt;
        counts
            .iter()
            .map(|count| u64::from(*count))
            .eq(sums.iter().copied())
    );
    assert!(rt; sums[0] == 10000 && sums[1] < 10000);
    Ok(())
}
