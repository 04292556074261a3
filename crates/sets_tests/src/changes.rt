//! Tests of what may change in worked sets. Expected values are worked out by hand.
use load_sum::sum_loads;
use mc_task::Level::{High, Low};
use mc_task::TaskNo;
use sensitivity::{
    GreatestBudgets, ScaleRange, greatest_budgets, greatest_high, greatest_low, least_speed, scales,
};
use std::alloc::Global;
use std::test::Fail;
use worked_sets::{CONTROL, Line, PLAIN_PAIR, TAP_AND_ARM, TWO_HIGH_TASKS, set_of};

const MOST: u32 = u32::MAX;

/// A set; the greatest low budget of each task; the greatest high budget of each task, `None` for a low task; the least and
/// the greatest scale; and the least speed in millionths.
type Worked = (
    &'static str,
    &'static [Line],
    &'static [Option<u32>],
    &'static [Option<u32>],
    Option<((u128, u128), (u128, u128))>,
    u64,
);

// A function that uses a constant is proved with its whole value; a static has none of that cost.
static SETS: [Worked; 11] = [
    (
        "control",
        &CONTROL,
        &[Some(4), Some(6)],
        &[Some(8), None],
        Some(((2, 5), (4, 5))),
        870157,
    ),
    (
        "one scale alone holds",
        &TAP_AND_ARM,
        &[Some(1), Some(1)],
        &[None, Some(3)],
        Some(((1, 2), (1, 2))),
        1000000,
    ),
    (
        "a low budget is at most its high budget",
        &TWO_HIGH_TASKS,
        &[Some(3), Some(1), Some(5)],
        &[Some(7), Some(2), None],
        Some(((1, 2), (3, 4))),
        927492,
    ),
    (
        "EDF fits with a load of exactly 1",
        &PLAIN_PAIR,
        &[Some(2), Some(2)],
        &[Some(3), None],
        Some(((1, 2), (1, 1))),
        853554,
    ),
    (
        "low tasks take all time",
        &[("tap", Low, 2, 2, 2), ("arm", High, 4, 1, 1)],
        &[Some(1), None],
        &[None, None],
        None,
        1250000,
    ),
    (
        "low tasks take all time and there are no others",
        &[("tap", Low, 2, 2, 2)],
        &[Some(2)],
        &[None],
        Some(((0, 1), (1, 1))),
        1000000,
    ),
    (
        "low tasks ask for too much",
        &[("tap", Low, 2, 3, 3)],
        &[Some(2)],
        &[None],
        None,
        1500000,
    ),
    (
        "the least scale is above the greatest",
        &[("ctl", High, 10, 4, 8), ("log", Low, 10, 5, 5)],
        &[Some(2), Some(3)],
        &[Some(6), None],
        None,
        1121700,
    ),
    (
        "both loads are 1",
        &[("ctl", High, 3, 1, 3), ("log", Low, 3, 2, 2)],
        &[None, None],
        &[Some(1), None],
        None,
        1333334,
    ),
    (
        "a budget that ends at the greatest number",
        &[("big", High, MOST, 1, MOST)],
        &[Some(MOST)],
        &[Some(MOST)],
        Some(((1, 4294967295), (1, 1))),
        1000000,
    ),
    (
        "a low budget that ends at the greatest number",
        &[("big", Low, MOST, 1, 1)],
        &[Some(MOST)],
        &[None],
        Some(((0, 1), (1, 1))),
        1,
    ),
];

// Whether these are the greatest budgets of each task.
fn are_greatest(all: &[GreatestBudgets], lows: &[Option<u32>], highs: &[Option<u32>]) -> bool {
    for (i, (low, high)) in lows.iter().zip(highs).enumerate() {
        let expected = GreatestBudgets {
            low: *low,
            high: *high,
        };
        if all.get(i) != Some(&expected) {
            return false;
        }
    }
    all.len() == lows.len()
}

fn has_greatest(
    alloc: Global,
    lines: &[Line],
    lows: &[Option<u32>],
    highs: &[Option<u32>],
) -> Result<bool, Fail> {
    let set = set_of(alloc, lines)?;
    let loads = sum_loads(&set)?;
    let all = greatest_budgets(alloc, &set, &loads)?;
    Ok(are_greatest(&all, lows, highs))
}

#[test]
fn the_greatest_budgets_of_worked_sets(rt: HostRuntime) -> Result<(), Fail> {
    for (name, lines, lows, highs, _, _) in &SETS {
        assert!(rt; has_greatest(rt.alloc(), lines, lows, highs)?, "{name}");
    }
    Ok(())
}

#[test]
fn the_greatest_budgets_of_one_task(rt: HostRuntime) -> Result<(), Fail> {
    let set = set_of(rt.alloc(), &CONTROL)?;
    let loads = sum_loads(&set)?;
    let greatest = match set.get(TaskNo(1)) {
        Some(first) if first.is_high() => Some((
            greatest_low(&set, &loads, TaskNo(1)),
            greatest_high(&set, &loads, TaskNo(1)),
        )),
        _ => None,
    };
    assert!(rt; greatest == Some((Some(4), Some(8))));
    Ok(())
}

#[test]
fn the_scales_of_worked_sets(rt: HostRuntime) -> Result<(), Fail> {
    for (name, lines, _, _, expected, _) in &SETS {
        let set = set_of(rt.alloc(), lines)?;
        let found = match scales(&sum_loads(&set)?) {
            Some(ScaleRange { least, greatest }) => Some((
                (least.num(), least.den()),
                (greatest.num(), greatest.den()),
            )),
            None => None,
        };
        assert!(rt; found == *expected, "{name}");
    }
    Ok(())
}

#[test]
fn the_least_speeds_of_worked_sets(rt: HostRuntime) -> Result<(), Fail> {
    for (name, lines, _, _, _, expected) in &SETS {
        let set = set_of(rt.alloc(), lines)?;
        assert!(rt; least_speed(&sum_loads(&set)?) == *expected, "{name}");
    }
    Ok(())
}
