//! Tests of keys.
use mc_task::{Level, Rule, Task};
use std::test::Fail;
use virtual_key::key;
use worked_sets::task;

// The keys of a high and a low task, under a scaled rule and under plain EDF.
fn keys(high: &Task, low: &Task) -> [u128; 5] {
    let quarter = Rule::Virtual { p: 1, q: 4 };
    [
        key(quarter, false, high, 2),
        key(quarter, true, high, 2),
        key(quarter, false, low, 0),
        key(Rule::Plain, false, high, 2),
        key(Rule::Plain, false, low, 0),
    ]
}

#[test]
fn keys_are_in_parts_of_a_tick(rt: HostRuntime) -> Result<(), Fail> {
    let high = task("b", Level::High, 10, 1, 6).ok_or("a task")?;
    let low = task("a", Level::Low, 5, 3, 3).ok_or("a task")?;
    // Deadline 12 is 48 quarters. The virtual deadline 2 + 10/4 is 18 quarters, which is not a whole number of ticks.
    assert_eq!(rt; keys(&high, &low), [18, 48, 20, 12, 5]);
    Ok(())
}
