//! Tests of the schedulability test.
ghost use Rattle.std.specs.Prelude.{IfOk};
ghost use Rattle.mc_task.specs.TaskSet.{IsScale};
ghost use Rattle.load_sum.specs.Belong.{AreOfSomeSet};

use admission::{admit, admit_scaled, holds_for, three_quarters};
use load_sum::{Loads, sum_loads};
use mc_task::Level::{High, Low};
use mc_task::{Rule, Scale};
use std::alloc::Global;
use std::test::Fail;
use worked_sets::{CONTROL, Line, PLAIN_PAIR, QUARTER_SCALE, TAP_AND_ARM, TWO_HIGH_TASKS, set_of};

const AVIONICS: [Line; 8] = [
    ("attitude", High, 5000, 400, 900),
    ("gyro", High, 10000, 600, 1500),
    ("engine", High, 20000, 1500, 4000),
    ("nav", High, 50000, 3000, 7000),
    ("display", Low, 16667, 2500, 2500),
    ("radio", Low, 25000, 2000, 2000),
    ("log", Low, 100000, 8000, 8000),
    ("maint", Low, 200000, 10000, 10000),
];

fn loads_of(alloc: Global, lines: &[Line]) -> Result<Loads, Fail>
    ensures { IfOk result AreOfSomeSet }
{
    let set = set_of(alloc, lines)?;
    Ok(sum_loads(&set)?)
}

// Sets, each with what it shows, and its rule.
static ADMITTED: [(&str, &[Line], Option<Rule>); 9] = [
    ("control", &CONTROL, Some(Rule::Virtual { p: 2, q: 5 })),
    (
        "the scaled load is exactly 1",
        &TAP_AND_ARM,
        Some(Rule::Virtual { p: 1, q: 2 }),
    ),
    (
        "the scaled load is above 1",
        &[("tap", Low, 2, 1, 1), ("arm", High, 4, 1, 4)],
        None,
    ),
    (
        "low tasks take all time",
        &[("tap", Low, 2, 2, 2), ("arm", High, 4, 1, 1)],
        None,
    ),
    (
        "one low task takes all time",
        &[("tap", Low, 2, 2, 2)],
        Some(Rule::Plain),
    ),
    (
        "a small scale",
        &QUARTER_SCALE,
        Some(Rule::Virtual { p: 1, q: 4 }),
    ),
    (
        "two high tasks",
        &TWO_HIGH_TASKS,
        Some(Rule::Virtual { p: 1, q: 2 }),
    ),
    (
        "the load of EDF is exactly 1",
        &PLAIN_PAIR,
        Some(Rule::Plain),
    ),
    (
        "avionics",
        &AVIONICS,
        Some(Rule::Virtual {
            p: 916685,
            q: 2133386,
        }),
    ),
];

#[test]
fn admits_by_the_published_test(rt: HostRuntime) -> Result<(), Fail> {
    for (name, lines, want) in &ADMITTED {
        let loads = loads_of(rt.alloc(), lines)?;
        assert!(rt; admit(&loads) == *want, "{name}");
    }
    Ok(())
}

#[tactic(auto, unfolding(tick_frac::specs::Numbers::gcd, tick_frac::specs::Numbers::gcd_steps))]
fn half() -> Scale
    ensures { IsScale result }
{
    Scale { p: 1, q: 2 }
}

#[tactic(auto, unfolding(tick_frac::specs::Numbers::gcd, tick_frac::specs::Numbers::gcd_steps))]
fn whole() -> Scale
    ensures { IsScale result }
{
    Scale { p: 1, q: 1 }
}

#[test]
fn a_chosen_scale_is_taken_where_it_holds(rt: HostRuntime) -> Result<(), Fail> {
    let control = loads_of(rt.alloc(), &CONTROL)?;
    let published = Some(Rule::Virtual { p: 2, q: 5 });
    let chosen = Some(Rule::Virtual { p: 1, q: 2 });
    assert_eq!(rt; admit_scaled(&control, None), published);
    assert_eq!(rt; admit_scaled(&control, Some(whole())), published);
    assert_eq!(rt; admit_scaled(&control, Some(half())), chosen);
    // Scales hold for a set that EDF fits, too.
    let plain = loads_of(rt.alloc(), &PLAIN_PAIR)?;
    assert_eq!(rt; admit_scaled(&plain, Some(half())), chosen);
    // No scale holds for a set that is not admitted.
    let refused = loads_of(rt.alloc(), &[("tap", Low, 2, 1, 1), ("arm", High, 4, 1, 4)])?;
    assert_eq!(rt; admit_scaled(&refused, Some(half())), None);
    Ok(())
}

#[test]
fn a_scale_holds_within_its_two_bounds(rt: HostRuntime) -> Result<(), Fail> {
    let loads = loads_of(rt.alloc(), &CONTROL)?;
    // Scales hold from U_HL / (1 - U_LL) to (1 - U_HH) / U_LL, here from 2/5 to 4/5.
    let cases = [
        (39, 100, false),
        (2, 5, true),
        (4, 10, true),
        (4, 5, true),
        (81, 100, false),
        (1, 1, false),
    ];
    for (p, q, want) in cases {
        assert_eq!(rt; holds_for(&loads, p, q), want, "{p}/{q}");
    }
    Ok(())
}

// Sets, each with what it shows, and whether it is within three quarters.
static WITHIN: [(&str, &[Line], bool); 4] = [
    ("both are exactly 3/4", &TAP_AND_ARM, true),
    (
        "U_HH is above 3/4",
        &[("tap", Low, 2, 1, 1), ("arm", High, 100, 25, 76)],
        false,
    ),
    (
        "U_LL + U_HL is above 3/4",
        &[("tap", Low, 2, 1, 1), ("arm", High, 100, 26, 75)],
        false,
    ),
    ("avionics", &AVIONICS, true),
];

#[test]
fn three_quarters_is_within(rt: HostRuntime) -> Result<(), Fail> {
    for (name, lines, want) in &WITHIN {
        let loads = loads_of(rt.alloc(), lines)?;
        assert!(rt; three_quarters(&loads) == *want, "{name}");
    }
    Ok(())
}
