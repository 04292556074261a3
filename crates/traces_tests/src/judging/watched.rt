//! Tests of the monitor.
ghost use Rattle.std.specs.Prelude.{◌≡◌, All};
ghost use Rattle.mc_model.specs.Runs.{IsRunOfSet};

use super::{
    OVERLOAD, SCALED, SHORT_LOW, TWO_OF_TEN, UNSCALED, are_of_set, are_runs, fits, judged, runs_of,
};
use mc_model::{How, Run, Verdict, Why};
use mc_task::{Rule, TaskSet};
use std::alloc::Global;
use std::test::Fail;
use trace_judge::{Monitor, ObserveFault, Unfit};
use worked_sets::{CONTROL, Line, release, set_of, ticks};

// A monitor of the set of these lines.
pub fn monitor(alloc: Global, lines: &[Line], rule: Rule) -> Result<Monitor, Fail> {
    if !fits(rule) {
        return Err(Fail::from("a rule"));
    }
    Ok(Monitor::new(alloc, set_of(alloc, lines)?, rule)?)
}

// Whether the verdict on some rows says this of the first row that does not fit.
pub fn agrees(unfit: Option<Unfit>, verdict: Verdict) -> bool {
    match (unfit, verdict) {
        (None, Verdict::Legal { .. }) => true,
        (Some(unfit), Verdict::Illegal { place, why }) => unfit == Unfit { place, why },
        _ => false,
    }
}

// Whether after each run of the text the monitor has the verdict that the judge has of the runs so far, and has predicted
// whether the run fits.
fn agree(alloc: Global, lines: &[Line], rule: Rule, text: &str) -> Result<bool, Fail> {
    let set = set_of(alloc, lines)?;
    let runs = runs_of(alloc, &set, text)?;
    agree_on(alloc, &set, rule, &runs, &mut monitor(alloc, lines, rule)?)
}

fn agree_on(
    alloc: Global,
    set: &TaskSet,
    rule: Rule,
    runs: &[Run],
    monitor: &mut Monitor,
) -> Result<bool, Fail> {
    for count in 0..runs.len() {
        let predicted = monitor.would_fit(runs[count])?;
        let unfit = monitor.observe(alloc, runs[count])?;
        let verdict = judged(alloc, set, rule, &runs[..=count])?;
        if predicted != unfit || !agrees(unfit, verdict) || monitor.verdict() != verdict {
            return Ok(false);
        }
    }
    Ok(true)
}

static WATCHED: [(&[Line], Rule, &str); 5] = [
    (
        &CONTROL,
        SCALED,
        "release log 1 kept, release ctl 1 kept, tick ctl 1 more, tick ctl 1 over, tick ctl 1 more 3, release log 2 dropped, tick ctl 1 stop, idle 3, release ctl 2 kept, tick ctl 2 done",
    ),
    (
        &CONTROL,
        SCALED,
        "release log 1 kept, tick log 1 more 4, tick log 1 stop, idle 5, release log 2 kept, tick log 2 more 4, tick log 2 more 3, idle 2, tick log 2 done",
    ),
    (
        &SHORT_LOW,
        Rule::Virtual { p: 1, q: 10 },
        "release log 1 kept, release ctl 1 kept, tick ctl 1 done, release fix 1 kept, tick fix 1 more, tick fix 1 over, tick fix 1 done, idle",
    ),
    (
        &OVERLOAD,
        UNSCALED,
        "release a 1 kept, release b 1 kept, tick a 1 done, release a 2 kept, release b 2 kept, tick b 1 done, release a 3 kept, release b 3 kept, tick a 2 done, release a 4 kept, tick a 4 done",
    ),
    (
        &TWO_OF_TEN,
        Rule::Plain,
        "release long 1 kept, release b 1 kept, tick long 1 more 9, tick long 1 more, tick long 1 more 39, tick long 1 stop, tick b 1 done",
    ),
];

// Gives the monitor runs of its set in one call.
fn follow(alloc: Global, monitor: &mut Monitor, runs: &[Run]) -> Result<(), Fail>
    requires { All (IsRunOfSet monitor.old.set.tasks) runs.now }
    ensures { monitor.new.set ≡ monitor.old.set }
{
    if !are_runs(runs) || monitor.seen() > 1 << 61 {
        return Err(Fail::from("few runs"));
    }
    Ok(monitor.follow_all(alloc, runs)?)
}

// The verdict of a monitor that is given the runs before this one in one call, and the others in another; and how many
// pending jobs it then finds late.
fn in_two(
    alloc: Global,
    set: &TaskSet,
    rule: Rule,
    runs: &[Run],
    count: usize,
) -> Result<(Verdict, usize), Fail> {
    if count > runs.len() || !fits(rule) || !are_of_set(set, runs) {
        return Err(Fail::from("runs of the set"));
    }
    let mut monitor = Monitor::new(alloc, set.copy(alloc)?, rule)?;
    follow(alloc, &mut monitor, &runs[..count])?;
    follow(alloc, &mut monitor, &runs[count..])?;
    let late = monitor.turned_late(alloc, 0)?.len();
    Ok((monitor.verdict(), late))
}

// The verdict of a monitor that is given the runs one by one, and how many pending jobs it then finds late.
fn one_by_one(
    alloc: Global,
    set: &TaskSet,
    rule: Rule,
    runs: &[Run],
) -> Result<(Verdict, usize), Fail> {
    if !fits(rule) {
        return Err(Fail::from("a rule"));
    }
    let mut monitor = Monitor::new(alloc, set.copy(alloc)?, rule)?;
    for run in runs {
        monitor.observe(alloc, *run)?;
    }
    let late = monitor.turned_late(alloc, 0)?.len();
    Ok((monitor.verdict(), late))
}

// Whether the runs of the text may be given in two calls, cut anywhere.
fn agree_in_two(alloc: Global, lines: &[Line], rule: Rule, text: &str) -> Result<bool, Fail> {
    let set = set_of(alloc, lines)?;
    let runs = runs_of(alloc, &set, text)?;
    let expected = one_by_one(alloc, &set, rule, &runs)?;
    for count in 0..=runs.len() {
        if in_two(alloc, &set, rule, &runs, count)? != expected {
            return Ok(false);
        }
    }
    Ok(true)
}

#[test]
fn a_monitor_that_is_given_many_runs_says_what_it_says_of_each(
    rt: HostRuntime,
) -> Result<(), Fail> {
    for (lines, rule, text) in &WATCHED {
        assert!(rt; agree_in_two(rt.alloc(), lines, *rule, text)?, "{text}");
    }
    Ok(())
}

#[test]
fn a_monitor_says_what_the_judge_says_of_the_rows_so_far(rt: HostRuntime) -> Result<(), Fail> {
    for (lines, rule, text) in &WATCHED {
        assert!(rt; agree(rt.alloc(), lines, *rule, text)?, "{text}");
    }
    Ok(())
}

const MISFIT: Unfit = Unfit {
    place: 8589934592,
    why: Why::IdlePending,
};

// Runs that are given to a monitor of `CONTROL`, each with its result.
static OBSERVED: [(Run, Result<Option<Unfit>, ObserveFault>); 10] = [
    (ticks!(0, 1, How::More, 1), Err(ObserveFault::UnknownTask)),
    (ticks!(3, 1, How::More, 1), Err(ObserveFault::UnknownTask)),
    (ticks!(1, 1, How::Done, 2), Err(ObserveFault::NotARun)),
    (ticks!(1, 1, How::More, 0), Err(ObserveFault::NotARun)),
    (Run::Idles { length: 0 }, Err(ObserveFault::NotARun)),
    (Run::Idles { length: 4294967295 }, Ok(None)),
    (Run::Idles { length: 4294967295 }, Ok(None)),
    (release!(1, 1, true), Ok(None)),
    (Run::Idles { length: 1 }, Ok(Some(MISFIT))),
    (ticks!(1, 1, How::Done, 1), Ok(Some(MISFIT))),
];

// The first of the runs whose result differs from the one beside it.
fn first_wrong_result(alloc: Global, monitor: &mut Monitor) -> Option<Run> {
    for (run, expected) in &OBSERVED {
        if monitor.observe(alloc, *run) != *expected {
            return Some(*run);
        }
    }
    None
}

#[test]
fn a_monitor_refuses_what_is_no_run_of_its_set_and_keeps_a_misfit(
    rt: HostRuntime,
) -> Result<(), Fail> {
    let mut monitor = monitor(rt.alloc(), &CONTROL, SCALED)?;
    let wrong = first_wrong_result(rt.alloc(), &mut monitor);
    let is_at_rest = monitor.pending() == 1 && !monitor.is_legal() && !monitor.high_mode();
    assert!(rt; wrong.is_none() && is_at_rest, "{wrong:?}");
    Ok(())
}

// What `would_fit` returns if this row is the first that does not fit.
macro_rules! unfit {
    ($row:expr, $why:expr) => {
        Ok(Some(Unfit {
            place: $row,
            why: $why,
        }))
    };
}

// A run, and what `would_fit` returns for it.
type Asked = (Run, Result<Option<Unfit>, ObserveFault>);

// The next row is the fourth, in low mode; ctl's job has had one tick, and its second one is an overrun or its last.
const BEFORE_AN_OVERRUN: [Asked; 13] = [
    (ticks!(1, 1, How::Over, 1), Ok(None)),
    (ticks!(1, 1, How::Done, 1), Ok(None)),
    (ticks!(1, 1, How::More, 1), unfit!(4, Why::WrongHow)),
    (ticks!(1, 1, How::More, 7), unfit!(4, Why::WrongHow)),
    (ticks!(1, 1, How::Stop, 1), unfit!(4, Why::WrongHow)),
    (ticks!(2, 1, How::More, 1), unfit!(4, Why::NotLeast)),
    (ticks!(1, 2, How::More, 1), unfit!(4, Why::NotPending)),
    (Run::Idles { length: 3 }, unfit!(4, Why::IdlePending)),
    (release!(2, 2, true), unfit!(4, Why::TooSoon)),
    (ticks!(3, 1, How::More, 1), Err(ObserveFault::UnknownTask)),
    (release!(0, 1, true), Err(ObserveFault::UnknownTask)),
    (ticks!(1, 1, How::Over, 2), Err(ObserveFault::NotARun)),
    (Run::Idles { length: 0 }, Err(ObserveFault::NotARun)),
];

// The next row is the fifth, in high mode; log's job was discarded, and ctl's job stops with its sixth tick.
const AFTER_AN_OVERRUN: [Asked; 5] = [
    (ticks!(1, 1, How::More, 3), Ok(None)),
    (ticks!(1, 1, How::More, 4), unfit!(8, Why::WrongHow)),
    (ticks!(1, 1, How::Stop, 1), unfit!(5, Why::WrongHow)),
    (ticks!(2, 1, How::More, 1), unfit!(5, Why::NotPending)),
    (release!(2, 2, false), unfit!(5, Why::TooSoon)),
];

// The next row is the thirteenth, in low mode at boundary 10, and no job is pending.
const AT_REST: [Asked; 6] = [
    (release!(1, 2, true), Ok(None)),
    (Run::Idles { length: 4294967295 }, Ok(None)),
    (release!(1, 3, true), unfit!(13, Why::WrongCount)),
    (release!(1, 1, true), unfit!(13, Why::WrongCount)),
    (release!(2, 2, false), unfit!(13, Why::WrongKept)),
    (ticks!(1, 1, How::Done, 1), unfit!(13, Why::NotPending)),
];

// The thirteenth row did not fit.
const AFTER_A_MISFIT: [Asked; 3] = [
    (release!(1, 2, true), unfit!(13, Why::NotPending)),
    (Run::Idles { length: 1 }, unfit!(13, Why::NotPending)),
    (Run::Idles { length: 0 }, Err(ObserveFault::NotARun)),
];

// Runs of `CONTROL` that a monitor takes one after the other, and what it then returns for runs that it does not take.
static ASKED: [(&str, &[Asked]); 4] = [
    (
        "release log 1 kept, release ctl 1 kept, tick ctl 1 more",
        &BEFORE_AN_OVERRUN,
    ),
    ("tick ctl 1 over", &AFTER_AN_OVERRUN),
    ("tick ctl 1 done, idle 7", &AT_REST),
    ("tick ctl 1 done", &AFTER_A_MISFIT),
];

// Gives the monitor the runs of the text.
fn take(alloc: Global, set: &TaskSet, monitor: &mut Monitor, text: &str) -> Result<(), Fail> {
    for run in runs_of(alloc, set, text)? {
        monitor.observe(alloc, run)?;
    }
    Ok(())
}

// The first of the runs for which `would_fit` returns something else than what stands beside it.
fn first_misjudged(monitor: &Monitor, asked: &[Asked]) -> Option<Run> {
    for (run, expected) in asked {
        if monitor.would_fit(*run) != *expected {
            return Some(*run);
        }
    }
    None
}

#[test]
fn a_monitor_says_whether_a_run_would_fit(rt: HostRuntime) -> Result<(), Fail> {
    let alloc = rt.alloc();
    let set = set_of(alloc, &CONTROL)?;
    let mut monitor = monitor(alloc, &CONTROL, SCALED)?;
    for (text, asked) in &ASKED {
        take(alloc, &set, &mut monitor, text)?;
        let wrong = first_misjudged(&monitor, asked);
        assert!(rt; wrong.is_none(), "after {text}: {wrong:?}");
    }
    Ok(())
}

// What a monitor says of the rows that fitted: how many they are, their ticks, whether the mode is high after them, and how many
// jobs are then pending.
type Fitted = (u64, u64, bool, u64);

fn fitted(monitor: &Monitor) -> Fitted {
    (
        monitor.seen(),
        monitor.ticks(),
        monitor.high_mode(),
        monitor.pending(),
    )
}

// Runs of `CONTROL`, the last of which breaks a rule, in its middle or with its first row; the row that does not fit; and the
// rows that fitted.
static BROKEN: [(&str, Unfit, Fitted); 5] = [
    (
        "release ctl 1 kept, tick ctl 1 more 5",
        Unfit {
            place: 3,
            why: Why::WrongHow,
        },
        (2, 1, false, 1),
    ),
    (
        "release ctl 1 kept, tick ctl 1 over 1, tick ctl 1 more 3",
        Unfit {
            place: 2,
            why: Why::WrongHow,
        },
        (1, 0, false, 1),
    ),
    (
        "release log 1 kept, release ctl 1 kept, tick ctl 1 more, tick ctl 1 over, tick ctl 1 more 9",
        Unfit {
            place: 8,
            why: Why::WrongHow,
        },
        (7, 5, true, 1),
    ),
    (
        "release log 1 kept, tick log 1 more 3, tick log 1 more 4",
        Unfit {
            place: 6,
            why: Why::WrongHow,
        },
        (5, 4, false, 1),
    ),
    (
        "release log 1 kept, idle 7",
        Unfit {
            place: 2,
            why: Why::IdlePending,
        },
        (1, 0, false, 1),
    ),
];

// Whether the monitor has found this row, which does not fit, and keeps what it was before it; also after one more run.
fn stands_at(alloc: Global, monitor: &mut Monitor, unfit: Unfit, before: Fitted) -> bool {
    let is_kept = fitted(monitor) == before && !monitor.is_legal();
    let again = monitor.observe(alloc, Run::Idles { length: 2 });
    is_kept && again == Ok(Some(unfit)) && fitted(monitor) == before
}

#[test]
fn the_rows_of_a_run_before_the_one_that_does_not_fit_count(rt: HostRuntime) -> Result<(), Fail> {
    let alloc = rt.alloc();
    let set = set_of(alloc, &CONTROL)?;
    for (text, unfit, before) in &BROKEN {
        let mut monitor = monitor(alloc, &CONTROL, SCALED)?;
        take(alloc, &set, &mut monitor, text)?;
        assert!(rt; stands_at(alloc, &mut monitor, *unfit, *before), "{text}");
    }
    Ok(())
}

// A monitor of `CONTROL` that is given the runs of the text in one call.
fn given_at_once(alloc: Global, set: &TaskSet, text: &str) -> Result<Monitor, Fail> {
    let runs = runs_of(alloc, set, text)?;
    if !are_of_set(set, &runs) {
        return Err(Fail::from("runs of the set"));
    }
    let mut monitor = Monitor::new(alloc, set.copy(alloc)?, SCALED)?;
    follow(alloc, &mut monitor, &runs)?;
    Ok(monitor)
}

#[test]
fn they_count_also_if_many_runs_are_given_at_once(rt: HostRuntime) -> Result<(), Fail> {
    let alloc = rt.alloc();
    let set = set_of(alloc, &CONTROL)?;
    for (text, unfit, before) in &BROKEN {
        let mut monitor = given_at_once(alloc, &set, text)?;
        assert!(rt; stands_at(alloc, &mut monitor, *unfit, *before), "{text}");
    }
    Ok(())
}
