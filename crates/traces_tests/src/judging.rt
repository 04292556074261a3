//! Tests of the judge.
ghost use Rattle.std.specs.Prelude.{◌≡◌, ◌<◌, ◌≤◌, ◌^◌, IsTrue, IfOk, All, None, Option, List, reverse};
ghost use Rattle.mc_task.specs.declared.task.JobId.{JobId};
ghost use Rattle.mc_model.specs.Holds.{Fits};
ghost use Rattle.mc_model.specs.Sums.{total};
ghost use Rattle.mc_model.specs.Runs.{length_of, expand, IsRun, AreRuns, IsRunOfSet};
ghost use Rattle.mc_model.specs.Traces.{IsTraceOf};
ghost use Rattle.mc_model.specs.Verdict.{RowFault, verdict_of};

// Macros that write verdicts in a few words. They are macros, since a constant's value cannot call a function.
macro_rules! illegal {
    ($row:expr, $why:expr) => {
        Verdict::Illegal {
            place: $row,
            why: $why,
        }
    };
}

macro_rules! late {
    ($late:expr, $task:expr, $count:expr) => {
        Verdict::Legal {
            late: $late,
            first: Some(job!($task, $count)),
        }
    };
}

mod drawn;
mod many;
mod turned;
mod watched;

use mc_model::{How, Run, Verdict, Why};
use mc_task::Level::{High, Low};
use mc_task::{JobId, Rule, TaskSet};
use std::alloc::Global;
use std::test::Fail;
use trace_judge::judge;
use worked_sets::{CONTROL, Line, PLAIN_PAIR, job, set_of};

// The rule of the test for `CONTROL`.
pub const SCALED: Rule = Rule::Virtual { p: 2, q: 5 };

const UNSCALED: Rule = Rule::Virtual { p: 1, q: 1 };

// A set for which no rule holds.
const OVERLOAD: [Line; 2] = [("a", Low, 1, 1, 1), ("b", Low, 1, 1, 1)];

// A low task with a short period beside two high ones.
const SHORT_LOW: [Line; 3] = [
    ("log", Low, 2, 2, 2),
    ("ctl", High, 10, 1, 3),
    ("fix", High, 10, 2, 3),
];

// The outcome that a word says.
fn how(word: &str) -> Option<How> {
    match word {
        "more" => Some(How::More),
        "done" => Some(How::Done),
        "stop" => Some(How::Stop),
        "over" => Some(How::Over),
        _ => None,
    }
}

// The run of this event of a job.
fn run_of(event: &str, job: JobId, word: &str, length: u32) -> Option<Run> {
    match event {
        "release" if word == "kept" => Some(Run::Release { job, kept: true }),
        "release" if word == "dropped" => Some(Run::Release { job, kept: false }),
        "tick" => Some(Run::Ticks {
            job,
            how: how(word)?,
            length,
        }),
        _ => None,
    }
}

// The number that a text says.
fn number(text: &str) -> Option<u32> {
    text.parse::<u32>().ok()
}

// The run that a text says: `idle`, or `idle` and a length; or an event, a task's name, a job's number, a word and, if
// it is not 1, a length.
fn run(set: &TaskSet, text: &str) -> Option<Run> {
    let (event, rest) = text.split_once(' ').unwrap_or((text, "1"));
    if event == "idle" {
        let length = number(rest)?;
        return Some(Run::Idles { length });
    }
    let (name, rest) = rest.split_once(' ')?;
    let (count, rest) = rest.split_once(' ')?;
    let (word, length) = rest.split_once(' ').unwrap_or((rest, "1"));
    let task = set.find(name.as_bytes())?;
    let count = number(count)?;
    run_of(event, JobId { task, count }, word, number(length)?)
}

// The runs of a text.
fn runs_of(alloc: Global, set: &TaskSet, text: &str) -> Result<Vec<Run>, Fail> {
    let mut runs = Vec::new(alloc);
    for part in text.split(", ") {
        runs.push(run(set, part).ok_or("a run")?)?;
    }
    Ok(runs)
}

// Whether the run's task is in the set.
fn is_of_set(set: &TaskSet, run: &Run) -> bool
    ensures { IsTrue result → IsRunOfSet set.now.tasks run.now }
{
    match run {
        Run::Release { job, .. } => set.get(job.task).is_some(),
        Run::Ticks { job, .. } => set.get(job.task).is_some(),
        Run::Idles { .. } => true,
    }
}

fn are_of_set(set: &TaskSet, runs: &[Run]) -> bool
    ensures { IsTrue result → All (IsRunOfSet set.now.tasks) runs.now }
{
    runs.iter().all(|run| is_of_set(set, run))
}

fn is_run(run: &Run) -> bool
    ensures { IsTrue result → IsRun run.now }
{
    match run {
        Run::Release { .. } => true,
        Run::Ticks { how, length, .. } => match how {
            How::More => *length >= 1,
            How::Done | How::Stop | How::Over => *length == 1,
        },
        Run::Idles { length } => *length >= 1,
    }
}

fn length_of(run: &Run) -> u64
    ensures length { result ≡ length_of run.now }
    ensures short { result < 2 ^ 32 }
{
    match run {
        Run::Release { .. } => 0,
        Run::Ticks { length, .. } => u64::from(*length),
        Run::Idles { length } => u64::from(*length),
    }
}

// Whether the runs have at most this number of ticks.
pub fn has_at_most(most: u64, runs: &[Run]) -> bool
    requires { most ≤ 100000000 }
    ensures { IsTrue result → total length_of runs.now ≤ most }
{
    let mut ticks = 0;
    for run in runs {
        if ticks > most {
            return false;
        }
        ticks += length_of(run);
    }
    ticks <= most
}

fn are_runs(runs: &[Run]) -> bool
    ensures { IsTrue result → AreRuns runs.now }
{
    runs.len() <= 2_000_000 && runs.iter().all(is_run) && has_at_most(100_000_000, runs)
}

fn fits(rule: Rule) -> bool
    ensures { IsTrue result → Fits rule }
{
    match rule {
        Rule::Plain => true,
        Rule::Virtual { p, q } => 1 <= p && p <= q && q <= 1 << 60,
    }
}

// The verdict on these runs.
fn judged(alloc: Global, set: &TaskSet, rule: Rule, runs: &[Run]) -> Result<Verdict, Fail> {
    if !fits(rule) || !are_of_set(set, runs) || !are_runs(runs) {
        return Err(Fail::from("runs of the set"));
    }
    Ok(judge(alloc, set, rule, runs)?)
}

fn is_legal(verdict: Verdict) -> bool
    ensures { IsTrue result → (f : Option RowFault) (late : List JobId) → verdict ≡ verdict_of f late → f ≡ None }
{
    match verdict {
        Verdict::Legal { .. } => true,
        Verdict::Illegal { .. } => false,
    }
}

// Whether the judge finds the runs legal under the rule.
pub fn is_trace(alloc: Global, set: &TaskSet, rule: Rule, runs: &[Run]) -> Result<bool, Fail>
    ensures runs { IfOk result (λ yes. IsTrue yes → AreRuns runs.now) }
    ensures trace { IfOk result (λ yes. IsTrue yes → IsTraceOf set.now.tasks (reverse (expand runs.now))) }
{
    if !fits(rule) || !are_of_set(set, runs) || !are_runs(runs) {
        return Ok(false);
    }
    Ok(is_legal(judge(alloc, set, rule, runs)?))
}

// The verdict on the runs of a text.
fn verdict(alloc: Global, set: &TaskSet, rule: Rule, text: &str) -> Result<Verdict, Fail> {
    let runs = runs_of(alloc, set, text)?;
    judged(alloc, set, rule, &runs)
}

// The first of the texts whose verdict differs from the one beside it.
fn first_wrong<'a>(
    alloc: Global,
    set: &TaskSet,
    rule: Rule,
    table: &[(&'a str, Verdict)],
) -> Result<Option<&'a str>, Fail> {
    for (text, expected) in table {
        if verdict(alloc, set, rule, text)? != *expected {
            return Ok(Some(*text));
        }
    }
    Ok(None)
}

const IN_TIME: Verdict = Verdict::Legal {
    late: 0,
    first: None,
};

// The first row that does not fit is reported.
const FIRST_MISFITS: [(&str, Verdict); 15] = [
    (
        "release log 1 kept, tick log 1 done, release log 2 kept",
        illegal!(3, Why::TooSoon),
    ),
    ("release ctl 2 kept", illegal!(1, Why::WrongCount)),
    ("release ctl 1 dropped", illegal!(1, Why::WrongKept)),
    ("tick ctl 1 more", illegal!(1, Why::NotPending)),
    (
        "release ctl 1 kept, release log 1 kept, tick log 1 more",
        illegal!(3, Why::NotLeast),
    ),
    (
        "release ctl 1 kept, tick ctl 1 more, tick ctl 1 more",
        illegal!(3, Why::WrongHow),
    ),
    // The job's second tick must be an overrun; here the two ticks are one run.
    (
        "release ctl 1 kept, tick ctl 1 more 2",
        illegal!(3, Why::WrongHow),
    ),
    ("release ctl 1 kept, idle", illegal!(2, Why::IdlePending)),
    (
        "release ctl 1 kept, release log 1 kept, tick ctl 1 more, tick ctl 1 over, tick log 1 more",
        illegal!(5, Why::NotPending),
    ),
    (
        "release ctl 1 kept, tick ctl 1 more, tick ctl 1 over, tick ctl 1 done, idle, release log 1 dropped",
        illegal!(6, Why::WrongKept),
    ),
    (
        "release log 1 kept, tick log 1 more, tick log 1 more, tick log 1 more, tick log 1 more, tick log 1 over",
        illegal!(6, Why::WrongHow),
    ),
    // log's fifth tick must be a stop; here it comes after a run of four ticks.
    (
        "release log 1 kept, tick log 1 more 4, tick log 1 over",
        illegal!(6, Why::WrongHow),
    ),
    (
        "release ctl 1 kept, tick ctl 1 more, tick ctl 1 over, release log 1 kept",
        illegal!(4, Why::WrongKept),
    ),
    (
        "release log 1 kept, tick log 1 done, tick log 1 more",
        illegal!(3, Why::NotPending),
    ),
    ("release ctl 1 kept, tick ctl 1 done, idle", IN_TIME),
];

#[test]
fn no_runs_are_legal(rt: HostRuntime) -> Result<(), Fail> {
    let alloc = rt.alloc();
    let set = set_of(alloc, &CONTROL)?;
    assert_eq!(rt; judge(alloc, &set, Rule::Plain, &[])?, IN_TIME);
    Ok(())
}

// Both jobs are released at once; log's five ticks come first, then ctl's six with an overrun.
const LOG_FIRST: &str =
    "release ctl 1 kept, release log 1 kept, tick log 1 more, tick log 1 more, tick log 1 more, tick log 1 more, tick log 1 done, tick ctl 1 more, tick ctl 1 over, tick ctl 1 more, tick ctl 1 more, tick ctl 1 more, tick ctl 1 done";

// The trace `LOG_FIRST` with four ticks of log, so that ctl ends exactly at its deadline.
const LOG_EARLY: &str =
    "release ctl 1 kept, release log 1 kept, tick log 1 more, tick log 1 more, tick log 1 more, tick log 1 done, tick ctl 1 more, tick ctl 1 over, tick ctl 1 more, tick ctl 1 more, tick ctl 1 more, tick ctl 1 done";

// A job is late by a tick.
const BY_A_TICK: [(&str, Verdict); 2] = [(LOG_FIRST, late!(1, 1, 1)), (LOG_EARLY, IN_TIME)];

const LOG_WAITS: [(&str, Verdict); 1] = [(LOG_FIRST, illegal!(3, Why::NotLeast))];

// Several jobs of a task are pending.
const SEVERAL_PENDING: [(&str, Verdict); 4] = [
    (
        "release a 1 kept, release b 1 kept, tick a 1 done",
        late!(1, 2, 1),
    ),
    (
        "release a 1 kept, release b 1 kept, tick a 1 done, release a 2 kept, release b 2 kept, tick b 1 done, release a 3 kept, release b 3 kept, tick a 2 done, release a 4 kept, release b 4 kept, tick b 2 done",
        late!(7, 2, 1),
    ),
    (
        "release a 1 kept, release b 1 kept, tick b 1 done, release a 2 kept, release b 2 kept, tick a 2 done",
        illegal!(6, Why::NotLeast),
    ),
    (
        "release a 1 kept, release b 1 kept, tick b 1 done, release a 2 kept, tick a 1 stop, release a 3 kept, tick a 1 stop",
        illegal!(7, Why::NotPending),
    ),
];

// A discarded job is late where its deadline came first.
const DISCARDED: [(&str, Verdict); 2] = [
    (
        "release log 1 kept, release ctl 1 kept, tick ctl 1 done, release fix 1 kept, tick fix 1 more, tick fix 1 over",
        late!(1, 1, 1),
    ),
    (
        "release log 1 kept, release fix 1 kept, tick fix 1 more, tick fix 1 over",
        IN_TIME,
    ),
];

// Plain EDF never switches.
const PLAIN: [(&str, Verdict); 2] = [
    (
        "release hi 1 kept, release lo 1 kept, tick hi 1 more, tick hi 1 done, tick lo 1 more, tick lo 1 done",
        IN_TIME,
    ),
    (
        "release hi 1 kept, tick hi 1 over",
        illegal!(2, Why::WrongHow),
    ),
];

// Two tasks, each with a deadline of 10 ticks; one of them may take 50.
const TWO_OF_TEN: [Line; 2] = [("long", Low, 10, 50, 50), ("b", Low, 10, 1, 1)];

// The row within a run is reported.
const WITHIN_RUNS: [(&str, Verdict); 11] = [
    (
        "release log 1 kept, tick log 1 more 5",
        illegal!(6, Why::WrongHow),
    ),
    (
        "release log 1 kept, tick log 1 more 1000, idle",
        illegal!(6, Why::WrongHow),
    ),
    ("release log 1 kept, tick log 1 more 4", IN_TIME),
    (
        "release log 1 kept, tick log 1 more 4, tick log 1 stop, idle 5, release log 2 kept, tick log 2 more 4, tick log 2 more 1",
        illegal!(17, Why::WrongHow),
    ),
    // A high job that reaches its own budget in high mode.
    (
        "release ctl 1 kept, tick ctl 1 more, tick ctl 1 over, tick ctl 1 more 4",
        illegal!(7, Why::WrongHow),
    ),
    (
        "release ctl 1 kept, tick ctl 1 more, tick ctl 1 over, tick ctl 1 more 3, tick ctl 1 stop",
        IN_TIME,
    ),
    (
        "idle 20, release ctl 1 kept, idle 7",
        illegal!(22, Why::IdlePending),
    ),
    ("idle 20, tick ctl 1 more", illegal!(21, Why::NotPending)),
    (
        "idle 7, release ctl 1 kept, release log 1 kept, tick log 1 more 3",
        illegal!(10, Why::NotLeast),
    ),
    // A release in the middle of idle ticks comes one tick too soon.
    (
        "release log 1 kept, tick log 1 done, idle 8, release log 2 kept",
        illegal!(11, Why::TooSoon),
    ),
    (
        "release log 1 kept, tick log 1 done, idle 9, release log 2 kept",
        IN_TIME,
    ),
];

// Deadlines pass within a run.
const PASSED_WITHIN_RUNS: [(&str, Verdict); 4] = [
    (
        "release long 1 kept, release b 1 kept, tick long 1 more 9",
        IN_TIME,
    ),
    (
        "release long 1 kept, release b 1 kept, tick long 1 more 10",
        late!(2, 1, 1),
    ),
    (
        "release b 1 kept, release long 1 kept, tick long 1 more 49, tick long 1 stop, tick b 1 done",
        late!(2, 2, 1),
    ),
    (
        "release long 1 kept, tick long 1 more 9, tick long 1 done, idle 1000, release b 1 kept, tick b 1 done",
        IN_TIME,
    ),
];

// The mode is low after an idle run.
const BACK_IN_LOW_MODE: [(&str, Verdict); 3] = [
    (
        "release ctl 1 kept, tick ctl 1 more, tick ctl 1 over, tick ctl 1 done, idle 1, release log 1 kept",
        IN_TIME,
    ),
    (
        "release ctl 1 kept, tick ctl 1 more, tick ctl 1 over, tick ctl 1 done, idle 9, release log 1 dropped",
        illegal!(14, Why::WrongKept),
    ),
    (
        "release ctl 1 kept, tick ctl 1 more, tick ctl 1 over, tick ctl 1 more 3, release log 1 kept",
        illegal!(7, Why::WrongKept),
    ),
];

// A run of 100 million ticks is one step.
const LONG_RUNS: [(&str, Verdict); 2] = [
    ("idle 100000000", IN_TIME),
    (
        "idle 99999998, release ctl 1 kept, tick ctl 1 more 2",
        illegal!(100_000_001, Why::WrongHow),
    ),
];

// Runs of these lines, and the verdicts on them under this rule.
static VERDICTS: [(&[Line], Rule, &[(&str, Verdict)]); 10] = [
    (&CONTROL, SCALED, &FIRST_MISFITS),
    (&CONTROL, UNSCALED, &BY_A_TICK),
    (&CONTROL, SCALED, &LOG_WAITS),
    (&OVERLOAD, UNSCALED, &SEVERAL_PENDING),
    (&SHORT_LOW, Rule::Virtual { p: 1, q: 10 }, &DISCARDED),
    (&PLAIN_PAIR, Rule::Plain, &PLAIN),
    (&CONTROL, SCALED, &WITHIN_RUNS),
    (&TWO_OF_TEN, Rule::Plain, &PASSED_WITHIN_RUNS),
    (&CONTROL, SCALED, &BACK_IN_LOW_MODE),
    (&CONTROL, SCALED, &LONG_RUNS),
];

#[test]
fn each_trace_has_its_verdict(rt: HostRuntime) -> Result<(), Fail> {
    for (lines, rule, table) in &VERDICTS {
        let set = set_of(rt.alloc(), lines)?;
        assert_eq!(rt; first_wrong(rt.alloc(), &set, *rule, table)?, None);
    }
    Ok(())
}
