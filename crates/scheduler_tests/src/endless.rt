//! Cores that keep no rows, beside cores that do.
ghost use Rattle.std.specs.Prelude.{◌^◌, ◌≤◌};
ghost use Rattle.mc_model.specs.Holds.{Fits, Holds};

use crate::rules::set_under;
use mc_model::{How, Row};
use mc_task::{Rule, TaskNo, TaskSet};
use mode_core::{Core, GrantFault, Granted, IdleFault, ReleaseFault};
use row_history::{Recorder, RowCount, row_count};
use std::alloc::Global;
use std::test::Fail;
use worked_sets::{
    CONTROL, Line, OVERRUN_ROWS, PLAIN_PAIR, PLAIN_PAIR_ROWS, QUARTER_SCALE, QUARTER_SCALE_ROWS,
    TAP_AND_ARM, TAP_AND_ARM_ROWS, job,
};

// The largest capacity that a core may have.
const MOST: usize = 1 << 62;

// Compares each row with the row that is expected there, and stores none.
#[derive(Drop)]
struct Compared {
    expected: Vec<Row>,
    rows: RowCount,
    differ: bool,
}

impl Recorder for Compared {
    ghost use Rattle.std.specs.Prelude.{◌^◌};

    ghost rows = { λ c. c.rows };

    ghost capacity = { λ _. 2 ^ 62 };

    ghost most = { 2 ^ 62 };

    fn add(&mut self, row: Row) {
        if self.expected.get(self.rows.count()) != Some(&row) {
            self.differ = true;
        }
        self.rows.add(row);
    }

    fn count(&self) -> usize {
        self.rows.count()
    }
}

// A core that expects these rows and keeps none.
fn expecting(alloc: Global, set: TaskSet, rule: Rule, rows: &[Row]) -> Result<Core<Compared>, Fail>
    requires fits { Fits rule }
    requires holds { Holds set.tasks rule }
{
    let mut expected = Vec::new(alloc);
    expected.extend_from_slice(rows)?;
    let recorder = Compared {
        expected,
        rows: row_count(alloc)?,
        differ: false,
    };
    Ok(Core::with_recorder(alloc, set, rule, MOST, recorder)?)
}

// Whether the core made exactly these rows.
fn took(core: &Core<Compared>, rows: &[Row]) -> bool {
    let recorder = core.recorder();
    recorder.count() == rows.len() && !recorder.differ
}

fn release<R: Recorder>(core: &mut Core<R>, task: TaskNo) -> bool {
    core.set().get(task).is_some() && core.release(task).is_ok()
}

// Grants the next tick to the chosen job and ends it with this outcome. Returns whether the core refused no call.
fn tick<R: Recorder>(core: &mut Core<R>, done: bool) -> bool {
    match core.chosen() {
        Some(job) => core.grant(job.task).is_ok() && core.outcome(job, done).is_ok(),
        None => core.idle().is_ok(),
    }
}

// Makes the events of the rows. Returns whether the core refused none.
fn follow<R: Recorder>(core: &mut Core<R>, rows: &[Row]) -> bool {
    for row in rows {
        let taken = match row {
            Row::Release { job, .. } => release(core, job.task),
            Row::Tick { how, .. } => tick(core, matches!(how, How::Done)),
            Row::Idle => tick(core, false),
        };
        if !taken {
            return false;
        }
    }
    true
}

// A set, the rule of the test for it, and rows that its scheduler makes.
type Made = (&'static [Line], Rule, &'static [Row]);

static MADE: [Made; 4] = [
    (&CONTROL, Rule::Virtual { p: 2, q: 5 }, &OVERRUN_ROWS),
    (&PLAIN_PAIR, Rule::Plain, &PLAIN_PAIR_ROWS),
    (
        &QUARTER_SCALE,
        Rule::Virtual { p: 1, q: 4 },
        &QUARTER_SCALE_ROWS,
    ),
    (
        &TAP_AND_ARM,
        Rule::Virtual { p: 1, q: 2 },
        &TAP_AND_ARM_ROWS,
    ),
];

// Whether a core that keeps no rows makes exactly these rows of the set.
fn makes(alloc: Global, made: &Made) -> Result<bool, Fail> {
    let (lines, rule, rows) = *made;
    let mut core = expecting(alloc, set_under(alloc, lines, rule)?, rule, rows)?;
    Ok(follow(&mut core, rows) && took(&core, rows))
}

// The index of the first set whose rows are not made.
fn first_not_made(alloc: Global) -> Result<Option<usize>, Fail> {
    for (index, made) in MADE.iter().enumerate() {
        if !makes(alloc, made)? {
            return Ok(Some(index));
        }
    }
    Ok(None)
}

#[test]
fn a_core_that_keeps_no_rows_makes_the_rows_that_were_worked_by_hand(
    rt: HostRuntime,
) -> Result<(), Fail> {
    assert_eq!(rt; first_not_made(rt.alloc())?, None);
    Ok(())
}

// The next number of a pseudorandom sequence.
fn next(seed: u32) -> u32 {
    seed.wrapping_mul(1664525).wrapping_add(1013904223)
}

// Runs this many ticks. Each task is released at pseudorandom times, between ticks and while a tick is granted.
fn run<R: Recorder>(core: &mut Core<R>, ticks: u32) {
    let mut seed = 1;
    for _ in 0..ticks {
        seed = next(seed);
        if seed >> 30 == 0 {
            let _ = release(core, TaskNo(1));
        }
        if let Some(job) = core.chosen() {
            let _ = core.grant(job.task);
            seed = next(seed);
            if seed >> 31 == 0 {
                let _ = release(core, TaskNo(2));
                let _ = release(core, TaskNo(1));
            }
            let _ = core.outcome(job, seed >> 29 == 7);
        } else {
            let _ = core.idle();
        }
    }
}

// Whether a core that keeps no rows makes in 5,000 ticks the rows of a core with a list.
fn makes_the_rows_of_a_list(alloc: Global) -> Result<bool, Fail> {
    let rule = Rule::Virtual { p: 2, q: 5 };
    let mut core = Core::new(alloc, set_under(alloc, &CONTROL, rule)?, rule, 20_000)?;
    run(&mut core, 5_000);
    let mut endless = expecting(alloc, set_under(alloc, &CONTROL, rule)?, rule, core.rows())?;
    run(&mut endless, 5_000);
    Ok(took(&endless, core.rows()) && endless.ticks() == 5_000 && endless.places() == MOST)
}

#[test]
fn a_core_that_keeps_no_rows_makes_those_of_a_core_with_a_list(
    rt: HostRuntime,
) -> Result<(), Fail> {
    assert!(rt; makes_the_rows_of_a_list(rt.alloc())?);
    Ok(())
}

// A core over the control set with this capacity, which counts its rows and keeps none.
fn counting(alloc: Global, places: usize) -> Result<Core<RowCount>, Fail>
    requires { places ≤ 2 ^ 62 }
{
    let rule = Rule::Virtual { p: 2, q: 5 };
    let control = set_under(alloc, &CONTROL, rule)?;
    Ok(Core::with_recorder(alloc, control, rule, places, row_count(alloc)?)?)
}

// Runs this many ticks, and returns how many there were, and the number of rows.
fn run_counting(alloc: Global, ticks: u32) -> Result<(u64, usize), Fail> {
    // No allocation has space for 2^62 rows unless a row has no bytes.
    let mut core = counting(alloc, MOST)?;
    run(&mut core, ticks);
    Ok((core.ticks(), core.recorder().count()))
}

#[test]
fn a_million_ticks_need_no_memory_for_rows(rt: HostRuntime) -> Result<(), Fail> {
    let (ticks, rows) = run_counting(rt.alloc(), 1_000_000)?;
    assert!(rt; ticks == 1_000_000 && rows > 1_000_000);
    Ok(())
}

// Whether the core has no capacity left for a release of this task.
fn is_full_for(core: &mut Core<RowCount>, task: TaskNo) -> bool {
    core.set().get(task).is_some() && core.release(task) == Err(ReleaseFault::Full)
}

// Whether a core with capacity for two rows is full after a release and a tick.
fn is_full_after_two(core: &mut Core<RowCount>) -> bool {
    release(core, TaskNo(1))
        && tick(core, true)
        && core.idle() == Err(IdleFault::Full)
        && is_full_for(core, TaskNo(2))
        && core.recorder().count() == 2
}

#[test]
fn a_core_that_keeps_no_rows_is_full_at_its_capacity(rt: HostRuntime) -> Result<(), Fail> {
    let mut core = counting(rt.alloc(), 2)?;
    assert!(rt; is_full_after_two(&mut core));
    assert_eq!(rt; core.into_recorder().count(), 2);
    Ok(())
}

// What a grant to the task returns, if the task is in the set.
fn grant(core: &mut Core<RowCount>, task: TaskNo) -> Option<Result<Granted, GrantFault>> {
    core.set().get(task)?;
    Some(core.grant(task))
}

// Whether a core with capacity for three rows is full with a tick, a release before it and one that it held.
fn is_full_with_a_held_release(core: &mut Core<RowCount>) -> bool {
    release(core, TaskNo(1))
        && matches!(grant(core, TaskNo(1)), Some(Ok(_)))
        && release(core, TaskNo(2))
        && core.outcome(job!(1, 1), true) == Ok(How::Done)
        && grant(core, TaskNo(2)) == Some(Err(GrantFault::Full))
}

#[test]
fn a_granted_tick_and_a_held_release_count_as_rows(rt: HostRuntime) -> Result<(), Fail> {
    let mut core = counting(rt.alloc(), 3)?;
    assert!(rt; is_full_with_a_held_release(&mut core));
    Ok(())
}
