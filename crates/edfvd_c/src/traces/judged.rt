//! Rows of a caller's own, judged.
ghost use Rattle.std.specs.Prelude.{◌≡◌, ◌≢◌, ◌⊎◌, ◌<◌, ◌≤◌, All, IfOk, IfErr, map, length, reverse};
ghost use Rattle.mc_model.specs.Holds.{Fits};
ghost use Rattle.mc_model.specs.Legal.{IsOfSet};
ghost use Rattle.mc_model.specs.Verdict.{verdict};
ghost use Rattle.edfvd_c.specs.Traces.Judged as spec;
ghost use Rattle.edfvd_c.specs.Row.{row_numbers};
ghost use Rattle.edfvd_c.specs.Status.{OK, EMPTY, MEMORY, NO_TASK, FULL, ARGUMENT};

use crate::row::{CRow, count_number, row_of, task_number};
use crate::sets::{CTask, NoSet, loads_of, set_of};
use crate::status;
use admission::admit;
use mc_model::{Row, Verdict, Why, are_of_set};
use mc_task::{Memory, Rule, TaskSet};
use std::alloc::Global;
use trace_format::pack;
use trace_judge::judge;

/// A verdict: `why` is 0 for a legal trace, with the number of late jobs and the one released first; otherwise it says
/// what does not fit of the row with the number `place`, from 1.
#[repr(C)]
#[derive(Clone, Copy)]
pub struct CVerdict {
    pub why: u32,
    pub task: u32,
    pub count: u32,
    pub late: u64,
    pub place: u64,
}

pub const UNJUDGED: CVerdict = CVerdict {
    why: 0,
    task: 0,
    count: 0,
    late: 0,
    place: 0,
};

/// Judges rows, the oldest first, under the rule of the published test if `p` and `q` are 0, and otherwise under EDF-VD with
/// the scale `p/q`, which need not hold. `task` is the task that a refusal is about, or 0.
#[unsafe(no_mangle)]
pub extern "C" fn edfvd_raw_judge(
    alloc: Global,
    given: &[CTask],
    rows: &[CRow],
    p: u64,
    q: u64,
    judged: &mut CVerdict,
) -> u32
    ensures judged { result ≡ OK → spec.IsJudged given.now rows.now p q judged.new }
    ensures unjudged { result ≢ OK → spec.IsUnjudged given.now rows.now p q result judged.new.task }
    ensures zeros { result ≢ OK → judged.new ≡ spec.refused_at judged.new.task }
{
    match judge_given(alloc, given, rows, p, q) {
        Ok(found) => {
            *judged = found;
            status::OK
        }
        Err(no) => {
            *judged = CVerdict {
                task: no.task,
                ..UNJUDGED
            };
            no.status
        }
    }
}

fn judge_given(
    alloc: Global,
    given: &[CTask],
    rows: &[CRow],
    p: u64,
    q: u64,
) -> Result<CVerdict, NoSet>
    ensures judged { IfOk result (spec.IsJudged given.now rows.now p q) }
    ensures unjudged { IfErr result (λ no. spec.IsUnjudged given.now rows.now p q no.status no.task) }
    ensures status { IfErr result (λ no. no.status ≢ OK) }
{
    let (set, rule) = set_under_rule(alloc, given, p, q)?;
    let rows = match rows_of(alloc, rows) {
        Ok(rows) => rows,
        Err(status) => return Err(no(status)),
    };
    match verdict_on(alloc, &set, rule, &rows) {
        Ok(verdict) => Ok(in_numbers(verdict)),
        Err(status) => Err(no(status)),
    }
}

fn no(status: u32) -> NoSet
    ensures { (result.status ≡ status) × (result.task ≡ 0) }
{
    NoSet { status, task: 0 }
}

/// The set of the tasks and the rule that `p` and `q` name for it, or the status and the task of a refusal: one of a set; PERIODS
/// and NOT_ADMITTED of the published test; ARGUMENT if `p` and `q` name no rule.
pub fn set_under_rule(
    alloc: Global,
    given: &[CTask],
    p: u64,
    q: u64,
) -> Result<(TaskSet, Rule), NoSet>
    ensures under { IfOk result (λ found. spec.AreUnderRule given.now p q found.0.tasks found.1) }
    ensures fits { IfOk result (λ found. Fits found.1) }
    ensures no_rule { IfErr result (λ no. spec.HaveNoRule given.now p q no.status no.task) }
    ensures status { IfErr result (λ no. ((EMPTY ≤ no.status) × (no.status ≤ MEMORY)) ⊎ (no.status ≡ ARGUMENT)) }
{
    let set = set_of(alloc, given)?;
    if p == 0 && q == 0 {
        let loads = match loads_of(&set) {
            Ok(loads) => loads,
            Err(range) => return Err(range),
        };
        let Some(rule) = admit(&loads) else {
            return Err(no(status::NOT_ADMITTED));
        };
        return Ok((set, rule));
    }
    if p == 0 || q < p || q > 1 << 60 {
        return Err(no(status::ARGUMENT));
    }
    Ok((set, Rule::Virtual { p, q }))
}

// The rows that the numbers stand for, or a status: FULL for more than 2,000,000, ARGUMENT for numbers of no row.
fn rows_of(alloc: Global, given: &[CRow]) -> Result<Vec<Row>, u32>
    ensures rows { IfOk result (λ rows. map row_numbers rows.items ≡ given.now) }
    ensures few { IfOk result (λ rows. length given.now ≤ 2000000) }
    ensures full { IfErr result (λ status. status ≡ FULL → 2000000 < length given.now) }
    ensures no_row { IfErr result (λ status. status ≡ ARGUMENT → (length given.now ≤ 2000000) × spec.HaveNoRow given.now) }
    ensures status { IfErr result (λ status. (status ≡ MEMORY) ⊎ (status ≡ FULL) ⊎ (status ≡ ARGUMENT)) }
{
    if given.len() > 2_000_000 {
        return Err(status::FULL);
    }
    let mut rows = Vec::new(alloc);
    for place in 0..given.len() {
        let Some(row) = row_of(given[place]) else {
            return Err(status::ARGUMENT);
        };
        if rows.push(row).is_err() {
            return Err(status::MEMORY);
        }
    }
    Ok(rows)
}

// The verdict on the rows, or a status: NO_TASK for a row of a task that the set does not have.
fn verdict_on(alloc: Global, set: &TaskSet, rule: Rule, rows: &[Row]) -> Result<Verdict, u32>
    requires fits { Fits rule }
    requires few { length rows.now ≤ 2000000 }
    ensures exact { IfOk result (λ v. v ≡ verdict set.now.tasks rule (reverse rows.now)) }
    ensures of_set { IfOk result (λ v. All (IsOfSet set.now.tasks) rows.now) }
    ensures no_task { IfErr result (λ status. status ≡ NO_TASK → ¬ All (IsOfSet set.now.tasks) rows.now) }
    ensures status { IfErr result (λ status. (status ≡ MEMORY) ⊎ (status ≡ NO_TASK)) }
{
    if !are_of_set(set, rows) {
        return Err(status::NO_TASK);
    }
    let Ok(runs) = pack(alloc, rows) else {
        return Err(status::MEMORY);
    };
    match judge(alloc, set, rule, &runs) {
        Ok(verdict) => Ok(verdict),
        Err(Memory) => Err(status::MEMORY),
    }
}

pub fn in_numbers(verdict: Verdict) -> CVerdict
    ensures { result ≡ spec.judged verdict }
{
    match verdict {
        Verdict::Legal { late, first } => CVerdict {
            late,
            task: task_number(first),
            count: count_number(first),
            ..UNJUDGED
        },
        Verdict::Illegal { place, why } => CVerdict {
            why: why_number(why),
            place,
            ..UNJUDGED
        },
    }
}

pub fn why_number(why: Why) -> u32
    ensures { result ≡ spec.why_number why }
{
    match why {
        Why::TooSoon => 1,
        Why::WrongCount => 2,
        Why::WrongKept => 3,
        Why::NotPending => 4,
        Why::NotLeast => 5,
        Why::WrongHow => 6,
        Why::IdlePending => 7,
    }
}
