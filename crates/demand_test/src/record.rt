//! A record of a demand file as a task.
ghost use Rattle.std.specs.Prelude.{◌≡◌, ◌<◌, ◌≤◌, ◌^◌, ◌++◌, ◌∷◌, [], IfOk, OnOk, length};
ghost use Rattle.csv.specs.Records.{fields_of};
ghost use Rattle.demand_test.specs.DemandSet.{hyperperiod};
ghost use Rattle.demand_test.specs.DemandFile as file;
ghost use Rattle.demand_test.specs.DemandList as list;
ghost use Rattle.demand_test.specs.SoFar.{IsSoFar};

use crate::{Demand, DemandCause};
use csv::ByteRecord;
use csv_records::{field, is};
use mc_task::Name;
use numeral::number;
use tick_frac::lcm_within;

// Whether the record is `task,period,deadline,budget`.
#[tactic(auto, using(csv_records::proofs::WordLemmas::words_by_column))]
pub fn is_header(fields: &ByteRecord) -> bool
    ensures { result ≡ file.is_header (fields_of fields.now) }
{
    fields.len() == 4
        && (is(field(fields, 0), "task")
            && (is(field(fields, 1), "period")
                && (is(field(fields, 2), "deadline") && is(field(fields, 3), "budget"))))
}

// The task of a record after these tasks, which have this hyperperiod; or why it is refused. A task returned counts as
// one of the tasks from then on.
#[tactic(auto, unfolding(crate::specs::DemandFile::record_task))]
pub fn record_task(
    before: &[Demand],
    multiple: &mut u32,
    fields: &ByteRecord,
) -> Result<Demand, DemandCause>
    requires so_far { IsSoFar before.now multiple.old }
    ensures task { result ≡ file.record_task before.now (fields_of fields.now) }
    ensures so_far { IfOk result (λ task. IsSoFar (before.now ++ task ∷ []) multiple.new) }
    ensures few { OnOk result (length before.now < 128) }
{
    if before.len() >= 128 {
        return Err(DemandCause::TooMany);
    }
    if fields.len() != 4 {
        return Err(DemandCause::BadRecord);
    }
    let name = name_of(before, field(fields, 0))?;
    let task = numbered_task(name, fields)?;
    let next = multiple_with(before, *multiple, &task)?;
    *multiple = next;
    Ok(task)
}

// The name in a field, if no earlier task has it; or why it is refused.
fn name_of(before: &[Demand], field: &[u8]) -> Result<Name, DemandCause>
    ensures { result ≡ file.name_of before.now field.now }
{
    let Some(name) = Name::new(field) else {
        return Err(DemandCause::BadName);
    };
    if has_name(before, field) {
        return Err(DemandCause::SameName);
    }
    Ok(name)
}

fn has_name(tasks: &[Demand], name: &[u8]) -> bool
    ensures { result ≡ file.has_name name.now tasks.now }
{
    for t in tasks {
        if t.name.bytes() == name {
            return true;
        }
    }
    false
}

// The task of this name with the numbers in the other fields.
fn numbered_task(name: Name, fields: &ByteRecord) -> Result<Demand, DemandCause>
    ensures task { result ≡ file.numbered_task name (fields_of fields.now) }
    ensures name { IfOk result (λ t. t.name ≡ name) }
    ensures small { IfOk result (λ t. (t.period < 2 ^ 32) × (t.deadline < 2 ^ 32) × (t.budget < 2 ^ 32)) }
{
    let Some(period) = number(field(fields, 1)) else {
        return Err(DemandCause::BadNumber);
    };
    let Some(deadline) = number(field(fields, 2)) else {
        return Err(DemandCause::BadNumber);
    };
    let Some(budget) = number(field(fields, 3)) else {
        return Err(DemandCause::BadNumber);
    };
    Ok(Demand {
        name,
        period,
        deadline,
        budget,
    })
}

// The hyperperiod with this task after these tasks, which have this hyperperiod; or why the task is refused.
pub fn multiple_after(before: &[Demand], multiple: u32, t: &Demand) -> Result<u32, DemandCause>
    requires so_far { IsSoFar before.now multiple }
    ensures value { result ≡ list.multiple_after before.now t.now }
    ensures so_far { IfOk result (λ multiple. IsSoFar (before.now ++ t.now ∷ []) multiple) }
{
    if before.len() >= 128 {
        return Err(DemandCause::TooMany);
    }
    if has_name(before, t.name.bytes()) {
        return Err(DemandCause::SameName);
    }
    multiple_with(before, multiple, t)
}

// The hyperperiod with this task's period, if the task's numbers are in order; or why it is refused.
fn multiple_with(before: &[Demand], multiple: u32, task: &Demand) -> Result<u32, DemandCause>
    requires multiple { multiple ≡ hyperperiod before.now }
    requires some { 1 ≤ multiple }
    ensures value { result ≡ file.multiple_with before.now task.now }
    ensures small { OnOk result ((task.now.period < 2 ^ 32) × (task.now.deadline < 2 ^ 32) × (task.now.budget < 2 ^ 32)) }
{
    if task.period == 0 || task.deadline == 0 || task.budget == 0 {
        return Err(DemandCause::ZeroNumber);
    }
    if task.deadline > task.period {
        return Err(DemandCause::DeadlineOrder);
    }
    match lcm_within(u64::from(multiple), u64::from(task.period), MOST_LCM) {
        Some(multiple) => Ok(multiple as u32),
        None => Err(DemandCause::Range),
    }
}

// The greatest hyperperiod that is within range, in ticks.
const MOST_LCM: u64 = 500_000;
