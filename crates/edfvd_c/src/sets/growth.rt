//! How far the high budgets of sets can grow.
ghost use Rattle.std.specs.Prelude.{◌≡◌, ◌≢◌, ◌↔◌, ◌⊎◌, Some, None};
ghost use Rattle.edfvd_c.specs.Sets.Growth as spec;
ghost use Rattle.edfvd_c.specs.Sets.Refused.{IsRefused};
ghost use Rattle.study.specs.Acceptance.{accept_table};
ghost use Rattle.edfvd_c.specs.Status.{OK, NO_PERCENTAGE, ARGUMENT};

use crate::sets::given::CTask;
use crate::sets::loaded::set_and_loads;
use crate::status;
use std::alloc::Global;
use study::{stretch, table_alone};

/// Stores the greatest percentage of the high budgets, up to 1000, at which the published test admits the set.
/// Returns NO_PERCENTAGE if it admits the set at none.
#[unsafe(no_mangle)]
pub extern "C" fn edfvd_raw_stretch(
    alloc: Global,
    given: &[CTask],
    percent: &mut u32,
    task: &mut u32,
) -> u32
    ensures some { result ≡ OK → spec.IsStretched given.now (Some percent.new) }
    ensures none { result ≡ NO_PERCENTAGE → spec.IsStretched given.now None }
    ensures refused { result ≢ OK → result ≢ NO_PERCENTAGE → IsRefused given.now result task.new }
    ensures zero { result ≢ OK → percent.new ≡ 0 }
    ensures task { (result ≡ OK) ⊎ (result ≡ NO_PERCENTAGE) → task.new ≡ 0 }
{
    *percent = 0;
    *task = 0;
    match set_and_loads(alloc, given) {
        Ok(loaded) => match stretch(&loaded.set, &loaded.loads) {
            Some(most) => {
                *percent = most;
                status::OK
            }
            None => status::NO_PERCENTAGE,
        },
        Err(no) => {
            *task = no.task;
            no.status
        }
    }
}

/// Of this many random sets of this many tasks, those generated from `number` on, counts how many have a stretch of at least 100
/// percent, of at least 110 and so on to 200. It takes no memory.
#[unsafe(no_mangle)]
pub extern "C" fn edfvd_raw_accept(
    number: u64,
    sets: u32,
    tasks: u32,
    counts: &mut [u32; 11],
) -> u32
    ensures counts { result ≡ OK → counts.new ≡ accept_table number sets tasks }
    ensures accepted { (result ≡ OK) ↔ spec.AreAccepted number sets tasks }
    ensures argument { result ≢ OK → (result ≡ ARGUMENT) × (counts.new ≡ counts.old) }
{
    if !(1..=10_000).contains(&sets)
        || !(2..=32).contains(&tasks)
        || number > u64::MAX - u64::from(sets)
    {
        return status::ARGUMENT;
    }
    *counts = table_alone(number, sets, tasks);
    status::OK
}
