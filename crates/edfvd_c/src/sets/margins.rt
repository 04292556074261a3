//! What may change in a set with the published test still admitting it: the budgets, the scale, and the speed of the processor.
ghost use Rattle.std.specs.Prelude.{◌≡◌, ◌≢◌, ◌⊎◌, ◌≤◌, ◌^◌, length};
ghost use Rattle.tick_frac.specs.Fraction.{IsLowest};
ghost use Rattle.load_sum.specs.Belong.{BelongTo};
ghost use Rattle.edfvd_c.specs.Sets.Margins as spec;
ghost use Rattle.edfvd_c.specs.Sets.Refused.{AreInRange, IsRefused};
ghost use Rattle.edfvd_c.specs.Status.{OK, NOT_ADMITTED, ARGUMENT};

use crate::sets::given::CTask;
use crate::sets::loaded::{SetAndLoads, set_and_loads};
use crate::status;
use mc_task::TaskNo;
use sensitivity::{GreatestBudgets, ScaleRange, greatest_of, least_speed, scales};
use std::alloc::Global;

/// The greatest budgets of a task with which the test admits the set, if one of them changes; 0 if there is none.
#[repr(C)]
#[derive(Clone, Copy)]
pub struct CBudgets {
    pub low: u32,
    pub high: u32,
}

/// The scales that hold: from `least_p/least_q`, which is 0/1 if no task is high, to `greatest_p/greatest_q`.
#[repr(C)]
#[derive(Clone, Copy)]
pub struct CScaleRange {
    pub least_p: u64,
    pub least_q: u64,
    pub greatest_p: u64,
    pub greatest_q: u64,
}

const NO_SCALES: CScaleRange = CScaleRange {
    least_p: 0,
    least_q: 0,
    greatest_p: 0,
    greatest_q: 0,
};

/// Stores the greatest budgets of each task in order, in `budgets`, which has as many elements as there are tasks.
#[unsafe(no_mangle)]
pub extern "C" fn edfvd_raw_sensitivity(
    alloc: Global,
    given: &[CTask],
    budgets: &mut [CBudgets],
    task: &mut u32,
) -> u32
    ensures greatest { result ≡ OK → spec.AreGreatest given.now budgets.new }
    ensures refused { result ≢ OK → result ≢ ARGUMENT → IsRefused given.now result task.new }
    ensures argument { result ≡ ARGUMENT → (length given.now ≤ 128) × (length budgets.old ≢ length given.now) }
    ensures untouched { result ≢ OK → budgets.new ≡ budgets.old }
    ensures task { (result ≡ OK) ⊎ (result ≡ ARGUMENT) → task.new ≡ 0 }
{
    *task = 0;
    match set_and_loads(alloc, given) {
        Ok(loaded) => store_greatest(&loaded, given, budgets),
        Err(no) => {
            *task = no.task;
            no.status
        }
    }
}

fn store_greatest(loaded: &SetAndLoads, given: &[CTask], budgets: &mut [CBudgets]) -> u32
    requires tasks { AreInRange given.now loaded.now.set.tasks }
    requires loads { BelongTo loaded.now.set.tasks loaded.now.loads }
    ensures greatest { result ≡ OK → spec.AreGreatest given.now budgets.new }
    ensures argument { result ≢ OK → (result ≡ ARGUMENT) × (length budgets.old ≢ length given.now) × (budgets.new ≡ budgets.old) }
{
    if budgets.len() != given.len() {
        return status::ARGUMENT;
    }
    let count = loaded.set.len();
    for i in 0..count {
        budgets[i as usize] = budgets_in_numbers(greatest_of(
            &loaded.set,
            &loaded.loads,
            TaskNo(i + 1),
        ));
    }
    status::OK
}

fn budgets_in_numbers(greatest: GreatestBudgets) -> CBudgets
    ensures { result ≡ spec.budgets_of greatest }
{
    CBudgets {
        low: greatest.low.unwrap_or(0),
        high: greatest.high.unwrap_or(0),
    }
}

/// Stores the least and the greatest scale that hold. Returns NOT_ADMITTED if none holds, which is so exactly if the published
/// test does not admit the set. With any other status than OK, zeros are stored.
#[unsafe(no_mangle)]
pub extern "C" fn edfvd_raw_scales(
    alloc: Global,
    given: &[CTask],
    stored: &mut CScaleRange,
    task: &mut u32,
) -> u32
    ensures scales { result ≡ OK → spec.AreScales given.now stored.new }
    ensures none { result ≡ NOT_ADMITTED → spec.HaveNoScale given.now }
    ensures refused { result ≢ OK → result ≢ NOT_ADMITTED → IsRefused given.now result task.new }
    ensures zeros { result ≢ OK → stored.new ≡ spec.zeros }
    ensures task { (result ≡ OK) ⊎ (result ≡ NOT_ADMITTED) → task.new ≡ 0 }
{
    *task = 0;
    *stored = NO_SCALES;
    match set_and_loads(alloc, given) {
        Ok(loaded) => match scales(&loaded.loads) {
            Some(range) => {
                *stored = scales_in_numbers(range);
                status::OK
            }
            None => status::NOT_ADMITTED,
        },
        Err(no) => {
            *task = no.task;
            no.status
        }
    }
}

fn scales_in_numbers(range: ScaleRange) -> CScaleRange
    requires least { (range.least.num ≤ range.least.den) × (range.least.den ≤ 2 ^ 60) }
    requires greatest { (range.greatest.num ≤ range.greatest.den) × (range.greatest.den ≤ 2 ^ 60) }
    ensures least { spec.least_of result ≡ range.least }
    ensures greatest { spec.greatest_of result ≡ range.greatest }
    ensures lowest { IsLowest range.least × IsLowest range.greatest }
{
    CScaleRange {
        least_p: range.least.num() as u64,
        least_q: range.least.den() as u64,
        greatest_p: range.greatest.num() as u64,
        greatest_q: range.greatest.den() as u64,
    }
}

/// Stores the least speed of the processor, in millionths, at which the published test admits the set. With any other status than
/// OK, 0 is stored.
#[unsafe(no_mangle)]
pub extern "C" fn edfvd_raw_speed(
    alloc: Global,
    given: &[CTask],
    millionths: &mut u64,
    task: &mut u32,
) -> u32
    ensures least { result ≡ OK → spec.IsSpeed given.now millionths.new }
    ensures refused { result ≢ OK → IsRefused given.now result task.new }
    ensures zero { result ≢ OK → millionths.new ≡ 0 }
    ensures task { result ≡ OK → task.new ≡ 0 }
{
    *task = 0;
    *millionths = 0;
    match set_and_loads(alloc, given) {
        Ok(loaded) => {
            *millionths = least_speed(&loaded.loads);
            status::OK
        }
        Err(no) => {
            *task = no.task;
            no.status
        }
    }
}
