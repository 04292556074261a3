//! Schedulers that are opened under a scale of the caller's own, which must hold for the tasks.
ghost use Rattle.std.specs.Prelude.{◌≡◌, ◌≢◌, ◌↔◌, ◌⊎◌, ◌^◌, true, false, IfOk, IfErr};
ghost use Rattle.mc_model.specs.Holds.{Fits, Holds};
ghost use Rattle.edfvd_c.specs.Scheduler.Certified.{is_no_scale, IsCertified, AreUncertified, IsScaledOpening};
ghost use Rattle.edfvd_c.specs.Scheduler.Opening.{IsUnopened};
ghost use Rattle.edfvd_c.specs.Handle.{Opens};
ghost use Rattle.edfvd_c.specs.Sets.Refused.{AreInRange};
ghost use Rattle.edfvd_c.specs.Status.{OK, OPEN, ARGUMENT};

use crate::handle::{Handle, Held};
use crate::scheduler::opening::{with_places, without_end};
use crate::sets::{CTask, NoSet, SetAndLoads, set_and_loads};
use crate::status;
use admission::{admit, holds_for};
use mc_task::{Rule, TaskSet};
use std::alloc::Global;

const NOT_ADMITTED: NoSet = NoSet {
    status: status::NOT_ADMITTED,
    task: 0,
};

/// Opens a scheduler of the tasks, with this capacity in rows, under the rule of the published test where `p` is 0, and
/// otherwise under EDF-VD with the scale `p/q`, which must hold for the tasks.
#[unsafe(no_mangle)]
pub extern "C" fn edfvd_raw_scheduler_open_scaled(
    alloc: Global,
    scheduler: &mut Handle,
    given: &[CTask],
    p: u64,
    q: u64,
    places: u32,
    task: &mut u32,
) -> u32
    ensures opens { Opens scheduler.old.block.held scheduler.new.block.held result (IsScaledOpening Held.Core given.now p q places) }
    ensures argument { result ≢ OPEN → (result ≡ ARGUMENT) ↔ (is_no_scale p q ≡ true) }
    ensures unopened { result ≢ OK → result ≢ OPEN → result ≢ ARGUMENT → IsUnopened given.now (AreUncertified given.now p q) result task.new }
    ensures task { (result ≡ OK) ⊎ (result ≡ OPEN) ⊎ (result ≡ ARGUMENT) → task.new ≡ 0 }
{
    *task = 0;
    if scheduler.is_open() {
        return status::OPEN;
    }
    match opened(alloc, given, p, q, places) {
        Ok(held) => {
            scheduler.put(held);
            status::OK
        }
        Err(no) => {
            *task = no.task;
            no.status
        }
    }
}

fn opened(alloc: Global, given: &[CTask], p: u64, q: u64, places: u32) -> Result<Box<Held>, NoSet>
    ensures made { IfOk result (λ made. IsScaledOpening Held.Core given.now p q places made.value) }
    ensures scale { IfOk result (λ made. is_no_scale p q ≡ false) }
    ensures argument { IfErr result (λ no. (no.status ≡ ARGUMENT) ↔ (is_no_scale p q ≡ true)) }
    ensures unopened { IfErr result (λ no. no.status ≢ ARGUMENT → IsUnopened given.now (AreUncertified given.now p q) no.status no.task) }
    ensures task { IfErr result (λ no. no.status ≡ ARGUMENT → no.task ≡ 0) }
    ensures status { IfErr result (λ no. (no.status ≢ OK) × (no.status ≢ OPEN)) }
{
    let (set, rule) = certified(alloc, given, p, q)?;
    with_places(alloc, set, rule, places)
}

/// Opens a scheduler without an end under the rule of the published test where `p` is 0, and otherwise under EDF-VD with the
/// scale `p/q`, which must hold for the tasks.
#[unsafe(no_mangle)]
pub extern "C" fn edfvd_raw_scheduler_open_endless_scaled(
    alloc: Global,
    scheduler: &mut Handle,
    given: &[CTask],
    p: u64,
    q: u64,
    task: &mut u32,
) -> u32
    ensures opens { Opens scheduler.old.block.held scheduler.new.block.held result (IsScaledOpening Held.Endless given.now p q (2 ^ 62)) }
    ensures argument { result ≢ OPEN → (result ≡ ARGUMENT) ↔ (is_no_scale p q ≡ true) }
    ensures unopened { result ≢ OK → result ≢ OPEN → result ≢ ARGUMENT → IsUnopened given.now (AreUncertified given.now p q) result task.new }
    ensures task { (result ≡ OK) ⊎ (result ≡ OPEN) ⊎ (result ≡ ARGUMENT) → task.new ≡ 0 }
{
    *task = 0;
    if scheduler.is_open() {
        return status::OPEN;
    }
    match opened_endless(alloc, given, p, q) {
        Ok(held) => {
            scheduler.put(held);
            status::OK
        }
        Err(no) => {
            *task = no.task;
            no.status
        }
    }
}

fn opened_endless(alloc: Global, given: &[CTask], p: u64, q: u64) -> Result<Box<Held>, NoSet>
    ensures made { IfOk result (λ made. IsScaledOpening Held.Endless given.now p q (2 ^ 62) made.value) }
    ensures scale { IfOk result (λ made. is_no_scale p q ≡ false) }
    ensures argument { IfErr result (λ no. (no.status ≡ ARGUMENT) ↔ (is_no_scale p q ≡ true)) }
    ensures unopened { IfErr result (λ no. no.status ≢ ARGUMENT → IsUnopened given.now (AreUncertified given.now p q) no.status no.task) }
    ensures task { IfErr result (λ no. no.status ≡ ARGUMENT → no.task ≡ 0) }
    ensures status { IfErr result (λ no. (no.status ≢ OK) × (no.status ≢ OPEN)) }
{
    let (set, rule) = certified(alloc, given, p, q)?;
    without_end(alloc, set, rule)
}

// The set of the tasks, and the rule that holds for it: that of the published test where p is 0, and otherwise that of the
// scale.
fn certified(alloc: Global, given: &[CTask], p: u64, q: u64) -> Result<(TaskSet, Rule), NoSet>
    ensures tasks { IfOk result (λ found. AreInRange given.now found.0.tasks) }
    ensures rule { IfOk result (λ found. IsCertified p q found.0.tasks found.1) }
    ensures fits { IfOk result (λ found. Fits found.1) }
    ensures holds { IfOk result (λ found. Holds found.0.tasks found.1) }
    ensures scale { IfOk result (λ found. is_no_scale p q ≡ false) }
    ensures argument { IfErr result (λ no. (no.status ≡ ARGUMENT) ↔ (is_no_scale p q ≡ true)) }
    ensures unopened { IfErr result (λ no. no.status ≢ ARGUMENT → IsUnopened given.now (AreUncertified given.now p q) no.status no.task) }
    ensures task { IfErr result (λ no. no.status ≡ ARGUMENT → no.task ≡ 0) }
    ensures status { IfErr result (λ no. (no.status ≢ OK) × (no.status ≢ OPEN)) }
{
    if q < p || q > 1 << 60 || (p == 0 && q != 0) {
        return Err(NoSet {
            status: status::ARGUMENT,
            task: 0,
        });
    }
    let SetAndLoads { set, loads } = set_and_loads(alloc, given)?;
    let found = if p == 0 {
        admit(&loads)
    } else if holds_for(&loads, p, q) {
        Some(Rule::Virtual { p, q })
    } else {
        None
    };
    match found {
        Some(rule) => Ok((set, rule)),
        None => Err(NOT_ADMITTED),
    }
}
