//! The tasks of a set on several processors.
ghost use Rattle.std.specs.Prelude.{◌≡◌, ◌≢◌, ◌↔◌, ◌⊎◌, ◌≤◌, IfOk, IfErr, length};
ghost use Rattle.edfvd_c.specs.Sets.Parted as spec;
ghost use Rattle.edfvd_c.specs.Sets.Refused.{IsRefused};
ghost use Rattle.edfvd_c.specs.Status.{OK, PERIODS, NO_PROCESSOR, ARGUMENT};

use crate::sets::given::{CTask, NoSet, set_of};
use crate::status;
use part_fit::{FitFault, Parts, fit};
use std::alloc::Global;

/// Puts the tasks on processors 1 to `processors`, at most 16, by first fit with the published test, and writes the processor
/// of each task in order. Returns NO_PROCESSOR if a task fits on none of them; `task` is the first such task. Returns ARGUMENT if
/// the number of processors is out of range, or `on` has not as many elements as there are tasks.
#[unsafe(no_mangle)]
pub extern "C" fn edfvd_raw_partition(
    alloc: Global,
    given: &[CTask],
    processors: u32,
    on: &mut [u32],
    task: &mut u32,
) -> u32
    ensures parted { result ≡ OK → spec.AreParted given.now processors on.new }
    ensures no_processor { result ≡ NO_PROCESSOR → spec.FitsNowhere given.now processors task.new }
    ensures argument { (result ≢ ARGUMENT) ↔ spec.IsParting given.now processors on.old }
    ensures refused { result ≢ OK → result ≢ NO_PROCESSOR → result ≢ ARGUMENT → IsRefused given.now result task.new }
    // The hyperperiod of all tasks is not tested. That of a processor's tasks is, and a task that takes it past 2^60 does not
    // fit there.
    ensures range { result ≢ PERIODS }
    ensures untouched { result ≢ OK → on.new ≡ on.old }
    ensures task { (result ≡ OK) ⊎ (result ≡ ARGUMENT) → task.new ≡ 0 }
{
    *task = 0;
    if !(1..=16).contains(&processors) || on.len() != given.len() {
        return status::ARGUMENT;
    }
    match parted(alloc, given, processors) {
        Ok(parts) => {
            on.copy_from_slice(parts.of.as_slice());
            status::OK
        }
        Err(no) => {
            *task = no.task;
            no.status
        }
    }
}

fn parted(alloc: Global, given: &[CTask], processors: u32) -> Result<Parts, NoSet>
    requires { (1 ≤ processors) × (processors ≤ 16) }
    ensures parted { IfOk result (spec.AreParted given.now processors) }
    ensures long { IfOk result (λ parts. length parts ≡ length given.now) }
    ensures no_processor { IfErr result (λ no. no.status ≡ NO_PROCESSOR → spec.FitsNowhere given.now processors no.task) }
    ensures refused { IfErr result (λ no. no.status ≢ NO_PROCESSOR → IsRefused given.now no.status no.task) }
    ensures status { IfErr result (λ no. (no.status ≢ OK) × (no.status ≢ PERIODS) × (no.status ≢ ARGUMENT)) }
{
    let set = set_of(alloc, given)?;
    match fit(alloc, &set, processors) {
        Ok(parts) => Ok(parts),
        Err(FitFault::Memory) => Err(NoSet {
            status: status::MEMORY,
            task: 0,
        }),
        Err(FitFault::NoRoom { task }) => Err(NoSet {
            status: status::NO_PROCESSOR,
            task: task.0,
        }),
    }
}
