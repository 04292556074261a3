//! A scheduler that a caller in C drives event by event.
ghost use Rattle.std.specs.Prelude.{◌≡◌, ◌≢◌, ◌⊎◌, ◌^◌, Some, None, IsSome, IfOk, IfErr, MatchOption};
ghost use Rattle.mc_model.specs.Test.{published};
ghost use Rattle.mc_model.specs.Holds.{Fits, Holds};
ghost use Rattle.mode_core.specs.Events.{after_idle};
ghost use Rattle.edfvd_c.specs.Sets.Refused.{AreInRange, AreNotAdmitted};
ghost use Rattle.edfvd_c.specs.Scheduler.Opening.{IsOpening, IsUnopened};
ghost use Rattle.edfvd_c.specs.Handle.{scheduler_of, core_of, is_endless, Opens, Does, Reads};
ghost use Rattle.edfvd_c.specs.Scheduler.Look as view;
ghost use Rattle.edfvd_c.specs.Scheduler.Event as spec;
ghost use Rattle.edfvd_c.specs.Status.{OK, CLOSED, OPEN};

mod certified;
mod event;
mod latest;
mod look;
mod opening;
mod restarts;
mod rows;
mod runs;

use crate::handle::{Handle, Held, on_scheduler, read_scheduler};
use crate::sets::{CTask, NoSet, SetAndLoads, set_and_loads};
use crate::status;
use admission::admit;
use event::{CAnswer, NOTHING};
pub use latest::LatestRows;
use look::{CLook, NO_LOOK, look_at};
use mc_task::{Rule, TaskSet};
use opening::{with_places, without_end};
use std::alloc::Global;

/// Opens a scheduler of the tasks under the rule of the published test, with this capacity in rows.
#[unsafe(no_mangle)]
pub extern "C" fn edfvd_raw_scheduler_open(
    alloc: Global,
    scheduler: &mut Handle,
    given: &[CTask],
    places: u32,
    task: &mut u32,
) -> u32
    ensures opens { Opens scheduler.old.block.held scheduler.new.block.held result (IsOpening Held.Core given.now places) }
    ensures unopened { result ≢ OK → result ≢ OPEN → IsUnopened given.now (AreNotAdmitted given.now) result task.new }
    ensures task { (result ≡ OK) ⊎ (result ≡ OPEN) → task.new ≡ 0 }
{
    *task = 0;
    if scheduler.is_open() {
        return status::OPEN;
    }
    match opened(alloc, given, places) {
        Ok(held) => {
            scheduler.put(held);
            status::OK
        }
        Err(no) => {
            *task = no.task;
            no.status
        }
    }
}

fn opened(alloc: Global, given: &[CTask], places: u32) -> Result<Box<Held>, NoSet>
    ensures made { IfOk result (λ made. IsOpening Held.Core given.now places made.value) }
    ensures unopened { IfErr result (λ no. IsUnopened given.now (AreNotAdmitted given.now) no.status no.task) }
    ensures status { IfErr result (λ no. (no.status ≢ OK) × (no.status ≢ OPEN)) }
{
    let (set, rule) = admitted(alloc, given)?;
    with_places(alloc, set, rule, places)
}

// The set of the tasks, and the rule of the published test.
fn admitted(alloc: Global, given: &[CTask]) -> Result<(TaskSet, Rule), NoSet>
    ensures tasks { IfOk result (λ found. AreInRange given.now found.0.tasks) }
    ensures published { IfOk result (λ found. published found.0.tasks ≡ Some found.1) }
    ensures fits { IfOk result (λ found. Fits found.1) }
    ensures holds { IfOk result (λ found. Holds found.0.tasks found.1) }
    ensures unopened { IfErr result (λ no. IsUnopened given.now (AreNotAdmitted given.now) no.status no.task) }
    ensures status { IfErr result (λ no. (no.status ≢ OK) × (no.status ≢ OPEN)) }
{
    let SetAndLoads { set, loads } = set_and_loads(alloc, given)?;
    match admit(&loads) {
        Some(rule) => Ok((set, rule)),
        None => Err(NoSet {
            status: status::NOT_ADMITTED,
            task: 0,
        }),
    }
}

/// Opens a scheduler without an end, of the tasks under the rule of the published test. It has 2^62 places for rows, keeps
/// the latest 256 runs of equal rows, and takes no memory after it is open, except to restart.
#[unsafe(no_mangle)]
pub extern "C" fn edfvd_raw_scheduler_open_endless(
    alloc: Global,
    scheduler: &mut Handle,
    given: &[CTask],
    task: &mut u32,
) -> u32
    ensures opens { Opens scheduler.old.block.held scheduler.new.block.held result (IsOpening Held.Endless given.now (2 ^ 62)) }
    ensures unopened { result ≢ OK → result ≢ OPEN → IsUnopened given.now (AreNotAdmitted given.now) result task.new }
    ensures task { (result ≡ OK) ⊎ (result ≡ OPEN) → task.new ≡ 0 }
{
    *task = 0;
    if scheduler.is_open() {
        return status::OPEN;
    }
    match opened_endless(alloc, given) {
        Ok(held) => {
            scheduler.put(held);
            status::OK
        }
        Err(no) => {
            *task = no.task;
            no.status
        }
    }
}

fn opened_endless(alloc: Global, given: &[CTask]) -> Result<Box<Held>, NoSet>
    ensures made { IfOk result (λ made. IsOpening Held.Endless given.now (2 ^ 62) made.value) }
    ensures unopened { IfErr result (λ no. IsUnopened given.now (AreNotAdmitted given.now) no.status no.task) }
    ensures status { IfErr result (λ no. (no.status ≢ OK) × (no.status ≢ OPEN)) }
{
    let (set, rule) = admitted(alloc, given)?;
    without_end(alloc, set, rule)
}

/// Closes the scheduler, and frees what it took.
#[unsafe(no_mangle)]
pub extern "C" fn edfvd_raw_scheduler_close(alloc: Global, scheduler: &mut Handle) -> u32
    ensures closed { core_of scheduler.new.block.held ≡ None }
    ensures emptied { IsSome (core_of scheduler.old.block.held) → scheduler.new.block.held ≡ None }
    ensures other { core_of scheduler.old.block.held ≡ None → scheduler.new.block.held ≡ scheduler.old.block.held }
    ensures status { MatchOption (core_of scheduler.old.block.held) (result ≡ CLOSED) (λ s. result ≡ OK) }
{
    let Some(held) = scheduler.take(alloc) else {
        return status::CLOSED;
    };
    if let Held::Monitor(_) = &*held {
        scheduler.put(held);
        return status::CLOSED;
    }
    status::OK
}

/// Releases the next job of the task.
#[unsafe(no_mangle)]
pub extern "C" fn edfvd_raw_scheduler_release(
    scheduler: &mut Handle,
    task: u32,
    answer: &mut CAnswer,
) -> u32
    ensures does { Does (scheduler_of scheduler.old.block.held) (scheduler_of scheduler.new.block.held) result answer.new (λ s. spec.release_returns s task) (λ s. spec.release_after s task) }
    ensures kind { is_endless scheduler.new.block.held ≡ is_endless scheduler.old.block.held }
    ensures other { core_of scheduler.old.block.held ≡ None → scheduler.new.block.held ≡ scheduler.old.block.held }
{
    on_scheduler!(scheduler, open => event::release(open, task), answer, NOTHING)
}

/// Grants the next tick to the task, whose job must be the chosen one.
#[unsafe(no_mangle)]
pub extern "C" fn edfvd_raw_scheduler_grant(
    scheduler: &mut Handle,
    task: u32,
    answer: &mut CAnswer,
) -> u32
    ensures does { Does (scheduler_of scheduler.old.block.held) (scheduler_of scheduler.new.block.held) result answer.new (λ s. spec.grant_returns s.core task) (λ s. spec.with_core s (spec.grant_after s.core task)) }
    ensures kind { is_endless scheduler.new.block.held ≡ is_endless scheduler.old.block.held }
    ensures other { core_of scheduler.old.block.held ≡ None → scheduler.new.block.held ≡ scheduler.old.block.held }
{
    on_scheduler!(scheduler, open => event::grant(open, task), answer, NOTHING)
}

/// Reports how the tick in progress ended for its job: whether the job is done.
#[unsafe(no_mangle)]
pub extern "C" fn edfvd_raw_scheduler_outcome(
    scheduler: &mut Handle,
    task: u32,
    count: u32,
    done: bool,
    answer: &mut CAnswer,
) -> u32
    ensures does { Does (scheduler_of scheduler.old.block.held) (scheduler_of scheduler.new.block.held) result answer.new (λ s. spec.outcome_returns s.core task count done) (λ s. spec.with_core s (spec.outcome_after s.core task count done)) }
    ensures kind { is_endless scheduler.new.block.held ≡ is_endless scheduler.old.block.held }
    ensures other { core_of scheduler.old.block.held ≡ None → scheduler.new.block.held ≡ scheduler.old.block.held }
{
    on_scheduler!(scheduler, open => event::outcome(open, task, count, done), answer, NOTHING)
}

/// Reports that the next tick is idle, which it may be only if no job is pending.
#[unsafe(no_mangle)]
pub extern "C" fn edfvd_raw_scheduler_idle(scheduler: &mut Handle, answer: &mut CAnswer) -> u32
    ensures does { Does (scheduler_of scheduler.old.block.held) (scheduler_of scheduler.new.block.held) result answer.new (λ s. spec.idle_returns s.core) (λ s. spec.with_core s (after_idle s.core)) }
    ensures kind { is_endless scheduler.new.block.held ≡ is_endless scheduler.old.block.held }
    ensures other { core_of scheduler.old.block.held ≡ None → scheduler.new.block.held ≡ scheduler.old.block.held }
{
    on_scheduler!(scheduler, open => event::idle(open), answer, NOTHING)
}

/// Stores the scheduler's clock, mode and jobs.
#[unsafe(no_mangle)]
pub extern "C" fn edfvd_raw_scheduler_look(scheduler: &mut Handle, look: &mut CLook) -> u32
    ensures same { scheduler.new.block.held ≡ scheduler.old.block.held }
    ensures reads { Reads (core_of scheduler.old.block.held) result look.new view.no_look (λ s. (OK, view.look s)) }
{
    read_scheduler!(scheduler, open => (status::OK, look_at(open.core())), look, NO_LOOK)
}
