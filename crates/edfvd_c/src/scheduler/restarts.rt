//! A scheduler whose counts start anew.
ghost use Rattle.std.specs.Prelude.{◌≡◌, Some, None, MatchOption};
ghost use Rattle.edfvd_c.specs.Scheduler.Event.{nothing};
ghost use Rattle.edfvd_c.specs.Handle.{scheduler_of, is_endless};
ghost use Rattle.edfvd_c.specs.Scheduler.Restarts as spec;
ghost use Rattle.edfvd_c.specs.Status.{CLOSED};

use crate::handle::{Handle, Held};
use crate::scheduler::event::{CAnswer, NOTHING, of_job};
use crate::scheduler::latest::LatestRows;
use crate::status;
use restart::{RestartFault, Restartable};
use std::alloc::Global;

/// Starts the counts of ticks, rows and jobs anew, in low mode, and keeps each task's earliest next release. It is refused with
/// TICK_OUT if a tick is in progress and with PENDING if a job is pending, each with the job; with MEMORY if memory runs out.
#[unsafe(no_mangle)]
pub extern "C" fn edfvd_raw_scheduler_restart(
    alloc: Global,
    scheduler: &mut Handle,
    answer: &mut CAnswer,
) -> u32
    ensures restarts { MatchOption (scheduler_of scheduler.old.block.held) ((result ≡ CLOSED) × (answer.new ≡ nothing)) (λ s. spec.Restarts s (scheduler_of scheduler.new.block.held) result answer.new) }
    ensures kind { is_endless scheduler.new.block.held ≡ is_endless scheduler.old.block.held }
    ensures other { scheduler_of scheduler.old.block.held ≡ None → scheduler.new.block.held ≡ scheduler.old.block.held }
{
    *answer = NOTHING;
    let Some(held) = scheduler.held() else {
        return status::CLOSED;
    };
    let (ended, found) = match held {
        Held::Core(open) => restart(alloc, open),
        Held::Endless(open) => restart_endless(alloc, open),
        Held::Monitor(_) => (status::CLOSED, NOTHING),
    };
    *answer = found;
    ended
}

fn restart(alloc: Global, scheduler: &mut Restartable) -> (u32, CAnswer)
    ensures { spec.Restarts scheduler.old (Some scheduler.new) result.0 result.1 }
{
    if let Some(fault) = scheduler.restart_fault() {
        return refused(fault);
    }
    let Ok(rows) = Vec::with_capacity(alloc, scheduler.core().places()) else {
        return (status::MEMORY, NOTHING);
    };
    // `restart_fault` found no other reason, so an error is a failed allocation.
    match scheduler.restart(alloc, rows) {
        Ok(()) => (status::OK, NOTHING),
        Err(_) => (status::MEMORY, NOTHING),
    }
}

fn restart_endless(alloc: Global, scheduler: &mut Restartable<LatestRows>) -> (u32, CAnswer)
    ensures { spec.Restarts scheduler.old (Some scheduler.new) result.0 result.1 }
{
    if let Some(fault) = scheduler.restart_fault() {
        return refused(fault);
    }
    // The capacity is at most 2^62 rows, which is what the new recorder takes.
    let _places = scheduler.core().places();
    let Ok(rows) = LatestRows::new(alloc) else {
        return (status::MEMORY, NOTHING);
    };
    // `restart_fault` found no other reason, so an error is a failed allocation.
    match scheduler.restart(alloc, rows) {
        Ok(()) => (status::OK, NOTHING),
        Err(_) => (status::MEMORY, NOTHING),
    }
}

fn refused(fault: RestartFault) -> (u32, CAnswer)
    ensures { result ≡ spec.returned_fault fault }
{
    match fault {
        RestartFault::TickOut { job } => (status::TICK_OUT, of_job(0, job, 0, 0)),
        RestartFault::Pending { job } => (status::PENDING, of_job(0, job, 0, 0)),
        RestartFault::Memory => (status::MEMORY, NOTHING),
    }
}
