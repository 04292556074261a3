//! Runs of ticks in one call, and what a caller would otherwise keep tables of.
ghost use Rattle.std.specs.Prelude.{◌≡◌, Some, None};
ghost use Rattle.edfvd_c.specs.Handle.{scheduler_of, core_of, is_endless, Does, Reads};
ghost use Rattle.edfvd_c.specs.Scheduler.Event.{with_core};
ghost use Rattle.edfvd_c.specs.Scheduler.Runs as spec;

use crate::handle::{Handle, on_scheduler, read_scheduler};
use crate::row::count_number;
use crate::scheduler::event::{self, CAnswer, NOTHING};
use crate::status;
use mc_task::{Rule, TaskNo};
use mode_core::{Boundary, Core, PendingJob};
use restart::Restartable;
use row_history::Recorder;

/// The chosen job, and how many ticks it may run in one go. All is 0 if no job is pending.
#[repr(C)]
#[derive(Clone, Copy)]
pub struct CNext {
    pub task: u32,
    pub count: u32,
    pub ticks: u32,
}

/// A pending job: the ticks that it has had, its release, the number of ticks before its deadline, and its key in the
/// present mode, which is `key_top` * 2^64 + `key`. All is 0 if there is none.
#[repr(C)]
#[derive(Clone, Copy)]
pub struct CPending {
    pub task: u32,
    pub count: u32,
    pub used: u32,
    pub release: u64,
    pub deadline: u64,
    pub key_top: u64,
    pub key: u64,
}

/// The scale p/q of EDF-VD; 0 and 0 under plain EDF.
#[repr(C)]
#[derive(Clone, Copy)]
pub struct CScale {
    pub p: u64,
    pub q: u64,
}

const NO_NEXT: CNext = CNext {
    task: 0,
    count: 0,
    ticks: 0,
};

const NO_PENDING: CPending = CPending {
    task: 0,
    count: 0,
    used: 0,
    release: 0,
    deadline: 0,
    key_top: 0,
    key: 0,
};

const NO_SCALE: CScale = CScale { p: 0, q: 0 };

/// Reports that the chosen job ran for this many ticks in one go, and whether it is done after the last of them. Returns
/// PAST for a run past the job's boundary, with the number of ticks up to it, and ARGUMENT for no tick.
#[unsafe(no_mangle)]
pub extern "C" fn edfvd_raw_scheduler_run(
    scheduler: &mut Handle,
    task: u32,
    count: u32,
    ticks: u32,
    done: bool,
    answer: &mut CAnswer,
) -> u32
    ensures does { Does (scheduler_of scheduler.old.block.held) (scheduler_of scheduler.new.block.held) result answer.new (λ s. spec.run_returns s.core task count ticks done) (λ s. with_core s (spec.run_after s.core task count ticks done)) }
    ensures kind { is_endless scheduler.new.block.held ≡ is_endless scheduler.old.block.held }
    ensures other { core_of scheduler.old.block.held ≡ None → scheduler.new.block.held ≡ scheduler.old.block.held }
{
    on_scheduler!(scheduler, open => event::run(open, task, count, ticks, done), answer, NOTHING)
}

/// Reports that the next ticks, this many, are idle, which they may be only if no job is pending. Returns ARGUMENT
/// for no tick.
#[unsafe(no_mangle)]
pub extern "C" fn edfvd_raw_scheduler_idle_for(
    scheduler: &mut Handle,
    ticks: u64,
    answer: &mut CAnswer,
) -> u32
    ensures does { Does (scheduler_of scheduler.old.block.held) (scheduler_of scheduler.new.block.held) result answer.new (λ s. spec.idle_for_returns s.core ticks) (λ s. with_core s (spec.idle_for_after s.core ticks)) }
    ensures kind { is_endless scheduler.new.block.held ≡ is_endless scheduler.old.block.held }
    ensures other { core_of scheduler.old.block.held ≡ None → scheduler.new.block.held ≡ scheduler.old.block.held }
{
    on_scheduler!(scheduler, open => event::idle_for(open, ticks), answer, NOTHING)
}

/// Stores the chosen job, and how many ticks it may run in one go.
#[unsafe(no_mangle)]
pub extern "C" fn edfvd_raw_scheduler_next(scheduler: &mut Handle, next: &mut CNext) -> u32
    ensures same { scheduler.new.block.held ≡ scheduler.old.block.held }
    ensures reads { Reads (core_of scheduler.old.block.held) result next.new (spec.next_numbers None) spec.next_returns }
{
    read_scheduler!(scheduler, open => (status::OK, next_numbers(open.core().boundary())), next, NO_NEXT)
}

/// Stores the task's pending job.
#[unsafe(no_mangle)]
pub extern "C" fn edfvd_raw_scheduler_pending(
    scheduler: &mut Handle,
    task: u32,
    pending: &mut CPending,
) -> u32
    ensures same { scheduler.new.block.held ≡ scheduler.old.block.held }
    ensures reads { Reads (core_of scheduler.old.block.held) result pending.new (spec.pending_numbers None) (λ s. spec.pending_returns s task) }
{
    read_scheduler!(scheduler, open => pending_in(open.core(), task), pending, NO_PENDING)
}

/// Stores the earliest next release of the task: the first tick at which it is not too soon.
#[unsafe(no_mangle)]
pub extern "C" fn edfvd_raw_scheduler_earliest(
    scheduler: &mut Handle,
    task: u32,
    at: &mut u64,
) -> u32
    ensures same { scheduler.new.block.held ≡ scheduler.old.block.held }
    ensures reads { Reads (scheduler_of scheduler.old.block.held) result at.new 0 (λ s. spec.earliest_returns s task) }
{
    read_scheduler!(scheduler, open => earliest_in(open, task), at, 0)
}

/// Stores the count of the task's job that the latest overrun discarded, or 0 if it discarded none of the task.
#[unsafe(no_mangle)]
pub extern "C" fn edfvd_raw_scheduler_discarded(
    scheduler: &mut Handle,
    task: u32,
    count: &mut u32,
) -> u32
    ensures same { scheduler.new.block.held ≡ scheduler.old.block.held }
    ensures reads { Reads (core_of scheduler.old.block.held) result count.new 0 (λ s. spec.discarded_returns s task) }
{
    read_scheduler!(scheduler, open => discarded_in(open.core(), task), count, 0)
}

/// Stores the scale in force.
#[unsafe(no_mangle)]
pub extern "C" fn edfvd_raw_scheduler_scale(scheduler: &mut Handle, scale: &mut CScale) -> u32
    ensures same { scheduler.new.block.held ≡ scheduler.old.block.held }
    ensures reads { Reads (core_of scheduler.old.block.held) result scale.new (record { p = 0; q = 0 }) spec.scale_returns }
{
    read_scheduler!(scheduler, open => (status::OK, scale_numbers(open.core().rule())), scale, NO_SCALE)
}

fn next_numbers(next: Option<Boundary>) -> CNext
    ensures { result ≡ spec.next_numbers next }
{
    match next {
        Some(Boundary { job, ticks }) => CNext {
            task: job.task.0,
            count: job.count,
            ticks,
        },
        None => NO_NEXT,
    }
}

fn pending_in<R: Recorder>(core: &Core<R>, task: u32) -> (u32, CPending)
    ensures { result ≡ spec.pending_returns core.now task }
{
    if core.set().get(TaskNo(task)).is_none() {
        return (status::NO_TASK, NO_PENDING);
    }
    (status::OK, pending_numbers(core.pending_job(TaskNo(task))))
}

fn pending_numbers(pending: Option<PendingJob>) -> CPending
    ensures { result ≡ spec.pending_numbers pending }
{
    match pending {
        Some(pending) => CPending {
            task: pending.job.task.0,
            count: pending.job.count,
            used: pending.used,
            release: pending.release,
            deadline: pending.deadline,
            key_top: (pending.key / (1 << 64)) as u64,
            key: (pending.key % (1 << 64)) as u64,
        },
        None => NO_PENDING,
    }
}

fn earliest_in<R: Recorder>(scheduler: &Restartable<R>, task: u32) -> (u32, u64)
    ensures { result ≡ spec.earliest_returns scheduler.now task }
{
    if scheduler.core().set().get(TaskNo(task)).is_none() {
        return (status::NO_TASK, 0);
    }
    (status::OK, scheduler.earliest(TaskNo(task)))
}

fn discarded_in<R: Recorder>(core: &Core<R>, task: u32) -> (u32, u32)
    ensures { result ≡ spec.discarded_returns core.now task }
{
    if core.set().get(TaskNo(task)).is_none() {
        return (status::NO_TASK, 0);
    }
    (status::OK, count_number(core.discarded(TaskNo(task))))
}

fn scale_numbers(rule: Rule) -> CScale
    ensures { result ≡ spec.scale_numbers rule }
{
    match rule {
        Rule::Plain => NO_SCALE,
        Rule::Virtual { p, q } => CScale { p, q },
    }
}
