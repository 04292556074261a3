//! Passes and grants: the right of a task to call, and a granted tick.
ghost use Rattle.std.specs.Prelude.{◌≡◌, ◌-◌, ◌≤◌, IsSome, Some, None};
ghost use Rattle.turnstile.specs.Seats.{number, mine, seen};
ghost use Rattle.executive.specs.Histories.{calls_of};
ghost use Rattle.executive.specs.Counts.{tally, IsAtMost};
ghost use Rattle.executive.specs.Seats.{lists, job_out};

use crate::count::Count;
use crate::entry::Answer;
use crate::state::State;
use mc_task::TaskNo;
use mode_core::Granted;
use turnstile::Seat;

// The seat of a task, with the count of the answers to its calls.
#[derive(Drop)]
pub(crate) struct CountedSeat {
    pub(crate) task: TaskNo,
    pub(crate) count: Count,
    pub(crate) seat: Seat<State>,
    ghost some: { 1 ≤ task.0 },
    ghost number: { number seat ≡ task.0 - 1 },
    ghost whole: { mine seat ≡ calls_of task.0 (seen seat) },
    ghost counts: { count ≡ tally (mine seat) },
    ghost few: { IsAtMost count (lists seat).opening.core.places },
}

// A task with no granted tick.
#[derive(Drop)]
pub(crate) struct Resting {
    pub(crate) counted_seat: CountedSeat,
    ghost none_out: { job_out counted_seat.task.0 (lists counted_seat.seat) ≡ None },
}

/// The right of one task to call; each task has one. Only an executive makes it.
///
/// In contracts it has the task, the count of the answers to its calls, the beginning of the history that it saw, and
/// the calls that it made. If a pass is dropped, its executive cannot be closed.
#[derive(Drop)]
pub struct TaskPass {
    // Taken out during a call.
    pub(crate) resting: Option<Resting>,
    ghost there: { IsSome resting },
}

/// A granted tick, with its task's pass inside. Only `Executive::outcome` ends it.
pub struct Grant {
    pub(crate) counted_seat: CountedSeat,
    pub(crate) granted: Granted,
    ghost out: { job_out counted_seat.task.0 (lists counted_seat.seat) ≡ Some granted.job },
}

impl CountedSeat {
    ghost use Rattle.executive.specs.Passes.{of_counted_seat, of_pass, Adds};
    ghost use Rattle.executive.specs.Histories.{entry};
    ghost use Rattle.executive.specs.Seats.{Lists};
    ghost use Rattle.executive.specs.Counts.{with_answer};
    ghost use Rattle.executive.specs.declared.entry.Call.{Call};
    ghost use Rattle.std.specs.Prelude.{IfSome, []};

    // The seat of a task that made one more call, with its answer counted.
    #[inline(always)]
    pub(crate) fn counted(
        task: TaskNo,
        count: Count,
        seat: Seat<State>,
        answer: &Answer,
    ) -> CountedSeat
        requires some { 1 ≤ task.0 }
        requires number { number seat ≡ task.0 - 1 }
        requires adds { (old : Lists) × (call : Call) × Adds (entry task.0 call answer.now) old (lists seat) × (old.opening.core.rows ≡ []) × (old.opening.core.held ≡ []) × (count ≡ tally old.mine) }
        ensures { (result.task ≡ task) × (result.seat ≡ seat) × (result.count ≡ with_answer count answer.now) }
    {
        CountedSeat {
            task,
            count: count.with(answer),
            seat,
        }
    }

    // A task with no granted tick, as a pass.
    #[inline(always)]
    pub(crate) fn at_rest(self) -> TaskPass
        requires { job_out self.task.0 (lists self.seat) ≡ None }
        ensures same { IfSome result.resting (λ r. r.counted_seat ≡ self) }
        ensures state { of_pass result ≡ of_counted_seat self }
    {
        TaskPass {
            resting: Some(Resting { counted_seat: self }),
        }
    }
}

impl TaskPass {
    ghost use Rattle.executive.specs.Passes.{of_counted_seat, of_pass};
    ghost use Rattle.std.specs.Prelude.{IfSome};

    // The task's seat and count.
    pub(crate) fn into_counted_seat(self) -> CountedSeat
        ensures same { IfSome self.resting (λ r. r.counted_seat ≡ result) }
        ensures state { of_counted_seat result ≡ of_pass self }
        ensures none_out { job_out result.task.0 (lists result.seat) ≡ None }
    {
        let TaskPass { resting } = self;
        let Resting { counted_seat } = resting.unwrap();
        counted_seat
    }

    /// The number of the pass's task.
    pub fn task(&self) -> TaskNo
        ensures { result.0 ≡ (of_pass self.now).task }
    {
        match &self.resting {
            Some(resting) => resting.counted_seat.task,
            None => unreachable!(),
        }
    }

    /// The answers to the calls of this pass, in numbers.
    pub fn count(&self) -> Count
        ensures value { result ≡ (of_pass self.now).count }
        // The count is that of the answers to the calls that this pass made.
        ensures answers { result ≡ tally (of_pass self.now).lists.mine }
        ensures few { IsAtMost result (of_pass self.now).lists.opening.core.places }
    {
        match &self.resting {
            Some(resting) => resting.counted_seat.count,
            None => unreachable!(),
        }
    }
}

impl Grant {
    ghost use Rattle.executive.specs.Passes.{IsOut};

    /// What the floor granted.
    pub fn granted(&self) -> Granted
        ensures value { result ≡ self.now.granted }
        ensures out { IsOut self.now }
    {
        self.granted
    }
}
