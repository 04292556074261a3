//! The calls of passes and grants.
ghost use Rattle.std.specs.Prelude.{◌≡◌, ◌≢◌, ℕ, Ok, Err, None, IfOk};
ghost use Rattle.mc_task.specs.declared.task.JobId.{JobId};
ghost use Rattle.mode_core.specs.declared.answers.ReleaseFault.TheVariants as release_fault;
ghost use Rattle.timetable.specs.declared.acts.ActFault.TheVariants as act_fault;
ghost use Rattle.timetable.specs.Floor.{FloorState};
ghost use Rattle.executive.specs.declared.entry.Call.TheVariants as call;
ghost use Rattle.executive.specs.declared.entry.Answer.TheVariants as answer;
ghost use Rattle.executive.specs.Histories.{answer_to};
ghost use Rattle.executive.specs.Gates.{HasReleased};
ghost use Rattle.executive.specs.Seats.{job_out};
ghost use Rattle.executive.specs.Passes.{IsQuiet, IsPassOf, IsGrantOf, IsTakenOf, of_pass, of_grant, Calls, Takes};

use crate::entry::{Answer, Call};
use crate::executive::Executive;
use crate::pass::{Grant, Resting, TaskPass};
use mc_model::How;
use mode_core::{GrantFault, IdleFault, ReleaseFault, Released};
use std::sync::Wait;
use timetable::{Act, ActFault};

/// What `take` returns.
pub enum Taken {
    /// The task's tick is granted.
    Given(Grant),
    /// The floor refuses the tick, for this reason; the pass comes back.
    NotNow(TaskPass, ActFault<GrantFault>),
}

impl Executive {
    /// Releases the next job of the pass's task, as `Floor::release`. It may wait for other calls.
    #[tactic(auto, using(crate::proofs::Newest::has_released))]
    pub fn release<R: Wait>(
        &self,
        rt: &R,
        pass: &mut TaskPass,
    ) -> Result<Released, ActFault<ReleaseFault>>
        requires { IsPassOf self.now pass.old }
        ensures of { IsPassOf self.now pass.new }
        ensures calls { Calls call.Release (answer.Released result) (of_pass pass.old) (of_pass pass.new) }
        ensures newest { IfOk result (λ _. HasReleased (of_pass pass.new)) }
        // A task with a granted tick has no pass.
        ensures not_running { (j : JobId) → result ≢ Err (act_fault.Core (release_fault.Running j)) }
    {
        self.call_at_rest(rt, pass, Call::Release).into_released()
    }

    /// Takes a tick for the task, as `Floor::grant`. It may wait for other calls.
    #[inline(always)]
    pub fn take<R: Wait>(&self, rt: &R, pass: TaskPass) -> Taken
        requires { IsPassOf self.now pass }
        ensures of { IsTakenOf self.now result }
        ensures calls { Takes (of_pass pass) result }
    {
        let (counted_seat, answer) = self.call(rt, pass.into_counted_seat(), Call::Take);
        match answer.into_taken() {
            Ok(granted) => Taken::Given(Grant {
                counted_seat,
                granted,
            }),
            Err(fault) => Taken::NotNow(counted_seat.at_rest(), fault),
        }
    }

    /// Ends the granted tick, as `Floor::outcome`; under `Plan::Rows` the plan decides whether the job is done, and
    /// `done` is ignored. It may wait for other calls.
    #[inline(always)]
    pub fn outcome<R: Wait>(&self, rt: &R, grant: Grant, done: bool) -> (TaskPass, How)
        requires { IsGrantOf self.now grant }
        ensures of { IsPassOf self.now result.0 }
        ensures calls { Calls (call.Outcome done) (answer.Settled (Ok result.1)) (of_grant grant) (of_pass result.0) }
    {
        let Grant {
            counted_seat,
            granted: _,
        } = grant;
        let (counted_seat, answer) = self.call(rt, counted_seat, Call::Outcome(done));
        match answer.into_settled() {
            Ok(how) => (counted_seat.at_rest(), how),
            Err(_) => unreachable!(),
        }
    }

    /// Writes an idle tick, as `Floor::idle`, and returns its number. It may wait for other calls.
    #[inline(always)]
    pub fn idle<R: Wait>(&self, rt: &R, pass: &mut TaskPass) -> Result<u64, ActFault<IdleFault>>
        requires { IsPassOf self.now pass.old }
        ensures of { IsPassOf self.now pass.new }
        ensures calls { Calls call.Idle (answer.Idled result) (of_pass pass.old) (of_pass pass.new) }
    {
        self.call_at_rest(rt, pass, Call::Idle).into_idled()
    }

    /// The floor's next act, which changes nothing of the floor. It may wait for other calls.
    #[inline(always)]
    pub fn look<R: Wait>(&self, rt: &R, pass: &mut TaskPass) -> Act
        requires { IsPassOf self.now pass.old }
        ensures of { IsPassOf self.now pass.new }
        ensures calls { Calls call.Look (answer.Next result) (of_pass pass.old) (of_pass pass.new) }
    {
        self.call_at_rest(rt, pass, Call::Look).into_next()
    }

    // Makes a call that neither grants a tick nor ends one.
    #[inline(always)]
    fn call_at_rest<R: Wait>(&self, rt: &R, pass: &mut TaskPass, call: Call) -> Answer
        requires of { IsPassOf self.now pass.old }
        requires quiet { IsQuiet call }
        ensures of { IsPassOf self.now pass.new }
        ensures calls { Calls call result (of_pass pass.old) (of_pass pass.new) }
        ensures kind { (f : FloorState) × (k : ℕ) × (result ≡ answer_to f k call) }
        ensures none_out { job_out (of_pass pass.old).task (of_pass pass.old).lists ≡ None }
    {
        let Resting { counted_seat } = pass.resting.take().unwrap();
        let (counted_seat, answer) = self.call(rt, counted_seat, call);
        pass.resting = Some(Resting { counted_seat });
        answer
    }
}
