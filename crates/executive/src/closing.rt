//! How an executive is closed.
ghost use Rattle.std.specs.Prelude.{◌≡◌, ◌≤◌, IfSome, IfOk, IfErr, IfNone, All, map, Some, vec_len, vec_capacity, length, List};
ghost use Rattle.mc_task.specs.declared.task.Task.{Task};
ghost use Rattle.executive.specs.Closing.{has_pass, HasPassOfEach, IsMissing, seat_of, OneHistoryLeaves};
ghost use Rattle.executive.specs.Passes.{IsPassOf, floor_of};

use crate::executive::{Executive, Reserved};
use crate::pass::{CountedSeat, TaskPass};
use crate::state::State;
use mc_task::TaskNo;
use std::sync::Wait;
use timetable::Floor;
use turnstile::Seat;

/// The list has no pass of this task, which is the lowest such task. The executive and the list come back.
pub struct Unclosed {
    pub executive: Executive,
    pub passes: Vec<TaskPass>,
    pub task: TaskNo,
}

impl Executive {
    /// Ends the executive, takes every pass back, and returns the floor after all calls. It allocates nothing.
    ///
    /// It is refused exactly if the list has no pass of some task.
    pub fn close<R: Wait>(self, rt: &R, passes: Vec<TaskPass>) -> Result<Floor, Unclosed>
        requires of { All (λ p. IsPassOf self p) passes.items }
        requires few { vec_len passes ≤ length (floor_of self).core.set }
        ensures missing { IfErr result (λ u. IsMissing passes.items (floor_of self).core.set u.task.0) }
        ensures back { IfErr result (λ u. (u.executive ≡ self) × (u.passes ≡ passes)) }
        ensures each { IfOk result (λ f. HasPassOfEach passes.items (floor_of self).core.set) }
        ensures floor { IfOk result (λ f. OneHistoryLeaves (floor_of self) passes.items f) }
    {
        let _ = rt;
        if let Some(task) = missing(passes.as_slice(), self.tasks) {
            return Err(Unclosed {
                executive: self,
                passes,
                task,
            });
        }
        Ok(self.shut(passes))
    }

    // Ends the executive, if there is a pass of each task.
    fn shut(self, passes: Vec<TaskPass>) -> Floor
        requires of { All (λ p. IsPassOf self p) passes.items }
        requires few { vec_len passes ≤ length (floor_of self).core.set }
        requires each { HasPassOfEach passes.items (floor_of self).core.set }
        ensures { OneHistoryLeaves (floor_of self) passes.items result }
    {
        let Executive {
            turns,
            reserved,
            tasks: _,
            board: _,
        } = self;
        let Reserved { mut list } = reserved.into_inner();
        give_seats(passes, &mut list);
        let State { called, writer: _ } = turns.close(list);
        called.into_floor()
    }
}

// The lowest of this number of tasks of which the list has no pass.
fn missing(passes: &[TaskPass], tasks: u32) -> Option<TaskNo>
    requires { tasks ≤ 128 }
    ensures some { IfSome result (λ k. (set : List Task) → length set ≡ tasks → IsMissing passes.now set k.0) }
    ensures none { IfNone result ((set : List Task) → length set ≡ tasks → HasPassOfEach passes.now set) }
{
    for task in 1..=tasks {
        if !has_pass(passes, TaskNo(task)) {
            return Some(TaskNo(task));
        }
    }
    None
}

// Whether the list has a pass of the task.
fn has_pass(passes: &[TaskPass], task: TaskNo) -> bool
    ensures { result ≡ has_pass passes.now task.0 }
{
    passes.iter().any(|pass| pass.task() == task)
}

// Moves the seats out of the passes into the list, in order.
fn give_seats(passes: Vec<TaskPass>, list: &mut Vec<Seat<State>>)
    requires { (vec_len list.old ≡ 0) × (vec_len passes ≤ vec_capacity list.old) }
    ensures { map (λ s. Some s) list.new.items ≡ map seat_of passes.items }
{
    for pass in passes {
        let CountedSeat {
            task: _,
            count: _,
            seat,
        } = pass.into_counted_seat();
        list.push_reserved(seat);
    }
}
