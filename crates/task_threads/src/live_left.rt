//! The rest of a live run after its threads have ended, done by one caller.
ghost use Rattle.std.specs.Prelude.{◌≡◌, ◌+◌, ◌<◌, ◌≤◌, length};
ghost use Rattle.mc_task.specs.TaskSet.{IsIn};
ghost use Rattle.mc_model.specs.Rows.{ticks as ticks_of};
ghost use Rattle.executive.specs.Stands.{opening_of};
ghost use Rattle.task_threads.specs.LivePasses.{AreNeeds, live_capacity};
ghost use Rattle.task_threads.specs.LiveLeft.{IsLiveFloor, Moves, HasLiveTrace};

use crate::live_needs::LiveNeeds;
use mc_task::TaskNo;
use timetable::{Act, Floor};

// Makes ticks until there are `ticks` of them. Before each tick, every task that may release does.
pub fn finish_live(floor: &mut Floor, needs: &[LiveNeeds], ticks: u64)
    requires live { IsLiveFloor floor.old }
    requires needs { AreNeeds floor.old.core.set needs.now × (length needs.now ≡ length floor.old.core.set) }
    requires places { floor.old.core.places ≡ live_capacity floor.old.core.set ticks }
    requires some { 1 ≤ ticks }
    ensures trace { HasLiveTrace floor.new.core ticks }
    ensures live { IsLiveFloor floor.new }
    ensures same { opening_of floor.new ≡ opening_of floor.old }
{
    while floor.core().ticks() < ticks {
        release_each(floor);
        tick_left(floor, needs, ticks);
    }
}

// Releases each task that may be released.
fn release_each(floor: &mut Floor)
    requires { IsLiveFloor floor.old }
    ensures { Moves floor.old floor.new 0 }
{
    for task in 1..=floor.core().set().len() {
        release_left(floor, TaskNo(task));
    }
}

// Releases the task, if it may be released.
#[tactic(auto, using(crate::proofs::LiveLeft::release_moves))]
fn release_left(floor: &mut Floor, task: TaskNo)
    requires live { IsLiveFloor floor.old }
    requires in_set { IsIn floor.old.core.set task.0 }
    ensures { Moves floor.old floor.new 0 }
{
    let _ = floor.release(task);
}

// Makes one tick.
fn tick_left(floor: &mut Floor, needs: &[LiveNeeds], ticks: u64)
    requires live { IsLiveFloor floor.old }
    requires needs { AreNeeds floor.old.core.set needs.now × (length needs.now ≡ length floor.old.core.set) }
    requires places { floor.old.core.places ≡ live_capacity floor.old.core.set ticks }
    requires more { ticks_of floor.old.core.rows < ticks }
    ensures { Moves floor.old floor.new 1 }
{
    // The rows are legal, so a chosen job is of a task of the set, and there is capacity for this tick.
    let _sound = floor.core().ticks();
    match floor.next_act() {
        Act::Grant(task) => {
            match floor.grant(task) {
                Ok(granted) => {
                    let need = needs[task.0 as usize - 1].of_count(granted.job.count);
                    let done = u64::from(granted.before) + 1 == u64::from(need);
                    let _ = floor.outcome(granted.job, done);
                }
                Err(_) => unreachable!(),
            }
        }
        Act::Idle => {
            let _ = floor.idle();
        }
        Act::Release(_) | Act::Wait(_) | Act::Finished => {}
    }
}
