//! A live run: a thread for each task, which releases its jobs as early as it may.
ghost use Rattle.std.specs.Prelude.{◌≡◌, ◌≤◌, [], None, length, vec_len, vec_capacity, IfOk, All};
ghost use Rattle.mc_task.specs.TaskSet.{task_at};
ghost use Rattle.timetable.specs.declared.plan.Plan.TheVariants.{Free};
ghost use Rattle.executive.specs.Stands.{opening_of};
ghost use Rattle.executive.specs.Passes.{floor_of};
ghost use Rattle.executive.specs.Opening.{IsFresh, AreFresh};
ghost use Rattle.executive.specs.Watching.{IsWatcherOf};
ghost use Rattle.task_threads.specs.LivePasses.{IsLivePass, IsRunner, AreNeeds, AreNeedsOf, live_capacity};
ghost use Rattle.task_threads.specs.Workers.{AreInOrder};
ghost use Rattle.task_threads.specs.LiveLeft.{HasLiveTrace};

use crate::live_left::finish_live;
use crate::live_needs::LiveNeeds;
use crate::live_round::{Runner, release_first};
use crate::parking_spots::ParkingSpots;
use crate::starts::{SpawnResult, in_threads};
use crate::worker::Serving;
use executive::{Executive, Gate, TaskPass};
use mc_task::{Memory, TaskNo, TaskSet};
use status_board::Watcher;
use std::alloc::Global;
use std::sync::Wait;
use std::thread::Threads;
use timetable::Floor;

/// Runs a floor without a plan, with no rows and no granted tick, for `ticks` ticks, in a thread for each task, and
/// calls the gate on the way. Each task is released once at the start, and its thread releases it again as soon as its
/// period allows.
///
/// The rows up to the last of these ticks are then a live trace. It may wait for other threads; nothing is proved about
/// how long. Fails with `Memory` if an allocation fails.
pub fn run_live<R: Threads + Wait + Sync, G: Gate + Sync>(
    rt: &R,
    alloc: Global,
    floor: Floor,
    ticks: u64,
    gate: &G,
) -> Result<Floor, Memory>
    requires free { floor.plan ≡ Free }
    requires rows { floor.core.rows ≡ [] }
    requires out { floor.core.out ≡ None }
    requires ticks { (1 ≤ ticks) × (ticks ≤ 100_000) }
    requires places { floor.core.places ≡ live_capacity floor.core.set ticks }
    ensures trace { IfOk result (λ f. HasLiveTrace f.core ticks) }
    // The set, the rule, the capacity and the plan are as before.
    ensures same { IfOk result (λ f. opening_of f ≡ floor) }
    ensures none_out { IfOk result (λ f. f.core.out ≡ None) }
{
    let tasks = floor.core().set().len();
    let Rooms {
        spots,
        starts,
        mut needs,
        mut runners,
        mut back,
    } = make_rooms(alloc, tasks)?;
    needs_of_each(floor.core().set(), &mut needs);
    let Ok((executive, passes, watchers)) = Executive::with_watchers(rt, alloc, floor, tasks) else {
        return Err(Memory);
    };
    let all = needs.as_slice();
    let serving = Serving {
        rt,
        executive: &executive,
        gate,
        spots: &spots,
    };
    make_runners(&serving, all, ticks, passes, watchers, &mut runners);
    let runners = in_threads(&serving, runners, starts);
    give_passes(&executive, runners, &mut back);
    match executive.close(rt, back) {
        Ok(mut floor) => {
            finish_live(&mut floor, needs.as_slice(), ticks);
            Ok(floor)
        }
        Err(_unclosed) => unreachable!(),
    }
}

// The spots where the tasks wait, and lists with capacity for each task of a live run.
#[derive(Drop)]
pub struct Rooms {
    pub spots: ParkingSpots,
    pub starts: Vec<SpawnResult<Runner>>,
    pub needs: Vec<LiveNeeds>,
    pub runners: Vec<Runner>,
    pub back: Vec<TaskPass>,
}

pub fn make_rooms(alloc: Global, tasks: u32) -> Result<Rooms, Memory>
    ensures starts { IfOk result (λ r. (r.starts.items ≡ []) × (tasks ≤ vec_capacity r.starts)) }
    ensures needs { IfOk result (λ r. (r.needs.items ≡ []) × (tasks ≤ vec_capacity r.needs)) }
    ensures runners { IfOk result (λ r. (r.runners.items ≡ []) × (tasks ≤ vec_capacity r.runners)) }
    ensures back { IfOk result (λ r. (r.back.items ≡ []) × (tasks ≤ vec_capacity r.back)) }
{
    let most = tasks as usize;
    let spots = ParkingSpots::new(alloc, tasks)?;
    let starts = Vec::with_capacity(alloc, most)?;
    let needs = Vec::with_capacity(alloc, most)?;
    let runners = Vec::with_capacity(alloc, most)?;
    let back = Vec::with_capacity(alloc, most)?;
    Ok(Rooms {
        spots,
        starts,
        needs,
        runners,
        back,
    })
}

// Adds the needs of each task's jobs.
pub fn needs_of_each(set: &TaskSet, needs: &mut Vec<LiveNeeds>)
    requires { (needs.old.items ≡ []) × (length set.now.tasks ≤ vec_capacity needs.old) }
    ensures { (vec_len needs.new ≡ length set.now.tasks) × AreNeeds set.now.tasks needs.new.items }
{
    for task in 1..=set.len() {
        match set.get(TaskNo(task)) {
            Some(task) => needs.push_reserved(LiveNeeds::of(&task)),
            None => unreachable!(),
        }
    }
}

// Releases each task once, in order, and gives each pass a watcher.
pub fn make_runners<R: Wait, G: Gate>(
    serving: &Serving<'_, R, G>,
    needs: &[LiveNeeds],
    ticks: u64,
    passes: Vec<TaskPass>,
    watchers: Vec<Watcher>,
    runners: &mut Vec<Runner>,
)
    requires passes { AreFresh serving.now.executive.now passes.items × (vec_len passes ≤ length needs.now) × (vec_len passes ≤ 128) }
    requires needs { AreNeeds (floor_of serving.now.executive.now).core.set needs.now }
    requires watchers { (vec_len watchers ≡ vec_len passes) × All (λ w. IsWatcherOf serving.now.executive.now w) watchers.items }
    requires runners { (runners.old.items ≡ []) × (vec_len passes ≤ vec_capacity runners.old) }
    ensures { (vec_len runners.new ≡ vec_len passes) × AreInOrder IsRunner serving.now.executive.now runners.new.items }
{
    let mut watchers = watchers;
    for pass in passes {
        let watcher = watchers.pop().unwrap();
        let position = runners.len();
        let task = TaskNo(position as u32 + 1);
        runners.push_reserved(first_runner(serving, needs[position], ticks, pass, watcher, task));
    }
}

// Makes the first release of a task, whose pass then gets the watcher.
#[tactic(auto, using(crate::proofs::LiveClose::fresh_live))]
fn first_runner<R: Wait, G: Gate>(
    serving: &Serving<'_, R, G>,
    needs: LiveNeeds,
    ticks: u64,
    pass: TaskPass,
    watcher: Watcher,
    task: TaskNo,
) -> Runner
    requires pass { IsFresh serving.now.executive.now task.0 pass }
    requires watcher { IsWatcherOf serving.now.executive.now watcher }
    requires needs { AreNeedsOf (task_at (floor_of serving.now.executive.now).core.set task.0) needs }
    ensures { IsRunner serving.now.executive.now task.0 result }
{
    let pass = release_first(serving, pass, task);
    let next = u64::from(needs.period);
    serving.spots.set_release(task, next);
    Runner {
        pass,
        watcher,
        needs,
        ticks,
        next,
    }
}

// Takes the passes back from the runners.
pub fn give_passes(executive: &Executive, runners: Vec<Runner>, passes: &mut Vec<TaskPass>)
    requires runners { AreInOrder IsRunner executive.now runners.items }
    requires passes { (passes.old.items ≡ []) × (vec_len runners ≤ vec_capacity passes.old) }
    ensures { (vec_len passes.new ≡ vec_len runners) × AreInOrder IsLivePass executive.now passes.new.items }
{
    let _ = executive;
    for runner in runners {
        let Runner {
            pass,
            watcher: _,
            needs: _,
            ticks: _,
            next: _,
        } = runner;
        passes.push_reserved(pass);
    }
}
