//! A plan that the caller's own loop serves, and a panel beside it that reads ticks and mode without taking a turn.
ghost use Rattle.std.specs.Prelude.{◌≡◌, ◌+◌, ◌≤◌, ◌∷◌, [], IfSome, IfOk, vec_len, vec_capacity};
ghost use Rattle.mc_model.specs.Holds.{Fits, Holds};
ghost use Rattle.status_board.specs.Logs.{start};
ghost use Rattle.status_board.specs.Tokens.{seen};
ghost use Rattle.mode_core.specs.Events.{empty_state};
ghost use Rattle.timetable.specs.declared.plan.Plan.TheVariants.{Rows};
ghost use Rattle.timetable.specs.Floor.{opening};
ghost use Rattle.timetable.specs.Plans.{IsTraceOfPlan};
ghost use Rattle.executive.specs.Stands.{opening_of};
ghost use Rattle.executive.specs.Passes.{floor_of};
ghost use Rattle.executive.specs.Watching.{IsWatcherOf};
ghost use Rattle.task_threads.specs.Passes.{IsPassFor};
ghost use Rattle.calling_examples.specs.Watched.{IsPanelOf, IsReady};

use executive::{Executive, NoMemory, Taken, TaskPass};
use mc_model::WorkRow;
use mc_task::{Rule, TaskNo, TaskSet};
use mode_core::Core;
use status_board::{Shown, Watcher};
use std::alloc::Global;
use std::sync::Wait;
use std::thread::{Threads, join};
use timetable::{Act, Floor, Plan};
use work_file::Work;

/// Shows the pair that it last read from an executive's board.
#[derive(Drop)]
pub struct Panel {
    watcher: Watcher,
    pub shown: Shown,
}

impl Panel {
    /// A panel that has read nothing yet.
    pub fn new(executive: &Executive, watcher: Watcher) -> Panel
        requires of { IsWatcherOf executive.now watcher }
        requires fresh { seen watcher ≡ start ∷ [] }
        ensures of { IsPanelOf executive.now result }
        ensures shown { result.shown ≡ start }
    {
        let _ = executive;
        let shown = Shown {
            ticks: 0,
            high_mode: false,
        };
        Panel { watcher, shown }
    }

    /// Reads again, and returns how many ticks have ended since the last reading. It never waits.
    pub fn refresh(&mut self, executive: &Executive) -> u64
        requires { IsPanelOf executive.now self.old }
        ensures of { IsPanelOf executive.now self.new }
        ensures ended { self.new.shown.ticks ≡ self.old.shown.ticks + result }
    {
        let now = executive.watch(&mut self.watcher);
        // What one watcher sees never goes back.
        let ended = now.ticks - self.shown.ticks;
        self.shown = now;
        ended
    }

    /// Reads until `ticks` ticks have ended, and returns how many of them ended meanwhile.
    pub fn follow<R: Wait>(&mut self, rt: &R, executive: &Executive, ticks: u64) -> u64
        requires { IsPanelOf executive.now self.old }
        ensures of { IsPanelOf executive.now self.new }
        ensures all { ticks ≤ self.new.shown.ticks }
        ensures ended { self.new.shown.ticks ≡ self.old.shown.ticks + result }
    {
        let before = self.shown.ticks;
        for _ in rt.forever() {
            if self.shown.ticks >= ticks {
                return self.shown.ticks - before;
            }
            let _ended = self.refresh(executive);
        }
        unreachable!()
    }
}

/// A floor of two tasks whose plan is these jobs, for `ticks` ticks.
pub fn planned(
    alloc: Global,
    set: TaskSet,
    rule: Rule,
    jobs: Vec<WorkRow>,
    ticks: u32,
) -> Option<Floor>
    requires fits { Fits rule }
    requires holds { Holds set.tasks rule }
    requires some { 1 ≤ ticks }
    requires most { ticks ≤ 1000000 }
    ensures ready { IfSome result IsReady }
    ensures floor { IfSome result (λ f. f ≡ opening (empty_state set.tasks rule (ticks + vec_len jobs)) (Rows jobs.items ticks)) }
{
    if set.len() != 2 {
        return None;
    }
    let work = Work::new(&set, jobs).ok()?;
    let places = ticks as usize + work.rows().len();
    let core = Core::new(alloc, set, rule, places).ok()?;
    let ticks = u64::from(ticks);
    Some(Floor::new(core, Plan::Rows { work, ticks }))
}

/// Runs the plan of a floor of two tasks, while a panel follows its ticks in a thread of its own. Returns the floor,
/// and the number of ticks that the panel saw end.
pub fn run_watched<R: Threads + Wait + Sync>(
    rt: &R,
    alloc: Global,
    floor: Floor,
    ticks: u64,
) -> Result<(Floor, u64), NoMemory>
    requires { IsReady floor }
    ensures trace { IfOk result (λ r. IsTraceOfPlan r.0.plan r.0.core) }
    // The set, the rule, the capacity and the plan are as before.
    ensures same { IfOk result (λ r. opening_of r.0 ≡ floor) }
    ensures seen { IfOk result (λ r. ticks ≤ r.1) }
{
    let (executive, mut passes, mut watchers) = Executive::with_watchers(rt, alloc, floor, 1)?;
    let watcher = watchers.pop().unwrap();
    let mut panel = Panel::new(&executive, watcher);
    let second = passes.pop().unwrap();
    let first = passes.pop().unwrap();
    let ((first, second), ended) = {
        let executive = &executive;
        join(
            rt,
            move || -> (TaskPass, TaskPass)
                requires { IsPassFor executive.now 1 first × IsPassFor executive.now 2 second }
                ensures { IsPassFor executive.entry.now 1 result.0 × IsPassFor executive.entry.now 2 result.1 }
            { serve(rt, executive, first, second) },
            move || -> u64
                requires { IsPanelOf executive.now panel × (panel.shown ≡ start) }
                ensures { ticks ≤ result }
            { panel.follow(rt, executive, ticks) },
        )
    };
    let floor = finished(rt, executive, passes, first, second);
    Ok((floor, ended))
}

// Closes the executive with the passes of its two tasks, and does the rest of its plan.
fn finished<R: Wait>(
    rt: &R,
    executive: Executive,
    list: Vec<TaskPass>,
    first: TaskPass,
    second: TaskPass,
) -> Floor
    requires passes { IsPassFor executive 1 first × IsPassFor executive 2 second }
    requires room { (vec_len list ≡ 0) × (2 ≤ vec_capacity list) }
    requires floor { IsReady (floor_of executive) }
    ensures trace { IsTraceOfPlan result.plan result.core }
    ensures same { opening_of result ≡ floor_of executive }
{
    let mut passes = list;
    passes.push_reserved(first);
    passes.push_reserved(second);
    match executive.close(rt, passes) {
        Ok(mut floor) => {
            floor.finish();
            floor
        }
        Err(_unclosed) => unreachable!(),
    }
}

// Does the next acts of the plan, with the passes of its two tasks, until it is finished.
fn serve<R: Wait>(
    rt: &R,
    executive: &Executive,
    first: TaskPass,
    second: TaskPass,
) -> (TaskPass, TaskPass)
    requires { IsPassFor executive.now 1 first × IsPassFor executive.now 2 second }
    ensures { IsPassFor executive.now 1 result.0 × IsPassFor executive.now 2 result.1 }
{
    let (mut first, mut second) = (first, second);
    for _ in rt.forever() {
        match executive.look(rt, &mut first) {
            Act::Release(TaskNo(1)) => {
                let _ = executive.release(rt, &mut first);
            }
            Act::Release(_) => {
                let _ = executive.release(rt, &mut second);
            }
            Act::Grant(TaskNo(1)) => first = tick(rt, executive, first, TaskNo(1)),
            Act::Grant(_) => second = tick(rt, executive, second, TaskNo(2)),
            Act::Idle => {
                let _ = executive.idle(rt, &mut first);
            }
            Act::Wait(_) => {}
            Act::Finished => return (first, second),
        }
    }
    unreachable!()
}

// Makes a tick of the pass's task; the plan decides whether its job is done.
fn tick<R: Wait>(rt: &R, executive: &Executive, pass: TaskPass, task: TaskNo) -> TaskPass
    requires { IsPassFor executive.now task.0 pass }
    ensures { IsPassFor executive.now task.0 result }
{
    let _ = task;
    match executive.take(rt, pass) {
        Taken::Given(grant) => executive.outcome(rt, grant, false).0,
        Taken::NotNow(pass, _) => pass,
    }
}
