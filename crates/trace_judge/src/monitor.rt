//! A schedule that is judged while it happens.
ghost use Rattle.std.specs.Prelude.{◌≡◌, ◌≢◌, ◌↔◌, ◌+◌, ◌++◌, ◌^◌, ◌<◌, ◌≤◌, nat_le, true, false, [], None, IsSome, Err, IfOk, OnOk, OnErr, IfErr, All, List, length, option_map, reverse};
ghost use Rattle.mc_model.specs.declared.row.Row.{Row};
ghost use Rattle.mc_model.specs.declared.verdict.Verdict.TheVariants.{Legal};
ghost use Rattle.mc_model.specs.Holds.{Fits, Holds};
ghost use Rattle.mc_model.specs.Runs.{size, rows_of, expand, AreRuns, IsRun, IsRunOfSet};
ghost use Rattle.mc_model.specs.Verdict.{verdict, HasNoLate};
ghost use Rattle.mc_model.specs.Rows.{ticks};
ghost use Rattle.mc_model.specs.Mode.{high_mode};
ghost use Rattle.mc_model.specs.Pending.{pending};
ghost use Rattle.mc_model.specs.declared.run.Run.{Run};
ghost use Rattle.trace_judge.specs.Watched.{Watches, HasTakenSome, NeedsMemory, unfit_in, fitted, seen, fits_so_far};
ghost use Rattle.trace_judge.specs.Turned.{AreTurned, IsInOrder, AddLate};
ghost use Rattle.trace_judge.specs.declared.monitor.ObserveFault.TheVariants as faults;

use crate::late_jobs::LateJobs;
use crate::runs::follow_runs;
use crate::state::State;
use crate::step::{look, step};
use crate::turned::{Quiet, Turned, turned_late};
use crate::unfit::{Unfit, unfit_after};
use mc_model::{Run, Verdict};
use mc_task::{Memory, Rule, TaskSet};
use std::alloc::Global;
use std::marker::Model;

/// The greatest number of rows that a monitor takes.
const MOST_ROWS: u64 = 1 << 62;

/// Why a monitor refuses a run: the first of these reasons that applies, `Memory` last. A refused run leaves the monitor as it
/// was.
#[derive(Clone, Copy, Debug, PartialEq, Eq)]
pub enum ObserveFault {
    Memory,
    /// The set has no task with the run's number.
    UnknownTask,
    /// The run has no row, or it has several ticks after which its job does not go on.
    NotARun,
    /// There would be more than 2^62 rows.
    Full,
}

impl From<Memory> for ObserveFault {
    ghost from_gives = { λ from result. result ≡ faults.Memory };

    fn from(_: Memory) -> ObserveFault {
        ObserveFault::Memory
    }
}

/// Judges a schedule while it happens, run by run, under a rule that fits and need not hold for the set.
///
/// Contracts say what a monitor returns for all rows that it may have seen, `Watches rows monitor`, the newest first. The
/// clock, the mode, the pending jobs and the counts are those after the rows that fitted, `fitted`: the rows before the first
/// that does not fit. A monitor stores no rows. It is opened with memory for two jobs of each task, and takes more only when a
/// task has more pending jobs.
#[derive(Drop)]
pub struct Monitor {
    set: TaskSet,
    rule: Rule,
    state: State,
    unfit: Option<Unfit>,
    quiet: Quiet,
}

impl Model for Monitor {
    ghost use Rattle.trace_judge.specs.Watched.{Watched, IsWatched};

    ghost Value = { Watched };

    ghost view = { λ a. record { set = a.set; rule = a.rule; state = a.state; unfit = a.unfit } };

    ghost invariant = { λ a. IsWatched a.set.tasks a.rule a.state a.unfit a.quiet };
}

impl Monitor {
    /// A monitor that has seen no row. The set stays with the monitor; if memory runs out, it is dropped.
    pub fn new(alloc: Global, set: TaskSet, rule: Rule) -> Result<Monitor, Memory>
        requires fits { Fits rule }
        ensures set { IfOk result (λ m. m.set ≡ set) }
        ensures rule { IfOk result (λ m. m.rule ≡ rule) }
        ensures rows { IfOk result (Watches []) }
        ensures unfit { IfOk result (λ m. m.unfit ≡ None) }
        ensures seen { IfOk result (λ m. seen m ≡ 0) }
    {
        let state = State::new(alloc, set.len())?;
        Ok(Monitor {
            set,
            rule,
            state,
            unfit: None,
            quiet: Quiet::always(),
        })
    }

    /// Takes any run, and returns the first row so far that does not fit. A run that is refused leaves the monitor as it was.
    /// After a row that does not fit, the monitor takes more runs, and returns that row again.
    pub fn observe(&mut self, alloc: Global, run: Run) -> Result<Option<Unfit>, ObserveFault>
        ensures answer { IfOk result (λ unfit. (h : List Row) → Watches h self.old → unfit ≡ unfit_in self.old.set.tasks self.old.rule (rows_of run ++ h)) }
        ensures rows { IfOk result (λ unfit. (h : List Row) → Watches h self.old → Watches (rows_of run ++ h) self.new) }
        ensures set { self.new.set ≡ self.old.set }
        ensures rule { self.new.rule ≡ self.old.rule }
        ensures unchanged { OnErr result (self.new ≡ self.old) }
        ensures unknown { (result ≡ Err faults.UnknownTask) ↔ (¬ IsRunOfSet self.old.set.tasks run) }
        ensures not_a_run { (result ≡ Err faults.NotARun) ↔ (IsRunOfSet self.old.set.tasks run × (¬ IsRun run)) }
        ensures full { (result ≡ Err faults.Full) ↔ (IsRunOfSet self.old.set.tasks run × IsRun run × (2 ^ 62 < seen self.old + size run)) }
        ensures memory { result ≡ Err faults.Memory → (h : List Row) → Watches h self.old → NeedsMemory self.old.set.tasks h run }
    {
        self.check_run(run)?;
        match self.follow(alloc, run) {
            Ok(unfit) => Ok(unfit),
            Err(_) => Err(ObserveFault::Memory),
        }
    }

    /// Takes a valid run of the set, if there is capacity for its rows, and returns the first row so far that does not
    /// fit. If memory runs out, the monitor is unchanged.
    ///
    /// The allocator shows that a call may take memory. It is not used: a queue grows by the one with which it was opened.
    pub fn follow(&mut self, _: Global, run: Run) -> Result<Option<Unfit>, Memory>
        requires task { IsRunOfSet self.old.set.tasks run }
        requires is_run { IsRun run }
        requires room { seen self.old + size run ≤ 2 ^ 62 }
        ensures answer { IfOk result (λ unfit. (h : List Row) → Watches h self.old → unfit ≡ unfit_in self.old.set.tasks self.old.rule (rows_of run ++ h)) }
        ensures rows { IfOk result (λ unfit. (h : List Row) → Watches h self.old → Watches (rows_of run ++ h) self.new) }
        ensures kept { IfOk result (λ unfit. self.new.unfit ≡ unfit) }
        ensures set { self.new.set ≡ self.old.set }
        ensures rule { self.new.rule ≡ self.old.rule }
        ensures unchanged { OnErr result (self.new ≡ self.old) }
        ensures memory { OnErr result ((h : List Row) → Watches h self.old → NeedsMemory self.old.set.tasks h run) }
    {
        if let Some(unfit) = self.unfit {
            return Ok(Some(unfit));
        }
        let now = self.state.ticks;
        let before = self.state.rows;
        match step(&mut self.state, &self.set, self.rule, run)? {
            None => {
                self.quiet = self.quiet.after_run(&self.set, now, run);
                Ok(None)
            }
            Some(misfit) => {
                let unfit = unfit_after(before, misfit);
                self.unfit = Some(unfit);
                Ok(Some(unfit))
            }
        }
    }

    /// Takes valid runs of the set one after another, if there is capacity for all their rows or one so far does not fit.
    /// This costs less than a call for each run, but the next `turned_late` reads the pending jobs. If memory runs out, the
    /// monitor has seen the runs before one that needs memory, and `seen` says how many rows these are.
    ///
    /// The allocator shows that a call may take memory. It is not used: a queue grows by the one with which it was opened.
    pub fn follow_all(&mut self, _: Global, runs: &[Run]) -> Result<(), Memory>
        requires runs { AreRuns runs.now }
        requires tasks { All (IsRunOfSet self.old.set.tasks) runs.now }
        requires room { fits_so_far self.old ≡ true → seen self.old + length (expand runs.now) ≤ 2 ^ 62 }
        ensures rows { OnOk result ((h : List Row) → Watches h self.old → Watches (reverse (expand runs.now) ++ h) self.new) }
        ensures some { OnErr result (HasTakenSome runs.now self.old self.new) }
        ensures set { self.new.set ≡ self.old.set }
        ensures rule { self.new.rule ≡ self.old.rule }
    {
        if self.is_legal() {
            self.quiet = Quiet::empty();
            self.unfit = follow_runs(&mut self.state, &self.set, self.rule, runs)?;
        }
        Ok(())
    }

    /// What `observe` would return for the run if memory does not run out: the first row so far that does not fit, or why the
    /// run is refused. The monitor does not take the run, so a dispatcher can ask before it makes a row. No memory is needed.
    pub fn would_fit(&self, run: Run) -> Result<Option<Unfit>, ObserveFault>
        ensures answer { IfOk result (λ unfit. (h : List Row) → Watches h self.now → unfit ≡ unfit_in self.now.set.tasks self.now.rule (rows_of run ++ h)) }
        ensures found { IsSome self.now.unfit → IfOk result (λ unfit. unfit ≡ self.now.unfit) }
        ensures memory { result ≢ Err faults.Memory }
        ensures unknown { (result ≡ Err faults.UnknownTask) ↔ (¬ IsRunOfSet self.now.set.tasks run) }
        ensures not_a_run { (result ≡ Err faults.NotARun) ↔ (IsRunOfSet self.now.set.tasks run × (¬ IsRun run)) }
        ensures full { (result ≡ Err faults.Full) ↔ (IsRunOfSet self.now.set.tasks run × IsRun run × (2 ^ 62 < seen self.now + size run)) }
    {
        self.check_run(run)?;
        if let Some(unfit) = self.unfit {
            return Ok(Some(unfit));
        }
        match look(&self.state, &self.set, self.rule, run) {
            None => Ok(None),
            Some(misfit) => Ok(Some(unfit_after(self.state.rows, misfit))),
        }
    }

    // Refuses a run for each reason except out of memory.
    fn check_run(&self, run: Run) -> Result<(), ObserveFault>
        ensures task { OnOk result (IsRunOfSet self.now.set.tasks run) }
        ensures is_run { OnOk result (IsRun run) }
        ensures room { OnOk result (seen self.now + size run ≤ 2 ^ 62) }
        ensures memory { result ≢ Err faults.Memory }
        ensures unknown { (result ≡ Err faults.UnknownTask) ↔ (¬ IsRunOfSet self.now.set.tasks run) }
        ensures not_a_run { (result ≡ Err faults.NotARun) ↔ (IsRunOfSet self.now.set.tasks run × (¬ IsRun run)) }
        ensures full { (result ≡ Err faults.Full) ↔ (IsRunOfSet self.now.set.tasks run × IsRun run × (2 ^ 62 < seen self.now + size run)) }
    {
        if !is_of_set(&self.set, run) {
            return Err(ObserveFault::UnknownTask);
        }
        if !run.is_valid() {
            return Err(ObserveFault::NotARun);
        }
        if !self.has_room(run) {
            return Err(ObserveFault::Full);
        }
        Ok(())
    }

    /// Whether there is capacity for the rows of the run.
    pub fn has_room(&self, run: Run) -> bool
        ensures { result ≡ nat_le (seen self.now + size run) (2 ^ 62) }
    {
        self.state.rows <= MOST_ROWS && size_of(run) <= MOST_ROWS - self.state.rows
    }

    /// How many rows fitted: those before the first that does not fit, also if that one stands in the middle of a run.
    pub fn seen(&self) -> u64
        ensures value { result ≡ seen self.now }
        ensures rows { (h : List Row) → Watches h self.now → result ≡ length (fitted self.now.set.tasks self.now.rule h) }
    {
        self.state.rows
    }

    /// Whether each row so far fits.
    pub fn is_legal(&self) -> bool
        ensures { result ≡ fits_so_far self.now }
    {
        match self.unfit {
            None => true,
            Some(_) => false,
        }
    }

    /// The number of ticks of the rows that fitted.
    pub fn ticks(&self) -> u64
        ensures { (h : List Row) → Watches h self.now → result ≡ ticks (fitted self.now.set.tasks self.now.rule h) }
    {
        self.state.ticks
    }

    /// Whether the mode is high after the rows that fitted.
    pub fn high_mode(&self) -> bool
        ensures { (h : List Row) → Watches h self.now → result ≡ high_mode self.now.rule (fitted self.now.set.tasks self.now.rule h) }
    {
        self.state.high_mode
    }

    /// How many jobs are pending after the rows that fitted.
    pub fn pending(&self) -> u64
        ensures { (h : List Row) → Watches h self.now → result ≡ length (pending self.now.set.tasks (fitted self.now.set.tasks self.now.rule h)) }
    {
        // The number of rows has 64 bits.
        let _rows = self.state.rows;
        self.state.waiting.count()
    }

    /// The pending jobs whose deadlines came after `since` ticks, in the order of their deadlines, and those with one deadline
    /// in the order of their releases. After one run, with the number of ticks before it, these are all jobs that became late
    /// by the run. After a row that does not fit, they are those of the rows before it.
    ///
    /// A call reads the pending jobs only if a deadline may have come since the last call that read them, or if `since` is
    /// before that call. It reads each of them once, sorts those that it returns, and needs memory for these alone.
    pub fn turned_late(&mut self, alloc: Global, since: u64) -> Result<Vec<Turned>, Memory>
        ensures jobs { IfOk result (λ turned. (h : List Row) → Watches h self.old → AreTurned self.old.set.tasks (fitted self.old.set.tasks self.old.rule h) since turned.items) }
        ensures order { IfOk result (λ turned. IsInOrder turned.items) }
        ensures late { IfOk result (λ turned. (h : List Row) (run : Run) → Watches (rows_of run ++ h) self.old → fits_so_far self.old ≡ true → IsRun run → since ≡ ticks h → AddLate self.old.set.tasks run h turned.items) }
        ensures same { self.new ≡ self.old }
    {
        let _is_set = self.set.len();
        let now = self.state.ticks;
        if self.quiet.after <= since && now < self.quiet.until {
            return Ok(Vec::new(alloc));
        }
        let (turned, until) = turned_late(&self.state, alloc, &self.set, since)?;
        self.quiet = Quiet { after: now, until };
        Ok(turned)
    }

    /// The verdict on the rows so far.
    pub fn verdict(&self) -> Verdict
        ensures verdict { (h : List Row) → Watches h self.now → result ≡ verdict self.now.set.tasks self.now.rule h }

        // Under a rule that holds for the set no job of a legal schedule is late.
        ensures no_late { (h : List Row) → Watches h self.now → Holds self.now.set.tasks self.now.rule → HasNoLate result }
    {
        // The number of rows has 64 bits.
        let _rows = self.state.rows;
        let _is_set = self.set.len();
        match self.unfit {
            Some(unfit) => Verdict::Illegal {
                place: unfit.place,
                why: unfit.why,
            },
            None => legal(self.state.all_late_jobs(&self.set)),
        }
    }
}

/// The verdict on rows that all fit.
pub fn legal(late_jobs: LateJobs) -> Verdict
    ensures { result ≡ Legal late_jobs.count (option_map (λ late. late.job) late_jobs.first) }
{
    let first = match late_jobs.first {
        None => None,
        Some(late) => Some(late.job),
    };
    Verdict::Legal {
        late: late_jobs.count,
        first,
    }
}

// Whether the run's task is in the set.
fn is_of_set(set: &TaskSet, run: Run) -> bool
    ensures yes { result ≡ true → IsRunOfSet set.now.tasks run }
    ensures no { result ≡ false → ¬ IsRunOfSet set.now.tasks run }
{
    match run {
        Run::Release { job, .. } => job.task.0 >= 1 && job.task.0 <= set.len(),
        Run::Ticks { job, .. } => job.task.0 >= 1 && job.task.0 <= set.len(),
        Run::Idles { .. } => true,
    }
}

// The number of rows of the run.
fn size_of(run: Run) -> u64
    ensures { result ≡ size run }
{
    match run {
        Run::Release { .. } => 1,
        Run::Ticks { length, .. } => u64::from(length),
        Run::Idles { length } => u64::from(length),
    }
}
