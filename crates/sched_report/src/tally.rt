//! The tally of the rows of a trace, run by run.
ghost use Rattle.std.specs.Prelude.{◌≡◌, ◌-◌, ◌≤◌, ℕ, [], IfOk, OnOk, Some, slice_get, vec_len};
ghost use Rattle.mc_model.specs.declared.run.Run.TheVariants as run;
ghost use Rattle.mc_model.specs.Runs.{row_of, length_of, IsRun};
ghost use Rattle.sched_report.specs.declared.task_tally.TaskTally.{TaskTally};
ghost use Rattle.sched_report.specs.PendingReleases.{release_in};
ghost use Rattle.sched_report.specs.Tally.{Tallies, AddsRun, IsAmong, HasRoom, Releases, GoesOn, Ends, Overruns, Idles};

use crate::pending_releases::PendingReleases;
use crate::task_tally::TaskTally;
use mc_model::{How, Run};
use mc_task::{JobId, TaskSet};
use std::alloc::{AllocError, Global};

// What is counted of all tasks. `tick` is the number of the next tick; task number k stands at index k - 1.
#[derive(Drop)]
pub struct Tally {
    pub tasks: Vec<TaskTally>,
    pub tick: u32,
    pub idle: u32,
    pub switches: u32,
    waiting: PendingReleases,
}

impl Tally {
    // The tally of no rows.
    pub fn new(alloc: Global, set: &TaskSet) -> Result<Tally, AllocError>
        ensures { IfOk result (λ tally. Tallies set.now.tasks [] tally) }
    {
        let tasks = set.as_slice();
        let mut tallies = Vec::with_capacity(alloc, tasks.len())?;
        for task in tasks {
            tallies.push(TaskTally::new(task.level))?;
        }
        Ok(Tally {
            tasks: tallies,
            tick: 0,
            idle: 0,
            switches: 0,
            waiting: PendingReleases::new(alloc, set.len())?,
        })
    }

    // Counts one more run of a legal trace, in one step. Fails if an allocation fails.
    pub fn count(&mut self, run: Run) -> Result<(), AllocError>
        requires task { IsAmong (vec_len self.old.tasks) (row_of run) }
        requires is_run { IsRun run }
        requires short { length_of run ≤ 100000000 }
        requires room { HasRoom self.old }
        ensures { OnOk result (AddsRun run self.old self.new) }
    {
        match run {
            Run::Release { job, kept } => self.release(job, kept)?,
            Run::Ticks { job, how, length } => self.tick(job, how, length),
            Run::Idles { length } => self.rest(length),
        }
        Ok(())
    }

    fn tick(&mut self, job: JobId, how: How, length: u32)
        requires first { 1 ≤ job.task.0 }
        requires last { job.task.0 ≤ vec_len self.old.tasks }
        requires is_run { IsRun (run.Ticks job how length) }
        requires short { length ≤ 100000000 }
        requires room { HasRoom self.old }
        ensures { AddsRun (run.Ticks job how length) self.old self.new }
    {
        match how {
            How::More => self.go_on(job, length),
            How::Done | How::Stop => self.end(job, how),
            How::Over => self.overrun(job),
        }
    }

    // Counts a release.
    fn release(&mut self, job: JobId, kept: bool) -> Result<(), AllocError>
        requires first { 1 ≤ job.task.0 }
        requires last { job.task.0 ≤ vec_len self.old.tasks }
        requires room { HasRoom self.old }
        ensures { OnOk result ((t : TaskTally) → slice_get self.old.tasks.items (job.task.0 - 1) ≡ Some t → Releases job kept t self.old self.new) }
    {
        let place = job.task.0 as usize - 1;
        let task = self.tasks[place];
        if kept {
            self.waiting.put(task.level, job, self.tick)?;
        }
        self.tasks[place] = task.with_release(kept);
        Ok(())
    }

    // Counts `length` ticks after which the job has more to do.
    fn go_on(&mut self, job: JobId, length: u32)
        requires first { 1 ≤ job.task.0 }
        requires last { job.task.0 ≤ vec_len self.old.tasks }
        requires short { length ≤ 100000000 }
        requires room { HasRoom self.old }
        ensures { (t : TaskTally) → slice_get self.old.tasks.items (job.task.0 - 1) ≡ Some t → GoesOn length job t self.old self.new }
    {
        let place = job.task.0 as usize - 1;
        self.tasks[place] = self.tasks[place].with_more(length);
        self.tick += length;
    }

    // Counts the last tick of a job.
    fn end(&mut self, job: JobId, how: How)
        requires first { 1 ≤ job.task.0 }
        requires last { job.task.0 ≤ vec_len self.old.tasks }
        requires room { HasRoom self.old }
        ensures { (t : TaskTally) (r : ℕ) → slice_get self.old.tasks.items (job.task.0 - 1) ≡ Some t → release_in self.old.waiting t.level job ≡ Some r → Ends job how t r self.old self.new }
    {
        let place = job.task.0 as usize - 1;
        let task = self.tasks[place].with_tick(how);
        let release = self.waiting.take(task.level, job).unwrap_or(0);
        let response = (self.tick + 1).saturating_sub(release);
        self.tasks[place] = task.with_response(response);
        self.tick += 1;
    }

    // Counts an overrun: a tick at which a job used up its low budget and was not done.
    fn overrun(&mut self, job: JobId)
        requires first { 1 ≤ job.task.0 }
        requires last { job.task.0 ≤ vec_len self.old.tasks }
        requires room { HasRoom self.old }
        ensures { (t : TaskTally) → slice_get self.old.tasks.items (job.task.0 - 1) ≡ Some t → Overruns job t self.old self.new }
    {
        let place = job.task.0 as usize - 1;
        self.tasks[place] = self.tasks[place].with_tick(How::Over);
        switch_all(&mut self.tasks);
        self.waiting.discard();
        self.tick += 1;
        self.switches += 1;
    }

    // Counts `length` ticks in which nothing was pending.
    fn rest(&mut self, length: u32)
        requires short { length ≤ 100000000 }
        requires room { HasRoom self.old }
        ensures { Idles length self.old self.new }
    {
        self.tick += length;
        self.idle += length;
    }
}

ghost use Rattle.std.specs.Prelude.{map};
ghost use Rattle.sched_report.specs.TaskTally.{with_switch};

fn switch_all(tasks: &mut [TaskTally])
    ensures { tasks.new ≡ map with_switch tasks.old }
{
    for task in tasks.iter_mut() {
        *task = task.with_switch();
    }
}
