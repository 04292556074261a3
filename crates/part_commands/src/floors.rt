//! A floor for each processor that has tasks.
ghost use Rattle.std.specs.Prelude.{◌≡◌, ◌++◌, ◌∷◌, [], ℕ, IfOk, OnOk, length, map, filter, Some, IsSome};
ghost use Rattle.mc_task.specs.declared.task.TaskNo.{TaskNo};
ghost use Rattle.mc_model.specs.Holds.{Fits, Holds};
ghost use Rattle.mc_model.specs.Loads.{IsWithinRange};
ghost use Rattle.mc_model.specs.Test.{published};
ghost use Rattle.mc_model.specs.Work.{IsWork};
ghost use Rattle.part_fit.specs.Parts.{part_of};
ghost use Rattle.part_fit.specs.Partition.{IsAdmittedPart};
ghost use Rattle.part_commands.specs.RunAll.{is_used, used};
ghost use Rattle.part_commands.specs.Planned.{parted_of, numbers_on, IsPlannedOn, ArePlanned, IsRunAllJob};

use crate::parted::Processors;
use crate::run_parts::RunAllJob;
use crate::side_by_side::Side;
use admission::test_set;
use command::Ticks;
use mc_task::{Rule, TaskNo, TaskSet};
use mode_core::Core;
use part_fit::{part, part_work};
use std::alloc::{AllocError, Global};
use timetable::{Floor, Plan};

/// The processors that have tasks, and the floor of each.
#[derive(Drop)]
pub struct PartFloors {
    pub used: Vec<u32>,
    pub sides: Vec<Side>,
}

/// The floors of the processors that have tasks, each with its part of the work.
pub fn floors_of(
    alloc: Global,
    job: &RunAllJob,
    ticks: &Ticks,
    processors: &Processors,
) -> Result<PartFloors, AllocError>
    requires { IsRunAllJob processors.now job.now }
    ensures used { IfOk result (λ parts. parts.used.items ≡ used processors.now (parted_of job.now.parted)) }
    ensures planned { IfOk result (ArePlanned ticks.now (parted_of job.now.parted) job.now.work) }
{
    let most = processors.get() as u32;
    let mut parts = PartFloors {
        used: Vec::new(alloc),
        sides: Vec::new(alloc),
    };
    for processor in 1..most + 1 {
        parts.add(alloc, job, ticks, processor)?;
    }
    Ok(parts)
}

impl PartFloors {
    // Adds the processor, if it has tasks.
    fn add(
        &mut self,
        alloc: Global,
        job: &RunAllJob,
        ticks: &Ticks,
        processor: u32,
    ) -> Result<(), AllocError>
        requires job { (m : ℕ) × IsRunAllJob m job.now }
        requires planned { ArePlanned ticks.now (parted_of job.now.parted) job.now.work self.old }
        ensures used { OnOk result (self.new.used.items ≡ self.old.used.items ++ filter (is_used (parted_of job.now.parted)) (processor ∷ [])) }
        ensures planned { OnOk result (ArePlanned ticks.now (parted_of job.now.parted) job.now.work self.new) }
    {
        let tasks = match part(alloc, &job.parted.set, &job.parted.parts, processor) {
            Ok(Some(tasks)) => tasks,
            Ok(None) => return Ok(()),
            Err(_) => return Err(AllocError),
        };
        let side = side_on(alloc, job, ticks, processor, tasks)?;
        self.sides.push(side)?;
        self.used.push(processor)?;
        Ok(())
    }
}

// The floor of a processor with these tasks under their rule, with capacity for each tick and each row of their work, and
// the numbers of the tasks in the whole set.
fn side_on(
    alloc: Global,
    job: &RunAllJob,
    ticks: &Ticks,
    processor: u32,
    tasks: TaskSet,
) -> Result<Side, AllocError>
    requires parts { length job.now.parted.parts ≡ length job.now.parted.set.tasks }
    requires work { IsWork job.now.parted.set.tasks job.now.work }
    requires tasks { tasks.tasks ≡ part_of job.now.parted.set.tasks job.now.parted.parts processor }
    requires admitted { IsAdmittedPart tasks.tasks }
    ensures { IfOk result (IsPlannedOn ticks.now (parted_of job.now.parted) job.now.work processor) }
{
    let numbers = numbers_on(alloc, &job.parted.set, &job.parted.parts.of, processor)?;
    let parted = &job.parted;
    let Ok(work) = part_work(alloc, &parted.set, &parted.parts, processor, &job.work) else {
        return Err(AllocError);
    };
    let rule = rule_of(&tasks);
    let ticks = ticks.get();
    let places = ticks as usize + work.rows().len();
    match Core::new(alloc, tasks, rule, places) {
        Ok(core) => {
            let floor = Floor::new(core, Plan::Rows { work, ticks });
            Ok(Side { floor, numbers })
        }
        Err(_) => Err(AllocError),
    }
}

// The rule that the published test gives a set that it admits.
fn rule_of(set: &TaskSet) -> Rule
    requires range { IsWithinRange set.now.tasks }
    requires admitted { IsSome (published set.now.tasks) }
    ensures test { published set.now.tasks ≡ Some result }
    ensures fits { Fits result }
    ensures holds { Holds set.now.tasks result }
{
    match test_set(set, None) {
        Ok(tested) => tested.rule,
        Err(_) => unreachable!(),
    }
}

// The numbers in the whole set of the tasks on the processor.
fn numbers_on(
    alloc: Global,
    set: &TaskSet,
    of: &[u32],
    processor: u32,
) -> Result<Vec<TaskNo>, AllocError>
    requires { length of.now ≡ length set.now.tasks }
    ensures { IfOk result (λ numbers. map (λ (k : TaskNo). k.0) numbers.items ≡ numbers_on processor of.now (length of.now)) }
{
    let mut numbers = Vec::new(alloc);
    for i in 0..set.len() {
        if of[i as usize] == processor {
            numbers.push(TaskNo(i + 1))?;
        }
    }
    Ok(numbers)
}
