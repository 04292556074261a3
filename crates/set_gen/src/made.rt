//! Workloads generated from a number.
ghost use Rattle.std.specs.Prelude.{◌≡◌, ◌≤◌, length, IfOk, Some};
ghost use Rattle.mc_task.specs.TaskSet.{unscaled};
ghost use Rattle.mc_model.specs.Test.{published};
ghost use Rattle.mc_model.specs.Holds.{Holds, Fits};
ghost use Rattle.mc_model.specs.Work.{IsWork};
ghost use Rattle.set_gen.specs.Words as spec;
ghost use Rattle.set_gen.specs.GeneratedSet.{generated_set};
ghost use Rattle.set_gen.specs.GeneratedWork.{generated_work};
ghost use Rattle.set_gen.specs.Laws.{AreWithinThreeQuarters, IsTaken, GeneratedSetsAreAdmitted, GeneratedWorkIsTaken};

use crate::jobs::jobs_of;
use crate::tasks::{Drawn, draw};
use crate::words::words_of;
use admission::test_set;
use mc_model::WorkRow;
use mc_task::{Memory, Rule, Task, TaskSet};
use std::alloc::{AllocError, Global};
use work_file::Work;

/// A generated set of tasks, which the test admits, the rule that the test gives the set, and work for it.
#[derive(Debug, Drop)]
pub struct Made {
    pub set: TaskSet,
    pub rule: Rule,
    pub work: Work,
}

/// The workload of a number: `tasks` tasks, 2 to 32, and their jobs below `ticks` ticks, 1 to 1,000,000. Equal numbers
/// give equal workloads on every machine.
///
/// Tasks with odd numbers are high and those with even ones low. Periods are 200 to 10,000 ticks, and U_HL is at most
/// 1/4, U_LL at most 1/2 and U_HH at most 3/4, so that the test admits each set (Baruah et al., ECRTS 2012). The only
/// error is `Memory`, if an allocation fails.
pub fn make(alloc: Global, number: u64, tasks: u32, ticks: u64) -> Result<Made, Memory>
    requires some { 2 ≤ tasks }
    requires few { tasks ≤ 32 }
    requires first { 1 ≤ ticks }
    requires last { ticks ≤ 1000000 }
    ensures set { IfOk result (λ made. made.set ≡ unscaled (generated_set (spec.words_of number) tasks)) }
    ensures rule { IfOk result (λ made. published made.set.tasks ≡ Some made.rule) }
    ensures work { IfOk result (λ made. made.work ≡ generated_work (spec.words_of number) tasks ticks) }
    ensures admitted { IfOk result (λ made. AreWithinThreeQuarters made.set.tasks) }
    ensures fits { IfOk result (λ made. Fits made.rule) }
    ensures holds { IfOk result (λ made. Holds made.set.tasks made.rule) }
    ensures is_work { IfOk result (λ made. IsWork made.set.tasks made.work) }
    ensures sets { GeneratedSetsAreAdmitted }
    ensures works { GeneratedWorkIsTaken }
{
    let made = make_all(alloc, number, tasks, ticks as u32)?;
    Ok(made)
}

fn make_all(alloc: Global, number: u64, count: u32, ticks: u32) -> Result<Made, AllocError>
    requires some { 2 ≤ count }
    requires few { count ≤ 32 }
    requires last { ticks ≤ 1000000 }
    ensures set { IfOk result (λ made. made.set ≡ unscaled (generated_set (spec.words_of number) count)) }
    ensures rule { IfOk result (λ made. published made.set.tasks ≡ Some made.rule) }
    ensures work { IfOk result (λ made. made.work ≡ generated_work (spec.words_of number) count ticks) }
    ensures fits { IfOk result (λ made. Fits made.rule) }
    ensures holds { IfOk result (λ made. Holds made.set.tasks made.rule) }
{
    let mut words = words_of(number);
    let Drawn { tasks, gaps } = draw(alloc, &mut words, count)?;
    let set = TaskSet::of_valid(tasks);
    let rule = rule_of(&set);
    let rows = jobs_of(alloc, words, &set, &gaps, ticks)?;
    let work = work_of(&set, rows);
    Ok(Made { set, rule, work })
}

// The rule of the published test.
fn rule_of(set: &TaskSet) -> Rule
    requires { AreWithinThreeQuarters set.now.tasks }
    ensures rule { published set.now.tasks ≡ Some result }
    ensures fits { Fits result }
    ensures holds { Holds set.now.tasks result }
{
    match test_set(set, None) {
        Ok(tested) => tested.rule,
        Err(_) => unreachable!(),
    }
}

// These rows as a list of work.
fn work_of(set: &TaskSet, rows: Vec<WorkRow>) -> Work
    requires { IsTaken set.now.tasks rows.items }
    ensures { result ≡ rows.items }
{
    // The tasks are valid, so `Work::new` takes each list of work of at most 1,000,000 rows.
    let _is_set = set.len();
    match Work::new(set, rows) {
        Ok(work) => work,
        Err(_) => unreachable!(),
    }
}
