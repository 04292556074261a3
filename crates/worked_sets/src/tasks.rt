//! Tasks and sets, written as lines.
ghost use Rattle.std.specs.Prelude.{◌≡◌, IfOk, IfSome, map};
ghost use Rattle.worked_sets.specs.Lines.{task_of};

use mc_task::{Level, Name, Task, TaskSet};
use std::alloc::Global;
use std::test::Fail;

/// A task's name, level, period, low budget and high budget, in ticks.
pub type Line = (&'static str, Level, u32, u32, u32);

/// The task with these values, or `None` if the name does not have the form of a name.
pub fn task(name: &str, level: Level, period: u32, low: u32, high: u32) -> Option<Task>
    ensures { IfSome result (λ task. task ≡ record { name = name.now; level = level; period = period; low = low; high = high }) }
{
    Some(Task {
        name: Name::new(name.as_bytes())?,
        level,
        period,
        low,
        high,
    })
}

/// The set of the tasks of these lines; fails if they are not a set, or an allocation fails.
pub fn set_of(alloc: Global, lines: &[Line]) -> Result<TaskSet, Fail>
    ensures { IfOk result (λ set. set.tasks ≡ map task_of lines.now) }
{
    let mut tasks = Vec::new(alloc);
    for (name, level, period, low, high) in lines {
        tasks.push(task(name, *level, *period, *low, *high).ok_or("a name")?)?;
    }
    Ok(TaskSet::new(tasks)?)
}
