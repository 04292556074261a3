//! Tests of first fit. Expected values come from worked examples, and from an independent program over fractions.
ghost use Rattle.std.specs.Prelude.{◌≡◌, ◌≤◌, length};
ghost use Rattle.mc_model.specs.Work.{IsWork};

use mc_model::WorkRow;
use mc_task::Level::{High, Low};
use mc_task::{TaskNo, TaskSet};
use part_fit::{FitFault, Parts, fit, part, part_work};
use std::alloc::Global;
use std::test::Fail;
use work_file::Work;
use worked_sets::{Line, TAP_AND_ARM, set_of, task, work_row, work_rows};

const PLANT: [Line; 3] = [
    ("tap", Low, 2, 1, 1),
    ("arm", High, 4, 1, 3),
    ("log", Low, 10, 5, 5),
];

// A set of `count` low tasks with the same period and budget.
fn equal_tasks(alloc: Global, count: u32, period: u32, budget: u32) -> Result<TaskSet, Fail> {
    let mut tasks = Vec::new(alloc);
    for number in 0..count {
        let name = format!(in alloc; "t{number}")?;
        tasks.push(task(name.as_str(), Low, period, budget, budget).ok_or("name")?)?;
    }
    Ok(TaskSet::new(tasks)?)
}

// Sets, each with what it shows, the number of processors, and the processor of each task.
static FITTED: [(&str, u32, &[Line], &[u32]); 5] = [
    // The first two tasks have a load of 5/4 by their greatest budgets, and fit together only with virtual
    // deadlines.
    ("plant", 2, &PLANT, &[1, 1, 2]),
    ("the first two on one", 1, &TAP_AND_ARM, &[1, 1]),
    (
        // The third task would fill the second processor, and goes to the first; the last task then fits on the
        // second.
        "first and not best or next",
        2,
        &[
            ("a", Low, 10, 5, 5),
            ("b", Low, 10, 8, 8),
            ("c", Low, 10, 2, 2),
            ("d", Low, 10, 3, 3),
            ("e", Low, 10, 2, 2),
        ],
        &[1, 2, 1, 1, 2],
    ),
    (
        "a task that fills a processor",
        16,
        &[
            ("a", Low, 3, 3, 3),
            ("b", Low, 7, 1, 1),
            ("c", High, 7, 1, 7),
        ],
        &[1, 2, 3],
    ),
    (
        // The periods of both tasks together are out of range.
        "periods that do not go together",
        2,
        &[
            ("a", Low, 4294967295, 1, 1),
            ("b", Low, 4294967294, 1, 1),
            ("c", Low, 4294967294, 1, 1),
        ],
        &[1, 2, 2],
    ),
];

#[test]
fn each_task_goes_to_the_least_processor_that_takes_it(rt: HostRuntime) -> Result<(), Fail> {
    for (name, processors, lines, expected) in &FITTED {
        let fits = fits_as(rt.alloc(), lines, *processors, expected)?;
        assert!(rt; fits, "{name}");
    }
    Ok(())
}

// Whether the tasks go to these processors.
fn fits_as(alloc: Global, lines: &[Line], processors: u32, expected: &[u32]) -> Result<bool, Fail> {
    if processors < 1 || processors > 16 {
        return Err("processors".into());
    }
    match fit(alloc, &set_of(alloc, lines)?, processors) {
        Ok(parts) => Ok(parts.of.as_slice() == expected),
        Err(_) => Err("no parts".into()),
    }
}

// The first task without a processor.
fn first_without(alloc: Global, set: &TaskSet, processors: u32) -> Option<TaskNo>
    requires some { 1 ≤ processors }
    requires few { processors ≤ 16 }
{
    match fit(alloc, set, processors) {
        Err(FitFault::NoRoom { task }) => Some(task),
        Ok(_) | Err(_) => None,
    }
}

#[test]
fn the_first_task_without_a_processor_is_reported(rt: HostRuntime) -> Result<(), Fail> {
    let alloc = rt.alloc();
    let third = first_without(alloc, &set_of(alloc, &PLANT)?, 1);
    // Sixteen processors that are full.
    let seventeenth = first_without(alloc, &equal_tasks(alloc, 18, 5, 5)?, 16);
    // Both tasks together are out of range on any processor, though the second one has hardly any load.
    let lines = [("a", Low, 4294967295, 1, 1), ("b", Low, 4294967294, 1, 1)];
    let second = first_without(alloc, &set_of(alloc, &lines)?, 1);
    let expected = [Some(TaskNo(3)), Some(TaskNo(17)), Some(TaskNo(2))];
    assert!(rt; [third, seventeenth, second] == expected);
    Ok(())
}

#[test]
fn as_many_tasks_as_a_set_may_have(rt: HostRuntime) -> Result<(), Fail> {
    let alloc = rt.alloc();
    // Eight of these tasks fill a processor, so all of them fill sixteen.
    let eighths = equal_tasks(alloc, 128, 8, 1)?;
    assert!(rt; eight_on_each(alloc, &eighths));
    // All of these tasks go on the first processor, and the others have none.
    let all = equal_tasks(alloc, 128, 128, 1)?;
    assert!(rt; are_on_the_first(alloc, &all)?);
    Ok(())
}

// Whether sixteen processors have eight tasks each, in the order of the tasks.
fn eight_on_each(alloc: Global, set: &TaskSet) -> bool {
    match fit(alloc, set, 16) {
        Ok(parts) => parts.of.len() == 128 && are_in_eights(&parts.of),
        Err(_) => false,
    }
}

fn are_in_eights(processors: &[u32]) -> bool {
    for (index, processor) in processors.iter().enumerate() {
        if *processor as usize != index / 8 + 1 {
            return false;
        }
    }
    true
}

// Whether all tasks are on the first of sixteen processors.
fn are_on_the_first(alloc: Global, set: &TaskSet) -> Result<bool, Fail> {
    let Ok(parts) = fit(alloc, set, 16) else {
        return Ok(false);
    };
    for processor in 1..17 {
        let expected = if processor == 1 { 128 } else { 0 };
        if tasks_on(alloc, set, &parts, processor)? != expected {
            return Ok(false);
        }
    }
    Ok(true)
}

// The number of tasks on the processor.
fn tasks_on(alloc: Global, set: &TaskSet, parts: &Parts, processor: u32) -> Result<u32, Fail>
    requires { length parts.now ≡ length set.now.tasks }
{
    match part(alloc, set, parts, processor)? {
        Some(tasks) => Ok(tasks.len()),
        None => Ok(0),
    }
}

#[test]
fn a_part_has_its_tasks_and_their_work(rt: HostRuntime) -> Result<(), Fail> {
    let alloc = rt.alloc();
    let set = set_of(alloc, &PLANT)?;
    let jobs = [(1, 0, 1), (2, 0, 3), (3, 0, 5), (1, 2, 1), (1, 4, 1)];
    let rows = work_rows(alloc, &jobs)?;
    let Ok(work) = Work::new(&set, rows) else {
        return Err("no work".into());
    };
    let Ok(parts) = fit(alloc, &set, 2) else {
        return Err("no parts".into());
    };
    let cases: [(u32, &str, &[WorkRow]); 2] = [
        (
            1,
            "tap arm ",
            &[
                work_row(1, 0, 1),
                work_row(2, 0, 3),
                work_row(1, 2, 1),
                work_row(1, 4, 1),
            ],
        ),
        (2, "log ", &[work_row(1, 0, 5)]),
    ];
    for (n, names, expected) in cases {
        let is_placed = is_part(alloc, &set, &parts, &work, n, names, expected)?;
        assert!(rt; is_placed, "processor {n}");
    }
    assert!(rt; tasks_on(alloc, &set, &parts, 3)? == 0);
    Ok(())
}

// Whether the tasks on the processor have these names and this work.
fn is_part(
    alloc: Global,
    set: &TaskSet,
    parts: &Parts,
    work: &Work,
    processor: u32,
    names: &str,
    expected: &[WorkRow],
) -> Result<bool, Fail>
    requires parts { length parts.now ≡ length set.now.tasks }
    requires work { IsWork set.now.tasks work.now }
{
    let Some(tasks) = part(alloc, set, parts, processor)? else {
        return Ok(false);
    };
    let own = part_work(alloc, set, parts, processor, work)?;
    Ok(names_of(alloc, &tasks)?.as_str() == names && own.rows() == expected)
}

fn names_of(alloc: Global, set: &TaskSet) -> Result<String, Fail> {
    let mut text = String::new(alloc);
    for number in 1..129 {
        if let Some(task) = set.get(TaskNo(number)) {
            for byte in task.name.bytes() {
                text.push(char::from(*byte))?;
            }
            text.push(' ')?;
        }
    }
    Ok(text)
}
