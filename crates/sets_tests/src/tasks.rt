//! Tests of tasks and sets.
ghost use Rattle.mc_task.specs.TaskSet.{IsScale};

use mc_task::{Level, Name, Rule, Scale, SetFault, Task, TaskNo, TaskSet};
use std::alloc::{AllocError, Global};
use std::test::Fail;

fn task(name: &[u8], level: Level, period: u32, low: u32, high: u32) -> Option<Task> {
    let name = Name::new(name)?;
    Some(Task {
        name,
        level,
        period,
        low,
        high,
    })
}

// A task's name, level, period and two budgets.
type Line = (&'static [u8], Level, u32, u32, u32);

// The tasks of these lines.
fn tasks(alloc: Global, lines: &[Line]) -> Result<Vec<Task>, AllocError> {
    let mut tasks = Vec::new(alloc);
    for (name, level, period, low, high) in lines {
        if let Some(task) = task(name, *level, *period, *low, *high) {
            tasks.push(task)?;
        }
    }
    Ok(tasks)
}

fn set_of(alloc: Global, lines: &[Line]) -> Result<TaskSet, Fail> {
    Ok(TaskSet::new(tasks(alloc, lines)?)?)
}

// Why the lines are not a set, if they are not.
fn refusal(alloc: Global, lines: &[Line]) -> Result<Option<SetFault>, AllocError> {
    Ok(TaskSet::new(tasks(alloc, lines)?).err())
}

const A: Line = (b"a", Level::Low, 4, 1, 1);

const B: Line = (b"b", Level::High, 4, 1, 1);

const ZERO: Line = (b"a", Level::High, 4, 0, 1);

const ORDER: Line = (b"a", Level::High, 4, 2, 1);

const TWO_BUDGETS: Line = (b"c", Level::Low, 4, 1, 2);

// Lists, each with its first fault.
const LISTS: [(&[Line], SetFault); 5] = [
    (&[], SetFault::Empty),
    (&[A, ORDER, ZERO], SetFault::BudgetOrder { task: TaskNo(2) }),
    (&[A, A, ZERO], SetFault::ZeroNumber { task: TaskNo(3) }),
    (
        &[B, TWO_BUDGETS, B],
        SetFault::BudgetOrder { task: TaskNo(2) },
    ),
    (
        &[B, A, A, B],
        SetFault::SameName {
            first: TaskNo(2),
            second: TaskNo(3),
        },
    ),
];

#[test]
fn the_first_fault_of_a_list_is_reported(rt: HostRuntime) -> Result<(), Fail> {
    for (number, (lines, fault)) in LISTS.into_iter().enumerate() {
        assert_eq!(rt; refusal(rt.alloc(), lines)?, Some(fault), "list {number}");
    }
    Ok(())
}

const CTL: Line = (b"ctl", Level::High, 10, 2, 6);

const LOG: Line = (b"log", Level::Low, 10, 5, 5);

const DISPLAY: Line = (b"display", Level::Low, 10, 1, 1);

// Whether the set has the task of this line under this number.
fn has(set: &TaskSet, number: u32, line: Line) -> bool {
    let (name, level, period, low, high) = line;
    set.get(TaskNo(number)) == task(name, level, period, low, high)
}

// Whether the set has just the tasks of `CTL` and `LOG`.
fn is_ctl_and_log(set: &TaskSet) -> bool {
    has(set, 1, CTL)
        && has(set, 2, LOG)
        && set.get(TaskNo(0)).is_none()
        && set.get(TaskNo(3)).is_none()
}

#[test]
fn a_copy_has_the_same_tasks(rt: HostRuntime) -> Result<(), Fail> {
    let alloc = rt.alloc();
    let set = set_of(alloc, &[CTL, LOG])?;
    let copy = set.copy(alloc)?;
    assert!(rt; is_ctl_and_log(&set) && is_ctl_and_log(&copy));
    assert_eq!(rt;
        (copy.len(), copy.find(b"log"), copy.find(b"lo")),
        (2, Some(TaskNo(2)), None)
    );
    Ok(())
}

// The numbers of three tasks, and of a name that no task has, as `find_near` returns them from this number.
fn found_from(set: &TaskSet, near: u32) -> [Option<TaskNo>; 4] {
    let names = [b"ctl".as_slice(), b"log", b"display", b"lo"];
    names.map(|name| set.find_near(name, TaskNo(near)))
}

#[test]
fn a_task_is_found_from_any_number(rt: HostRuntime) -> Result<(), Fail> {
    let set = set_of(rt.alloc(), &[CTL, LOG, DISPLAY])?;
    let numbers = [Some(TaskNo(1)), Some(TaskNo(2)), Some(TaskNo(3)), None];
    for near in [0, 1, 2, 3, 4, 4_294_967_295] {
        assert!(rt; found_from(&set, near) == numbers, "near {near}");
    }
    Ok(())
}

#[tactic(auto, unfolding(tick_frac::specs::Numbers::gcd, tick_frac::specs::Numbers::gcd_steps))]
fn half() -> Scale
    ensures { IsScale result }
{
    Scale { p: 1, q: 2 }
}

// Whether the set has one task, and the scale 1/2.
fn is_one_at_half(set: &TaskSet) -> bool {
    set.scale() == Some(Scale { p: 1, q: 2 }) && (set.len(), set.as_slice().len()) == (1, 1)
}

#[test]
fn a_chosen_scale_stays_with_the_set_and_its_copy(rt: HostRuntime) -> Result<(), Fail> {
    let alloc = rt.alloc();
    let set = set_of(alloc, &[LOG])?;
    assert_eq!(rt; set.scale(), None);
    let set = set.with_scale(half());
    let copy = set.copy(alloc)?;
    assert!(rt; is_one_at_half(&set) && is_one_at_half(&copy));
    Ok(())
}

#[test]
fn levels_and_rules_differ(rt: HostRuntime) {
    let high = task(b"a", Level::High, 4, 1, 2).map(|task| task.is_high());
    let low = task(b"b", Level::Low, 4, 1, 1).map(|task| task.is_high());
    assert!(rt; (high, low) == (Some(true), Some(false)));
    assert!(rt; Rule::Virtual { p: 1, q: 2 }.is_virtual() && !Rule::Plain.is_virtual());
}
