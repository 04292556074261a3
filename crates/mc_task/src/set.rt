//! A task set, and why a list of tasks is not one.
ghost use Rattle.std.specs.Prelude.{◌≡◌, ◌≢◌, ◌≤◌, ◌↔◌, ◌+◌, nat_lt, if◌then◌else◌, length, true, false, IfOk, IfErr, IfSome, IfNone, All, IsSome, option_map, Some, None, []};
ghost use Rattle.mc_task.specs.TaskSet.{AreTasks, IsTask, IsScale, IsIn, task_at, name_in, unscaled};
ghost use Rattle.mc_task.specs.Faults.{first_fault, same_name_from, number_fault, number_fault_from, named};

use crate::name_table::{NameTable, has_name, is_same, task_with};
use crate::{Level, Scale, Task, TaskNo};
use std::alloc::{AllocError, Global};
use std::marker::Model;

/// Out of memory.
#[derive(Clone, Copy, Debug, PartialEq, Eq)]
pub struct Memory;

impl From<AllocError> for Memory {
    fn from(_: AllocError) -> Memory {
        Memory
    }
}

/// Why a list of tasks is not a set. The faults are looked for in the order of the variants, `ZeroNumber` and
/// `BudgetOrder` task by task, and the first one found is reported.
#[derive(Clone, Copy, Debug, PartialEq, Eq)]
pub enum SetFault {
    /// There is no task.
    Empty,
    /// There are more than 128 tasks.
    TooMany { count: u64 },
    /// The task's period or one of its budgets is 0.
    ZeroNumber { task: TaskNo },
    /// The task is high and its low budget is above its high budget, or it is low and its two budgets differ.
    BudgetOrder { task: TaskNo },
    /// Two tasks have one name. `second` is the first task of the list with the name of a task before it, and `first`
    /// the first task with that name.
    SameName { first: TaskNo, second: TaskNo },
}

/// A set of 1 to 128 tasks with different names and budgets in order, and a scale that was chosen for it, if any. In
/// contracts it is its tasks and its scale.
#[derive(Debug, Drop)]
pub struct TaskSet {
    tasks: Vec<Task>,
    names: NameTable,
    scale: Option<Scale>,
}

impl Model for TaskSet {
    ghost use Rattle.mc_task.specs.TaskSet.{Set, IsSet};

    ghost Value = { Set };

    ghost view = { λ a. record { tasks = a.tasks.items; scale = a.scale } };

    ghost invariant = { λ a. IsSet (record { tasks = a.tasks.items; scale = a.scale }) };
}

impl TaskSet {
    /// The set of these tasks with no scale, or the first fault. On a fault the list is dropped.
    pub fn new(tasks: Vec<Task>) -> Result<TaskSet, SetFault>
        ensures fault { IfErr result (λ e. first_fault tasks.items ≡ Some e) }
        ensures ok { IfOk result (λ set. (first_fault tasks.items ≡ None) × (set ≡ unscaled tasks.items)) }
    {
        match fault_of(&tasks) {
            Some(fault) => Err(fault),
            None => Ok(TaskSet {
                names: NameTable::new(&tasks),
                tasks,
                scale: None,
            }),
        }
    }

    /// The set of these tasks with no scale, where it is known that they have no fault. They are not tested.
    pub fn of_valid(tasks: Vec<Task>) -> TaskSet
        requires { AreTasks tasks.items }
        ensures { result ≡ unscaled tasks.items }
    {
        TaskSet {
            names: NameTable::new(&tasks),
            tasks,
            scale: None,
        }
    }

    /// The set with this scale in place of any that it had.
    pub fn with_scale(self, scale: Scale) -> TaskSet
        requires { IsScale scale }
        ensures { result ≡ record self { scale = Some scale } }
    {
        let TaskSet { tasks, names, .. } = self;
        TaskSet {
            tasks,
            names,
            scale: Some(scale),
        }
    }

    /// The scale that was chosen for the set, if any.
    pub fn scale(&self) -> Option<Scale>
        ensures value { result ≡ self.now.scale }
        ensures scale { IfSome result IsScale }
    {
        self.scale
    }

    /// The tasks in order of their numbers.
    pub fn as_slice(&self) -> &[Task]
        ensures value { result.now ≡ self.now.tasks }
        ensures tasks { AreTasks self.now.tasks }
    {
        &self.tasks
    }

    /// The number of tasks: 1 to 128.
    pub fn len(&self) -> u32
        ensures count { result ≡ length self.now.tasks }
        ensures set { AreTasks self.now.tasks }
    {
        self.tasks.len() as u32
    }

    /// The task with this number, or `None` exactly if the set has none.
    pub fn get(&self, task: TaskNo) -> Option<Task>
        ensures value { result ≡ task_at self.now.tasks task.0 }
        ensures found { IsSome result ↔ IsIn self.now.tasks task.0 }
    {
        task_with(&self.tasks, task).copied()
    }

    /// Whether the set has a task with this number and this name.
    // Inlined: the call would cost about as much as the body.
    #[inline(always)]
    pub fn is_named(&self, task: TaskNo, name: &[u8]) -> bool
        ensures inside { result ≡ true → IsIn self.now.tasks task.0 }
        ensures name { result ≡ true → name_in (task_at self.now.tasks task.0) ≡ name.now }
        ensures other { result ≡ false → IsIn self.now.tasks task.0 → name_in (task_at self.now.tasks task.0) ≢ name.now }
    {
        match task_with(&self.tasks, task) {
            Some(t) => t.name.bytes() == name,
            None => false,
        }
    }

    /// The number of the task with this name, or `None` exactly if no task has it.
    // Not inlined, so that a caller of `find_near`, which rarely needs `find`, stays small.
    #[inline(never)]
    pub fn find(&self, name: &[u8]) -> Option<TaskNo>
        ensures number { option_map (λ task. task.0) result ≡ named name.now self.now.tasks }
        ensures inside { IfSome result (λ task. IsIn self.now.tasks task.0) }
    {
        match self.names.find(&self.tasks, name) {
            Some(task) => Some(task),
            None => numbered(&self.tasks, name),
        }
    }

    /// The number of the task with this name, or `None`, as `find` returns it; faster if it is task `near` or the one
    /// after it.
    pub fn find_near(&self, name: &[u8], near: TaskNo) -> Option<TaskNo>
        ensures number { option_map (λ task. task.0) result ≡ named name.now self.now.tasks }
        ensures inside { IfSome result (λ task. IsIn self.now.tasks task.0) }
    {
        if has_name(&self.tasks, near, name) {
            return Some(near);
        }
        let next = self.task_after(near);
        if has_name(&self.tasks, next, name) {
            return Some(next);
        }
        self.find(name)
    }

    /// The number of the next task in cyclic order: after the last task comes task 1.
    pub fn task_after(&self, task: TaskNo) -> TaskNo
        ensures { result.0 ≡ if nat_lt task.0 (length self.now.tasks) then task.0 + 1 else 1 }
    {
        if task.0 < self.len() {
            TaskNo(task.0 + 1)
        } else {
            TaskNo(1)
        }
    }

    /// A copy of the set. Fails with `Memory` if an allocation fails.
    pub fn copy(&self, alloc: Global) -> Result<TaskSet, Memory>
        ensures { IfOk result (λ set. set ≡ self.now) }
    {
        Ok(TaskSet {
            tasks: self.tasks.to_vec(alloc)?,
            names: self.names,
            scale: self.scale,
        })
    }
}

fn fault_of(tasks: &[Task]) -> Option<SetFault>
    ensures fault { result ≡ first_fault tasks.now }
    ensures tasks { IfNone result (All IsTask tasks.now) }
{
    if tasks.is_empty() {
        return Some(SetFault::Empty);
    }
    if tasks.len() > 128 {
        return Some(SetFault::TooMany {
            count: tasks.len() as u64,
        });
    }
    match number_fault_of(tasks) {
        Some(fault) => Some(fault),
        None => same_name(tasks),
    }
}

fn number_fault_of(tasks: &[Task]) -> Option<SetFault>
    requires { length tasks.now ≤ 128 }
    ensures fault { result ≡ number_fault_from 0 tasks.now }
    ensures tasks { IfNone result (All IsTask tasks.now) }
{
    for (i, t) in tasks.iter().enumerate() {
        if let Some(fault) = number_fault(t, TaskNo(i as u32 + 1)) {
            return Some(fault);
        }
    }
    None
}

// The fault in the numbers of this task, which has this number in its list.
fn number_fault(t: &Task, task: TaskNo) -> Option<SetFault>
    ensures fault { result ≡ number_fault task.0 t.now }
    ensures task { IfNone result (IsTask t.now) }
{
    let _is_name = t.name.bytes();
    if t.period == 0 || t.low == 0 || t.high == 0 {
        return Some(SetFault::ZeroNumber { task });
    }
    let out_of_order = match t.level {
        Level::Low => t.low != t.high,
        Level::High => t.low > t.high,
    };
    if out_of_order {
        Some(SetFault::BudgetOrder { task })
    } else {
        None
    }
}

fn same_name(tasks: &[Task]) -> Option<SetFault>
    requires { length tasks.now ≤ 128 }
    ensures { result ≡ same_name_from [] tasks.now }
{
    for (second, t) in tasks.iter().enumerate() {
        if let Some(first) = numbered(&tasks[..second], t.name.bytes()) {
            return Some(SetFault::SameName {
                first,
                second: TaskNo(second as u32 + 1),
            });
        }
    }
    None
}

// The number of the first task with this name.
fn numbered(tasks: &[Task], name: &[u8]) -> Option<TaskNo>
    requires { length tasks.now ≤ 128 }
    ensures number { option_map (λ task. task.0) result ≡ named name.now tasks.now }
    ensures inside { IfSome result (λ task. IsIn tasks.now task.0) }
{
    for (i, t) in tasks.iter().enumerate() {
        if is_same(t.name.bytes(), name) {
            return Some(TaskNo(i as u32 + 1));
        }
    }
    None
}
