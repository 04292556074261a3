//! A table by which a task is found by its name.
ghost use Rattle.std.specs.Prelude.{◌≡◌, ◌≤◌, ◌↔◌, length, IfSome, IsSome, option_copied, true};
ghost use Rattle.mc_task.specs.TaskSet.{IsIn, task_at, name_in};
ghost use Rattle.std.specs.Str.{bytes_eq};

use crate::{Task, TaskNo};

/// A hash table of at most 128 task numbers: each stands at the first free slot from the slot of its name on; free
/// slots are 0. A number is only a hint: the name of the task is compared before the number is returned.
#[derive(Clone, Copy, Debug)]
pub struct NameTable {
    numbers: [u8; 256],
}

impl NameTable {
    /// The table of these tasks, which number at most 128.
    pub fn new(tasks: &[Task]) -> NameTable
        requires { length tasks.now ≤ 128 }
    {
        let mut table = NameTable { numbers: [0; 256] };
        for (i, t) in tasks.iter().enumerate() {
            table.put(i as u8 + 1, t.name.bytes());
        }
        table
    }

    fn put(&mut self, number: u8, name: &[u8]) {
        let first = place_of(name);
        for step in 0..=255u8 {
            let place = first.wrapping_add(step) as usize;
            if self.numbers[place] == 0 {
                self.numbers[place] = number;
                return;
            }
        }
    }

    /// A task with this name, if the table has its number.
    pub fn find(&self, tasks: &[Task], name: &[u8]) -> Option<TaskNo>
        requires { length tasks.now ≤ 128 }
        ensures inside { IfSome result (λ task. IsIn tasks.now task.0) }
        ensures name { IfSome result (λ task. name_in (task_at tasks.now task.0) ≡ name.now) }
    {
        let first = place_of(name);
        for step in 0..=255u8 {
            let task = TaskNo(self.numbers[first.wrapping_add(step) as usize] as u32);
            if task.0 == 0 {
                return None;
            }
            if has_name(tasks, task, name) {
                return Some(task);
            }
        }
        None
    }
}

/// Whether there is a task with this number and this name.
pub fn has_name(tasks: &[Task], task: TaskNo, name: &[u8]) -> bool
    ensures inside { result ≡ true → IsIn tasks.now task.0 }
    ensures name { result ≡ true → name_in (task_at tasks.now task.0) ≡ name.now }
{
    match task_with(tasks, task) {
        Some(t) => is_same(t.name.bytes(), name),
        None => false,
    }
}

// Names of a set differ mostly in their last byte, so that byte is compared first.
pub fn is_same(own: &[u8], name: &[u8]) -> bool
    ensures { result ≡ bytes_eq own.now name.now }
{
    own.last() == name.last() && own == name
}

/// The task with this number, or `None` exactly if there is none.
pub fn task_with(tasks: &[Task], task: TaskNo) -> Option<&Task>
    ensures value { option_copied result ≡ task_at tasks.now task.0 }
    ensures found { IsSome result ↔ IsIn tasks.now task.0 }
{
    if task.0 == 0 {
        return None;
    }
    tasks.get(task.0 as usize - 1)
}

// The slot at which the search for a name begins.
fn place_of(name: &[u8]) -> u8 {
    let mut place = 0u8;
    for b in name {
        place = place.wrapping_mul(31).wrapping_add(*b);
    }
    place
}
