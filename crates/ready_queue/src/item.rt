//! The items of the queue, and which of two comes first.
ghost use Rattle.std.specs.Prelude.{◌≡◌, cond, option_map};
ghost use Rattle.ready_queue.specs.Items.{before};
ghost use Rattle.ready_queue.specs.Tree.{winner, rekeyed};

use mc_task::TaskNo;

/// A pending job in the queue: its task, whether the task is high, the key by which the job is ordered now, and the key
/// of its real deadline, by which it is ordered in high mode. Keys are in parts of a tick, as `virtual_key::key`
/// returns them (Baruah et al., ECRTS 2012).
#[derive(Clone, Copy, Debug, PartialEq, Eq)]
pub struct Item {
    pub task: TaskNo,
    pub high: bool,
    pub key: u128,
    pub real: u128,
}

// Whether i comes before j: its key is less, or the keys are equal and its task's number is lower.
fn before(i: &Item, j: &Item) -> bool
    ensures { result ≡ before i.now j.now }
{
    i.key < j.key || (i.key == j.key && i.task.0 < j.task.0)
}

/// Whether the second of the two items comes first, or is the only one that there may be.
#[inline(always)]
pub fn is_second_first(a: &Option<Item>, b: &Option<Item>) -> bool
    ensures { winner a.now b.now ≡ cond result b.now a.now }
{
    match (a, b) {
        (Some(i), Some(j)) => before(j, i),
        (None, _) => true,
        (_, None) => false,
    }
}

/// The item after the change to high mode: `None` for a low task, and a high task's item by its real deadline.
pub fn rekeyed(item: Option<Item>) -> Option<Item>
    ensures { result ≡ rekeyed item }
{
    match item {
        Some(i) if i.high => Some(Item { key: i.real, ..i }),
        _ => None,
    }
}

/// The task of the item, if there is one.
pub fn task_of(item: Option<Item>) -> Option<TaskNo>
    ensures { result ≡ option_map (λ i. i.task) item }
{
    match item {
        Some(i) => Some(i.task),
        None => None,
    }
}
