//! The queue of pending jobs.
ghost use Rattle.std.specs.Prelude.{◌≡◌, ◌≤◌, ◌↔◌, [], true, None, IfOk, IfSome, IsNone, map, filter, is_some, option_map};
ghost use Rattle.ready_queue.specs.Items.{item_of, with_item, without, least, by_real, IsFirstItem, AreItems};

use crate::item::{Item, task_of};
use crate::tree::{no_items, put, rekey};
use mc_task::{Memory, TaskNo};
use std::alloc::Global;
use std::marker::Model;

/// The pending jobs, at most one of each task. In contracts it is its capacity `places` and its items by task number.
#[derive(Debug, Drop)]
pub struct ReadyQueue {
    places: usize,
    nodes: Vec<Option<Item>>,
}

impl Model for ReadyQueue {
    ghost use Rattle.ready_queue.specs.Items.{Queue};

    ghost Value = { Queue };

    ghost use Rattle.ready_queue.specs.Representation.{queue_of, IsQueue};

    ghost view = { queue_of };

    ghost invariant = { IsQueue };
}

impl ReadyQueue {
    /// An empty queue for tasks with the numbers 1 to `places`. Fails with `Memory` if an allocation fails; no other
    /// call allocates.
    pub fn new(alloc: Global, places: u32) -> Result<ReadyQueue, Memory>
        requires some { 1 ≤ places }
        requires few { places ≤ 128 }
        ensures { IfOk result (λ queue. queue ≡ record { places = places; items = [] }) }
    {
        let places = places as usize;
        let nodes = no_items(alloc, places)?;
        Ok(ReadyQueue { places, nodes })
    }

    /// Adds an item of a task that has none.
    pub fn insert(&mut self, item: Item)
        requires some { 1 ≤ item.task.0 }
        requires place { item.task.0 ≤ self.old.places }
        requires new { item_of self.old.items item.task.0 ≡ None }
        ensures { self.new ≡ record self.old { items = with_item item self.old.items } }
    {
        let leaf = item.task.0 as usize - 1;
        put(&mut self.nodes, self.places, leaf, Some(item));
    }

    /// The task whose item has the least key; of equal keys, the one with the lowest number. `None` exactly if the
    /// queue is empty.
    pub fn least(&self) -> Option<TaskNo>
        ensures value { result ≡ option_map (λ i. i.task) (least self.now.items) }
        ensures first { IfSome result (IsFirstItem self.now.items) }
        ensures none { IsNone result ↔ (self.now.items ≡ []) }
        ensures items { AreItems self.now.places self.now.items }
    {
        task_of(self.nodes[1])
    }

    /// Removes the task's item. Returns `false`, and changes nothing, exactly if the task has none.
    pub fn remove(&mut self, task: TaskNo) -> bool
        ensures there { result ≡ is_some (item_of self.old.items task.0) }
        ensures state { self.new ≡ record self.old { items = without task.0 self.old.items } }
    {
        let there = self.has(task);
        if there {
            put(&mut self.nodes, self.places, task.0 as usize - 1, None);
        }
        there
    }

    // Whether the task has an item.
    fn has(&self, task: TaskNo) -> bool
        ensures there { result ≡ is_some (item_of self.now.items task.0) }
        ensures some { result ≡ true → 1 ≤ task.0 }
        ensures place { result ≡ true → task.0 ≤ self.now.places }
    {
        let number = task.0 as usize;
        if number == 0 || number > self.places {
            return false;
        }
        self.nodes[self.places + number - 1].is_some()
    }

    /// Changes to high mode: the items of low tasks are removed, and those of high tasks get the keys of their real
    /// deadlines.
    pub fn rekey_high(&mut self)
        ensures { self.new ≡ record self.old { items = map by_real (filter (λ i. i.high) self.old.items) } }
    {
        rekey(&mut self.nodes, self.places);
    }
}
