//! Tests of the queue of pending jobs.
ghost use Rattle.std.specs.Prelude.{◌≡◌, ◌≤◌};

use mc_task::TaskNo;
use ready_queue::{Item, ReadyQueue};
use std::alloc::Global;
use std::test::Fail;

fn item(task: u32, high: bool, key: u128, real: u128) -> Item
    ensures { result.task.0 ≡ task }
{
    Item {
        task: TaskNo(task),
        high,
        key,
        real,
    }
}

// Replaces the item of this item's task, and returns whether there was one.
fn replace(queue: &mut ReadyQueue, item: Item) -> bool
    requires some { 1 ≤ item.task.0 }
    requires place { item.task.0 ≤ queue.old.places }
    ensures { queue.new.places ≡ queue.old.places }
{
    let there = queue.remove(item.task);
    queue.insert(item);
    there
}

// What a call shows: whether the task had an item, and the task that is first after the call.
type Seen = (bool, Option<TaskNo>);

fn after_a_replacement(queue: &mut ReadyQueue, item: Item) -> Seen
    requires some { 1 ≤ item.task.0 }
    requires place { item.task.0 ≤ queue.old.places }
    ensures { queue.new.places ≡ queue.old.places }
{
    let there = replace(queue, item);
    (there, queue.least())
}

fn after_a_removal(queue: &mut ReadyQueue, task: u32) -> Seen
    ensures { queue.new.places ≡ queue.old.places }
{
    let there = queue.remove(TaskNo(task));
    (there, queue.least())
}

const FIRST: Option<TaskNo> = Some(TaskNo(1));

const SECOND: Option<TaskNo> = Some(TaskNo(2));

const THIRD: Option<TaskNo> = Some(TaskNo(3));

const FOURTH: Option<TaskNo> = Some(TaskNo(4));

// What a queue of three tasks shows.
fn ordered(queue: &mut ReadyQueue) -> [Seen; 10]
    requires { queue.old.places ≡ 3 }
{
    let empty = queue.least();
    // A high job with deadline 12 and virtual deadline 4.5, and a low one with deadline 5, in quarters of a tick.
    let low = after_a_replacement(queue, item(1, false, 20, 20));
    let high = after_a_replacement(queue, item(3, true, 18, 48));
    // Of two items with key 18 the one with the lower number comes first.
    let equal = after_a_replacement(queue, item(2, true, 18, 99));
    let greater = after_a_replacement(queue, item(2, true, 19, 99));
    [
        (false, empty),
        low,
        high,
        equal,
        greater,
        after_a_removal(queue, 3),
        after_a_removal(queue, 0),
        after_a_removal(queue, 3),
        after_a_removal(queue, 4),
        after_a_removal(queue, 4294967295),
    ]
}

#[test]
fn the_least_key_comes_first_and_then_the_lowest_number(rt: HostRuntime) -> Result<(), Fail> {
    let mut queue = ReadyQueue::new(rt.alloc(), 3)?;
    let seen = ordered(&mut queue);
    let expected = [
        (false, None),
        (false, FIRST),
        (false, THIRD),
        (false, SECOND),
        (true, THIRD),
        (true, SECOND),
        (false, SECOND),
        (false, SECOND),
        (false, SECOND),
        (false, SECOND),
    ];
    assert!(rt; seen == expected);
    Ok(())
}

// What a queue of four tasks shows before and after the change to high mode.
fn rekeyed(queue: &mut ReadyQueue) -> [Seen; 7]
    requires { queue.old.places ≡ 4 }
{
    // By virtual deadlines task 1 comes before task 4; by real deadlines task 4 comes first.
    let first = after_a_replacement(queue, item(1, true, 10, 40));
    let low = after_a_replacement(queue, item(2, false, 5, 5));
    let fourth = after_a_replacement(queue, item(4, true, 20, 30));
    queue.rekey_high();
    let high = queue.least();
    [
        first,
        low,
        fourth,
        (true, high),
        after_a_removal(queue, 2),
        after_a_removal(queue, 4),
        after_a_removal(queue, 1),
    ]
}

#[test]
fn in_high_mode_low_items_are_gone_and_high_ones_go_by_real_deadlines(
    rt: HostRuntime,
) -> Result<(), Fail> {
    let mut queue = ReadyQueue::new(rt.alloc(), 4)?;
    let seen = rekeyed(&mut queue);
    let expected = [
        (false, FIRST),
        (false, SECOND),
        (false, SECOND),
        (true, FOURTH),
        (false, FOURTH),
        (true, FIRST),
        (true, None),
    ];
    assert!(rt; seen == expected);
    Ok(())
}

// Gives each task an item. Returns whether none had one before. The key is 37 times the task's number modulo the prime
// 131, a different key for each task.
fn fill(queue: &mut ReadyQueue, places: u32) -> bool
    requires { queue.old.places ≡ places }
{
    let mut are_new = true;
    for task in 1..=places {
        let key = u128::from(task) * 37 % 131;
        are_new = !replace(queue, item(task, true, key, 0)) && are_new;
    }
    are_new
}

// Whether exactly this number of items comes out, each with a greater key than the one before.
fn come_out_by_their_keys(queue: &mut ReadyQueue, places: u32) -> bool {
    let mut last = 0;
    for _ in 0..places {
        let Some(least) = queue.least() else {
            return false;
        };
        let key = u64::from(least.0) * 37 % 131;
        if last >= key || !queue.remove(least) {
            return false;
        }
        last = key;
    }
    queue.least().is_none()
}

// Whether a queue with this number of places gives its items by their keys.
fn is_in_order(alloc: Global, places: u32) -> Result<bool, Fail>
    requires some { 1 ≤ places }
    requires few { places ≤ 128 }
{
    let mut queue = ReadyQueue::new(alloc, places)?;
    Ok(fill(&mut queue, places) && come_out_by_their_keys(&mut queue, places))
}

// The first number of places with which a queue gives its items in another order.
fn first_out_of_order(alloc: Global) -> Result<Option<u32>, Fail> {
    for places in [1, 2, 3, 7, 64, 100, 127, 128] {
        if !is_in_order(alloc, places)? {
            return Ok(Some(places));
        }
    }
    Ok(None)
}

#[test]
fn items_of_all_places_come_out_by_their_keys(rt: HostRuntime) -> Result<(), Fail> {
    assert_eq!(rt; first_out_of_order(rt.alloc())?, None);
    Ok(())
}
