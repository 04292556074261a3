//! A winner tree in one array (Knuth, The Art of Computer Programming, volume 3, section 5.4.1).
//!
//! The last half of the array are the leaves, and node k has the winner of the nodes 2k and 2k + 1. Node 0 is not used.
ghost use Rattle.std.specs.Prelude.{◌≡◌, ◌+◌, ◌*◌, ◌/◌, ◌<◌, ◌≤◌, ℕ, length, drop, map, slice_set, replicate, None, IfOk};
ghost use Rattle.ready_queue.specs.Tree.{rekeyed, winner, node, IsTree, IsTreeBut};

use crate::item::{Item, is_second_first, rekeyed};
use std::alloc::{AllocError, Global};

/// A tree with `places` leaves and no item. Fails if an allocation fails.
pub fn no_items(alloc: Global, places: usize) -> Result<Vec<Option<Item>>, AllocError>
    requires { places ≤ 128 }
    ensures { IfOk result (λ nodes. nodes.items ≡ replicate (2 * places) None) }
{
    vec![in alloc; None; 2 * places]
}

/// Puts an item, or none, at a leaf, and plays the matches from there to the root.
#[inline(always)]
pub fn put(nodes: &mut [Option<Item>], places: usize, leaf: usize, item: Option<Item>)
    requires places { length nodes.old ≡ 2 * places }
    requires leaf { leaf < places }
    requires tree { IsTree nodes.old }
    ensures tree { IsTree nodes.new }
    ensures leaves { drop places nodes.new ≡ slice_set (drop places nodes.old) leaf item }
{
    nodes[places + leaf] = item;
    climb(nodes, places + leaf);
}

// Plays the matches from a changed node to the root, or to the first whose winner stays: none above it changes.
fn climb(nodes: &mut [Option<Item>], from: usize)
    requires pair { 2 * (from / 2) + 1 < length nodes.old }
    requires tree { IsTreeBut (from / 2) nodes.old }
    ensures tree { IsTree nodes.new }
    ensures leaves { (p : ℕ) → length nodes.old ≤ 2 * p → drop p nodes.new ≡ drop p nodes.old }
{
    let mut at = from / 2;
    while at > 0 {
        let won = winning_node(nodes, at);
        if nodes[at] == nodes[won] {
            return;
        }
        nodes[at] = nodes[won];
        at /= 2;
    }
}

// Which of the two nodes below this one has their winner.
#[inline(always)]
fn winning_node(nodes: &[Option<Item>], at: usize) -> usize
    requires pair { 2 * at + 1 < length nodes.now }
    ensures below { result ≤ 2 * at + 1 }
    ensures winner { node nodes.now result ≡ winner (node nodes.now (2 * at)) (node nodes.now (2 * at + 1)) }
{
    let (first, second) = (2 * at, 2 * at + 1);
    if is_second_first(&nodes[first], &nodes[second]) {
        second
    } else {
        first
    }
}

/// Changes each leaf to high mode, and plays all matches.
pub fn rekey(nodes: &mut [Option<Item>], places: usize)
    requires { length nodes.old ≡ 2 * places }
    ensures tree { IsTree nodes.new }
    ensures leaves { drop places nodes.new ≡ map rekeyed (drop places nodes.old) }
{
    rekey_leaves(&mut nodes[places..]);
    play_all(nodes, places);
}

// Discards the items of low tasks, and orders those of high tasks by their real deadlines.
fn rekey_leaves(leaves: &mut [Option<Item>])
    ensures { leaves.new ≡ map rekeyed leaves.old }
{
    for leaf in leaves.iter_mut() {
        *leaf = rekeyed(*leaf);
    }
}

// Plays all matches, those next to the leaves first.
fn play_all(nodes: &mut [Option<Item>], places: usize)
    requires { length nodes.old ≡ 2 * places }
    ensures tree { IsTree nodes.new }
    ensures leaves { drop places nodes.new ≡ drop places nodes.old }
{
    for at in (1..places).rev() {
        nodes[at] = nodes[winning_node(nodes, at)];
    }
}
