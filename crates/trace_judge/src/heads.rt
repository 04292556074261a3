//! The keys at the heads of the tasks' queues, in a tree in one array, as a winner tree (Knuth, The Art of Computer
//! Programming, volume 3, section 5.4.1): the last half are the leaves, and node k has the lesser of the keys of the
//! nodes 2k and 2k + 1. Node 0 is not used.
ghost use Rattle.std.specs.Prelude.{◌≡◌, ◌+◌, ◌*◌, ◌/◌, ◌^◌, ◌<◌, ◌≤◌, ℕ, All, Contains, IfOk, length, drop, slice_index, slice_set, replicate};
ghost use Rattle.trace_judge.specs.Heads.{no_key, IsTree, IsTreeBut, IsLowered};

use mc_task::Memory;
use std::alloc::{AllocError, Global};
use std::marker::Model;

/// The key at the head of a queue without a job: no job has so great a key. The top bit of a job's key is 0, so one look
/// at this bit shows whether a queue is empty.
pub const NO_KEY: u128 = 1 << 127;

/// The key at the head of each queue, as a list.
#[derive(Drop)]
pub struct Heads {
    nodes: Vec<u128>,
}

impl Model for Heads {
    ghost use Rattle.std.specs.Prelude.{ℕ, List};

    ghost Value = { List ℕ };

    ghost use Rattle.trace_judge.specs.Heads.{leaves, AreNodes};

    ghost view = { λ a. leaves a.nodes.items };

    ghost invariant = { λ a. AreNodes a.nodes.items };
}

impl Heads {
    /// The keys at the heads of `count` queues without a job.
    pub fn new(alloc: Global, count: u32) -> Result<Heads, Memory>
        requires { 1 ≤ count }
        ensures { IfOk result (λ heads. heads ≡ replicate count no_key) }
    {
        let nodes = no_keys(alloc, count as usize)?;
        Ok(Heads { nodes })
    }

    /// Replaces the key at the head of a queue.
    pub fn set(&mut self, index: usize, key: u128)
        requires { index < length self.old }
        ensures { self.new ≡ slice_set self.old index key }
    {
        put(&mut self.nodes, index, key);
    }

    /// Replaces the key at the head of a queue by one that is not greater.
    pub fn lower(&mut self, index: usize, key: u128)
        requires index { index < length self.old }
        requires lesser { key ≤ slice_index self.old index }
        ensures { self.new ≡ slice_set self.old index key }
    {
        put_lesser(&mut self.nodes, index, key);
    }

    /// The least key of all queues.
    pub fn least(&self) -> u128
        ensures below { All (λ key. result ≤ key) self.now }
        ensures there { Contains self.now result }
    {
        self.nodes[1]
    }
}

// A tree for `count` queues without a job.
fn no_keys(alloc: Global, count: usize) -> Result<Vec<u128>, AllocError>
    requires { count < 2 ^ 32 }
    ensures { IfOk result (λ nodes. nodes.items ≡ replicate (2 * count) no_key) }
{
    vec![in alloc; NO_KEY; 2 * count]
}

// Puts a key at a leaf, and updates the nodes above it.
fn put(nodes: &mut [u128], leaf: usize, key: u128)
    requires even { length nodes.old ≡ 2 * (length nodes.old / 2) }
    requires leaf { leaf < length nodes.old / 2 }
    requires tree { IsTree nodes.old }
    ensures len { length nodes.new ≡ length nodes.old }
    ensures tree { IsTree nodes.new }
    ensures leaves { drop (length nodes.old / 2) nodes.new ≡ slice_set (drop (length nodes.old / 2) nodes.old) leaf key }
{
    let node = nodes.len() / 2 + leaf;
    nodes[node] = key;
    climb(nodes, node);
}

// Updates the nodes between a changed node and the root, as far up as a key changes.
fn climb(nodes: &mut [u128], from: usize)
    requires pair { 2 * (from / 2) + 1 < length nodes.old }
    requires tree { IsTreeBut (from / 2) nodes.old }
    ensures len { length nodes.new ≡ length nodes.old }
    ensures tree { IsTree nodes.new }
    ensures leaves { (p : ℕ) → length nodes.old ≤ 2 * p → drop p nodes.new ≡ drop p nodes.old }
{
    let mut at = from / 2;
    while at > 0 {
        let lesser = nodes[2 * at].min(nodes[2 * at + 1]);
        if nodes[at] == lesser {
            return;
        }
        nodes[at] = lesser;
        at /= 2;
    }
}

// Puts a key that is not greater than the present one at a leaf, and lowers the nodes above it.
fn put_lesser(nodes: &mut [u128], leaf: usize, key: u128)
    requires even { length nodes.old ≡ 2 * (length nodes.old / 2) }
    requires leaf { leaf < length nodes.old / 2 }
    requires tree { IsTree nodes.old }
    requires lesser { key ≤ slice_index nodes.old (length nodes.old / 2 + leaf) }
    ensures len { length nodes.new ≡ length nodes.old }
    ensures tree { IsTree nodes.new }
    ensures leaves { drop (length nodes.old / 2) nodes.new ≡ slice_set (drop (length nodes.old / 2) nodes.old) leaf key }
{
    let node = nodes.len() / 2 + leaf;
    nodes[node] = key;
    lower_above(nodes, node, key);
}

// Lowers the nodes between a node that was lowered to this key and the root, as far up as they have a greater key.
// Their siblings need not be read.
fn lower_above(nodes: &mut [u128], from: usize, key: u128)
    requires pair { 2 * (from / 2) + 1 < length nodes.old }
    requires tree { IsTreeBut (from / 2) nodes.old }
    requires lowered { IsLowered (from / 2) key nodes.old }
    ensures len { length nodes.new ≡ length nodes.old }
    ensures tree { IsTree nodes.new }
    ensures leaves { (p : ℕ) → length nodes.old ≤ 2 * p → drop p nodes.new ≡ drop p nodes.old }
{
    let mut at = from / 2;
    while at > 0 && key < nodes[at] {
        nodes[at] = key;
        at /= 2;
    }
}
