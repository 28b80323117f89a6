//! A row of numbers of which the first that is large enough, and the last before a place that is not 0, are
//! found in as many steps as the row has doublings.
//!
//! ```text
//! node 1:             9
//! nodes 2, 3:     4       9
//! nodes 4 to 7: 4   0   9   3     the row: 4, 0, 9, 3
//! ```
//!
//! The row is the last half of one array, and each node before it is the greater of the two nodes below it:
//! those of node i are 2 i and 2 i + 1. Stands on nothing.
#![tactic(auto)]

ghost use Rattle.std.specs.Prelude.{◌≡◌, ◌⊎◌, ℕ, ◌+◌, ◌*◌, ◌^◌, ◌<◌, ◌≤◌, List, drop, replicate, length, slice_index};
ghost use Rattle.std.specs.Prelude.{slice_set, IfOk};
ghost use Rattle.max_tree.specs.MaxTree.{AreMaxima, IsMaxTree, FirstFrom, LastBefore, IsLastUnder};

use std::alloc::{AllocError, Global};
use std::marker::Model;

/// In clauses it is the list of its numbers.
#[derive(Drop)]
pub struct MaxTree {
    tree: Vec<u32>,
    depth: u32,
    count: usize,
}

impl Model for MaxTree {
    ghost Value = { List ℕ };

    ghost view = { λ t. drop t.count t.tree.items };

    ghost invariant = { λ t. IsMaxTree t.tree.items t.depth t.count };
}

impl MaxTree {
    /// Zeros, as many as `depth` doublings of one make.
    pub fn new(alloc: Global, depth: u32) -> Result<MaxTree, AllocError>
        requires { depth ≤ 31 }
        ensures { IfOk result (λ t. t ≡ replicate (2 ^ depth) 0) }
    {
        let count = 1usize << depth;
        let tree = vec![in alloc; 0; 2 * count]?;
        Ok(MaxTree { tree, depth, count })
    }

    /// How many numbers there are.
    pub fn len(&self) -> usize
        ensures { result ≡ length self.now }
    {
        self.count
    }

    /// The number at a place.
    pub fn number(&self, i: usize) -> u32
        requires { i < length self.now }
        ensures { result ≡ slice_index self.now i }
    {
        self.tree[self.count + i]
    }

    /// Puts a number at a place.
    pub fn put(&mut self, i: usize, number: u32)
        requires { i < length self.old }
        ensures { self.new ≡ slice_set self.old i number }
    {
        put_in(self.tree.as_mut_slice(), self.count, i, number);
    }

    /// The place of the first number that is at least so large.
    pub fn first(&self, size: u32) -> Option<usize>
        ensures { FirstFrom self.now size result }
    {
        first_in(self.tree.as_slice(), self.depth, self.count, size)
    }

    /// The last place before another whose number is not 0.
    pub fn last_before(&self, i: usize) -> Option<usize>
        requires some { 0 < i }
        requires within { i ≤ length self.now }
        ensures { LastBefore self.now i result }
    {
        last_in(self.tree.as_slice(), self.depth, self.count, i)
    }
}

/// Puts a number at a place, and makes the nodes above it anew, from below.
fn put_in(tree: &mut [u32], count: usize, i: usize, number: u32)
    requires place { i < count }
    requires sized { length tree.old ≡ 2 * count }
    requires maxima { AreMaxima tree.old count }
    ensures maxima { AreMaxima tree.new count }
    ensures row { drop count tree.new ≡ slice_set (drop count tree.old) i number }
{
    let mut node = count + i;
    tree[node] = number;
    while node > 1 {
        node /= 2;
        let left = tree[2 * node];
        let right = tree[2 * node + 1];
        tree[node] = left.max(right);
    }
}

/// The place of the first number that is at least so large.
fn first_in(tree: &[u32], depth: u32, count: usize, size: u32) -> Option<usize>
    requires { IsMaxTree tree.now depth count }
    ensures { FirstFrom (drop count tree.now) size result }
{
    if tree[1] < size {
        return None;
    }
    let mut node = 1;
    while node < count {
        node = below(tree, count, node, size);
    }
    Some(node - count)
}

/// The first of the two nodes below a node that is large enough, where one is.
fn below(tree: &[u32], count: usize, node: usize, size: u32) -> usize
    requires sized { length tree.now ≡ 2 * count }
    requires within { node < count }
    ensures { ((result ≡ 2 * node) × (size ≤ slice_index tree.now (2 * node)))
        ⊎ ((result ≡ 2 * node + 1) × (slice_index tree.now (2 * node) < size)) }
{
    if tree[2 * node] < size {
        return 2 * node + 1;
    }
    2 * node
}

/// The last place before another whose number is not 0.
fn last_in(tree: &[u32], depth: u32, count: usize, i: usize) -> Option<usize>
    requires tree { IsMaxTree tree.now depth count }
    requires some { 0 < i }
    requires within { i ≤ count }
    ensures { LastBefore (drop count tree.now) i result }
{
    let mut node = count + (i - 1);
    if tree[node] > 0 {
        return Some(i - 1);
    }
    while node > 1 {
        if node % 2 == 1 && tree[node - 1] > 0 {
            return Some(last_under(tree, count, node - 1));
        }
        node /= 2;
    }
    None
}

/// The last place below a node whose number is not 0.
fn last_under(tree: &[u32], count: usize, node: usize) -> usize
    requires sized { length tree.now ≡ 2 * count }
    requires maxima { AreMaxima tree.now count }
    requires some { 0 < node }
    requires within { node < 2 * count }
    requires held { 0 < slice_index tree.now node }
    ensures { (h : ℕ) → count ≤ node * 2 ^ h → node * 2 ^ h + 2 ^ h ≤ 2 * count
        → IsLastUnder tree.now count (node * 2 ^ h) (node * 2 ^ h + 2 ^ h) result }
{
    let mut node = node;
    while node < count {
        node = later(tree, count, node);
    }
    node - count
}

/// The second of the two nodes below a node, where it is not 0, and else the first.
fn later(tree: &[u32], count: usize, node: usize) -> usize
    requires sized { length tree.now ≡ 2 * count }
    requires within { node < count }
    ensures { ((result ≡ 2 * node + 1) × (0 < slice_index tree.now (2 * node + 1)))
        ⊎ ((result ≡ 2 * node) × (slice_index tree.now (2 * node + 1) ≡ 0)) }
{
    if tree[2 * node + 1] > 0 {
        return 2 * node + 1;
    }
    2 * node
}
