//! What waits for what while things that use each other are placed.
ghost use Rattle.std.specs.Prelude.{◌≡◌, ◌≤◌, ◌<◌, ◌∷◌, [], ℕ, List, true, false, length, slice_index_or, All, IfOk};
ghost use Rattle.std.specs.Prelude.{OnOk, IfErr, IfSome, IfNone};
ghost use Rattle.placement.specs.Waiting.{IsSettled, IsStarted, KeepsPlaced, PlacesNext, IsStuck};

use crate::order::OrderError;
use std::alloc::Global;
use std::collections::BTreeSet;
use std::marker::Model;
use tables::Sequence;

/// Nodes that use each other: each is placed, ready to be placed, or waits for one that it uses.
#[derive(Drop)]
pub struct Queue<'a> {
    /// What each node uses.
    uses: &'a [Sequence<usize>],
    placed: Vec<bool>,
    /// Of each node, how many of its uses were met placed, from the first on.
    met: Vec<usize>,
    /// By node, those that wait until it is placed.
    waiting: Vec<Sequence<usize>>,
    /// Those that can be placed.
    ready: BTreeSet<usize>,
}

impl<'a> Model for Queue<'a> {
    ghost use Rattle.placement.specs.Waiting.{Waits};

    ghost Value = { Waits };

    ghost view = { λ p. record {
      uses = p.uses.now;
      placed = p.placed.items;
      met = p.met.items;
      waiting = p.waiting.items;
      ready = p.ready.keys;
    } };
}

/// The first of these, from a place on, that isn't placed.
fn first_missing(used: &[usize], from: usize, placed: &[bool]) -> Option<usize>
    ensures some { IfSome result (λ k. (k < length used.now)
        × (slice_index_or placed.now (slice_index_or used.now k 0) false ≡ false)
        × ((j : ℕ) → from ≤ j → j < k → slice_index_or placed.now (slice_index_or used.now j 0) false ≡ true)) }
    ensures none { IfNone result ((j : ℕ) → from ≤ j → j < length used.now
        → slice_index_or placed.now (slice_index_or used.now j 0) false ≡ true) }
{
    for place in from..used.len() {
        if !placed.get(used[place]).copied().unwrap_or(false) {
            return Some(place);
        }
    }
    None
}

impl<'a> Queue<'a> {
    /// Nodes that use these. None is placed.
    pub fn new(alloc: Global, uses: &'a [Sequence<usize>]) -> Result<Queue<'a>, OrderError>
        requires { All (λ used. All (λ u. u < length uses.now) used) uses.now }
        ensures ok { IfOk result (IsStarted uses.now) }
        ensures err { IfErr result (λ e. e ≡ OrderError.NoMemory) }
    {
        let mut nodes = Vec::new(alloc);
        let mut waiting = Vec::new(alloc);
        for node in 0..uses.len() {
            nodes.push(node)?;
            waiting.push(Sequence::new(Vec::new(alloc)))?;
        }
        let mut queue = Queue {
            uses,
            placed: vec![in alloc; false; uses.len()]?,
            met: vec![in alloc; 0; uses.len()]?,
            waiting,
            ready: BTreeSet::new(alloc),
        };
        queue.settle_all(&nodes)?;
        Ok(queue)
    }

    /// Puts a node to those that are ready, or to those that wait for the first of its uses that isn't placed.
    fn settle(&mut self, node: usize) -> Result<(), OrderError>
        requires { (rest : List ℕ) × IsSettled self.old (node ∷ rest) }
        ensures ok { OnOk result ((rest : List ℕ) → IsSettled self.old (node ∷ rest) → IsSettled self.new rest) }
        ensures kept { OnOk result (KeepsPlaced self.old self.new) }
        ensures err { IfErr result (λ e. e ≡ OrderError.NoMemory) }
    {
        let uses = self.uses;
        let used = uses[node].as_slice();
        match first_missing(used, self.met[node], &self.placed) {
            None => {
                self.ready.insert(node)?;
            }
            Some(place) => {
                self.met[node] = place;
                self.waiting[used[place]].push(node)?;
            }
        }
        Ok(())
    }

    /// Settles these nodes.
    pub fn settle_all(&mut self, nodes: &[usize]) -> Result<(), OrderError>
        requires { IsSettled self.old nodes.now }
        ensures ok { OnOk result (IsSettled self.new []) }
        ensures kept { OnOk result (KeepsPlaced self.old self.new) }
        ensures err { IfErr result (λ e. e ≡ OrderError.NoMemory) }
    {
        for node in nodes {
            self.settle(*node)?;
        }
        Ok(())
    }

    /// Places the first node that is ready. Those that waited for it are answered too: they are to be settled.
    pub fn place_next(&mut self, alloc: Global) -> Option<(usize, Sequence<usize>)>
        requires { IsSettled self.old [] }
        ensures some { IfSome result (λ r. PlacesNext self.old r.0 r.1 self.new) }
        ensures none { IfNone result (IsStuck self.old) }
    {
        let node = self.ready.pop_first()?;
        self.placed[node] = true;
        let waiting = std::mem::replace(&mut self.waiting[node], Sequence::new(Vec::new(alloc)));
        Some((node, waiting))
    }
}
