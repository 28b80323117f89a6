//! The building of nodes, from the front of the tokens to their end: a node is opened, tokens are taken, and the node
//! is closed. Its kind may be chosen then.
ghost use Rattle.std.specs.Prelude.{◌≡◌, ◌≤◌, ◌+◌, ◌-◌, min, List, [], ◌∷◌, ◌++◌, length, take, reverse};
ghost use Rattle.std.specs.Prelude.{IfOk, option_to_list};
ghost use Rattle.std.specs.Bool.{OnTrue};
ghost use Rattle.tree_nodes.specs.Forests.{Forest, Growing, closed_node};
ghost use Rattle.tree_nodes.specs.declared.node.OpenNode.{OpenNode};

use crate::node::{Node, NodeKind, OpenNode};
use std::alloc::{AllocError, Global};

/// The nodes so far, and those that are open. Once an allocation was refused, it is no more whole.
#[derive(Drop)]
pub struct Builder {
    count: usize,
    taken: usize,
    nodes: Vec<Node>,
    opened: Vec<OpenNode>,
    is_whole: bool,
    ghost within: { taken ≤ count },
    ghost growing: { ∥ Growing taken nodes.items (reverse opened.items) ∥₁ },
}

impl Builder {
    /// No node yet, over so many tokens.
    pub fn new(alloc: Global, count: usize) -> Builder
        ensures count { result.count ≡ count }
        ensures taken { result.taken ≡ 0 }
        ensures nodes { result.nodes.items ≡ [] }
        ensures opened { result.opened.items ≡ [] }
    {
        Builder {
            count,
            taken: 0,
            nodes: Vec::new(alloc),
            opened: Vec::new(alloc),
            is_whole: true,
        }
    }

    /// How many tokens there are.
    pub fn count(&self) -> usize
        ensures { result ≡ self.now.count }
    {
        self.count
    }

    /// How many tokens are taken.
    pub fn taken(&self) -> usize
        ensures is { result ≡ self.now.taken }
        ensures within { result ≤ self.now.count }
    {
        self.taken
    }

    /// Takes a token, if there is one.
    pub fn take(&mut self)
        ensures count { self.new.count ≡ self.old.count }
        ensures taken { self.new.taken ≡ min (self.old.taken + 1) self.old.count }
        ensures nodes { self.new.nodes.items ≡ self.old.nodes.items }
        ensures opened { self.new.opened.items ≡ self.old.opened.items }
    {
        if self.taken < self.count {
            self.taken += 1;
        }
    }

    /// Opens a node before the next token.
    pub fn start_node(&mut self)
        ensures count { self.new.count ≡ self.old.count }
        ensures taken { self.new.taken ≡ self.old.taken }
        ensures nodes { self.new.nodes.items ≡ self.old.nodes.items }
        ensures opened { OnTrue self.new.is_whole (self.new.opened.items ≡ self.old.opened.items
            ++ record { from = self.old.taken; before = length self.old.nodes.items } ∷ []) }
    {
        let node = OpenNode {
            from: self.taken,
            before: self.nodes.len(),
        };
        if self.opened.push(node).is_err() {
            self.is_whole = false;
        }
    }

    /// The node of this kind that is made of an open one, if it is one.
    fn closed(&self, kind: NodeKind, node: OpenNode) -> Option<Node>
        ensures { result ≡ closed_node kind self.now.taken (length self.now.nodes.items) node }
    {
        let inside = self.nodes.len().saturating_sub(node.before);
        let width = self.taken.saturating_sub(node.from);
        if inside < width || inside - width < width {
            Some(Node {
                kind,
                from: node.from,
                to: self.taken,
                inside,
            })
        } else {
            None
        }
    }

    /// Closes the node that was opened last, after the last token that was taken. It is left out if it has no token, or
    /// twice as many nodes in it as it has tokens.
    pub fn end_node(&mut self, kind: NodeKind)
        ensures count { self.new.count ≡ self.old.count }
        ensures taken { self.new.taken ≡ self.old.taken }
        ensures opened { self.new.opened.items ≡ take (length self.old.opened.items - 1) self.old.opened.items }
        ensures nodes { (node : OpenNode) (others : List OpenNode) → self.old.opened.items ≡ others ++ node ∷ []
            → OnTrue self.new.is_whole (self.new.nodes.items ≡ self.old.nodes.items
            ++ option_to_list (closed_node kind self.old.taken (length self.old.nodes.items) node)) }
    {
        let Some(node) = self.opened.pop() else {
            return;
        };
        let Some(closed) = self.closed(kind, node) else {
            return;
        };
        if self.nodes.push(closed).is_err() {
            self.is_whole = false;
        }
    }

    /// The nodes, without those that are open. It fails if an allocation was refused, or if these are not all the
    /// tokens that there are.
    pub fn finish(self, count: usize) -> Result<Vec<Node>, AllocError>
        ensures nodes { IfOk result (λ ns. ns.items ≡ self.nodes.items) }
        ensures nest { IfOk result (λ ns. ∥ Forest 0 count ns.items ∥₁) }
        ensures few { IfOk result (λ ns. length ns.items ≤ count + count) }
    {
        if self.is_whole && self.count == count {
            Ok(self.nodes)
        } else {
            Err(AllocError)
        }
    }
}
