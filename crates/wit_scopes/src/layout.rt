//! The nodes of one file from the outside: which node each is in, and in which scope.
use std::alloc::{AllocError, Global};
use wit_names::ScopeId;
use wit_tree::Node;

/// A node that others may be in: its index, and the first index of these.
#[derive(Clone, Copy)]
struct Around {
    node: usize,
    first: usize,
}

/// Leaves those that a node isn't in.
fn leave(around: &mut Vec<Around>, at: usize) {
    for _turn in 0..around.len() {
        match around.last() {
            Some(last) if last.first > at => {
                let _ = around.pop();
            }
            _ => break,
        }
    }
}

/// The last of these.
fn last_of(around: &Vec<Around>) -> Option<usize> {
    Some(around.last()?.node)
}

/// So many times nothing.
fn nothing<T: Copy>(alloc: Global, count: usize) -> Result<Vec<Option<T>>, AllocError> {
    let mut all = Vec::with_capacity(alloc, count)?;
    for _turn in 0..count {
        all.push(None)?;
    }
    Ok(all)
}

/// The node that each node is in, if there is one.
fn parents_of(alloc: Global, nodes: &[Node]) -> Result<Vec<Option<usize>>, AllocError> {
    let mut parents: Vec<Option<usize>> = nothing(alloc, nodes.len())?;
    let mut around: Vec<Around> = Vec::new(alloc);
    for (at, node) in nodes.iter().enumerate().rev() {
        leave(&mut around, at);
        if let Some(parent) = parents.get_mut(at) {
            *parent = last_of(&around);
        }
        around.push(Around {
            node: at,
            first: at.saturating_sub(node.inside),
        })?;
    }
    Ok(parents)
}

/// Where the nodes of a file are.
#[derive(Drop)]
pub(crate) struct Layout {
    /// The file's index in its set.
    pub file: usize,
    parents: Vec<Option<usize>>,
    /// The scope that each node opens, if it does.
    opened: Vec<Option<ScopeId>>,
    /// The scope that each node is in.
    around: Vec<Option<ScopeId>>,
}

impl Layout {
    /// The layout of a file, without scopes.
    pub(crate) fn of(alloc: Global, file: usize, nodes: &[Node]) -> Result<Layout, AllocError> {
        Ok(Layout {
            file,
            parents: parents_of(alloc, nodes)?,
            opened: nothing(alloc, nodes.len())?,
            around: nothing(alloc, nodes.len())?,
        })
    }

    /// The node that a node is in.
    pub(crate) fn parent(&self, at: usize) -> Option<usize> {
        self.parents.as_slice().get(at).copied().flatten()
    }

    /// The scope that a node opens.
    pub(crate) fn opened(&self, at: usize) -> Option<ScopeId> {
        self.opened.as_slice().get(at).copied().flatten()
    }

    /// The scope that a node is in.
    pub(crate) fn around(&self, at: usize) -> Option<ScopeId> {
        self.around.as_slice().get(at).copied().flatten()
    }

    /// Says which scope a node opens.
    pub(crate) fn open(&mut self, at: usize, scope: ScopeId) {
        if let Some(opened) = self.opened.get_mut(at) {
            *opened = Some(scope);
        }
    }

    /// Puts a node in the scope that its parent opens, or else is in. The parent was put before.
    pub(crate) fn settle(&mut self, at: usize) {
        let Some(parent) = self.parent(at) else {
            return;
        };
        let scope = self.opened(parent).or(self.around(parent));
        if let Some(around) = self.around.get_mut(at) {
            *around = scope;
        }
    }
}
