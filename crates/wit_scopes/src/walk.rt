//! A walk over the nodes of a file, from the first to the last.
use crate::found::SET;
use crate::layout::Layout;
use wit_names::{File, Kind, Place, ReferenceId, ScopeId, Wanted};
use wit_tree::NodeKind;

/// A walk over the nodes of a file.
#[derive(Clone, Copy)]
pub(crate) struct Walk<'w, 'a> {
    pub files: &'w [File<'a>],
    pub file: &'w File<'a>,
    pub layout: &'w Layout,
    /// The last use of a path that is in the item at hand.
    pub path: Option<ReferenceId>,
}

/// A name that is declared: what as, its node, and its item's.
#[derive(Clone, Copy)]
pub(crate) struct Named {
    pub kind: Kind,
    pub node: usize,
    pub item: usize,
    pub from: Option<ReferenceId>,
}

/// A name that is used: what as, its node, and where it is looked for.
#[derive(Clone, Copy)]
pub(crate) struct Used {
    pub wanted: Wanted,
    pub node: usize,
    pub place: Place,
}

impl<'w, 'a> Walk<'w, 'a> {
    /// The kind of the node that a node is in, with its index.
    pub(crate) fn parent(&self, at: usize) -> Option<(usize, NodeKind)> {
        let parent = self.layout.parent(at)?;
        Some((parent, self.file.kind(parent)?))
    }

    /// The scope that a node is in.
    pub(crate) fn scope(&self, at: usize) -> ScopeId {
        self.layout.around(at).unwrap_or(SET)
    }

    /// The file's index in its set.
    pub(crate) fn number(&self) -> usize {
        self.layout.file
    }

    /// What the last path of the item leads to.
    pub(crate) fn of_path(&self) -> Place {
        match self.path {
            Some(path) => Place::Of(path),
            None => Place::Unreadable,
        }
    }
}
