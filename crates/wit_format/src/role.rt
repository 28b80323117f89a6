//! What words are for the layout.

use std::alloc::{AllocError, Global};
use wit_tree::{Node, NodeKind, Tree};

/// What a word is for the layout.
#[derive(Clone, Copy, PartialEq, Eq)]
pub enum Role {
    /// The first word of an item or of a gate.
    Item(NodeKind),
    /// The first word of an entry of a list, in braces or of a function.
    Entry,
    /// The `)` after the parameters or the results of a function.
    Close,
    /// A word of a path or of a package's name, behind the first.
    Path,
    Other,
}

/// Whether a node is a line or several by itself.
pub fn is_item(kind: NodeKind) -> bool {
    match kind {
        NodeKind::Package
        | NodeKind::NestedPackage
        | NodeKind::Interface
        | NodeKind::World
        | NodeKind::TopUse
        | NodeKind::Use
        | NodeKind::Import
        | NodeKind::Export
        | NodeKind::Include
        | NodeKind::Alias
        | NodeKind::Record
        | NodeKind::Variant
        | NodeKind::Enum
        | NodeKind::Flags
        | NodeKind::Resource
        | NodeKind::Function
        | NodeKind::Constructor
        | NodeKind::Gate => true,
        _ => false,
    }
}

/// Whether the braces of such an item have entries.
pub fn has_entries(kind: NodeKind) -> bool {
    matches!(
        kind,
        NodeKind::Record
            | NodeKind::Variant
            | NodeKind::Enum
            | NodeKind::Flags
            | NodeKind::Use
            | NodeKind::Include
    )
}

/// Gives a word a role.
fn set(roles: &mut Vec<Role>, at: usize, role: Role) {
    if let Some(place) = roles.get_mut(at) {
        *place = role;
    }
}

/// Gives the words of a path behind its first their role.
fn set_path(roles: &mut Vec<Role>, node: Node) {
    for at in node.from.saturating_add(1)..node.to {
        set(roles, at, Role::Path);
    }
}

/// Gives the words of a node their roles.
fn set_node(roles: &mut Vec<Role>, node: Node) {
    match node.kind {
        NodeKind::Field
        | NodeKind::Case
        | NodeKind::Label
        | NodeKind::UsedName
        | NodeKind::Renaming
        | NodeKind::Parameter => set(roles, node.from, Role::Entry),
        NodeKind::Parameters | NodeKind::NamedResults => {
            set(roles, node.to.saturating_sub(1), Role::Close);
        }
        NodeKind::Path | NodeKind::PackageName => set_path(roles, node),
        kind => {
            if is_item(kind) {
                set(roles, node.from, Role::Item(kind));
            }
        }
    }
}

/// The roles of the words of a tree.
pub fn roles_of(alloc: Global, tree: &Tree) -> Result<Vec<Role>, AllocError> {
    let mut roles = vec![in alloc; Role::Other; tree.words.len()]?;
    for node in tree.nodes.as_slice() {
        set_node(&mut roles, *node);
    }
    Ok(roles)
}
