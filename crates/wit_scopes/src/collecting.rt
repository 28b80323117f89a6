//! What the nodes of one file declare and use, from the first to the last.
use crate::found::{Found, SET};
use crate::heads::{name_id, package_name, site_at, version_after};
use crate::layout::Layout;
use crate::node_kinds::{declared_in, wanted_in};
use crate::walk::{Named, Used, Walk};
use std::alloc::AllocError;
use wit_names::{
    Declaration, File, Include, Kind, Place, Reference, ReferenceId, ScopeId, ScopeKind, TypeKind,
    Wanted,
};
use wit_tree::{Node, NodeKind};

/// The last use so far, if it is of the name at a node.
fn last_use(found: &Found<'_>, walk: &Walk<'_, '_>, node: usize) -> Option<ReferenceId> {
    let last = found.references.last()?;
    if last.site.file == walk.number() && last.site.node == node {
        Some(ReferenceId(found.references.len().saturating_sub(1)))
    } else {
        None
    }
}

/// The scope that a name is declared in: of an interface or a world of a file it is the package's.
fn declared_scope(found: &Found<'_>, kind: Kind, scope: ScopeId) -> ScopeId {
    let is_in_file = match found.scope(scope) {
        Some(around) => around.kind == ScopeKind::File,
        None => false,
    };
    if is_in_file && matches!(kind, Kind::Interface | Kind::World) {
        found.parent(scope)
    } else {
        scope
    }
}

/// Adds a declaration.
fn declare<'a>(found: &mut Found<'a>, walk: &Walk<'_, 'a>, named: Named) -> Result<(), AllocError> {
    let Some(site) = site_at(walk.file, walk.number(), named.node) else {
        return Ok(());
    };
    let name = name_id(found, walk.files, site)?;
    let scope = declared_scope(found, named.kind, walk.scope(named.item));
    found.declare(Declaration {
        name,
        kind: named.kind,
        site,
        node: named.item,
        scope,
        body: walk.layout.opened(named.item),
        from: named.from,
    })?;
    Ok(())
}

/// Adds a use.
fn refer<'a>(
    found: &mut Found<'a>,
    walk: &Walk<'_, 'a>,
    used: Used,
) -> Result<Option<ReferenceId>, AllocError> {
    let Some(site) = site_at(walk.file, walk.number(), used.node) else {
        return Ok(None);
    };
    let name = name_id(found, walk.files, site)?;
    let id = found.refer(Reference {
        name,
        wanted: used.wanted,
        site,
        scope: walk.scope(used.node),
        place: used.place,
    })?;
    Ok(Some(id))
}

/// A name where it is declared. That of an alias waits for its type, which is after it.
fn name<'a>(found: &mut Found<'a>, walk: &Walk<'_, 'a>, at: usize) -> Result<(), AllocError> {
    let Some((item, item_kind)) = walk.parent(at) else {
        return Ok(());
    };
    let Some(kind) = declared_in(item_kind) else {
        return Ok(());
    };
    let from = match kind {
        Kind::Type(TypeKind::Alias) => return Ok(()),
        Kind::UsedType | Kind::Included => last_use(found, walk, at.saturating_sub(1)),
        Kind::UsedItem => walk.path,
        _ => None,
    };
    declare(
        found,
        walk,
        Named {
            kind,
            node: at,
            item,
            from,
        },
    )
}

/// Another name of a type. It is another name of a name if its type is one.
fn alias<'a>(found: &mut Found<'a>, walk: &Walk<'_, 'a>, at: usize) -> Result<(), AllocError> {
    let node = at.saturating_sub(walk.file.inside(at));
    if walk.file.kind(node) != Some(NodeKind::Name) {
        return Ok(());
    }
    let ty = at.saturating_sub(1);
    let is_name = walk.file.kind(ty) == Some(NodeKind::Type) && walk.file.inside(ty) == 1;
    let from = if is_name {
        last_use(found, walk, ty.saturating_sub(1))
    } else {
        None
    };
    declare(
        found,
        walk,
        Named {
            kind: Kind::Type(TypeKind::Alias),
            node,
            item: at,
            from,
        },
    )
}

/// A name in the braces of a `use`. It is declared under its own name if no other one is after it.
fn used_name<'a>(
    found: &mut Found<'a>,
    walk: &Walk<'_, 'a>,
    at: usize,
    item: usize,
) -> Result<(), AllocError> {
    let used = Used {
        wanted: Wanted::Type,
        node: at,
        place: walk.of_path(),
    };
    let from = refer(found, walk, used)?;
    if walk.file.inside(item) > 1 {
        return Ok(());
    }
    declare(
        found,
        walk,
        Named {
            kind: Kind::UsedType,
            node: at,
            item,
            from,
        },
    )
}

/// A name where it is used, outside of paths.
fn name_use<'a>(found: &mut Found<'a>, walk: &Walk<'_, 'a>, at: usize) -> Result<(), AllocError> {
    let Some((item, kind)) = walk.parent(at) else {
        return Ok(());
    };
    let (wanted, place) = match kind {
        NodeKind::Type => (Wanted::Type, Place::Around),
        NodeKind::TypeOf => (Wanted::Resource, Place::Around),
        NodeKind::Renaming => (Wanted::WorldItem, walk.of_path()),
        NodeKind::UsedName => return used_name(found, walk, at, item),
        _ => return Ok(()),
    };
    refer(
        found,
        walk,
        Used {
            wanted,
            node: at,
            place,
        },
    )?;
    Ok(())
}

/// The use of a package in a path of three names, the last of which is before this node.
fn package_use<'a>(
    found: &mut Found<'a>,
    walk: &Walk<'_, 'a>,
    at: usize,
    end: usize,
) -> Result<Place, AllocError> {
    let Some(site) = site_at(walk.file, walk.number(), at.saturating_sub(2)) else {
        return Ok(Place::Unreadable);
    };
    let version = version_after(walk.file, at.saturating_sub(1), end);
    let name = package_name(found, walk.files, walk.file, site, version)?;
    let used = Used {
        wanted: Wanted::Package,
        node: site.node,
        place: Place::Set(name),
    };
    match refer(found, walk, used)? {
        Some(package) => Ok(Place::Of(package)),
        None => Ok(Place::Unreadable),
    }
}

/// A path: the use of an interface or a world, and of its package if it names one.
fn path<'a>(
    found: &mut Found<'a>,
    walk: &Walk<'_, 'a>,
    at: usize,
    node: Node,
) -> Result<Option<ReferenceId>, AllocError> {
    let Some((_, kind)) = walk.parent(at) else {
        return Ok(None);
    };
    let Some(wanted) = wanted_in(kind) else {
        return Ok(None);
    };
    let place = match node.inside {
        1 => Place::Around,
        3 => package_use(found, walk, at, node.to)?,
        _ => return Ok(None),
    };
    refer(
        found,
        walk,
        Used {
            wanted,
            node: at.saturating_sub(1),
            place,
        },
    )
}

/// A `use` of a file, after what is in it: if it gives no name of its own, it declares the last name of its path.
fn top_use<'a>(found: &mut Found<'a>, walk: &Walk<'_, 'a>, at: usize) -> Result<(), AllocError> {
    let is_named = match found.declarations.last() {
        Some(last) => last.site.file == walk.number() && last.node == at,
        None => false,
    };
    let Some(from) = walk.path else {
        return Ok(());
    };
    let Some(last) = found.references.as_slice().get(from.0).copied() else {
        return Ok(());
    };
    if is_named {
        return Ok(());
    }
    declare(
        found,
        walk,
        Named {
            kind: Kind::UsedItem,
            node: last.site.node,
            item: at,
            from: Some(from),
        },
    )
}

/// A renaming of an `include`, after its names: the next include has the first one under another name.
fn renaming(found: &mut Found<'_>, walk: &Walk<'_, '_>, at: usize) -> Result<(), AllocError> {
    let first = at.saturating_sub(walk.file.inside(at));
    let Some(last) = last_use(found, walk, first) else {
        return Ok(());
    };
    if let Some(old) = found.references.as_slice().get(last.0).copied() {
        found.renamed.insert((found.includes.len(), old.name))?;
    }
    Ok(())
}

/// The names in what can't be read: they may be declared there.
fn skipped<'a>(
    found: &mut Found<'a>,
    walk: &Walk<'_, 'a>,
    at: usize,
    node: Node,
) -> Result<(), AllocError> {
    if let Some((_, NodeKind::Skipped)) = walk.parent(at) {
        return Ok(());
    }
    let scope = found.types(walk.scope(at));
    for word in node.from..node.to.min(walk.file.tree.words.len()) {
        if let Some(name) = walk.file.name(word) {
            let name = found.name(name)?;
            found.unread.insert((scope, name))?;
        }
    }
    Ok(())
}

/// What a node declares or uses, after the nodes in it.
fn visit<'a>(
    found: &mut Found<'a>,
    walk: &mut Walk<'_, 'a>,
    at: usize,
    node: Node,
) -> Result<(), AllocError> {
    match node.kind {
        NodeKind::Name => name(found, walk, at)?,
        NodeKind::NameUse => name_use(found, walk, at)?,
        NodeKind::Path => walk.path = path(found, walk, at, node)?,
        NodeKind::Alias => alias(found, walk, at)?,
        NodeKind::TopUse => top_use(found, walk, at)?,
        NodeKind::Renaming => renaming(found, walk, at)?,
        NodeKind::Skipped => skipped(found, walk, at, node)?,
        NodeKind::Include => found.includes.push(Include {
            scope: walk.scope(at),
            world: walk.path,
        })?,
        _ => {}
    }
    if wanted_in(node.kind).is_some() {
        walk.path = None;
    }
    Ok(())
}

/// Adds what a file declares and uses.
pub(crate) fn collect<'a>(
    found: &mut Found<'a>,
    files: &[File<'a>],
    layout: &Layout,
) -> Result<(), AllocError> {
    let Some(file) = files.get(layout.file) else {
        return Ok(());
    };
    let mut walk = Walk {
        files,
        file,
        layout,
        path: None,
    };
    for (at, node) in file.nodes().iter().enumerate() {
        visit(found, &mut walk, at, *node)?;
    }
    Ok(())
}
