//! Packages, by the lines that name them.
use crate::found::{Found, SET};
use crate::layout::Layout;
use std::alloc::AllocError;
use wit_names::{
    Declaration, File, Kind, NameId, PackageName, Place, Reference, ScopeId, ScopeKind, Site,
    Wanted, spelling,
};
use wit_tokens::{PieceKind, TokenKind};
use wit_tree::{Node, NodeKind};

/// The site of a name node, if it is one.
pub(crate) fn site_at(file: &File<'_>, number: usize, node: usize) -> Option<Site> {
    let word = file.node(node)?.from;
    Some(Site {
        file: number,
        word,
        node,
    })
}

/// The version at a word, without its `@`, if it is one and is before another word.
fn version_at<'a>(file: &File<'a>, at: usize, end: usize) -> Option<&'a str> {
    let word = file.word(at)?;
    if at >= end || word.kind != PieceKind::Token(TokenKind::Version) {
        return None;
    }
    file.text
        .get((word.start as usize).saturating_add(1)..word.end as usize)
}

/// The id of the name at a node.
pub(crate) fn name_id<'a>(
    found: &mut Found<'a>,
    files: &[File<'a>],
    site: Site,
) -> Result<NameId, AllocError> {
    found.name(spelling(files, site).unwrap_or(""))
}

/// A package's name, where it is written.
#[derive(Clone, Copy)]
struct Head {
    name: PackageName,
    site: Site,
}

/// The node of the name of the package that this node is of, if it can be read.
fn head_node(file: &File<'_>, first: usize) -> Option<Node> {
    let node = file.node(first.saturating_add(2))?;
    if node.kind == NodeKind::PackageName && node.inside == 2 {
        Some(node)
    } else {
        None
    }
}

/// The name of a package whose second word is at a node: its first word is before it, and its version may be at a word.
pub(crate) fn package_name<'a>(
    found: &mut Found<'a>,
    files: &[File<'a>],
    file: &File<'a>,
    site: Site,
    version: Option<&'a str>,
) -> Result<PackageName, AllocError> {
    let node = site.node.saturating_sub(1);
    let before = site_at(file, site.file, node).unwrap_or(site);
    let namespace = name_id(found, files, before)?;
    let name = name_id(found, files, site)?;
    let version = match version {
        Some(version) => Some(found.name(version)?),
        None => None,
    };
    Ok(PackageName {
        namespace,
        name,
        version,
    })
}

/// The version after a name, if there is one before the word that is the end.
pub(crate) fn version_after<'a>(file: &File<'a>, node: usize, end: usize) -> Option<&'a str> {
    version_at(file, file.node(node)?.to, end)
}

/// The name of the package that this node is of, if it can be read.
fn package_head<'a>(
    found: &mut Found<'a>,
    files: &[File<'a>],
    number: usize,
    at: usize,
) -> Result<Option<Head>, AllocError> {
    let Some(file) = files.get(number) else {
        return Ok(None);
    };
    let first = at.saturating_sub(file.inside(at));
    let Some(head) = head_node(file, first) else {
        return Ok(None);
    };
    let Some(site) = site_at(file, number, first.saturating_add(1)) else {
        return Ok(None);
    };
    let version = version_after(file, site.node, head.to);
    let name = package_name(found, files, file, site, version)?;
    Ok(Some(Head { name, site }))
}

/// The scope of a package that a line names. The first line is its declaration, and each other one a use of it.
fn named_package(found: &mut Found<'_>, head: Head, node: usize) -> Result<ScopeId, AllocError> {
    if let Some(id) = found.packages.get(&head.name).copied() {
        found.refer(Reference {
            name: head.name.name,
            wanted: Wanted::Package,
            site: head.site,
            scope: SET,
            place: Place::Set(head.name),
        })?;
        let known = found.declarations.as_slice().get(id.0).copied();
        return Ok(
            known
                .and_then(|known: Declaration| known.body)
                .unwrap_or(SET),
        );
    }
    let body = found.open(ScopeKind::Package, SET)?;
    let id = found.declare(Declaration {
        name: head.name.name,
        kind: Kind::Package,
        site: head.site,
        node,
        scope: SET,
        body: Some(body),
        from: None,
    })?;
    found.packages.insert(head.name, id)?;
    Ok(body)
}

/// The scope of the package that a node names. If its name can't be read, no other file is of it.
pub(crate) fn package_at<'a>(
    found: &mut Found<'a>,
    files: &[File<'a>],
    number: usize,
    at: usize,
) -> Result<ScopeId, AllocError> {
    match package_head(found, files, number, at)? {
        Some(head) => named_package(found, head, at),
        None => found.open(ScopeKind::Package, SET),
    }
}

/// The node that names a file's own package, if there is one.
pub(crate) fn own_package(file: &File<'_>) -> Option<usize> {
    for (at, node) in file.nodes().iter().enumerate() {
        if node.kind == NodeKind::Package {
            return Some(at);
        }
    }
    None
}

/// Opens the packages that are in a file.
pub(crate) fn open_nested<'a>(
    found: &mut Found<'a>,
    files: &[File<'a>],
    layout: &mut Layout,
) -> Result<(), AllocError> {
    let Some(file) = files.get(layout.file) else {
        return Ok(());
    };
    for (at, node) in file.nodes().iter().enumerate() {
        if node.kind == NodeKind::NestedPackage {
            let package = package_at(found, files, layout.file, at)?;
            let scope = found.open(ScopeKind::File, package)?;
            layout.open(at, scope);
        }
    }
    Ok(())
}
