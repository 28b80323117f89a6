//! The scopes of a set's files.
use crate::found::{Found, SET};
use crate::heads::{open_nested, own_package, package_at};
use crate::layout::Layout;
use crate::node_kinds::opened_by;
use atoms::KeyedState;
use indexmap::IndexMap;
use std::alloc::{AllocError, Global};
use wit_names::{File, ScopeId, ScopeKind};
use wit_tree::{Node, NodeKind};

/// The package that each file is of.
#[derive(Drop)]
pub(crate) struct Packages {
    /// Of each file that names its package.
    named: Vec<Option<ScopeId>>,
    /// The first of each folder.
    folders: IndexMap<usize, ScopeId, KeyedState>,
}

impl Packages {
    /// The packages that the files name.
    pub(crate) fn of<'a>(
        alloc: Global,
        keyed: KeyedState,
        found: &mut Found<'a>,
        files: &[File<'a>],
    ) -> Result<Packages, AllocError> {
        let mut packages = Packages {
            named: Vec::new(alloc),
            folders: IndexMap::with_hasher(alloc, keyed),
        };
        for (number, file) in files.iter().enumerate() {
            let named = match own_package(file) {
                Some(at) => Some(package_at(found, files, number, at)?),
                None => None,
            };
            packages.named.push(named)?;
            if let Some(scope) = named {
                packages.put(file.folder, scope)?;
            }
        }
        Ok(packages)
    }

    /// Says which package a folder is of, if that isn't known.
    fn put(&mut self, folder: usize, scope: ScopeId) -> Result<(), AllocError> {
        if !self.folders.contains_key(&folder) {
            self.folders.insert(folder, scope)?;
        }
        Ok(())
    }

    /// The package of a file: the one that it names, or that its folder is of, or one of no name.
    fn package(
        &mut self,
        found: &mut Found<'_>,
        number: usize,
        folder: usize,
    ) -> Result<ScopeId, AllocError> {
        if let Some(scope) = self.named.as_slice().get(number).copied().flatten() {
            return Ok(scope);
        }
        if let Some(scope) = self.folders.get(&folder).copied() {
            return Ok(scope);
        }
        let scope = found.open(ScopeKind::Package, SET)?;
        self.folders.insert(folder, scope)?;
        Ok(scope)
    }

    /// Opens the scopes of a file.
    pub(crate) fn open_scopes<'a>(
        &mut self,
        found: &mut Found<'a>,
        files: &[File<'a>],
        layout: &mut Layout,
    ) -> Result<(), AllocError> {
        let Some(file) = files.get(layout.file) else {
            return Ok(());
        };
        let package = self.package(found, layout.file, file.folder)?;
        open_nested(found, files, layout)?;
        for (at, node) in file.nodes().iter().enumerate().rev() {
            open_scope(found, layout, at, *node, package)?;
        }
        Ok(())
    }
}

/// Opens the scope of a node, if it opens one that isn't open.
fn open_scope(
    found: &mut Found<'_>,
    layout: &mut Layout,
    at: usize,
    node: Node,
    package: ScopeId,
) -> Result<(), AllocError> {
    layout.settle(at);
    let Some(kind) = opened_by(node.kind) else {
        return Ok(());
    };
    let parent = if node.kind == NodeKind::File {
        package
    } else {
        layout.around(at).unwrap_or(package)
    };
    if layout.opened(at).is_none() {
        let scope = found.open(kind, parent)?;
        layout.open(at, scope);
    }
    Ok(())
}
