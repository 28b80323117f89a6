//! What is found in the files of a set, as it grows.
use atoms::KeyedState;
use indexmap::{IndexMap, IndexSet};
use std::alloc::{AllocError, Global};
use wit_names::{
    Declaration, DeclarationId, Include, Kind, NameId, PackageName, Reference, ReferenceId, Scope,
    ScopeId, ScopeKind,
};

/// The names of a set, as they are found.
#[derive(Drop)]
pub(crate) struct Found<'a> {
    pub names: IndexSet<&'a str, KeyedState>,
    pub declarations: Vec<Declaration>,
    pub references: Vec<Reference>,
    pub scopes: Vec<Scope>,
    pub includes: Vec<Include>,
    pub packages: IndexMap<PackageName, DeclarationId, KeyedState>,
    /// The first declaration of each name in a scope, but for exports.
    pub declared: IndexMap<(ScopeId, NameId), DeclarationId, KeyedState>,
    /// The same of the exports of worlds, which have names of their own.
    pub exported: IndexMap<(ScopeId, NameId), DeclarationId, KeyedState>,
    /// The names in what can't be read of a scope.
    pub unread: IndexSet<(ScopeId, NameId), KeyedState>,
    /// The names that an include, by its index, has under other ones.
    pub renamed: IndexSet<(usize, NameId), KeyedState>,
}

/// The scope of all files.
pub(crate) const SET: ScopeId = ScopeId(0);

impl<'a> Found<'a> {
    /// Nothing yet, but for the scope of all files.
    pub(crate) fn new(alloc: Global, keyed: KeyedState) -> Result<Found<'a>, AllocError> {
        let mut scopes = Vec::new(alloc);
        scopes.push(Scope {
            kind: ScopeKind::Set,
            owner: None,
            parent: None,
            types: SET,
            file: SET,
        })?;
        Ok(Found {
            names: IndexSet::with_hasher(alloc, keyed),
            declarations: Vec::new(alloc),
            references: Vec::new(alloc),
            scopes,
            includes: Vec::new(alloc),
            packages: IndexMap::with_hasher(alloc, keyed),
            declared: IndexMap::with_hasher(alloc, keyed),
            exported: IndexMap::with_hasher(alloc, keyed),
            unread: IndexSet::with_hasher(alloc, keyed),
            renamed: IndexSet::with_hasher(alloc, keyed),
        })
    }

    /// The id of a name.
    pub(crate) fn name(&mut self, name: &'a str) -> Result<NameId, AllocError> {
        let (index, _) = self.names.insert_full(name)?;
        Ok(NameId(index))
    }

    pub(crate) fn scope(&self, id: ScopeId) -> Option<Scope> {
        self.scopes.as_slice().get(id.0).copied()
    }

    /// The scope around a scope, or else the set.
    pub(crate) fn parent(&self, id: ScopeId) -> ScopeId {
        match self.scope(id) {
            Some(scope) => scope.parent.unwrap_or(SET),
            None => SET,
        }
    }

    /// The scope whose types can be named in a scope, or else the set.
    pub(crate) fn types(&self, id: ScopeId) -> ScopeId {
        match self.scope(id) {
            Some(scope) => scope.types,
            None => SET,
        }
    }

    /// The scope that the item of a declaration opens, or else the set.
    pub(crate) fn body(&self, id: DeclarationId) -> ScopeId {
        match self.declarations.as_slice().get(id.0) {
            Some(one) => one.body.unwrap_or(SET),
            None => SET,
        }
    }

    /// Opens a scope in another one.
    pub(crate) fn open(&mut self, kind: ScopeKind, parent: ScopeId) -> Result<ScopeId, AllocError> {
        let id = ScopeId(self.scopes.len());
        let (types, file) = match self.scope(parent) {
            Some(outer) => (outer.types, outer.file),
            None => (parent, parent),
        };
        self.scopes.push(Scope {
            kind,
            owner: None,
            parent: Some(parent),
            types: types_of(kind, id, parent, types),
            file: if kind == ScopeKind::File { id } else { file },
        })?;
        Ok(id)
    }

    /// Says which declaration a scope is of.
    fn own(&mut self, scope: ScopeId, owner: DeclarationId) {
        if let Some(scope) = self.scopes.get_mut(scope.0) {
            scope.owner = Some(owner);
        }
    }

    /// Adds a declaration. Of two of one name in one scope, the name is the first one's.
    pub(crate) fn declare(
        &mut self,
        declaration: Declaration,
    ) -> Result<DeclarationId, AllocError> {
        let id = DeclarationId(self.declarations.len());
        self.declarations.push(declaration)?;
        if let Some(body) = declaration.body {
            self.own(body, id);
        }
        let key = (declaration.scope, declaration.name);
        if declaration.kind == Kind::Export {
            put_first(&mut self.exported, key, id)?;
        } else {
            put_first(&mut self.declared, key, id)?;
        }
        Ok(id)
    }

    /// Adds a use.
    pub(crate) fn refer(&mut self, reference: Reference) -> Result<ReferenceId, AllocError> {
        let id = ReferenceId(self.references.len());
        self.references.push(reference)?;
        Ok(id)
    }
}

/// Puts a declaration under its name, if none is there.
fn put_first(
    names: &mut IndexMap<(ScopeId, NameId), DeclarationId, KeyedState>,
    key: (ScopeId, NameId),
    id: DeclarationId,
) -> Result<(), AllocError> {
    if !names.contains_key(&key) {
        names.insert(key, id)?;
    }
    Ok(())
}

/// The scope whose types can be named in a new one of this kind, by that of the scope around it.
fn types_of(kind: ScopeKind, id: ScopeId, parent: ScopeId, around: ScopeId) -> ScopeId {
    match kind {
        ScopeKind::Package | ScopeKind::Interface | ScopeKind::World | ScopeKind::InlineInterface =>
            id,
        ScopeKind::File => parent,
        _ => around,
    }
}
