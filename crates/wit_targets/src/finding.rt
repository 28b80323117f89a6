//! What is declared under the names that are used.
use crate::chains::{End, ends_of};
use crate::included::{Asked, Included};
use atoms::KeyedState;
use std::alloc::{AllocError, Global};
use wit_names::{
    Declaration, DeclarationId, Kind, NameId, Place, Reference, ReferenceId, ScopeId, ScopeKind,
    Wanted,
};
use wit_scopes::Scopes;

/// What is declared under a name that is used.
#[derive(Clone, Copy)]
pub(crate) enum Found {
    Declaration(DeclarationId),
    Unknown,
    NoPackage,
    Unreadable,
}

/// Which declarations lead on to what they are another name of.
#[derive(Clone, Copy, PartialEq, Eq)]
pub(crate) enum Links {
    /// Names in the braces of a `use`, and last names of paths, that are under their own name.
    Bare,
    /// All names that a `use` or an `include` brings in.
    Brought,
    /// Those, and other names of types.
    All,
}

/// Whether a declaration is a name that a `use` or an `include` brings in.
pub(crate) fn is_brought(kind: Kind) -> bool {
    matches!(kind, Kind::UsedType | Kind::UsedItem | Kind::Included)
}

/// The declaration under the name that another one is another name of, if it leads on to this.
fn link(scopes: &Scopes<'_>, found: &[Found], one: &Declaration, links: Links) -> Option<usize> {
    let from = one.from?;
    let used = scopes.references().get(from.0)?;
    let leads = match links {
        Links::Bare => used.site == one.site,
        Links::Brought => is_brought(one.kind),
        Links::All => true,
    };
    match found.get(from.0) {
        Some(Found::Declaration(id)) if leads => Some(id.0),
        _ => None,
    }
}

/// Where the chain of each declaration ends.
pub(crate) fn chains(
    alloc: Global,
    scopes: &Scopes<'_>,
    found: &[Found],
    links: Links,
) -> Result<Vec<End>, AllocError> {
    let mut all = Vec::with_capacity(alloc, scopes.declarations().len())?;
    for one in scopes.declarations() {
        all.push(link(scopes, found, one, links))?;
    }
    ends_of(alloc, all.as_slice())
}

/// What is declared in a scope under a name.
fn declared_in(scopes: &Scopes<'_>, scope: ScopeId, name: NameId) -> Found {
    match scopes.declared(scope, name) {
        Some(id) => Found::Declaration(id),
        None if scopes.is_unread(scope, name) => Found::Unreadable,
        None => Found::Unknown,
    }
}

/// The interface or world of this name that a `use` brings into a file, but for the `use` itself.
fn brought_in(scopes: &Scopes<'_>, file: ScopeId, reference: &Reference) -> Option<DeclarationId> {
    let id = scopes.declared(file, reference.name)?;
    let one = scopes.declarations().get(id.0)?;
    if one.site == reference.site {
        None
    } else {
        Some(id)
    }
}

/// An interface or a world of a file: of what the file's own `use` items bring in, or of its package.
fn item_of_file(scopes: &Scopes<'_>, reference: &Reference) -> Found {
    let Some(own) = scopes.scopes().get(reference.scope.0) else {
        return Found::Unreadable;
    };
    let file = own.file;
    if let Some(id) = brought_in(scopes, file, reference) {
        return Found::Declaration(id);
    }
    match package_of(scopes, file) {
        Some(package) => declared_in(scopes, package, reference.name),
        None => Found::Unreadable,
    }
}

/// The scope of the package that a file is of.
fn package_of(scopes: &Scopes<'_>, file: ScopeId) -> Option<ScopeId> {
    scopes.scopes().get(file.0)?.parent
}

/// The scope that the item of a declaration opens.
fn body_of(scopes: &Scopes<'_>, id: usize) -> Option<ScopeId> {
    scopes.declarations().get(id)?.body
}

/// An interface or a world in what another use means.
fn item_of_package(
    scopes: &Scopes<'_>,
    found: &[Found],
    package: ReferenceId,
    name: NameId,
) -> Found {
    let body = match found.get(package.0) {
        Some(Found::Declaration(id)) => body_of(scopes, id.0),
        _ => None,
    };
    match body {
        Some(scope) => declared_in(scopes, scope, name),
        None => Found::Unreadable,
    }
}

/// What is declared under the name of a package, an interface or a world. What is used in others comes later.
fn item(scopes: &Scopes<'_>, found: &[Found], reference: &Reference) -> Found {
    if matches!(
        reference.wanted,
        Wanted::Type | Wanted::Resource | Wanted::WorldItem
    ) {
        return Found::Unreadable;
    }
    match reference.place {
        Place::Around => item_of_file(scopes, reference),
        Place::Of(package) => item_of_package(scopes, found, package, reference.name),
        Place::Set(name) => match scopes.packages().get(&name) {
            Some(id) => Found::Declaration(*id),
            None => Found::NoPackage,
        },
        Place::Unreadable => Found::Unreadable,
    }
}

/// What is declared under the names of packages, interfaces and worlds.
fn items_of(alloc: Global, scopes: &Scopes<'_>) -> Result<Vec<Found>, AllocError> {
    let mut found = Vec::with_capacity(alloc, scopes.references().len())?;
    for reference in scopes.references() {
        let next = item(scopes, found.as_slice(), reference);
        found.push(next)?;
    }
    Ok(found)
}

/// The scope of the interface or the world that a use means in the end.
fn scope_of(
    scopes: &Scopes<'_>,
    found: &[Found],
    ends: &[End],
    used: ReferenceId,
    kind: Kind,
) -> Option<ScopeId> {
    let Some(Found::Declaration(id)) = found.get(used.0) else {
        return None;
    };
    let Some(End::At(end)) = ends.get(id.0) else {
        return None;
    };
    let one = scopes.declarations().get(*end)?;
    if one.kind == kind { one.body } else { None }
}

/// The scope of each world that is included, where it is known.
fn worlds_of(
    alloc: Global,
    scopes: &Scopes<'_>,
    found: &[Found],
    ends: &[End],
) -> Result<Vec<Option<ScopeId>>, AllocError> {
    let mut worlds = Vec::with_capacity(alloc, scopes.includes().len())?;
    for include in scopes.includes() {
        let world = match include.world {
            Some(used) => scope_of(scopes, found, ends, used, Kind::World),
            None => None,
        };
        worlds.push(world)?;
    }
    Ok(worlds)
}

/// The scope that a name of a type, or of an item of a world, is looked for in.
fn searched(
    scopes: &Scopes<'_>,
    found: &[Found],
    ends: &[End],
    reference: &Reference,
) -> Option<ScopeId> {
    match (reference.wanted, reference.place) {
        (Wanted::Type | Wanted::Resource, Place::Around) => {
            Some(scopes.scopes().get(reference.scope.0)?.types)
        }
        (Wanted::Type, Place::Of(used)) => scope_of(scopes, found, ends, used, Kind::Interface),
        (Wanted::WorldItem, Place::Of(used)) => scope_of(scopes, found, ends, used, Kind::World),
        _ => None,
    }
}

/// Whether a scope is a world's.
fn is_world(scopes: &Scopes<'_>, scope: ScopeId) -> bool {
    match scopes.scopes().get(scope.0) {
        Some(own) => own.kind == ScopeKind::World,
        None => false,
    }
}

/// What is declared under each name that is used.
pub(crate) fn found_in(
    alloc: Global,
    keyed: KeyedState,
    scopes: &Scopes<'_>,
) -> Result<Vec<Found>, AllocError> {
    let mut found = items_of(alloc, scopes)?;
    let ends = chains(alloc, scopes, found.as_slice(), Links::Brought)?;
    let worlds = worlds_of(alloc, scopes, found.as_slice(), ends.as_slice())?;
    let mut included = Included::of(alloc, keyed, scopes, worlds.as_slice())?;
    for (at, reference) in scopes.references().iter().enumerate() {
        let place = searched(scopes, found.as_slice(), ends.as_slice(), reference);
        let Some(scope) = place else {
            continue;
        };
        let next = if is_world(scopes, scope) {
            let asked = Asked {
                scope,
                name: reference.name,
                has_exports: reference.wanted == Wanted::WorldItem,
            };
            included.find(alloc, scopes, asked)?
        } else {
            declared_in(scopes, scope, reference.name)
        };
        if let Some(known) = found.get_mut(at) {
            *known = next;
        }
    }
    Ok(found)
}
