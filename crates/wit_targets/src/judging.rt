//! Whether what is declared under a name can be used as what is needed.
use crate::chains::End;
use crate::finding::{Found, Links, chains, is_brought};
use crate::target::Target;
use std::alloc::{AllocError, Global};
use wit_names::{DeclarationId, Kind, Reference, TypeKind, Wanted};
use wit_scopes::Scopes;

/// Where the chains of declarations end, by each kind of links.
#[derive(Drop)]
pub(crate) struct Ends {
    bare: Vec<End>,
    brought: Vec<End>,
    all: Vec<End>,
}

impl Ends {
    pub(crate) fn of(
        alloc: Global,
        scopes: &Scopes<'_>,
        found: &[Found],
    ) -> Result<Ends, AllocError> {
        Ok(Ends {
            bare: chains(alloc, scopes, found, Links::Bare)?,
            brought: chains(alloc, scopes, found, Links::Brought)?,
            all: chains(alloc, scopes, found, Links::All)?,
        })
    }
}

/// Whether what is of this kind is what is needed. `None` if it can't be told, since what it is another name of is not
/// known.
fn fits(wanted: Wanted, kind: Kind) -> Option<bool> {
    if is_brought(kind) {
        return None;
    }
    Some(match wanted {
        Wanted::Package => kind == Kind::Package,
        Wanted::Interface => kind == Kind::Interface,
        Wanted::World => kind == Kind::World,
        Wanted::InterfaceOrWorld => matches!(kind, Kind::Interface | Kind::World),
        Wanted::Type | Wanted::Resource => matches!(kind, Kind::Type(_)),
        Wanted::WorldItem => matches!(kind, Kind::Import | Kind::Export | Kind::Type(_)),
    })
}

/// The kind of the declaration at the end of a chain.
fn kind_at(scopes: &Scopes<'_>, end: Option<&End>) -> Option<Kind> {
    match end {
        Some(End::At(at)) => Some(scopes.declarations().get(*at)?.kind),
        _ => None,
    }
}

/// Whether a type at the end of all other names is a resource. It is not told of other names of what is no type.
fn is_resource(scopes: &Scopes<'_>, end: Option<&End>) -> bool {
    let Some(End::At(at)) = end else {
        return true;
    };
    match scopes.declarations().get(*at) {
        Some(one) => match one.kind {
            Kind::Type(TypeKind::Alias) => one.from.is_some(),
            Kind::Type(kind) => kind == TypeKind::Resource,
            _ => true,
        },
        None => true,
    }
}

/// Whether it is told elsewhere that what is of this kind can't be used: where it is brought in.
fn is_told(scopes: &Scopes<'_>, id: DeclarationId, kind: Kind) -> bool {
    let Some(one) = scopes.declarations().get(id.0) else {
        return false;
    };
    let Some(from) = one.from else {
        return false;
    };
    match scopes.references().get(from.0) {
        Some(used) => is_brought(one.kind) && fits(used.wanted, kind) == Some(false),
        None => false,
    }
}

/// What a use means, by what is declared under its name.
pub(crate) fn target_of(
    scopes: &Scopes<'_>,
    ends: &Ends,
    reference: &Reference,
    found: Found,
) -> Target {
    let id = match found {
        Found::Declaration(id) => id,
        Found::Unknown => return Target::Unknown,
        Found::NoPackage => return Target::NoPackage,
        Found::Unreadable => return Target::Unreadable,
    };
    let Some(End::At(root)) = ends.bare.get(id.0).copied() else {
        return Target::Ring;
    };
    let target = DeclarationId(root);
    let Some(kind) = kind_at(scopes, ends.brought.get(id.0)) else {
        return Target::Ring;
    };
    let is_right = match fits(reference.wanted, kind) {
        Some(true) => {
            reference.wanted != Wanted::Resource || is_resource(scopes, ends.all.get(id.0))
        }
        Some(false) => is_told(scopes, id, kind),
        None => true,
    };
    if is_right {
        Target::Declaration(target)
    } else {
        Target::WrongKind(target)
    }
}
