//! Declarations, uses and scopes.
use crate::kinds::{Kind, ScopeKind, Wanted};
use crate::name::{NameId, PackageName, Site};

/// A declaration, by its index among those of its set.
#[derive(Clone, Copy, PartialEq, Eq)]
pub struct DeclarationId(pub usize);

/// A use of a name, by its index among those of its set.
#[derive(Clone, Copy)]
pub struct ReferenceId(pub usize);

/// A scope, by its index among those of its set.
#[derive(Clone, Copy, PartialEq, Eq, Hash)]
pub struct ScopeId(pub usize);

/// A name where it is declared.
///
/// A name in the braces of a `use` is a use and a declaration, at the same site if it has no name of its own.
#[derive(Clone, Copy)]
pub struct Declaration {
    pub name: NameId,
    pub kind: Kind,
    pub site: Site,
    /// The node of the item that it is the name of.
    pub node: usize,
    /// The scope that it is declared in.
    pub scope: ScopeId,
    /// The scope that its item opens, if it does.
    pub body: Option<ScopeId>,
    /// The use that it is another name of: of a name that a `use` or an `include` brings in, and of a type that is
    /// another name of a type with a name.
    pub from: Option<ReferenceId>,
}

/// Where a name is looked for.
#[derive(Clone, Copy)]
pub enum Place {
    /// In its scope, and in those around it.
    Around,
    /// In what another use means.
    Of(ReferenceId),
    /// Among all packages.
    Set(PackageName),
    /// In what can't be read.
    Unreadable,
}

/// A name where it is used, and where it is looked for.
#[derive(Clone, Copy)]
pub struct Reference {
    pub name: NameId,
    pub wanted: Wanted,
    pub site: Site,
    /// The scope that it is used in.
    pub scope: ScopeId,
    pub place: Place,
}

/// What names are declared in.
#[derive(Clone, Copy)]
pub struct Scope {
    pub kind: ScopeKind,
    /// The declaration whose item it is, if that has a name.
    pub owner: Option<DeclarationId>,
    /// The scope around it.
    pub parent: Option<ScopeId>,
    /// The scope whose types can be named in it: its own or one around it. Outside of interfaces and worlds, its package.
    pub types: ScopeId,
    /// The file, or the package in a file, that it is in.
    pub file: ScopeId,
}

/// A world that is included in another.
#[derive(Clone, Copy)]
pub struct Include {
    /// The scope of the world that has the `include`.
    pub scope: ScopeId,
    /// The world that is included, if its path can be read.
    pub world: Option<ReferenceId>,
}
