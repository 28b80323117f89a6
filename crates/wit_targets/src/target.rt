//! What uses mean.
use wit_names::{DeclarationId, NameId, Place, ScopeId, Site, Wanted};

/// What a use means.
#[derive(Clone, Copy, PartialEq, Eq)]
pub enum Target {
    /// This declaration. It is never a name in the braces of a `use` that is under its own name, unless what this means
    /// is not known: a use of such a name means what is declared elsewhere.
    Declaration(DeclarationId),
    /// This declaration, which is nothing that can be used here. If a `use` brings it in, this is told of the `use` alone.
    WrongKind(DeclarationId),
    /// No declaration.
    Unknown,
    /// A package that is not in the set. `Scopes::packages` has those of other versions.
    NoPackage,
    /// It can't be told, since its declaration, or what the use is in, can't be read or is not known. Nothing is wrong
    /// with the use itself.
    Unreadable,
    /// It is declared by uses that lead to each other in a ring.
    Ring,
}

/// A name where it is used, and what it means.
#[derive(Clone, Copy)]
pub struct Use {
    pub name: NameId,
    pub wanted: Wanted,
    pub site: Site,
    /// The scope that it is used in.
    pub scope: ScopeId,
    /// Where it is looked for.
    pub place: Place,
    pub target: Target,
}
