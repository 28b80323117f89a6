//! Names in WIT files: where they are written, how they are spelled, and what they can be declared and used as.
//! `is_site` and `spelling` carry what is said of names elsewhere. Stands on `wit_tree` for trees.
#![tactic(auto)]

mod file;
mod kinds;
mod name;
mod places;

pub use file::{File, is_site, span_of, spelling};
pub use kinds::{Kind, ScopeKind, TypeKind, Wanted};
pub use name::{NameId, PackageName, Site};
pub use places::{
    Declaration, DeclarationId, Include, Place, Reference, ReferenceId, Scope, ScopeId,
};
