//! The form of a package's tables: what is made of a tree, and what a component type spells.
//!
//! `IsInPackageForm` in `specs/Form.antt` says what the tables of every package keep, `package_scopes` in
//! `specs/Naming.antt` which names must differ, and the laws what follows for all packages. It stands on `tables`
//! and `atoms`.
#![tactic(auto)]

mod closed;
mod ends;
mod entries;
mod form;
pub mod laws;
mod references;
mod unused;

pub use closed::{is_same_version, own_package, used_name};
pub use ends::{end_of, interfaces_end, world_end};
pub use entries::passes_entries;
pub use form::is_in_form;
pub use references::push_references;
pub use unused::is_postfix;
