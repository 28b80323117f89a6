//! The text of a package: the syntax tree of its tables, and the canonical text of that tree.
//!
//! `print` appends what `specs/Text.antt` defines by `specs/Tree.antt`: an entry for each name of an own interface, in
//! the order of the table, and for each item of a world. Interfaces of other packages, the imports of a closed table,
//! are named by their paths alone. `laws` says that the tree and its text stand for the package, behind its imports.
//! Stands on `tables` and `package_form` (packages), `tree_meaning` (what trees stand for), `wit_tokens` (trees) and
//! `wit_print` (their text).
#![tactic(auto)]

mod definition;
mod entry;
mod expression;
mod file;
mod labels;
pub mod laws;
mod world;

pub use file::print;
pub use labels::names_are_labels;
