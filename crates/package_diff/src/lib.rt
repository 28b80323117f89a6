//! What changed between two versions of a package, and which functions a host that was built for the old one can call.
//!
//! `changes_of` compares the last package of two tables: their interfaces and worlds by name without the version, and
//! in these types and functions by name. A host calls a function of the new package as it called that of the old one if
//! both have the same closed types, which `Shapes` tells apart. Stands on `layout` (core signatures), `layout_picture`
//! (how they are spelled) and `tables`.
#![tactic(auto)]

mod calling;
mod changes;
mod items;
mod shapes;
mod words;

pub use calling::Side;
pub use changes::{Changes, changes_of};
