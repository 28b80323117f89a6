//! Sets of packages that use each other, made package by package.
//!
//! A `PackageSet` begins with none, and `add_raw` puts the package of a component behind those that are there, whose
//! interfaces it may import, as `add_ast` does with that of a syntax tree. Where it is refused, the set stays as it
//! was. `AddsComponent` and `AddsTree` in `specs/Added.antt` say what is added. `table`, `to_raw` and `print` write any
//! package of a set, also of one that is only a table. It stands on `package_sets` (sets as tables), `wit_component`
//! (components), `tree_rows` (trees) and `tables`.
#![tactic(auto)]

mod full_names;
mod imported;
mod marking;
mod named;
mod set;
mod single;
mod tree;
mod written;

pub use set::PackageSet;
pub use single::{from_ast, from_raw};
pub use written::{print, table, to_raw};
