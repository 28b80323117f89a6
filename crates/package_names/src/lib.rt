//! The names of a package's table, told apart and found.
//!
//! `distinct_names` compares the names of each scope, in a `Scope` or on the two `Sides` of a world, and an
//! `IndexedTable` finds an interface by its package and its name. `AskedNames` and `AskedPlaces` find the interfaces
//! that were `Asked` for in one walk over a table. It stands on `package_form`, which says what the scopes are, on
//! `tables` and on `atoms`.
#![tactic(auto)]

mod asked;
mod distinct;
mod indexed;
mod keys;
mod scope;

pub use asked::{Asked, AskedNames, AskedPlaces};
pub use distinct::{Sides, distinct_names};
pub use indexed::{IndexedTable, PackageKey};
pub use scope::{FEW, Scope};
