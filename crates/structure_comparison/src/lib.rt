//! Whether what was read of a component is a world or a package of a table.
//!
//! `Comparison` has a table and a structure of component types. `specs/` says what it is for the structure to be a
//! world or a package of the table: `Types` of types and functions, `Interfaces` of an interface, `Worlds` and
//! `Packages` of what holds them. It stands on `component_structure` for the structure, and on `component_encoding` for
//! the order in which the interfaces of a world come.
#![tactic(auto)]

mod interfaces;
mod listed;
mod lookup;
mod names;
mod packages;
mod pairing;
mod site;
mod types;
mod worlds;
mod written;

pub use interfaces::Comparison;
