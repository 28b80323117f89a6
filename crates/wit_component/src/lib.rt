//! A package as a component type binary: its tables to a raw component, and back.
//!
//! Each interface of a closed table is an instance type in one component type, imported where it is of another package,
//! and each world is a component type in it. `component_encoding` has the layout of other tools. `to_raw` writes a
//! closed table, `to_written` with its bytes, as `component_with_bytes` does of one in form, and
//! `closed_from_component` answers the one that a component stands for. It stands on `package_form`,
//! `component_reader`, `tables`, `ctype_bin` and `atoms`.
#![tactic(auto)]

mod comparison;
mod component;
mod empty;
mod from_component;
mod interfaces;
pub mod laws;
mod names;
mod rows;
mod same_declarations;
mod to_component;
mod valtypes;
mod worlds;

pub use from_component::closed_from_component;
pub use to_component::{component_with_bytes, to_raw, to_written};
