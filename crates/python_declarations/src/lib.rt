//! Declarations for Python of a package and of what it uses: the values that `bindings/python` takes and gives where it
//! is handed them, and its functions.
//!
//! `declarations_of` writes a module of Python of a table. Each interface and each world is a class that holds what it
//! has: records are data classes, enums and flags those of `enum`, and a variant is one of a class for each case. It
//! stands on `tables`, on `declared_names` for names, and on `atoms` for labels.
#![tactic(auto)]

mod declared;
mod docstrings;
mod functions;
mod names;
mod pages;
mod spellings;
mod types;
mod worlds;

pub use pages::declarations_of;
