//! Rows of sets of inputs: packages that are opened behind those that they use, and inputs that are cut or changed in
//! one byte. docs/FORMATS.md has the language of rows.

pub mod changes;
mod opened;

pub use opened::{Wanted, indexed_behind, opened_behind, push_parsed, push_told};
