//! A package as one JSON document: what a binding has to know of it.
//!
//! `document` tells the interfaces and the worlds of all packages, and each row of the table: a type with its members,
//! sizes, alignments, offsets and flat kinds, or a function with its parameters, its result and its core signatures.
//! `docs/package.schema.json` is the schema of it. Stands on `layout` (sizes, alignments, signatures), `tables`
//! (packages) and `text_builder`.
#![tactic(auto)]

mod functions;
mod members;
mod owners;
mod rows;
mod types;
mod words;

pub use rows::document;
