//! The packages of a decoded binary, as texts.
//!
//! `packages_of` makes the text of each package: its interfaces with what the file has of them, and its worlds. Types
//! of other interfaces are `use`d, and types without names stand where they are used. An interface that stands in two
//! forms is refused, and so is a type that WIT cannot name. The texts are plain, and not canonical. It stands on
//! `component_decoding`, and on `wit_tokens` for keywords.

mod docs;
mod exports;
mod form;
mod packages;
mod writer;

pub use exports::packages_of;
pub use packages::PackageText;
