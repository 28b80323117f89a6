//! Sizes, alignments, flat kinds and core signatures of the types and functions of a package.
//!
//! `Layouts::of` makes one row for each definition of a package's table, each from the rows before it, and
//! refuses the first definition that is too deep or too large. All questions to a made `Layouts` are answered
//! from its rows, without memory of the host. Its numbers are those that `canonical_abi` defines over closed
//! types. It stands on `canonical_abi` and `tables`.
#![tactic(auto)]

mod error;
mod kind_list;
mod kinds;
pub mod laws;
mod layouts;
mod packed_kinds;
mod parts;
mod queries;
mod rows;
mod signature;
mod work;

pub use canonical_abi::CoreKind;
pub use error::LayoutError;
pub use kind_list::KindList;
pub use kinds::{Kinds, MAX_FLAT};
pub use layouts::Layouts;
pub use queries::{CaseInfo, FieldInfo, Shape};
pub use rows::{MAX_DEPTH, MAX_SIZE};
pub use signature::{CoreSignature, are_kinds};
