//! Types in C: their forms, names and parts, how their core values are made, and how core values are read.
//!
//! `Types` has what each row of a table is in C. Sizes, alignments, offsets and core values are those of `Laid`, whose
//! contracts speak of `canonical_abi`. It writes no definitions. Names in C are those of its module `c_names`. It
//! stands on `layout` and `tables`.
#![tactic(auto)]

pub mod c_names;
mod flats;
mod inner;
mod laid;
mod reading;
mod types;

pub use inner::{Inner, first_inner, inner_of, made_of};
pub use laid::{Laid, Passing, parameters_of, tag_bits};
pub use types::{Form, Part, Row, Types, has_held};
