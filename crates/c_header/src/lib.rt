//! Headers for C: the types of packages as they lie in a linear memory, and for each function the C functions of its
//! caller, which make the core values of a call and read its result, and those of its callee, which read the parameters
//! and give the result.
//!
//! `header_of` writes the header of a table of packages for a host, and `guest_header_of` that of a world for a guest:
//! it has a function of values for each import, and calls one that the guest defines for each export. Headers assert
//! sizes, alignments and offsets, so that a compiler with other layouts refuses them. It stands on `c_declarations`,
//! which writes the types, on `c_types`, which has the numbers and the names, and on `tables`.
#![tactic(auto)]

mod answers;
mod calls;
mod comments;
mod common;
mod fills;
mod guest;
mod packages;
mod prefixes;
mod reads;
mod receives;

pub use c_types::Laid;
pub use guest::guest_header_of;
pub use packages::{Texts, header_of};
