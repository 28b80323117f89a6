//! How a whole table is made: of parts that were made elsewhere, or as a copy.
//!
//! `from_parts` accepts parts exactly where they keep what every table keeps, which it tests, and `copy_of` gives the
//! same table under the same ids. It stands on `tables` and `atoms`.
#![tactic(auto)]

mod copy;
mod parts;

pub use copy::copy_of;
pub use parts::{are_standard, from_parts};
