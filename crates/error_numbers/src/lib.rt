//! The numbers of errors, traps and steps, as their lines and the library for C have them.
//!
//! `Numbered` is what has such a number. The kinds of traps and the steps of a call have theirs here; the errors of a
//! package have theirs in `opening`. It stands on `canonical_abi`.
#![tactic(auto)]

mod number;

pub use number::Numbered;
