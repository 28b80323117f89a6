//! Where a JSON value is no value of a type: the first place in it, and what has to stand there.
//!
//! `first_fault` follows an array of values down to the innermost part that is wrong. It is for people who wrote the
//! JSON; `value_json` says whether it is a value. Stands on `tables`, `atoms` (labels) and `serde_json`.
#![tactic(auto)]

mod fault;
mod parts;
mod wanted;

pub use fault::{Fault, first_fault};
