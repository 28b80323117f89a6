//! What the words of a command line ask for.
//!
//! It stands on `clap` alone, which dominates its check, so no other crate names a type of `clap`.
//! The public call is `command`.
#![tactic(auto)]

pub mod asked;
mod earlier;
mod parsing;

pub use parsing::{WordsError, command};
