//! The order of things that use each other: each after those that it uses.
//!
//! `placement` gives that order, in which again and again the first comes that can; or a group of things that use
//! each other. It stands on `tables` for a sequence.
#![tactic(auto)]

mod order;
mod queue;

pub use order::{OrderError, placement};
