//! The table of a tree.
//!
//! `closed_table` finds what the names of a tree stand for, by `tree_names`, and puts interfaces and types in order.
//! The definitions of interfaces and worlds go into a `Builder`, each type before what names it, and the closed table
//! is made of them.
#![tactic(auto)]

mod assembly;
mod bodies;
mod builder;
mod closed;
mod define;
mod lower;
mod plan;
mod tree;
mod worlds;

pub use tree::closed_table;
