//! The names of a tree: 40, 47, 41, 42, and the 45 of a type nested too deep.
//!
//! `declarations` tells each name apart from the others of its scope, and finds what it stands for; `interface_order`
//! and `type_orders` put interfaces and types behind those that they use. It stands on `tree_scopes`, on `tree_meaning`
//! and on `placement`.
#![tactic(auto)]

mod duplicates;
mod graphs;
mod keys;
mod members;
mod named;
mod nested;
mod packages;
mod tree;
mod unknown;

pub use graphs::{interface_order, type_orders};
pub use keys::keyed_by_tree;
pub use tree::declarations;
