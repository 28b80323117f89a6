//! Nodes over the tokens of a text, in postorder, and how they are built. `Builder` carries the promise: whatever is
//! called in whatever order, the nodes nest, and are at most twice as many as the tokens. It stands on no other crate.
#![tactic(auto)]

mod builder;
mod node;

pub use builder::Builder;
pub use node::{Node, NodeKind};
