//! The names of a set of WIT files, over their trees: what they declare, where they use names, and the scopes of both.
//! `scopes_of` carries the promise: each declaration and each use is at a name of its file. What a use means is not told
//! here. Stands on `wit_names` for names.
#![tactic(auto)]

mod collecting;
mod found;
mod heads;
mod layout;
mod node_kinds;
mod opening;
mod scopes;
mod walk;

pub use scopes::{Scopes, scopes_of, text_of};
