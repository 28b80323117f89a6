//! Edits of a text, and places in it by lines and columns. `Edits::apply` carries the promise: what it makes is the
//! text with each edit's bytes replaced, and nothing else changed. It stands on no other crate of the repository.
#![tactic(auto)]

mod edit;
mod edits;
mod position;

pub use edit::{Edit, EditError};
pub use edits::Edits;
pub use position::{Position, position_of};
