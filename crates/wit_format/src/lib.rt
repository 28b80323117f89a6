//! The layout of WIT texts. `formatted` carries the promise: the text that it makes has the same tokens and comments,
//! with their bytes, in the same order. It writes the layout freely, reads what it wrote once more, and answers nothing
//! if that differs in more than blanks. Stands on `wit_tree` for trees.
#![tactic(auto)]

mod atom;
mod comment;
mod format;
mod layout;
mod page;
mod role;
mod solid;
mod source;
mod spacing;
mod width;

pub use format::formatted;
