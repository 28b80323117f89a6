//! The comments of WIT texts, and the items that they stand before.
//!
//! `Comments` has those of documentation in a set's files, and `with_comments` writes them into a canonical text. Such
//! a comment begins with `///`, or is in `/**` and `*/`. `without_item` leaves an item out of a text. It stands on
//! `wit_places`.
#![tactic(auto)]

mod comments;
mod items;
mod lines;
mod skipping;

pub use comments::{Block, Comments, with_comments};
pub use skipping::{Skipped, without_item};
