//! Lines and columns of a text.
//!
//! `place_at` says where a byte offset stands: the line, counted from 1 by the line ends before it, the column, counted
//! from 1 in characters, and the text of the line. The crate stands on no other.

mod laws;
mod place;

pub use laws::texts_end_in_one_line;
pub use place::{Place, place_at};
