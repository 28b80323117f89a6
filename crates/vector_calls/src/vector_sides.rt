//! The two sides of a vector's calls: memories that log what they are asked, bodies that do what a row says, how a row
//! says both, and how they are told. `vectors` answers rows over them. docs/FORMATS.md has the form of rows.

mod acting;
mod backing;
mod logged;
mod row;
mod telling;

pub use acting::Acting;
pub use logged::Logged;
pub use row::{
    Memories, body, field, flats, guest, list, memories_of, number, package_bytes, text,
};
pub(crate) use telling::{begin_answer, end_answer};
pub use telling::{push_all_given, push_digits, push_first_given, push_flats, push_memories};
