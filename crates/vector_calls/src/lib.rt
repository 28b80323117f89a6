//! What a row's calls over a link did, and what its values became that are lifted from core values or lowered to them,
//! as JSON.
//!
//! `Calls` makes the calls of a row, `push_conversion` converts a value of one, and `push_head_row` reads and writes a
//! head. Packages are opened by `vectors`, which answers rows. docs/FORMATS.md has the form of rows. It stands on
//! `adapter` and on `value_json`.
#![tactic(auto)]

mod calls;
mod conversions;
mod functions;
mod heads;
pub mod vector_sides;

pub use calls::Calls;
pub use conversions::push_conversion;
pub use functions::{function, parameter, push_fault};
pub use heads::push_head_row;
