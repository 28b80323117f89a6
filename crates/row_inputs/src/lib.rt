//! The inputs of rows: how a line says them, sets of them under names, and streams that give or take a byte at a time,
//! fail, or never end; and counts of their answers. `row_sets` answers rows of sets: packages that are opened behind
//! those that they use, and inputs that are cut or changed. The crates of rows stand on it. docs/FORMATS.md has the
//! language of rows.
#![tactic(auto)]

mod inputs;
mod parts;
pub mod row_layouts;
pub mod row_sets;
mod streams;
mod tally;

pub use inputs::{Inputs, Set};
pub use parts::{expanded, first_word, inputs_in, numbered, parted};
pub use streams::{Drip, Short, Zeros};
pub use tally::{Tally, decoded_number, opened_number};
