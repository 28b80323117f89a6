//! Elements of a list that cross from one linear memory to another many at a time.
//!
//! Where a type has no texts and no lists, each byte of a value's place either is the value's own and crosses under a
//! cap, or is padding and keeps what the target had there. So many elements cross in one loop over bytes, once they
//! have passed their tests; nothing is written of a part of which an element doesn't.
#![tactic(auto)]

mod blend;
mod bools;
mod caps;
mod cases;
mod chars;
mod columns;
mod elements;
mod flags;
mod numbers;
mod planned;
mod rows;
mod words;

pub use blend::Caps;
pub use bools::cross_bools;
pub use chars::cross_chars;
pub use columns::Column;
pub use elements::Elements;
pub use flags::cross_flags;
pub use numbers::{cross_numbers, number_width};
pub use planned::{Plan, cross_planned, plan_of};
pub use rows::Rows;
