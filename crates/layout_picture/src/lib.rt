//! Pictures of the bytes of types, for a terminal or as SVG.
//!
//! A `Sheet` draws what is in the bytes of a type to scale, below the lines of text that came before it. Each byte is
//! as wide as any other, padding is shaded, and the cases of a variant are one below the other, at the same offsets.
//! Below the boxes are all offsets, sizes and alignments. The numbers are those of `TypeLayout`, whose contracts speak
//! of `canonical_abi`. It stands on `layout`, `tables`, `svg_drawing` and `text_builder`.
#![tactic(auto)]

mod boxes;
mod cells;
mod names;
mod rows;
mod scaled;
mod sheet;
mod signatures;
mod type_layout;

pub use names::{label_of, member_name, origin_of, owner_of, type_text};
pub use sheet::{Form, Level, Sheet};
pub use signatures::{push_flat, push_signature};
pub use type_layout::{Part, TypeLayout, case_number_size};
