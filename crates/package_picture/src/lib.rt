//! Pictures of the types and functions of a package.
//!
//! `draw_package` draws each type of a package on a `Sheet`, once, with its flat core values, and adds the two core
//! signatures of each function. Of a function that is asked for by its name there is also its record of parameters or
//! its return area, and what allocators are asked for. `draw_function` adds the core signatures of one function. It
//! stands on `layout_picture`, `layout`, `tables` and `text_builder`.
#![tactic(auto)]

mod function;
mod picture;
mod requests;

pub use picture::{draw_function, draw_package};
