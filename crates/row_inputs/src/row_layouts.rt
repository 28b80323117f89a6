//! Rows of layouts: what the types and functions of a text's package take. docs/FORMATS.md has the language of rows.

mod layouts;
mod shapes;

pub use layouts::push_laid_out;
