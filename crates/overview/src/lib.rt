//! What a package has, and how it is laid out, as lines of text.
//!
//! `shown` tells the package's name and counts what each interface and each world has; `laid_out` tells the size and
//! alignment of each named type and the core signatures of each function of an interface. Stands on `layout` (sizes,
//! alignments, signatures) and `tables` (packages).
#![tactic(auto)]

mod contents;
mod layouts;

pub use contents::shown;
pub use layouts::laid_out;
