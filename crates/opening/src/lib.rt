//! Packages opened from texts and binaries, and written as both.
//!
//! `open_set` reads packages from texts and binaries, each of which may use those before it, `open` one that stands
//! alone, and `Package::to_binary` and `Package::to_text` write the last. A `Package` is the table of them all with the
//! layouts of its types. It stands on the layers of texts, of binaries and of tables.
#![tactic(auto)]

mod binary;
mod earlier;
mod indexed;
pub mod laws;
mod number;
mod package;
mod printed;
mod set;
mod text;
mod typing;

pub use indexed::{IndexedPackage, open_indexed};
pub use number::{binary_number, is_out_of_memory, layout_number, resolve_number, text_number};
pub use package::{MAX_INPUT, OpenError, Package, open};
pub use set::open_set;
