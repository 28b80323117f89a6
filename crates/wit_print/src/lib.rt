//! Canonical text of WIT: how a file is written, and that what is written is read as the same file.
#![tactic(auto)]

mod definition;
mod entry;
mod file;
mod function;
mod laws;
mod list;
mod ty;
mod word;

pub use file::print_file;
pub use laws::canonical_text_is_read_back;
