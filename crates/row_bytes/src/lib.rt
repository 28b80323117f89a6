//! Rows of what knows no package: numbers and names of both formats, tokens and trees of texts, components, command
//! lines, and memories. `push_answer` answers one. docs/FORMATS.md has the language of rows.
#![tactic(auto)]

mod binaries;
mod memories;
mod reading;
mod trees;

pub use reading::push_answer;
