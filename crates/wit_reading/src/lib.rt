//! The grammar of the whole of WIT, read with recovery: what can't be read is noted as a fault, and reading goes on.
//! What is WIT but not read by `wit_text` is read, and noted too. `tree_of` carries the promise. A function of the
//! grammar takes a `Parser` and has no contract: what is proved of trees is a fact of the parser's type. Stands on
//! `wit_tree` for this type, and on `wit_tokens` for pieces.
#![tactic(auto)]

mod definitions;
mod file;
mod functions;
mod items;
mod lists;
mod names;
mod reading;
mod types;

pub use reading::tree_of;
