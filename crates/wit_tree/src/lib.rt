//! Trees of WIT texts, whatever is in them, and the state of the parser that makes them. No byte of a text is lost.
//! What can't be read is a fault and a node of its own. `faults_of` returns the faults by their bytes. `wit_reading` has
//! the grammar. Stands on `wit_tokens` for pieces, and on `tree_nodes` for nodes.
#![tactic(auto)]

mod fault;
mod parser;
mod skipping;
mod told;
mod tree;
mod word;

pub use fault::{Fault, Fix, Problem, Wanted};
pub use parser::{Parsed, Parser};
pub use skipping::{is_function, is_item, skip_braces, skip_entry, skip_item, skip_parts};
pub use told::{Told, faults_of};
pub use tree::{Tree, words_of};
pub use tree_nodes::{Node, NodeKind};
pub use word::{Word, is_name};
