//! Texts in their layout.
use std::alloc::{AllocError, Global};
use std::{fs, io};
use wit_format::formatted;
use wit_reading::tree_of;

/// The bytes that a text may have.
const LIMIT: usize = 1_048_576;

/// A text in its layout, if it has one and is not too long.
#[tactic(auto, unfolding(wit_tokens::specs::Lexing::limit))]
fn layout_of(alloc: Global, text: &str) -> Result<Option<String>, AllocError> {
    if text.len() > LIMIT {
        return Ok(None);
    }
    let tree = tree_of(alloc, text)?;
    formatted(alloc, text, &tree)
}

/// Prints a text in its layout, behind a line with its path and its bytes.
pub fn list_layout(rt: &HostRuntime, path: &str) -> io::Result<()> {
    let text = fs::read_to_string(rt, path)?;
    match layout_of(rt.alloc(), text.as_str())? {
        Some(made) => {
            let count = made.len();
            println!(rt; "== {count} {path}")?;
            rt.print(made.as_str())
        }
        None => println!(rt; "== none {path}"),
    }
}
