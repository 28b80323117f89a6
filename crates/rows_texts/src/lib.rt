//! Rows of texts, binaries and sets of packages, JSON, layouts, numbers, names, command lines and memories, one a line,
//! each with its name and its answer. docs/FORMATS.md has their language. `answer_file` answers those of a file: it
//! writes the name of each row, and behind it what was answered if that is something else.
#![tactic(auto)]

mod answers;
pub mod calls;
mod finding;
pub mod json;
pub mod opened;
mod rows;

use rows::{Rows, read};
use std::alloc::Global;

/// Answers the rows of a text.
fn answer_text<'a>(rt: &HostRuntime, alloc: Global, text: &'a str) -> anyhow::Result<()> {
    let mut rows: Rows<'a> = Rows::new(alloc);
    for line in text.split('\n') {
        rows.take_line(rt, alloc, line)?;
    }
    rows.finish(rt, alloc)
}

/// Answers the rows of a file.
pub fn answer_file(rt: &HostRuntime, alloc: Global, path: &str) -> anyhow::Result<()> {
    let bytes = read(rt, alloc, path)?;
    println!(rt; "# {path}")?;
    answer_text(rt, alloc, std::str::from_utf8(bytes.as_slice())?)
}
