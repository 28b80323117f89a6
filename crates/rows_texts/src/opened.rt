//! Sets that are opened, and the lines of their refusals.

use atoms::Watched;
use row_inputs::Set;
use row_inputs::row_sets::opened_behind;
use std::alloc::Global;
use text_builder::TextBuilder;
use witcall::{Package, Refused, report};

/// The package of a set.
pub fn package(alloc: Global, set: &Set) -> Result<Package, Refused> {
    Ok(opened_behind(alloc, set.earlier.as_slice(), set.last.as_slice())?)
}

/// Writes the program's line for a refusal, with its status where that isn't 1.
pub fn push_refused(text: &mut TextBuilder, refused: &Refused) {
    let mut errors = Watched::new(Vec::new(text.alloc()));
    let status = report(refused, &mut errors);
    match String::from_utf8(errors.into_inner()) {
        Ok(line) => text.push(line.as_str().trim_end()),
        Err(_) => text.refuse(),
    }
    if status != 1 {
        text.push(" (");
        text.push_number(status as usize);
        text.push(")");
    }
}

/// Writes the text that these bytes are.
pub fn push_bytes(text: &mut TextBuilder, bytes: &[u8]) -> anyhow::Result<()> {
    text.push(std::str::from_utf8(bytes)?);
    Ok(())
}
