//! Sets that are opened.

ghost use Rattle.std.specs.Prelude.{◌<◌, IfOk, length};

use crate::Set;
use opening::{IndexedPackage, OpenError, Package, open_indexed, open_set};
use std::alloc::{AllocError, Global};
use text_builder::TextBuilder;
use wit_text::parse;

/// What is asked of an opened package.
#[derive(Clone, Copy)]
pub enum Wanted {
    Opened,
    Copy,
    /// How many steps its layouts took.
    Work,
}

fn inputs<'a>(
    alloc: Global,
    earlier: &'a [Vec<u8>],
    last: &'a [u8],
) -> Result<Vec<&'a [u8]>, AllocError>
    ensures { IfOk result (λ inputs. 0 < length inputs.items) }
{
    let mut inputs = Vec::new(alloc);
    for input in earlier {
        inputs.push(input.as_slice())?;
    }
    inputs.push(last)?;
    Ok(inputs)
}

/// The package that the last input is, with those that it uses.
pub fn opened_behind(
    alloc: Global,
    earlier: &[Vec<u8>],
    last: &[u8],
) -> Result<Package, OpenError> {
    let inputs = inputs(alloc, earlier, last)?;
    open_set(alloc, inputs.as_slice())
}

/// The same package, with an index of its functions.
pub fn indexed_behind(
    alloc: Global,
    earlier: &[Vec<u8>],
    last: &[u8],
) -> Result<IndexedPackage, OpenError> {
    let inputs = inputs(alloc, earlier, last)?;
    open_indexed(alloc, inputs.as_slice())
}

/// Writes the text of a package, or why it has none.
fn push_text(text: &mut TextBuilder, package: &Package) {
    match package.to_text(text.alloc()) {
        Ok(made) => text.push(made.as_str()),
        Err(error) => text.push_made(error.to_string(text.alloc())),
    }
}

/// Writes the text of a copy of the package.
fn push_copy(text: &mut TextBuilder, package: &Package) {
    match package.copy(text.alloc()) {
        Ok(copy) => push_text(text, &copy),
        Err(_) => text.refuse(),
    }
}

/// Writes what is wanted of a package.
pub fn push_told(text: &mut TextBuilder, wanted: Wanted, package: &Package) {
    match wanted {
        Wanted::Opened => text.push("opened"),
        Wanted::Copy => push_copy(text, package),
        Wanted::Work => text.push_number(package.layouts().work() as usize),
    }
}

/// Writes whether the last input is a text of the grammar.
pub fn push_parsed(text: &mut TextBuilder, set: &Set) -> anyhow::Result<()> {
    match parse(text.alloc(), std::str::from_utf8(set.last.as_slice())?) {
        Ok(_tree) => text.push("read"),
        Err(error) => text.push_made(error.to_string(text.alloc())),
    }
    Ok(())
}
