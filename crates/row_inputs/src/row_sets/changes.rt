//! Inputs that are cut after each byte, and binaries with each byte changed to every other, alone or behind the
//! packages that they use.

use crate::row_sets::opened::opened_behind;
use crate::{Set, Tally, opened_number};
use ctype_bin::{BinError, Fault, decode};
use error_numbers::Numbered;
use opening::{OpenError, Package, open};
use std::alloc::Global;
use text_builder::TextBuilder;

/// Writes the line of opening.
fn push_line(text: &mut TextBuilder, answer: Result<Package, OpenError>) {
    match answer {
        Ok(_package) => text.push("opened"),
        Err(error) => text.push_made(error.to_string(text.alloc())),
    }
}

/// Whether a line says that memory was refused.
fn lacks_memory(line: &str) -> bool {
    line.ends_with("no memory")
}

/// Whether an input that is opened alone is answered as a text says, unless memory was refused to one of them.
pub fn is_opened_alone(text: &mut TextBuilder, input: &[u8]) -> bool {
    let mut alone = TextBuilder::new(text.alloc());
    push_line(&mut alone, open(text.alloc(), input));
    let alone = text.kept(alone.finish());
    let (line, told) = (alone.as_str(), text.as_str());
    line == told || lacks_memory(line) || lacks_memory(told)
}

/// The front of a set's last input.
fn front(set: &Set, length: usize) -> &[u8] {
    set.last.as_slice().get(..length).unwrap_or(&[])
}

/// What the front of a set's last input is opened as.
fn opened_front(alloc: Global, set: &Set, length: usize) -> Result<Package, OpenError> {
    opened_behind(alloc, set.earlier.as_slice(), front(set, length))
}

/// Writes what the front of a set's last input answers.
fn push_front(text: &mut TextBuilder, set: &Set, length: usize) {
    push_line(text, opened_front(text.alloc(), set, length));
}

/// Writes what each front answers, a line each behind its length.
pub fn push_cuts(text: &mut TextBuilder, set: &Set) {
    for length in 0..set.last.len() {
        text.push_number(length);
        text.push(" ");
        push_front(text, set, length);
        text.push("\n");
    }
}

/// Counts what each front answers that is shorter than the input.
fn fronts(alloc: Global, set: &Set) -> Tally {
    let mut tally = Tally::new();
    for length in 0..set.last.len() {
        tally.take(opened_number(opened_front(alloc, set, length)));
    }
    tally
}

/// Writes how often each answer comes of the fronts of an input, and what the whole answers.
pub fn push_fronts(text: &mut TextBuilder, set: &Set) {
    text.push_number(set.last.len());
    text.push(" fronts: ");
    fronts(text.alloc(), set).push_to(text, "opened");
    text.push("; the whole: ");
    push_front(text, set, set.last.len());
}

/// Whether bytes are told as cut at this length when they are decoded.
fn is_decoded_as_cut(alloc: Global, bytes: &[u8], length: usize) -> bool {
    matches!(decode(alloc, bytes), Err(BinError::At(Fault::Truncated, place)) if place == length)
}

/// Whether they are when they are opened. Those of fewer than four bytes are a text.
fn is_opened_as_cut(answer: &Result<Package, OpenError>, length: usize) -> bool {
    match answer {
        Err(OpenError::Binary(BinError::At(Fault::Truncated, place))) => *place == length,
        _ => length < 4,
    }
}

/// Counts what a front answers, and tells whether it is told as cut at its end, decoded and opened.
fn is_front_cut(alloc: Global, set: &Set, length: usize, tally: &mut Tally) -> bool {
    let answer = opened_front(alloc, set, length);
    let is_cut = is_opened_as_cut(&answer, length);
    tally.take(opened_number(answer));
    is_cut && is_decoded_as_cut(alloc, front(set, length), length)
}

/// Writes how many fronts of a binary are told as cut, and how often each answer comes of them.
fn push_binary_fronts(text: &mut TextBuilder, set: &Set) {
    let mut tally = Tally::new();
    let mut cut: usize = 0;
    for length in 0..set.last.len() {
        if is_front_cut(text.alloc(), set, length, &mut tally) {
            cut = cut.saturating_add(1);
        }
    }
    text.push_number(set.last.len());
    text.push(" fronts, ");
    text.push_number(cut);
    text.push(" told as cut: ");
    tally.push_to(text, "opened");
}

/// What is written of the package of a set with this last input.
fn written(alloc: Global, earlier: &[Vec<u8>], last: &[u8]) -> anyhow::Result<Vec<u8>> {
    let package = opened_behind(alloc, earlier, last)?;
    Ok(package.to_binary(alloc)?)
}

/// 0 for a package that is written and opened as itself, which any has to be.
fn package_number(alloc: Global, earlier: &[Vec<u8>], package: &Package) -> anyhow::Result<u32> {
    let first = package.to_binary(alloc)?;
    if written(alloc, earlier, first.as_slice())? != first {
        return Err(anyhow::anyhow!("another package"));
    }
    Ok(0)
}

/// The number of the error that a set is refused with, or 0 for a package, which has to be written and opened as
/// itself.
fn kept_number(alloc: Global, set: &Set) -> anyhow::Result<u32> {
    let earlier = set.earlier.as_slice();
    match opened_behind(alloc, earlier, set.last.as_slice()) {
        Ok(package) => package_number(alloc, earlier, &package),
        Err(error) => Ok(error.number()),
    }
}

/// Counts what the 256 values of a byte answer.
fn take_values(
    alloc: Global,
    set: &mut Set,
    place: usize,
    tally: &mut Tally,
) -> anyhow::Result<()> {
    let before = set.put(place, 0);
    for byte in 0..=255 {
        set.put(place, byte);
        tally.take(kept_number(alloc, set)?);
    }
    set.put(place, before);
    Ok(())
}

/// Writes what the changes of a binary answer. The first four bytes stay, which tell a binary from a text.
fn push_changed(text: &mut TextBuilder, set: &mut Set) -> anyhow::Result<()> {
    let mut tally = Tally::new();
    for place in 4..set.last.len() {
        take_values(text.alloc(), set, place, &mut tally)?;
    }
    text.push_number(set.last.len().saturating_sub(4).saturating_mul(256));
    text.push(" changed: ");
    tally.push_to(text, "packages");
    Ok(())
}

/// Writes what the fronts and the changes of a binary answer.
pub fn push_changes(text: &mut TextBuilder, set: &mut Set) -> anyhow::Result<()> {
    push_binary_fronts(text, set);
    text.push("; ");
    push_changed(text, set)
}
