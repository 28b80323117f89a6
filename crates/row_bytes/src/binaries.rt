//! Component type binaries: at once and by a reader that gives a byte at a time, may fail, or never ends.

use ctype_bin::{BinError, Fault, RawComponent, decode, decode_from, encode};
use row_inputs::{Drip, Tally, Zeros, decoded_number, numbered};
use std::alloc::Global;
use text_builder::TextBuilder;

/// What decoding by a reader answers that gives a byte at a time, and fails after so many.
fn dripped(alloc: Global, bytes: &[u8], fails_at: usize) -> Result<RawComponent, BinError> {
    decode_from(alloc, &mut Drip::new(bytes, fails_at))
}

/// Writes how many types and exports a component has, or why there is none.
fn push_told(text: &mut TextBuilder, answer: Result<RawComponent, BinError>) {
    match answer {
        Ok(component) => {
            text.push("types ");
            text.push_number(component.types().len());
            text.push(" exports ");
            text.push_number(component.exports().len());
        }
        Err(error) => text.push_made(error.to_string(text.alloc())),
    }
}

/// The shortest bytes of a component.
fn written(alloc: Global, component: &RawComponent) -> anyhow::Result<Vec<u8>> {
    put_behind(alloc, component, &[])
}

/// The bytes of a component behind those of a front, which are left alone where it is refused.
fn put_behind(alloc: Global, component: &RawComponent, front: &[u8]) -> anyhow::Result<Vec<u8>> {
    let mut out = front.to_vec(alloc)?;
    match encode(alloc, component, &mut out) {
        Ok(()) => Ok(out),
        Err(error) if out.as_slice() == front => Err(anyhow::anyhow!("{error}")),
        Err(_) => Err(anyhow::anyhow!("written where it is refused")),
    }
}

/// The bytes of the component that these bytes are, behind those of a front.
fn encoded(alloc: Global, bytes: &[u8], front: &[u8]) -> anyhow::Result<Vec<u8>> {
    put_behind(alloc, &decode(alloc, bytes)?, front)
}

/// Whether two readings are alike: the same component, or the same error, unless memory was refused to one of them.
fn are_alike(
    alloc: Global,
    fast: &Result<RawComponent, BinError>,
    slow: &Result<RawComponent, BinError>,
) -> anyhow::Result<bool> {
    Ok(match (fast, slow) {
        (Ok(fast), Ok(slow)) => written(alloc, fast)? == written(alloc, slow)?,
        (Err(BinError::NoMemory), _) | (_, Err(BinError::NoMemory)) => true,
        (Err(fault), Err(other)) => fault == other,
        _ => false,
    })
}

/// What decoding answers, which a reader's answer has to be too.
fn read_twice(alloc: Global, bytes: &[u8]) -> anyhow::Result<Result<RawComponent, BinError>> {
    let fast = decode(alloc, bytes);
    if !are_alike(alloc, &fast, &dripped(alloc, bytes, usize::MAX))? {
        return Err(anyhow::anyhow!("byte by byte something else"));
    }
    Ok(fast)
}

/// Fails if a component is not written as what decodes to the same.
fn test_kept(alloc: Global, component: &RawComponent) -> anyhow::Result<()> {
    let first = written(alloc, component)?;
    if encoded(alloc, first.as_slice(), &[])? != first {
        return Err(anyhow::anyhow!("written as something else"));
    }
    Ok(())
}

/// Fails if a component is not written as itself, or if an error is not within so many bytes, unless it is at the end
/// of a section that is too long for them.
fn test_answer(
    alloc: Global,
    answer: &Result<RawComponent, BinError>,
    length: usize,
) -> anyhow::Result<()> {
    match answer {
        Ok(component) => test_kept(alloc, component),
        Err(BinError::At(fault, place)) if *place <= length || *fault == Fault::SizeMismatch => {
            Ok(())
        }
        Err(error) => Err(anyhow::anyhow!("{error}")),
    }
}

/// The number of the error that bytes are refused with, or 0 for a component.
fn kept_number(alloc: Global, bytes: &[u8]) -> anyhow::Result<u32> {
    let answer = read_twice(alloc, bytes)?;
    test_answer(alloc, &answer, bytes.len())?;
    Ok(decoded_number(answer))
}

/// Counts what the 256 values of a byte answer.
fn take_values(alloc: Global, bytes: &[u8], place: usize, tally: &mut Tally) -> anyhow::Result<()> {
    let mut changed = bytes.to_vec(alloc)?;
    for byte in 0..=255 {
        if let Some(old) = changed.as_mut_slice().get_mut(place) {
            *old = byte;
        }
        tally.take(kept_number(alloc, changed.as_slice())?);
    }
    Ok(())
}

/// Writes how often each answer comes of the bytes that differ in one of so many first ones.
fn push_changed(text: &mut TextBuilder, bytes: &[u8], count: usize) -> anyhow::Result<()> {
    let count = count.min(bytes.len());
    let mut tally = Tally::new();
    for place in 0..count {
        take_values(text.alloc(), bytes, place, &mut tally)?;
    }
    text.push_number(count.saturating_mul(256));
    text.push(" changed: ");
    tally.push_to(text, "components");
    Ok(())
}

/// Counts what a front answers, and tells whether it is told as cut at its end.
fn is_cut(alloc: Global, front: &[u8], tally: &mut Tally) -> anyhow::Result<bool> {
    let answer = read_twice(alloc, front)?;
    let is_cut =
        matches!(&answer, Err(BinError::At(Fault::Truncated, place)) if *place == front.len());
    tally.take(decoded_number(answer));
    Ok(is_cut)
}

/// Writes how many fronts are told as cut at their end, and how often each answer comes of them.
fn push_cuts(text: &mut TextBuilder, bytes: &[u8]) -> anyhow::Result<()> {
    let mut tally = Tally::new();
    let mut cut: usize = 0;
    for length in 0..bytes.len() {
        if is_cut(text.alloc(), bytes.get(..length).unwrap_or(&[]), &mut tally)? {
            cut = cut.saturating_add(1);
        }
    }
    text.push_number(bytes.len());
    text.push(" fronts, ");
    text.push_number(cut);
    text.push(" told as cut: ");
    tally.push_to(text, "components");
    Ok(())
}

/// Writes what a reader that fails after so many bytes is told as.
fn push_failing(text: &mut TextBuilder, words: &str) -> anyhow::Result<()> {
    let (place, digits) = numbered(words)?;
    let bytes = hex::decode(text.alloc(), digits)?;
    push_told(text, dripped(text.alloc(), bytes.as_slice(), place));
    Ok(())
}

fn push_changes(text: &mut TextBuilder, words: &str) -> anyhow::Result<()> {
    let (count, digits) = numbered(words)?;
    let bytes = hex::decode(text.alloc(), digits)?;
    push_changed(text, bytes.as_slice(), count)
}

/// Writes the bytes that a component is written as, behind two that are there.
fn push_encoded(text: &mut TextBuilder, bytes: &[u8]) -> anyhow::Result<()> {
    let written = encoded(text.alloc(), bytes, &[0xaa, 0xbb])?;
    text.push_made(hex::encode(text.alloc(), written.as_slice()));
    Ok(())
}

/// Writes what a command about bytes is answered.
fn push_done(text: &mut TextBuilder, word: &str, bytes: &[u8]) -> anyhow::Result<()> {
    match word {
        "decode" => push_told(text, decode(text.alloc(), bytes)),
        "drip" => push_told(text, read_twice(text.alloc(), bytes)?),
        "encode" => return push_encoded(text, bytes),
        "component-cuts" => return push_cuts(text, bytes),
        _ => return Err(anyhow::anyhow!("no such command: {word}")),
    }
    Ok(())
}

/// Writes what a command about the bytes of these digits is answered.
fn push_done_of(text: &mut TextBuilder, word: &str, digits: &str) -> anyhow::Result<()> {
    let bytes = hex::decode(text.alloc(), digits)?;
    push_done(text, word, bytes.as_slice())
}

/// Writes what a command is answered.
pub fn push_answer(text: &mut TextBuilder, word: &str, rest: &str) -> anyhow::Result<()> {
    match word {
        "failing" => push_failing(text, rest),
        "component-changes" => push_changes(text, rest),
        "endless" => {
            push_told(text, decode_from(text.alloc(), &mut Zeros));
            Ok(())
        }
        _ => push_done_of(text, word, rest),
    }
}
