//! Answers rows of JSON, one a line, with what they did, one a line: calls over a link, steps of a session, values that
//! are lifted or lowered, heads, and values in a memory that a host keeps. docs/FORMATS.md has the form. It shows
//! implementers of other runtimes the answers of calls that carry the promise. The files that its words name are rows of
//! `rows_texts`, and are answered after them.
#![tactic(auto)]

mod alone;
mod asking;
mod filling;
mod host;
mod hosts;
mod sessions;

use rows_texts::answer_file;
use serde_json::Value;
use std::alloc::Global;
use std::env;
use text_builder::TextBuilder;
use vector_calls::vector_sides::package_bytes;
use vector_calls::{Calls, push_conversion, push_head_row};
use witcall::laws::has_labels_apart;
use witcall::{OpenError, Package, open};

/// The package of a row.
pub(crate) fn opened(alloc: Global, row: &Value) -> anyhow::Result<Package> {
    let bytes = package_bytes(alloc, row)?;
    Ok(open(alloc, bytes.as_slice())?)
}

/// Writes what is told of calls of a package that is refused.
fn push_refused(text: &mut TextBuilder, calls: &Calls<'_>, error: &OpenError) {
    let line = error.to_string(text.alloc());
    let line = text.kept(line);
    calls.push_refused(text, line.as_str());
}

/// Writes what is told of calls of the package that these bytes are.
fn push_made(text: &mut TextBuilder, calls: &mut Calls<'_>, bytes: &[u8]) {
    match open(text.alloc(), bytes) {
        Ok(package) => calls.push(text, &package.types()),
        Err(error) => push_refused(text, calls, &error),
    }
}

/// Writes what is told of the calls of a row.
fn push_calls(text: &mut TextBuilder, row: &Value) -> anyhow::Result<()> {
    let mut calls = Calls::of(text.alloc(), row)?;
    let bytes = package_bytes(text.alloc(), row)?;
    push_made(text, &mut calls, bytes.as_slice());
    Ok(())
}

/// Writes what is told of a value of a row that is lifted or lowered, loaded or stored.
fn push_value(text: &mut TextBuilder, row: &Value) -> anyhow::Result<()> {
    let package = opened(text.alloc(), row)?;
    has_labels_apart(&package);
    push_conversion(text, row, &package.types())
}

/// Writes what is told of a head that a row asks for.
fn push_head(text: &mut TextBuilder, row: &Value) -> anyhow::Result<()> {
    let package = opened(text.alloc(), row)?;
    push_head_row(text, row, &package.types())
}

/// The keys of rows that convert a value.
const CONVERSIONS: [&str; 4] = ["lift", "lower", "load", "store"];

/// Writes what is told of a row.
fn push_row(text: &mut TextBuilder, row: &Value) -> anyhow::Result<()> {
    if row.get("steps").is_some() {
        return sessions::push_row(text, row);
    }
    if row.get("held").is_some() {
        return sessions::push_held_row(text, row);
    }
    if row.get("host").is_some() {
        return hosts::push_row(text, row);
    }
    if CONVERSIONS.iter().any(|key| row.get(*key).is_some()) {
        return push_value(text, row);
    }
    if row.get("head_at").is_some() || row.get("head_of").is_some() {
        return push_head(text, row);
    }
    push_calls(text, row)
}

/// Writes what is told of the row that a line is.
fn push_line(text: &mut TextBuilder, line: &str) -> anyhow::Result<()> {
    let row = Value::from_str(text.alloc(), line)?;
    push_row(text, &row)
}

/// What is told of the row that a line is.
fn told_of(alloc: Global, line: &str) -> anyhow::Result<String> {
    let mut text = TextBuilder::new(alloc);
    push_line(&mut text, line)?;
    Ok(text.finish()?)
}

/// The line that tells of a row, or of why it is none.
fn answer_of(alloc: Global, line: &str) -> anyhow::Result<String> {
    match told_of(alloc, line) {
        Ok(told) => Ok(told),
        Err(error) => Ok(format!(in alloc; "{{\"error\":\"{error}\"}}")?),
    }
}

/// Answers the rows of standard input.
fn answer_lines(rt: &HostRuntime) -> anyhow::Result<()> {
    for line in rt.lines(rt.alloc()) {
        let told = answer_of(rt.alloc(), line?.as_str())?;
        println!(rt; "{told}")?;
    }
    Ok(())
}

fn main(rt: HostRuntime) -> anyhow::Result<()> {
    answer_lines(&rt)?;
    for path in env::args(&rt)?.skip(1) {
        answer_file(&rt, rt.alloc(), path.as_str())?;
    }
    Ok(())
}

pub use asking::push_asks;
pub use filling::Filling;
pub use host::Host;
