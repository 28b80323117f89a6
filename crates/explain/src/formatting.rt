//! The layout of files.

use crate::writing::{is_saved, refuse};
use std::alloc::{AllocError, Global};
use wit_faults::Report;
use wit_files::{MAX_TEXT, Source, members_of};
use wit_format::formatted;
use wit_reading::tree_of;

/// The text of a file, if it is one.
fn text_of(source: &Source) -> Option<&str> {
    match &source.bytes {
        Ok(bytes) if !source.is_binary() => std::str::from_utf8(bytes.as_slice()).ok(),
        _ => None,
    }
}

/// The text of a file in its layout. None if it has a fault of syntax, or would be too long.
#[tactic(auto, unfolding(wit_tokens::specs::Lexing::limit))]
fn layout_of(alloc: Global, source: &Source) -> Result<Option<String>, AllocError> {
    let Some(text) = text_of(source) else {
        return Ok(None);
    };
    if text.len() > MAX_TEXT {
        return Ok(None);
    }
    let tree = tree_of(alloc, text)?;
    formatted(alloc, text, &tree)
}

/// Why a file has no layout that `check` finds no fault in.
fn reason_of(source: &Source) -> &'static str {
    if source.is_binary() {
        "a binary has no layout"
    } else {
        "it would be too long in its layout"
    }
}

/// Reports the faults of one file, which has no layout.
fn refuse_source(alloc: Global, report: &mut Report, source: &[Source]) -> Result<(), AllocError> {
    let Some(first) = source.first() else {
        return Ok(());
    };
    report.status = 0;
    if !first.is_binary() {
        let _members = members_of(alloc, report, source)?;
    }
    if report.status == 0 {
        refuse(report, first.path.as_str(), &reason_of(first));
    }
    Ok(())
}

/// Prints the name of a file whose text changes.
fn tell(report: &mut Report, path: &str) {
    report.text.push(path);
    report.text.push("\n");
}

/// Says that a file would have another text in its layout.
fn tell_change(report: &mut Report, path: &str) {
    report.status = 1;
    tell(report, path);
}

/// Writes a text in its layout to its file, and prints the file's name. What was read from standard input is printed.
fn put(rt: &HostRuntime, report: &mut Report, source: &Source, made: &str) {
    let path = source.path.as_str();
    if path == "-" {
        report.text.push(made);
    } else if text_of(source) != Some(made) && is_saved(rt, report, path, made.as_bytes()) {
        tell(report, path);
    }
}

/// Lays out one file, or says whether that would change it.
fn format_source(
    rt: &HostRuntime,
    report: &mut Report,
    source: &[Source],
    is_check: bool,
) -> Result<(), AllocError> {
    let Some(first) = source.first() else {
        return Ok(());
    };
    let text = text_of(first).unwrap_or("");
    let made = layout_of(rt.alloc(), first)?;
    match &made {
        None => refuse_source(rt.alloc(), report, source)?,
        Some(made) if !is_check => put(rt, report, first, made.as_str()),
        Some(made) if made.as_str() != text => tell_change(report, first.path.as_str()),
        Some(_) => {}
    }
    Ok(())
}

/// Lays out files, each by itself, without those of dependencies. With a check it says which that would change.
pub fn format_sources(
    rt: &HostRuntime,
    report: &mut Report,
    sources: &[Source],
    is_check: bool,
) -> Result<(), AllocError> {
    for (at, source) in sources.iter().enumerate() {
        if !source.is_dependency {
            let one = sources.get(at..at.saturating_add(1)).unwrap_or(&[]);
            format_source(rt, report, one, is_check)?;
        }
    }
    Ok(())
}
