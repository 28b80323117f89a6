//! Texts that no file has.

use crate::checking::check_sources;
use std::alloc::{AllocError, Global};
use wit_faults::{Report, Style};
use wit_files::{MAX_BINARY, MAX_TEXT, Source, is_binary};

/// A text or a binary, named by its index.
fn source_of(alloc: Global, index: usize, text: &[u8]) -> Result<Source, AllocError> {
    let most = if is_binary(text) {
        MAX_BINARY
    } else {
        MAX_TEXT
    };
    // One byte more than it may have tells that it is too long.
    let kept = text.get(..=most).unwrap_or(text);
    Ok(Source {
        path: format!(in alloc; "{index}")?,
        folder: String::new(alloc),
        is_dependency: false,
        bytes: Ok(Vec::from_slice(alloc, kept)?),
    })
}

/// The faults of the packages of these texts, in any order, as `wit-explain check --json` tells those of files: an
/// array of objects. `file` is the index of the text, in digits.
pub fn faults_of(alloc: Global, texts: &[&[u8]]) -> Result<String, AllocError> {
    let mut sources = Vec::new(alloc);
    for (index, text) in texts.iter().enumerate() {
        sources.push(source_of(alloc, index, text)?)?;
    }
    let mut report = Report::new(alloc, Style::Json);
    let _packages = check_sources(alloc, &mut report, sources)?;
    report.finish();
    report.text.finish()
}
