//! Edits that are tried: one is kept only if less is told of the text with it.

use crate::findings::untried;
use std::alloc::{AllocError, Global};
use text_edits::Edit;

/// The bytes that a text may have, and those that are read to try the edits of one.
pub(crate) const LIMIT: usize = 1_048_576;

/// A trial of the edits of a text.
#[derive(Drop)]
pub(crate) struct Trial<'a> {
    pub text: &'a str,
    /// How many findings the text has.
    pub count: usize,
    /// The bytes that may still be read.
    pub left: usize,
}

/// Whether a text has fewer findings than so many.
#[tactic(auto, unfolding(wit_tokens::specs::Lexing::limit))]
fn has_fewer(alloc: Global, text: &str, count: usize) -> Result<bool, AllocError> {
    if text.len() > LIMIT {
        return Ok(false);
    }
    Ok(untried(alloc, text)?.len() < count)
}

impl Trial<'_> {
    /// Whether the text has fewer findings with an edit. Once too many bytes were read, none is tried, and so none is
    /// kept.
    pub(crate) fn keeps(&mut self, alloc: Global, edit: &Edit) -> Result<bool, AllocError> {
        if self.left < self.text.len() {
            return Ok(false);
        }
        self.left = self.left.saturating_sub(self.text.len());
        let front = self.text.get(..edit.start).unwrap_or("");
        let behind = self.text.get(edit.end..).unwrap_or("");
        let written = edit.text.as_str();
        let text = format!(in alloc; "{front}{written}{behind}")?;
        has_fewer(alloc, text.as_str(), self.count)
    }
}
