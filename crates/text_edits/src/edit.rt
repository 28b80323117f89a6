//! Single edits.

use thiserror::Error;

/// An edit: the bytes `start..end` of a text are replaced by another text.
#[derive(Drop)]
pub struct Edit {
    pub start: usize,
    pub end: usize,
    pub text: String,
}

/// Why an edit is not one of a text, after others.
#[derive(Clone, Copy, Debug, Drop, PartialEq, Eq, Error)]
pub enum EditError {
    /// It begins before the end of the edit before it, or after its own end.
    #[error("edits overlap")]
    Overlap,
    /// Its start or its end is outside of the text, or in a character.
    #[error("an edit is not between characters of the text")]
    NoBoundary,
    #[error("no memory")]
    NoMemory,
}
