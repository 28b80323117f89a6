//! Edits of one text, in its order and apart.
ghost use Rattle.std.specs.Prelude.{◌≡◌, ◌≤◌, ◌<◌, ◌⊎◌, ◌↔◌, [], ◌∷◌, ◌++◌, Err, IfOk, OnOk, OnErr, string_bytes};
ghost use Rattle.std.specs.Str.{IsCharBoundary};
ghost use Rattle.text_edits.specs.Splices.{AreApart, end_of, spliced};

use crate::edit::{Edit, EditError};
use std::alloc::{AllocError, Global};

/// Edits of a text: each is between characters of it, and begins after the end of the one before it, or at this.
#[derive(Drop)]
pub struct Edits<'a> {
    text: &'a str,
    list: Vec<Edit>,
    end: usize,
    ghost last: { end ≡ end_of 0 list.items },
    ghost apart: { AreApart text.now list.items },
}

impl<'a> Edits<'a> {
    /// No edit of this text yet.
    pub fn new(alloc: Global, text: &'a str) -> Edits<'a>
        ensures text { result.text.now ≡ text.now }
        ensures list { result.list.items ≡ [] }
    {
        Edits {
            text,
            list: Vec::new(alloc),
            end: 0,
        }
    }

    /// The edits.
    pub fn as_slice(&self) -> &[Edit]
        ensures { result.now ≡ self.now.list.items }
    {
        self.list.as_slice()
    }

    /// Adds an edit after the others. If it fails, they are as they were.
    #[tactic(auto, using(crate::proofs::Splicing::apart_push, crate::proofs::Splicing::end_push))]
    pub fn push(&mut self, edit: Edit) -> Result<(), EditError>
        ensures text { self.new.text ≡ self.old.text }
        ensures ok { OnOk result (self.new.list.items ≡ self.old.list.items ++ edit ∷ []) }
        ensures err { OnErr result (self.new.list.items ≡ self.old.list.items) }
        ensures overlap { (result ≡ Err EditError.Overlap)
            ↔ ((edit.start < end_of 0 self.old.list.items) ⊎ (edit.end < edit.start)) }
        ensures no_boundary { result ≡ Err EditError.NoBoundary
            → IsCharBoundary self.old.text.now edit.start → ¬ (IsCharBoundary self.old.text.now edit.end) }
    {
        if edit.start < self.end || edit.end < edit.start {
            return Err(EditError::Overlap);
        }
        if !self.text.is_char_boundary(edit.start) || !self.text.is_char_boundary(edit.end) {
            return Err(EditError::NoBoundary);
        }
        let end = edit.end;
        match self.list.push(edit) {
            Ok(()) => {
                self.end = end;
                Ok(())
            }
            Err(_) => Err(EditError::NoMemory),
        }
    }

    /// The text with the edits.
    pub fn apply(&self, alloc: Global) -> Result<String, AllocError>
        ensures { IfOk result (λ made. string_bytes made ≡ spliced self.now.text.now 0 self.now.list.items) }
    {
        let mut made = String::new(alloc);
        let mut at = 0;
        for edit in self.list.as_slice() {
            made.push_str(&self.text[at..edit.start])?;
            made.push_str(edit.text.as_str())?;
            at = edit.end;
        }
        made.push_str(&self.text[at..])?;
        Ok(made)
    }
}
