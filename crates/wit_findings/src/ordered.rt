//! Findings in the order of a text.
ghost use Rattle.std.specs.Prelude.{◌≡◌, IfSome, option_to_list, true};
ghost use Rattle.text_edits.specs.Splices.{FitsFrom, end_of};
ghost use Rattle.wit_findings.specs.Findings.{AreFindingsOf, AreListed};

use crate::finding::Finding;
use std::alloc::{AllocError, Global};
use text_edits::Edit;

/// Whether an edit is between characters of a text, from a byte on.
fn fits(text: &str, from: usize, edit: &Edit) -> bool
    ensures { result ≡ true → FitsFrom text.now from edit.now }
{
    from <= edit.start
        && edit.start <= edit.end
        && text.is_char_boundary(edit.start)
        && text.is_char_boundary(edit.end)
}

/// An edit, if it is between characters of a text from a byte on.
fn kept(text: &str, from: usize, edit: Option<Edit>) -> Option<Edit>
    ensures { IfSome result (λ e. FitsFrom text.now from e) }
{
    match edit {
        Some(edit) if fits(text, from, &edit) => Some(edit),
        _ => None,
    }
}

/// Where an edit ends, or this byte if there is none.
fn end_behind(from: usize, edit: &Option<Edit>) -> usize
    ensures { result ≡ end_of from (option_to_list edit.now) }
{
    match edit {
        Some(edit) => edit.end,
        None => from,
    }
}

/// Findings of a text, in its order: each is in it, and begins behind the one before. Their edits are apart.
#[derive(Drop)]
pub struct Ordered<'a> {
    text: &'a str,
    list: Vec<Finding>,
    next: usize,
    edited: usize,
    ghost listed: { AreListed text.now next edited list.items },
}

impl<'a> Ordered<'a> {
    /// No finding of this text yet.
    #[tactic(auto, using(crate::proofs::Listing::no_findings))]
    pub fn new(alloc: Global, text: &'a str) -> Ordered<'a>
        ensures { result.text.now ≡ text.now }
    {
        Ordered {
            text,
            list: Vec::new(alloc),
            next: 0,
            edited: 0,
        }
    }

    /// Adds a finding, unless it begins no later than the last one, or is not in the text. Its edit is left out if it
    /// isn't behind the edits before it.
    #[tactic(auto, using(crate::proofs::Listing::one_more))]
    pub fn push(&mut self, mut finding: Finding) -> Result<(), AllocError>
        ensures { self.new.text ≡ self.old.text }
    {
        let (start, end) = (finding.start, finding.end);
        if start < self.next || end < start || self.text.len() < end || start == usize::MAX {
            return Ok(());
        }
        finding.edit = kept(self.text, self.edited, finding.edit);
        let edited = end_behind(self.edited, &finding.edit);
        match self.list.push(finding) {
            Ok(()) => {
                self.edited = edited;
                self.next = start + 1;
                Ok(())
            }
            Err(_) => Err(AllocError),
        }
    }

    /// The findings.
    #[tactic(auto, using(crate::proofs::Listing::all_findings))]
    pub fn into_list(self) -> Vec<Finding>
        ensures { AreFindingsOf self.entry.text.now result.items }
    {
        self.list
    }
}
