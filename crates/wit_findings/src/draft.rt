//! A finding that is being written.
ghost use Rattle.std.specs.Prelude.{◌≡◌, IfOk};
ghost use Rattle.wit_findings.specs.Numbers.{number_of_problem};

use crate::finding::{Finding, Related, number_of};
use crate::spot::Spot;
use std::alloc::{AllocError, Global};
use text_builder::TextBuilder;
use text_edits::Edit;
use wit_tree::Told;

/// The bytes that a part of a hint may have.
const SHOWN: usize = 120;

/// A finding so far. Once an allocation was refused, `finish` fails.
#[derive(Drop)]
pub struct Draft {
    /// The number of its error.
    pub number: u8,
    pub start: usize,
    pub end: usize,
    pub headline: TextBuilder,
    pub hint: TextBuilder,
    pub related: Option<Related>,
    /// Faults that begin before this byte are of the same cause, and are not told.
    pub muted: usize,
    edit: Option<Edit>,
}

impl Draft {
    /// A finding about a fault, of which nothing is said yet.
    pub fn new(alloc: Global, told: &Told) -> Draft
        ensures number { result.number ≡ number_of_problem told.now.problem }
        ensures start { result.start ≡ told.now.start }
        ensures end { result.end ≡ told.now.end }
    {
        Draft {
            number: number_of(told.problem),
            start: told.start,
            end: told.end,
            headline: TextBuilder::new(alloc),
            hint: TextBuilder::new(alloc),
            related: None,
            muted: 0,
            edit: None,
        }
    }

    /// Whether nothing is said yet of what to do.
    pub fn is_open(&self) -> bool {
        self.hint.as_str().is_empty()
    }

    /// Appends to what to do. A part that is long or of several lines is left out.
    pub fn say(&mut self, parts: &[&str]) {
        for part in parts {
            let is_hidden = part.len() > SHOWN || part.contains('\n');
            self.hint.push(if is_hidden { ".." } else { part });
        }
    }

    /// Says to write a text in place of another one.
    pub fn say_instead(&mut self, own: &str, found: &str) {
        self.say(&["write `", own, "` instead of `", found, "`"]);
    }

    /// Says to write a text before another one.
    pub fn say_before(&mut self, own: &str, found: &str) {
        self.say(&["write `", own, "` before `", found, "`"]);
    }

    /// Says to write a text in place of a word, and does so.
    pub fn replace(&mut self, spot: Spot<'_>, own: &str) {
        self.say_instead(own, spot.here());
        self.write(spot.start(spot.at), spot.end(spot.at), &[own]);
    }

    /// Moves the finding to other bytes.
    pub fn place(&mut self, start: usize, end: usize) {
        self.start = start;
        self.end = end;
    }

    /// What mends it: these texts in place of bytes.
    pub fn write(&mut self, start: usize, end: usize, parts: &[&str]) {
        let mut text = TextBuilder::new(self.hint.alloc());
        text.push_all(parts);
        match text.finish() {
            Ok(text) => self.edit = Some(Edit { start, end, text }),
            Err(_) => self.hint.refuse(),
        }
    }

    /// Leaves it open how it is mended.
    pub fn unmend(&mut self) {
        self.edit = None;
    }

    /// The finding.
    pub fn finish(self) -> Result<Finding, AllocError>
        ensures number { IfOk result (λ f. f.number ≡ self.number) }
        ensures start { IfOk result (λ f. f.start ≡ self.start) }
        ensures end { IfOk result (λ f. f.end ≡ self.end) }
    {
        Ok(Finding {
            number: self.number,
            start: self.start,
            end: self.end,
            headline: self.headline.finish()?,
            hint: self.hint.finish()?,
            related: self.related,
            edit: self.edit,
        })
    }
}
