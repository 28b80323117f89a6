//! What is printed, and the exit status.
ghost use Rattle.std.specs.Prelude.{◌≡◌, [], Some};
ghost use Rattle.wit_faults.specs.Wanting.{IsTold};

use crate::cause::Cause;
use crate::drawing::{Fault, push_fault};
use crate::hints::{Around, Known, hint_of};
use crate::json::push_object;
use crate::paint::Paint;
use crate::places::{Found, first_path, place_in};
use std::alloc::Global;
use text_builder::TextBuilder;
use wit_places::{Lexed, PackageRef};
use wit_text::Span;

/// How faults are written.
#[derive(Clone, Copy)]
pub enum Style {
    /// As text.
    Text(Paint),
    /// As an array of objects.
    Json,
}

/// What is printed, and the exit status: 0, 1 for faults, 2 for words that are no command.
#[derive(Drop)]
pub struct Report {
    pub text: TextBuilder,
    pub status: u8,
    style: Style,
}

impl Report {
    /// Nothing yet, and no fault.
    pub fn new(alloc: Global, style: Style) -> Report
        ensures text { result.text ≡ Some [] }
        ensures status { result.status ≡ 0 }
    {
        Report {
            text: TextBuilder::new(alloc),
            status: 0,
            style,
        }
    }

    /// A text that is no fault.
    pub fn said(alloc: Global, text: &str, status: u8) -> Report
        ensures { result.status ≡ status }
    {
        let mut report = Report::new(alloc, Style::Text(Paint::Plain));
        report.text.push(text);
        report.status = status;
        report
    }

    /// Appends a fault in the report's style. In a text a blank line is between two.
    fn push(&mut self, alloc: Global, fault: &Fault<'_>)
        ensures { self.new.status ≡ self.old.status }
    {
        let is_first = self.text.as_str().is_empty();
        match self.style {
            Style::Text(paint) => {
                self.text.push(if is_first { "" } else { "\n" });
                push_fault(&mut self.text, alloc, paint, fault);
            }
            Style::Json => {
                self.text.push(if is_first { "[\n" } else { ",\n" });
                push_object(&mut self.text, alloc, fault);
            }
        }
    }

    /// Ends the report: of JSON, with the end of the array.
    pub fn finish(&mut self)
        ensures { self.new.status ≡ self.old.status }
    {
        if matches!(self.style, Style::Json) {
            let is_empty = self.text.as_str().is_empty();
            self.text.push(if is_empty { "[]\n" } else { "\n]\n" });
        }
    }

    /// Adds a fault at a place of a text: words, the line with carets, and a hint if there is one.
    pub fn add_at(
        &mut self,
        alloc: Global,
        lexed: &Lexed<'_>,
        span: Option<Span>,
        words: &str,
        hint: &str,
    )
        ensures { self.new.status ≡ 1 }
    {
        self.status = 1;
        let fault = Fault {
            lexed,
            span,
            words,
            hint,
        };
        self.push(alloc, &fault);
    }

    /// Adds a fault of a file by itself, with its place and its hint. Packages that are known are those that the hint
    /// may name. Want of memory is no fault.
    pub fn add(&mut self, alloc: Global, lexed: &Lexed<'_>, known: &[Known<'_>], cause: &Cause)
        requires { IsTold cause.now }
        ensures { self.new.status ≡ 1 }
    {
        self.status = 1;
        match place_in(alloc, lexed, known, cause) {
            Ok(span) => self.add_cause(alloc, Found { lexed, span }, known, cause),
            Err(_) => self.text.refuse(),
        }
    }

    /// Adds a fault at a place of a file, with its hint.
    fn add_cause(&mut self, alloc: Global, found: Found<'_>, known: &[Known<'_>], cause: &Cause)
        ensures { self.new.status ≡ 1 }
    {
        let around = Around { files: &[], known };
        let hint = self.text.kept(hint_of(alloc, found, around, cause));
        let words = self.text.kept(cause.to_string(alloc));
        self.add_at(
            alloc,
            found.lexed,
            found.span,
            words.as_str(),
            hint.as_str(),
        );
    }

    /// Adds a fault at a place of a package. Without any file of it nothing is shown.
    pub fn add_found(&mut self, alloc: Global, found: Option<Found<'_>>, words: &str, hint: &str)
        ensures { self.new.status ≡ 1 }
    {
        self.status = 1;
        if let Some(found) = found {
            self.add_at(alloc, found.lexed, found.span, words, hint);
        }
    }

    /// Adds that a package of these files was not checked, since it depends on one with a fault.
    pub fn leave_out(&mut self, alloc: Global, files: &[Lexed<'_>], package: PackageRef<'_>)
        ensures { self.new.status ≡ 1 }
    {
        let found = match first_path(files, package) {
            Some(found) => Some(Found {
                lexed: found.lexed,
                span: None,
            }),
            None => None,
        };
        let words = format!(in alloc; "not checked: it depends on {package}, which has a fault");
        let words = self.text.kept(words);
        self.add_found(alloc, found, words.as_str(), "");
    }
}
