//! What is told of a text.
ghost use Rattle.std.specs.Prelude.{◌≡◌, ◌↔◌};
ghost use Rattle.wit_findings.specs.Numbers.{number_of_problem};

use text_edits::Edit;
use wit_tree::Problem;

/// How much a finding weighs.
#[derive(Clone, Copy, Debug, PartialEq, Eq)]
pub enum Severity {
    /// The text is no WIT.
    Error,
    /// It is WIT, and outside of what is read.
    Note,
}

/// Another place of the text that a finding is about.
#[derive(Clone, Copy)]
pub struct Related {
    pub start: usize,
    pub end: usize,
    pub message: &'static str,
}

/// What is wrong with a text, where, and what to do about it.
#[derive(Drop)]
pub struct Finding {
    /// The number of the error, as docs/ERRORS.md has it.
    pub number: u8,
    /// The bytes `start..end` that it is about. Where a mark is missing at the end of a line, they are none.
    pub start: usize,
    pub end: usize,
    /// What is wrong, by the token that it is about.
    pub headline: String,
    /// What to do. No text if there is nothing to say.
    pub hint: String,
    /// The mark that is not closed, if it is about one.
    pub related: Option<Related>,
    /// What mends it, if there is exactly one way to mend it.
    pub edit: Option<Edit>,
}

impl Finding {
    /// How much it weighs: 33 alone is a note.
    pub fn severity(&self) -> Severity
        ensures { (result ≡ Severity.Note) ↔ (self.now.number ≡ 33) }
    {
        if self.number == 33 {
            Severity::Note
        } else {
            Severity::Error
        }
    }
}

/// The number of a problem's error.
pub(crate) fn number_of(problem: Problem) -> u8
    ensures { result ≡ number_of_problem problem }
{
    match problem {
        Problem::BadCharacter | Problem::BadWord => 30,
        Problem::OpenComment => 31,
        Problem::Outside(_) => 33,
        Problem::Deep => 34,
        _ => 32,
    }
}
