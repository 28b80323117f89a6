//! How marks are written.
ghost use Rattle.std.specs.Prelude.{◌≡◌};
ghost use Rattle.wit_tokens.specs.Marks.{mark_text};

use crate::token::Punctuation;
use std::fmt;

/// The mark's characters.
pub fn mark_text(mark: Punctuation) -> &'static str
    ensures { result.now ≡ mark_text mark }
{
    match mark {
        Punctuation::Arrow => "->",
        Punctuation::Colon => ":",
        Punctuation::Semicolon => ";",
        Punctuation::Comma => ",",
        Punctuation::Dot => ".",
        Punctuation::OpenBrace => "{",
        Punctuation::CloseBrace => "}",
        Punctuation::OpenParenthesis => "(",
        Punctuation::CloseParenthesis => ")",
        Punctuation::Less => "<",
        Punctuation::Greater => ">",
        Punctuation::Equals => "=",
        Punctuation::Slash => "/",
        Punctuation::At => "@",
        Punctuation::Underscore => "_",
    }
}

impl fmt::Display for Punctuation {
    fn fmt<W: fmt::Write>(&self, f: &mut fmt::Formatter<W>) -> fmt::Result {
        f.write_str(mark_text(*self))
    }
}

impl fmt::Debug for Punctuation {
    fn fmt<W: fmt::Write>(&self, f: &mut fmt::Formatter<W>) -> fmt::Result {
        fmt::Display::fmt(self, f)
    }
}
