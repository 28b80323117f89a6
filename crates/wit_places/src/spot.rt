//! What is around a token that is not allowed where it is.

use crate::lexed::Lexed;
use wit_text::{Keyword, Punctuation, Span, TokenKind};

/// What has the brackets that a token is in.
#[derive(Clone, Copy)]
pub enum Within {
    /// It is in none.
    File,
    Interface,
    World,
    Record,
    Variant,
    Enum,
    Flags,
    /// The names of a `use`.
    Use,
    Parameters,
    /// The value of a case.
    Payload,
    /// Types in `<` and `>`.
    Angles,
}

/// What a mark does to the brackets that are open.
#[derive(Clone, Copy)]
pub enum Bracket {
    Opens,
    Closes,
    Neither,
}

/// The mark that a token is.
pub fn mark_at(lexed: &Lexed<'_>, index: usize) -> Option<Punctuation> {
    match lexed.tokens.get(index) {
        Some(token) => match token.kind {
            TokenKind::Punctuation(mark) => Some(mark),
            _ => None,
        },
        None => None,
    }
}

/// The keyword that a token is.
pub fn keyword_at(lexed: &Lexed<'_>, index: usize) -> Option<Keyword> {
    match lexed.tokens.get(index) {
        Some(token) => match token.kind {
            TokenKind::Keyword(keyword) => Some(keyword),
            _ => None,
        },
        None => None,
    }
}

/// The text of a token. No text if there is no such token.
pub fn word_at<'a>(lexed: &Lexed<'a>, index: usize) -> &'a str {
    match lexed.span_at(index) {
        Some(span) => lexed.at(span),
        None => "",
    }
}

/// What a mark does to the brackets that are open.
pub fn bracket_of(mark: Option<Punctuation>) -> Bracket {
    match mark {
        Some(Punctuation::OpenBrace | Punctuation::OpenParenthesis | Punctuation::Less) => {
            Bracket::Opens
        }
        Some(Punctuation::CloseBrace | Punctuation::CloseParenthesis | Punctuation::Greater) => {
            Bracket::Closes
        }
        _ => Bracket::Neither,
    }
}

/// The bracket that a token is in, by its number.
pub fn opener(lexed: &Lexed<'_>, index: usize) -> Option<usize> {
    let mut closed: usize = 0;
    for place in (0..index).rev() {
        match bracket_of(mark_at(lexed, place)) {
            Bracket::Opens if closed == 0 => return Some(place),
            Bracket::Opens => closed = closed.saturating_sub(1),
            Bracket::Closes => closed = closed.saturating_add(1),
            Bracket::Neither => {}
        }
    }
    None
}

/// How many commas are between a bracket and a token that it has, apart from those of brackets within it.
pub fn commas_between(lexed: &Lexed<'_>, open: usize, index: usize) -> usize {
    let mut commas: usize = 0;
    let mut depth: usize = 0;
    for place in open.saturating_add(1)..index {
        let mark = mark_at(lexed, place);
        match bracket_of(mark) {
            Bracket::Opens => depth = depth.saturating_add(1),
            Bracket::Closes => depth = depth.saturating_sub(1),
            Bracket::Neither if depth == 0 && mark == Some(Punctuation::Comma) => {
                commas = commas.saturating_add(1);
            }
            Bracket::Neither => {}
        }
    }
    commas
}

/// What has braces after this keyword and a name.
fn braces_of(keyword: Option<Keyword>) -> Within {
    match keyword {
        Some(Keyword::World) => Within::World,
        Some(Keyword::Record) => Within::Record,
        Some(Keyword::Variant) => Within::Variant,
        Some(Keyword::Enum) => Within::Enum,
        Some(Keyword::Flags) => Within::Flags,
        _ => Within::Interface,
    }
}

/// What has the brackets that a token is in.
fn within_at(lexed: &Lexed<'_>, index: usize) -> Within {
    let Some(open) = opener(lexed, index) else {
        return Within::File;
    };
    let before = open.saturating_sub(1);
    match mark_at(lexed, open) {
        Some(Punctuation::Less) => Within::Angles,
        Some(Punctuation::OpenParenthesis) => {
            if keyword_at(lexed, before) == Some(Keyword::Func) {
                Within::Parameters
            } else {
                Within::Payload
            }
        }
        _ if mark_at(lexed, before) == Some(Punctuation::Dot) => Within::Use,
        _ => braces_of(keyword_at(lexed, open.saturating_sub(2))),
    }
}

/// A token that is not allowed where it is.
#[derive(Clone, Copy)]
pub struct Spot<'a> {
    pub lexed: &'a Lexed<'a>,
    pub span: Span,
    /// The number of the token. At the end of the text, the number of all.
    pub index: usize,
    /// The number of the one before it.
    pub before: usize,
    pub within: Within,
}

impl<'a> Spot<'a> {
    /// The token at a span, or the end of the text.
    pub fn of(lexed: &'a Lexed<'a>, span: Span) -> Spot<'a> {
        let place = lexed.tokens.iter().position(|token| token.span() == span);
        let index = place.unwrap_or(lexed.tokens.len());
        Spot {
            lexed,
            span,
            index,
            before: index.saturating_sub(1),
            within: within_at(lexed, index),
        }
    }

    /// Whether the token is a version.
    pub fn is_version(&self) -> bool {
        match self.lexed.tokens.get(self.index) {
            Some(token) => token.kind == TokenKind::Version,
            None => false,
        }
    }

    /// The mark that the token is.
    pub fn mark(&self) -> Option<Punctuation> {
        mark_at(self.lexed, self.index)
    }

    /// The text of the token.
    pub fn word(&self) -> &'a str {
        word_at(self.lexed, self.index)
    }

    /// The text of the token before it.
    pub fn word_before(&self) -> &'a str {
        word_at(self.lexed, self.before)
    }
}
