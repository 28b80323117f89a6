//! Names that are twice in one scope.

use crate::source_lines::place_at;
use std::alloc::{AllocError, Global};
use wit_places::{Bracket, Lexed, bracket_of, keyword_at, mark_at, opener};
use wit_text::{Keyword, Punctuation, Span};

/// Two names of one scope that differ at most in the case of letters.
#[derive(Clone, Copy)]
pub struct Twins {
    pub first: Span,
    pub second: Span,
}

/// Whether a token is a brace around the names of a `use`, which are in the scope around it.
fn is_of_use(lexed: &Lexed<'_>, index: usize) -> bool {
    match mark_at(lexed, index) {
        Some(Punctuation::OpenBrace) => {
            mark_at(lexed, index.saturating_sub(1)) == Some(Punctuation::Dot)
        }
        Some(Punctuation::CloseBrace) => {
            mark_at(lexed, index.saturating_add(1)) == Some(Punctuation::Semicolon)
        }
        _ => false,
    }
}

/// Whether the keyword before a name declares it.
fn declares(keyword: Keyword) -> bool {
    matches!(
        keyword,
        Keyword::Type
            | Keyword::Record
            | Keyword::Variant
            | Keyword::Enum
            | Keyword::Flags
            | Keyword::Interface
            | Keyword::World
            | Keyword::Import
            | Keyword::Export
            | Keyword::As
    )
}

/// Whether a name is declared after this token and before this mark: that of a function, a field, a case, a label or a
/// parameter.
fn is_member(before: Option<Punctuation>, next: Option<Punctuation>) -> bool {
    match before {
        Some(Punctuation::OpenParenthesis) => next == Some(Punctuation::Colon),
        Some(
            Punctuation::OpenBrace
            | Punctuation::CloseBrace
            | Punctuation::Comma
            | Punctuation::Semicolon,
        ) => matches!(
            next,
            Some(
                Punctuation::Colon
                    | Punctuation::Comma
                    | Punctuation::CloseBrace
                    | Punctuation::OpenParenthesis
            )
        ),
        _ => false,
    }
}

/// Whether a token declares this name, apart from the case of letters.
fn declares_name(lexed: &Lexed<'_>, index: usize, name: &str) -> bool {
    let Some(own) = lexed.name_at(index) else {
        return false;
    };
    let before = index.saturating_sub(1);
    let next = mark_at(lexed, index.saturating_add(1));
    let is_declared = match keyword_at(lexed, before) {
        Some(keyword) => declares(keyword),
        None => is_member(mark_at(lexed, before), next),
    };
    is_declared && own.eq_ignore_ascii_case(name)
}

/// Whether one of two items of a world is imported and the other exported.
fn are_on_two_sides(lexed: &Lexed<'_>, first: usize, second: usize) -> bool {
    let first = keyword_at(lexed, first.saturating_sub(1));
    let second = keyword_at(lexed, second.saturating_sub(1));
    matches!(
        (first, second),
        (Some(Keyword::Import), Some(Keyword::Export))
            | (Some(Keyword::Export), Some(Keyword::Import))
    )
}

/// The last token before another one, in its scope, that declares this name, apart from the case of letters.
fn twin_before(lexed: &Lexed<'_>, index: usize, name: &str) -> Option<usize> {
    let mut closed: usize = 0;
    for place in (0..index).rev() {
        let mark = if is_of_use(lexed, place) {
            None
        } else {
            mark_at(lexed, place)
        };
        match bracket_of(mark) {
            Bracket::Closes => closed = closed.saturating_add(1),
            Bracket::Opens => closed = closed.checked_sub(1)?,
            Bracket::Neither => {
                if closed == 0
                    && declares_name(lexed, place, name)
                    && !are_on_two_sides(lexed, place, index)
                {
                    return Some(place);
                }
            }
        }
    }
    None
}

/// Whether a token is among types in `<` and `>`.
fn is_in_angles(lexed: &Lexed<'_>, index: usize) -> bool {
    match opener(lexed, index) {
        Some(open) => mark_at(lexed, open) == Some(Punctuation::Less),
        None => false,
    }
}

/// The label of a full name of an interface, or the name.
fn label_of(name: &str) -> &str {
    let label = match name.rsplit_once('/') {
        Some((_, label)) => label,
        None => name,
    };
    match label.split_once('@') {
        Some((label, _)) => label,
        None => label,
    }
}

/// The first place of a name that its scope has before. The name may be the full name of an interface.
pub fn find_twins(lexed: &Lexed<'_>, name: &str) -> Option<Twins> {
    let name = label_of(name);
    for index in 0..lexed.tokens.len() {
        if lexed.name_at(index) == Some(name)
            && declares_name(lexed, index, name)
            && !is_in_angles(lexed, index)
            && let Some(first) = twin_before(lexed, index, name)
        {
            return Some(Twins {
                first: lexed.span_at(first)?,
                second: lexed.span_at(index)?,
            });
        }
    }
    None
}

/// Another token of the same scope that declares the name of this one.
fn twin_of(lexed: &Lexed<'_>, index: usize, name: &str) -> Option<usize> {
    if !declares_name(lexed, index, name) {
        return None;
    }
    for place in index.saturating_add(1)..lexed.tokens.len() {
        if declares_name(lexed, place, name) && twin_before(lexed, place, name) == Some(index) {
            return Some(place);
        }
    }
    twin_before(lexed, index, name)
}

/// The line of another name like the one at a place of a text, in the same scope.
fn twin_line(alloc: Global, text: &str, at: usize, name: &str) -> Option<usize> {
    let lexed = Lexed::new(alloc, "", text);
    let index = lexed
        .tokens
        .iter()
        .position(|token| token.span().start == at)?;
    let twin = twin_of(&lexed, index, name)?;
    Some(place_at(text, lexed.span_at(twin)?.start)?.line)
}

/// The line in which a name is that a word may not be changed to, as its scope has it already. If the text has other
/// faults after the word, what comes before it is looked at alone.
pub fn line_of_taken(
    alloc: Global,
    lexed: &Lexed<'_>,
    span: Span,
    name: &str,
) -> Result<Option<usize>, AllocError> {
    let front = lexed.text.get(..span.start).unwrap_or("");
    let behind = lexed.text.get(span.end..).unwrap_or("");
    let whole = format!(in alloc; "{front}{name}{behind}")?;
    let line = twin_line(alloc, whole.as_str(), span.start, name);
    if line.is_some() {
        return Ok(line);
    }
    let part = format!(in alloc; "{front}{name}:")?;
    Ok(twin_line(alloc, part.as_str(), span.start, name))
}
