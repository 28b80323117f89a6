//! What to do about a fault that is found as a text is read.

use crate::bad::{of_bad, of_name};
use crate::earlier::earlier_line;
use crate::features::of_feature;
use crate::marks::of_mark;
use crate::missing::{of_identifier, of_missing_keyword};
use crate::versions::of_at;
use near_names::kebab;
use std::alloc::Global;
use text_builder::TextBuilder;
use wit_places::{Lexed, Spot, Within, keyword_at};
use wit_text::{Expected, Keyword, Punctuation, Span, TextError};

/// What to do if there is no memory.
pub static MORE_MEMORY: &str = "give the process more memory";

/// The word that has a `_`, from the token before it on.
fn word_around(spot: &Spot<'_>) -> Option<Span> {
    let start = spot.lexed.span_at(spot.before)?.start;
    let text = spot.lexed.text.get(start..)?;
    let length = text
        .chars()
        .take_while(|character| character.is_ascii_alphanumeric()
            || matches!(*character, '_' | '-'))
        .count();
    let end = start.saturating_add(length);
    Some(Span { start, end })
}

/// The `_` that is at a place, or right after the keyword there.
fn underscore_at(lexed: &Lexed<'_>, span: Span) -> Option<Span> {
    if lexed.is_underscore(span) {
        return Some(span);
    }
    let index = lexed.index_of(span)?;
    keyword_at(lexed, index)?;
    let next = lexed.span_at(index.saturating_add(1))?;
    (next.start == span.end && lexed.is_underscore(next)).then_some(next)
}

/// What to do about a `_` that is not allowed where it is: it is in a name, which is written otherwise, or in a result.
fn of_underscore(text: &mut TextBuilder, spot: &Spot<'_>) {
    if matches!(spot.within, Within::Angles) && spot.word_before() == "," {
        return text.push("leave out the `_` and the `,` before it");
    }
    match word_around(spot) {
        Some(word) if word.end > spot.span.end => {
            let name = kebab(text.alloc(), spot.lexed.at(word));
            let name = text.kept(name);
            of_name(text, spot.lexed, word, name.as_str());
        }
        _ => text.push("names are joined by `-`, not by `_`"),
    }
}

/// What to do if another token has to come. A `/` that begins a line has to be a comment.
fn of_expected(text: &mut TextBuilder, spot: &Spot<'_>, expected: Expected) {
    let is_end = spot.span.start >= spot.lexed.text.len() && !matches!(spot.within, Within::File);
    let begins_line = spot.index == 0 || earlier_line(spot).is_some();
    match expected {
        Expected::Punctuation(Punctuation::Semicolon) => {
            of_mark(text, spot, Punctuation::Semicolon);
        }
        Expected::Identifier | Expected::Keyword(_)
            if begins_line && spot.mark() == Some(Punctuation::Slash) => {
            text.push("a comment begins with `//`");
        }
        _ if is_end => text.push("the file ends here; is a `}` missing?"),
        Expected::Punctuation(mark) => of_mark(text, spot, mark),
        Expected::Keyword(Keyword::As) => of_mark(text, spot, Punctuation::Comma),
        Expected::Keyword(keyword) => of_missing_keyword(text, spot, keyword),
        Expected::Identifier => of_identifier(text, spot),
        Expected::Version => of_at(text, spot),
    }
}

/// Appends what to do about a fault of a text.
pub fn hint_of_text(text: &mut TextBuilder, alloc: Global, lexed: &Lexed<'_>, error: &TextError) {
    match error {
        TextError::BadChar(span) => of_bad(text, alloc, lexed, *span),
        TextError::Expected(expected, span) => match underscore_at(lexed, *span) {
            Some(underscore) => of_underscore(text, &Spot::of(lexed, underscore)),
            None => of_expected(text, &Spot::of(lexed, *span), *expected),
        },
        TextError::Unsupported(feature, span) => {
            of_feature(text, &Spot::of(lexed, *span), *feature);
        }
        TextError::OpenComment(_) => text.push("close it with `*/`; comments nest"),
        TextError::Depth(_) => text.push("give a part of the type a name"),
        TextError::NoMemory => text.push(MORE_MEMORY),
        TextError::Limit => text.push("split the package"),
    }
}
