//! Brackets and types among words.

use crate::spot::Spot;
use wit_tokens::{Keyword, Punctuation};

/// The mark that closes what another one opens.
fn closer(mark: Punctuation) -> Option<Punctuation> {
    match mark {
        Punctuation::OpenParenthesis => Some(Punctuation::CloseParenthesis),
        Punctuation::Less => Some(Punctuation::Greater),
        Punctuation::OpenBrace => Some(Punctuation::CloseBrace),
        _ => None,
    }
}

/// The words that are looked at for the other one of two brackets.
const NEAR: usize = 1000;

/// The index of the mark that closes the one at an index.
pub fn closing(spot: Spot<'_>, open: usize) -> Option<usize> {
    let mark = spot.mark(open)?;
    let close = closer(mark)?;
    let mut level: usize = 0;
    for ahead in 0..NEAR {
        let index = open.saturating_add(ahead);
        let found = spot.mark(index);
        if found == Some(mark) {
            level = level.saturating_add(1);
        } else if found == Some(close) {
            level = level.saturating_sub(1);
        }
        if level == 0 {
            return Some(index);
        }
        if spot.word(index).is_empty() {
            return None;
        }
    }
    None
}

/// The index of the `<` that the `>` at an index closes.
fn opening(spot: Spot<'_>, close: usize) -> Option<usize> {
    let mut level: usize = 0;
    for back in 0..NEAR {
        let index = close.checked_sub(back)?;
        match spot.mark(index) {
            Some(Punctuation::Greater) => level = level.saturating_add(1),
            Some(Punctuation::Less) => level = level.saturating_sub(1),
            _ => {}
        }
        if level == 0 {
            return Some(index);
        }
    }
    None
}

/// The index of the last word of the type that begins at an index.
pub fn type_end(spot: Spot<'_>, first: usize) -> Option<usize> {
    let next = first.saturating_add(1);
    if !begins_type(spot, first) {
        return None;
    }
    if spot.mark(next) == Some(Punctuation::Less) {
        return closing(spot, next);
    }
    Some(first)
}

/// The index of the first word of the type that ends at an index.
pub fn type_start(spot: Spot<'_>, last: usize) -> Option<usize> {
    if spot.mark(last) == Some(Punctuation::Greater) {
        return opening(spot, last)?.checked_sub(1);
    }
    begins_type(spot, last).then_some(last)
}

/// Whether a keyword is a type, or begins one.
pub fn is_type(keyword: Keyword) -> bool {
    matches!(
        keyword,
        Keyword::Bool
            | Keyword::Char
            | Keyword::String
            | Keyword::S8
            | Keyword::S16
            | Keyword::S32
            | Keyword::S64
            | Keyword::U8
            | Keyword::U16
            | Keyword::U32
            | Keyword::U64
            | Keyword::F32
            | Keyword::F64
            | Keyword::List
            | Keyword::Option
            | Keyword::Result
            | Keyword::Tuple
    )
}

/// Whether a word may begin a type.
pub fn begins_type(spot: Spot<'_>, index: usize) -> bool {
    match spot.keyword(index) {
        Some(keyword) => is_type(keyword),
        None => spot.is_name(index),
    }
}

/// Whether a function begins at an index: a name, `:` and `func`.
pub fn is_function(spot: Spot<'_>, index: usize) -> bool {
    spot.is_named(index) && spot.keyword(index.saturating_add(2)) == Some(Keyword::Func)
}

/// Whether a keyword begins what an interface has.
fn begins_definition(keyword: Keyword) -> bool {
    matches!(
        keyword,
        Keyword::Record
            | Keyword::Variant
            | Keyword::Enum
            | Keyword::Flags
            | Keyword::Type
            | Keyword::Resource
            | Keyword::Use
    )
}

/// Whether what an interface has begins at an index.
pub fn is_item(spot: Spot<'_>, index: usize) -> bool {
    match spot.keyword(index) {
        Some(keyword) if begins_definition(keyword) => spot.is_word(index.saturating_add(1)),
        _ => is_function(spot, index),
    }
}
