//! What to do about types in `<` and `>`: too many of them, or none.

use text_builder::TextBuilder;
use wit_places::{Lexed, Spot, commas_between, keyword_at, mark_at, opener, word_at};
use wit_text::{Keyword, Punctuation};

/// Whether a keyword is a type, or begins one.
pub fn is_type(keyword: Keyword) -> bool {
    matches!(
        keyword,
        Keyword::Bool
            | Keyword::Char
            | Keyword::String
            | Keyword::S8
            | Keyword::S16
            | Keyword::S32
            | Keyword::S64
            | Keyword::U8
            | Keyword::U16
            | Keyword::U32
            | Keyword::U64
            | Keyword::List
            | Keyword::Option
            | Keyword::Result
            | Keyword::Tuple
    )
}

/// Whether a token may begin a type.
pub fn begins_type(spot: &Spot<'_>) -> bool {
    match keyword_at(spot.lexed, spot.index) {
        Some(keyword) => is_type(keyword),
        None => spot.lexed.name_at(spot.index).is_some(),
    }
}

/// Whether a type comes after a token, and no name of a field, a parameter or a function.
pub fn precedes_type(spot: &Spot<'_>) -> bool {
    let next = spot.index.saturating_add(1);
    match keyword_at(spot.lexed, next) {
        Some(keyword) => is_type(keyword),
        None => spot.lexed.use_at(next).is_some(),
    }
}

/// Whether the type before a token may have another one after it: in a tuple, or as the first one of a result.
pub fn may_have_next(lexed: &Lexed<'_>, index: usize) -> bool {
    let Some(open) = opener(lexed, index) else {
        return false;
    };
    match keyword_at(lexed, open.saturating_sub(1)) {
        Some(Keyword::Tuple) => true,
        Some(Keyword::Result) => commas_between(lexed, open, index) == 0,
        _ => false,
    }
}

/// What to do about a `,` after the last type that a list, an option or a result may have.
pub fn of_too_many(text: &mut TextBuilder, spot: &Spot<'_>) {
    let open = opener(spot.lexed, spot.index).unwrap_or(0);
    let word = word_at(spot.lexed, open.saturating_sub(1));
    let rule = match word {
        "list" => "a list has one type",
        "option" => "an option has one type",
        "result" => "a result has at most two types, its value and its error",
        _ => return,
    };
    text.push(rule);
    let next = spot.index.saturating_add(1);
    if may_have_next(spot.lexed, open) || spot.lexed.is_named(next) {
        text.push_three("; is a `>` missing after `", spot.word_before(), "`?");
    } else if word == "result" {
        text.push(": put more into a `tuple`");
    } else {
        text.push_three(": for two write `", word, "<tuple<..>>`");
    }
}

/// What to do about a type after a result that has none for its error. No text if it is something else.
pub fn of_error_type(text: &mut TextBuilder, spot: &Spot<'_>) {
    let open = opener(spot.lexed, spot.before).unwrap_or(0);
    let name = open.saturating_sub(1);
    let next = mark_at(spot.lexed, spot.index.saturating_add(1));
    let is_error = mark_at(spot.lexed, spot.before) == Some(Punctuation::Greater)
        && keyword_at(spot.lexed, name) == Some(Keyword::Result)
        && next == Some(Punctuation::Semicolon)
        && begins_type(spot);
    let (Some(first), Some(last)) = (spot.lexed.span_at(name), spot.lexed.span_at(spot.before))
    else {
        return;
    };
    let front = spot.lexed.text.get(first.start..last.start).unwrap_or(",");
    if is_error && !front.contains(',') {
        text.push_three("a result with an error is `", front, ", ");
        text.push(spot.word());
        text.push(">`");
    }
}

/// What to do about a word that holds types, without them. No text if it is no such word.
pub fn of_bare(word: &str) -> &'static str {
    match word {
        "list" => "a list has a type: write `list<..>`",
        "option" => "an option has a type: write `option<..>`",
        "tuple" => "a tuple has types: write `tuple<..>`",
        _ => "",
    }
}
