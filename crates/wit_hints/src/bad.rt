//! What to do about a character that begins no token, or a word that is no name.

use crate::features::NO_FLOATS;
use crate::scopes::line_of_taken;
use crate::types::may_have_next;
use near_names::{hint_of_character, holder_for, is_float, kebab, rule_of_names, type_for};
use std::alloc::Global;
use text_builder::TextBuilder;
use wit_places::{Lexed, Spot, Within, keyword_at, mark_at, word_at};
use wit_text::{Keyword, Punctuation, Span};

/// The word that a text begins with, after blanks and colons.
fn first_word(text: &str) -> &str {
    let mut start: usize = 0;
    for (place, character) in text.char_indices() {
        let is_of_word = character.is_ascii_alphanumeric() || character == '-';
        if !is_of_word && (place > start || !matches!(character, ' ' | ':')) {
            return text.get(start..place).unwrap_or("");
        }
        if !is_of_word {
            start = place.saturating_add(1);
        }
    }
    text.get(start..).unwrap_or("")
}

/// The type that a character belongs to: the word before it, or the one after it. It may be none.
fn type_beside<'a>(lexed: &Lexed<'a>, span: Span, is_after: bool) -> &'a str {
    let last = lexed.tokens.len().saturating_sub(1);
    if !is_after && mark_at(lexed, last).is_none() {
        return word_at(lexed, last);
    }
    let word = first_word(lexed.text.get(span.end..).unwrap_or(""));
    if word.is_empty() { ".." } else { word }
}

/// What to do about a `[`.
fn of_bracket(text: &mut TextBuilder, lexed: &Lexed<'_>, span: Span) {
    let name = type_beside(lexed, span, false);
    if matches!(name, "list" | "option" | "result" | "tuple") {
        text.push_three("write `", name, "<..>`");
        text.push_three(" instead of `", name, "[..]`");
    } else {
        text.push_three("a list is written `list<", name, ">`");
    }
}

/// What to do about a `?`.
fn of_question(text: &mut TextBuilder, lexed: &Lexed<'_>, span: Span) {
    let behind = lexed.text.get(span.end..).unwrap_or("");
    let name = type_beside(lexed, span, behind.starts_with(":"));
    text.push_three("what may be missing is written `option<", name, ">`");
}

/// What to do about a `*`: of a `use`, or of a pointer.
fn of_star(lexed: &Lexed<'_>) -> &'static str {
    match mark_at(lexed, lexed.tokens.len().saturating_sub(1)) {
        Some(Punctuation::Dot | Punctuation::OpenBrace) => "name each type that is used",
        _ => "WIT has no pointers: write a `list<..>`, or an `option<..>`",
    }
}

/// What to do about a `|`: between cases or labels, between types, or of a type.
fn of_bar(lexed: &Lexed<'_>, span: Span) -> &'static str {
    match Spot::of(lexed, span).within {
        Within::Variant | Within::Enum | Within::Flags => "write `,` instead of `|`",
        Within::Angles if may_have_next(lexed, lexed.tokens.len()) => "write `,` instead of `|`",
        _ => "a choice of types is a `variant`",
    }
}

/// What to do about a quote. It may be of a text that doesn't begin as one of WIT does.
fn of_quote(lexed: &Lexed<'_>) -> &'static str {
    let is_wit = match keyword_at(lexed, 0) {
        Some(keyword) => matches!(
            keyword,
            Keyword::Package | Keyword::Interface | Keyword::World | Keyword::Use
        ),
        None => mark_at(lexed, 0) == Some(Punctuation::At),
    };
    if !is_wit {
        return "this is no WIT: a file begins with `package NAMESPACE:NAME;`";
    }
    match mark_at(lexed, lexed.tokens.len().saturating_sub(1)) {
        Some(Punctuation::Equals) => "WIT has no values: leave out `=` and what comes after it",
        _ => "names have no quotes",
    }
}

/// What to do about a character that begins no token.
fn of_character(text: &mut TextBuilder, lexed: &Lexed<'_>, span: Span) {
    match lexed.at(span).chars().next() {
        Some('[') => of_bracket(text, lexed, span),
        Some('?') => of_question(text, lexed, span),
        Some('*') => text.push(of_star(lexed)),
        Some('|') => text.push(of_bar(lexed, span)),
        Some('&') => text.push("WIT has no references: leave it out"),
        Some('"' | '\'') => text.push(of_quote(lexed)),
        Some('#') => text.push("a comment begins with `//`"),
        Some('\u{feff}') => text.push("leave out this byte-order mark"),
        Some(character) if !character.is_ascii() => {
            let hint = hint_of_character(text.alloc(), character);
            text.push_made(hint);
        }
        _ => text.push("WIT has no such character here"),
    }
}

/// What to do about a word that is no name, where a type has to come: by default it is written otherwise.
fn of_type(text: &mut TextBuilder, lexed: &Lexed<'_>, span: Span, name: &str) {
    let word = lexed.at(span);
    let behind = lexed.text.get(span.end..).unwrap_or("");
    if behind.starts_with("<")
        && let Some(holder) = holder_for(name)
    {
        text.push_three("write `", holder, "`");
        text.push_three(" instead of `", word, "<..>`");
    } else if is_float(name) {
        text.push(NO_FLOATS);
    } else if let Some(other) = type_for(name) {
        text.push_three("no `", word, "` here; ");
        text.push_three("WIT has `", other, "`");
    } else {
        text.push(rule_of_names(word));
        text.push_three(": write `", name, "`");
    }
}

/// What to do about a word that is no name, where a name has to come: this one is written, with a `%` if it is a
/// keyword.
pub fn of_name(text: &mut TextBuilder, lexed: &Lexed<'_>, span: Span, name: &str) {
    text.push(rule_of_names(lexed.at(span)));
    match line_of_taken(text.alloc(), lexed, span, name) {
        Ok(Some(line)) => {
            text.push_three("; `", name, "` is taken in line ");
            text.push_number(line);
        }
        Ok(None) => {
            let alone = Lexed::new(text.alloc(), "", name);
            let is_keyword = keyword_at(&alone, 0).is_some();
            let front = if is_keyword {
                ": write `%"
            } else {
                ": write `"
            };
            text.push_three(front, name, "`");
        }
        Err(_) => text.refuse(),
    }
}

/// What to do about a bad character, or about a word that is no name. A type has to come after `:`, `<`, `->` and `=`.
pub fn of_bad(text: &mut TextBuilder, alloc: Global, lexed: &Lexed<'_>, span: Span) {
    let word = lexed.at(span);
    if word.len() < 2 || !word.is_ascii() {
        return of_character(text, lexed, span);
    }
    let name = text.kept(kebab(alloc, word));
    let name = name.as_str();
    let wants_type = matches!(
        mark_at(lexed, lexed.tokens.len().saturating_sub(1)),
        Some(Punctuation::Colon | Punctuation::Less | Punctuation::Arrow | Punctuation::Equals)
    );
    if name.is_empty() || name == word {
        text.push("a name is words joined by `-`, each from a letter on");
    } else if wants_type {
        of_type(text, lexed, span, name);
    } else {
        of_name(text, lexed, span, name);
    }
}
