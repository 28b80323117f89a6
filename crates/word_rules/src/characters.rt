//! What to do about characters that WIT does not have.

use near_names::hint_of_character;
use wit_findings::{Draft, Spot, type_end, type_start};
use wit_tokens::Punctuation;
use wit_tree::NodeKind;

/// The part of a text up to the end of its line.
fn line_of(text: &str) -> &str {
    match text.split_once('\n') {
        Some((line, _)) => line,
        None => text,
    }
}

/// Whether a text is one word, or a type in `<` and `>`.
fn is_plain(text: &str) -> bool {
    for character in text.chars() {
        let is_of_type = character.is_ascii_alphanumeric()
            || matches!(character, '-' | '<' | '>' | ',' | ' ' | '_');
        if !is_of_type {
            return false;
        }
    }
    !text.is_empty()
}

/// What to do about a `[` right behind a word, whose `]` ends at a byte. It is around types, or says that this is a list.
fn of_bracket_behind(draft: &mut Draft, spot: Spot<'_>, inside: &str, end: usize) {
    let Some(last) = spot.at.checked_sub(1) else {
        return;
    };
    let Some(first) = type_start(spot, last) else {
        return;
    };
    let (start, name) = (spot.start(first), spot.words(first, last));
    if matches!(name, "list" | "option" | "result" | "tuple") {
        draft.say(&["write `", name, "<", inside, ">` instead of `"]);
        draft.say(&[name, "[", inside, "]`"]);
        draft.write(start, end, &[name, "<", inside, ">"]);
    } else if matches!(spot.within_before(), NodeKind::Variant | NodeKind::Case) {
        draft.say(&["a case with a value is written `", name, "(", inside, ")`"]);
        draft.write(start, end, &[name, "(", inside, ")"]);
    } else if name == "map" {
        draft.say(&["a map is a list of pairs: write `list<tuple<..>>`"]);
    } else {
        draft.say(&["a list is written `list<", name, ">`"]);
        if inside.is_empty() {
            draft.write(start, end, &["list<", name, ">"]);
        }
    }
}

/// What to do about a type between `[` and `]`, or behind both. The `]` ends at a byte. A length is left out.
fn of_array(draft: &mut Draft, spot: Spot<'_>, inside: &str, end: usize) {
    let front = match inside.split_once(';') {
        Some((front, _)) => front.trim_end(),
        None => inside,
    };
    match type_end(spot, spot.at) {
        Some(last) if front.is_empty() => {
            let name = spot.words(spot.at, last);
            draft.say(&["a list is written `list<", name, ">`"]);
            draft.write(draft.start, spot.end(last), &["list<", name, ">"]);
        }
        _ if is_plain(front) => {
            draft.say(&["a list is written `list<", front, ">`"]);
            draft.write(draft.start, end, &["list<", front, ">"]);
        }
        _ => draft.say(&["a list is written `list<..>`"]),
    }
}

/// What to do about a `[`.
fn of_bracket(draft: &mut Draft, spot: Spot<'_>) {
    let behind = line_of(spot.behind(draft.start.saturating_add(1)));
    let Some((inside, _)) = behind.split_once(']') else {
        return draft.say(&["a list is written `list<..>`"]);
    };
    let end = draft.start.saturating_add(inside.len()).saturating_add(2);
    draft.muted = end;
    if spot.before() == "func" {
        draft.say(&["the parameters of a function are between `(` and `)`"]);
    } else if spot.end_before() == draft.start && spot.mark_before() != Some(Punctuation::Colon) {
        of_bracket_behind(draft, spot, inside, end);
    }
    if draft.is_open() {
        of_array(draft, spot, inside, end);
    }
}

/// The words of the type that a `?` is behind, or that comes after the name which it is behind.
fn type_of_question(spot: Spot<'_>) -> Option<(usize, usize)> {
    if spot.mark(spot.at) == Some(Punctuation::Colon) {
        let first = spot.ahead(1);
        return Some((first, type_end(spot, first)?));
    }
    let last = spot.at.checked_sub(1)?;
    Some((type_start(spot, last)?, last))
}

/// What to do about a `?`.
fn of_question(draft: &mut Draft, spot: Spot<'_>) {
    let Some((first, last)) = type_of_question(spot) else {
        return draft.say(&["what may be missing is written `option<..>`"]);
    };
    let name = spot.words(first, last);
    draft.say(&["what may be missing is written `option<", name, ">`"]);
    if first > spot.at {
        draft.write(draft.start, spot.end(last), &[": option<", name, ">"]);
    } else {
        let end = draft.start.saturating_add(1);
        draft.write(spot.start(first), end, &["option<", name, ">"]);
    }
}

/// What to do about a `&`: it goes, and `str` is a string.
fn of_reference(draft: &mut Draft, spot: Spot<'_>) {
    let end = draft.start.saturating_add(1);
    if spot.here() == "str" && spot.start(spot.at) == end {
        draft.say(&["write `string` instead of `&str`"]);
        return draft.write(draft.start, spot.end(spot.at), &["string"]);
    }
    if spot.here() == "mut" {
        draft.say(&["WIT has no references: leave out `&mut`"]);
        draft.write(draft.start, spot.start(spot.ahead(1)), &[]);
        draft.muted = spot.end(spot.ahead(1));
    } else {
        draft.say(&["WIT has no references: leave it out"]);
        draft.write(draft.start, end, &[]);
    }
}

/// What to do about a `*`: of a `use`, or of a pointer.
fn of_star(draft: &mut Draft, spot: Spot<'_>) {
    draft.say(&[match spot.mark_before() {
        Some(Punctuation::Dot | Punctuation::OpenBrace) => "name each type that is used",
        _ => "WIT has no pointers: write a `list<..>`, or an `option<..>`",
    }]);
    if matches!(spot.here(), "const" | "mut") {
        draft.muted = spot.end(spot.ahead(1));
    }
}

/// What to do about a `|`.
fn of_bar(draft: &mut Draft, spot: Spot<'_>) {
    let scope = spot.within_before();
    if matches!(scope, NodeKind::Variant | NodeKind::Enum | NodeKind::Flags) {
        draft.say(&["write `,` instead of `|`"]);
        draft.write(draft.start, draft.start.saturating_add(1), &[","]);
    } else {
        draft.say(&["a choice of types is a `variant`"]);
    }
}

/// Whether a `:` before this says that the type of a field or a parameter comes.
fn is_before_type(spot: Spot<'_>) -> bool {
    spot.mark_before() == Some(Punctuation::Colon)
        && matches!(
            spot.within_before(),
            NodeKind::Record | NodeKind::Parameters
        )
}

/// What to do about a quote.
fn of_quote(draft: &mut Draft, spot: Spot<'_>) {
    let line = line_of(spot.behind(draft.start));
    if line.starts_with("\"\"\"") || line.starts_with("'''") {
        draft.say(&["a comment begins with `//`, or is between `/*` and `*/`"]);
    } else if spot.mark_before() == Some(Punctuation::Equals) || is_before_type(spot) {
        draft.say(&["WIT has no values: a choice of texts is an `enum`"]);
    } else {
        draft.say(&["names have no quotes"]);
    }
}

/// What to do about a character that begins a comment elsewhere.
fn of_comment(draft: &mut Draft, length: usize) {
    draft.say(&["a comment begins with `//`"]);
    let end = draft.start.saturating_add(length);
    draft.write(draft.start, end, &["//"]);
}

/// What to do about a `-` by itself: it may begin an arrow, or a comment.
fn of_hyphen(draft: &mut Draft, spot: Spot<'_>) {
    if spot.behind(draft.start).starts_with("--") {
        return of_comment(draft, 2);
    }
    if spot.mark(spot.at) == Some(Punctuation::Greater) {
        draft.say(&["write `->`, without a space"]);
        return draft.write(draft.start, spot.end(spot.at), &["->"]);
    }
    if spot.mark_before() == Some(Punctuation::CloseParenthesis) {
        draft.say_instead("->", "-");
        return draft.write(draft.start, draft.end, &["->"]);
    }
    draft.say(&["words of a name are joined by one `-`, without spaces"]);
}

/// What stands in place of a character that is not of ASCII, if it is one thing.
fn plain(character: char) -> Option<&'static str> {
    match character {
        '\u{A0}' | '\u{2000}'..='\u{200A}' | '\u{202F}' | '\u{205F}' | '\u{3000}' => Some(" "),
        '\u{AD}' | '\u{200B}'..='\u{200F}' | '\u{2060}'..='\u{2064}' | '\u{FEFF}' => Some(""),
        '\u{2192}' | '\u{21D2}' => Some("->"),
        _ => None,
    }
}

/// What to do about a character that is not of ASCII.
fn of_foreign(draft: &mut Draft, character: char) {
    if character == '\u{FEFF}' {
        draft.say(&["leave out this byte-order mark"]);
    } else {
        let hint = hint_of_character(draft.hint.alloc(), character);
        draft.hint.push_made(hint);
    }
    if let Some(own) = plain(character) {
        let end = draft.start.saturating_add(character.len_utf8());
        draft.write(draft.start, end, &[own]);
    }
}

/// What to do about a fence of Markdown: its whole line goes.
fn of_fence(draft: &mut Draft, spot: Spot<'_>) {
    let line = line_of(spot.behind(draft.start));
    draft.say(&["leave it out: a fence is of Markdown, and no WIT"]);
    let end = draft.start.saturating_add(line.trim_end().len());
    draft.write(draft.start, end, &[]);
}

/// What to do about a character that begins no token.
pub fn of_character(draft: &mut Draft, spot: Spot<'_>) {
    match spot.behind(draft.start).chars().next() {
        Some('[') => of_bracket(draft, spot),
        Some('?') => of_question(draft, spot),
        Some('*') => of_star(draft, spot),
        Some('|') => of_bar(draft, spot),
        Some('&') => of_reference(draft, spot),
        Some('"' | '\'') => of_quote(draft, spot),
        Some('#') => of_comment(draft, 1),
        Some('-') => of_hyphen(draft, spot),
        Some('`') => of_fence(draft, spot),
        Some(character) if !character.is_ascii() => of_foreign(draft, character),
        _ => {
            draft.say(&["leave it out: WIT has no such character here"]);
            draft.write(draft.start, draft.end, &[]);
        }
    }
}
