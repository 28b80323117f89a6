//! What is wrong, by the token that it is about.

use crate::draft::Draft;
use crate::spot::Spot;
use wit_tree::{Problem, Wanted};

/// The bytes of a token that are shown.
const SHOWN: usize = 40;

/// A token as it is shown: its first line, if this is short.
fn shown(text: &str) -> &str {
    let line = match text.split_once('\n') {
        Some((line, _)) => line,
        None => text,
    };
    if line.len() <= SHOWN {
        return line;
    }
    for length in 0..4 {
        if let Some(front) = line.get(..SHOWN.saturating_sub(length)) {
            return front;
        }
    }
    ""
}

/// Appends what was found, and what is said of it.
fn push_found(draft: &mut Draft, found: &str, words: &str) {
    if found.is_empty() {
        draft.headline.push("the end of the text");
    } else {
        draft.headline.push_three("`", shown(found), "`");
    }
    draft.headline.push(words);
}

/// Appends what is said of a character: its code too, if it is not of ASCII, and the code alone if it is not printed.
fn push_character(draft: &mut Draft, found: &str) {
    let character = found.chars().next().unwrap_or(' ');
    let code = character as u32;
    let alloc = draft.headline.alloc();
    if character.is_ascii_graphic() {
        draft.headline.push_three("`", found, "`");
    } else if character.is_ascii() {
        draft.headline.push_made(format!(in alloc; "U+{code:04X}"));
    } else {
        draft
            .headline
            .push_made(format!(in alloc; "`{found}` (U+{code:04X})"));
    }
    draft.headline.push(" is no character of WIT");
}

/// What has to stand there, and what was found.
fn push_expected(draft: &mut Draft, wanted: Wanted, found: &str) {
    let name = wanted.to_string(draft.headline.alloc());
    draft.headline.push("expected ");
    draft.headline.push_made(name);
    draft.headline.push(", found ");
    push_found(draft, found, "");
}

/// The headline of a problem.
pub fn push_headline(draft: &mut Draft, spot: Spot<'_>, problem: Problem) {
    let found = spot.between(draft.start, draft.end);
    match problem {
        Problem::Expected(wanted) => push_expected(draft, wanted, found),
        Problem::Missing(mark) | Problem::Instead(mark) | Problem::Unclosed(mark, _) => {
            push_expected(draft, Wanted::Mark(mark), found);
        }
        Problem::Stray => push_found(draft, found, " has no place here"),
        Problem::NoParts => push_found(draft, found, " holds no types"),
        Problem::KeywordAsName => push_found(draft, found, " is a keyword, and no name"),
        Problem::BadWord | Problem::SnakeCase => push_found(draft, found, " is no name"),
        Problem::BadCharacter => push_character(draft, found),
        Problem::OpenComment => push_found(draft, found, " begins a comment that nothing closes"),
        Problem::Deep => push_found(draft, found, " is within too many types"),
        Problem::BadVersion => push_found(draft, found, " is no version"),
        Problem::PackageLetters => push_found(draft, found, " is no name of a package"),
        Problem::Outside(feature) => {
            let name = feature.to_string(draft.headline.alloc());
            draft.headline.push("unsupported ");
            draft.headline.push_made(name);
            draft.headline.push(": ");
            push_found(draft, found, "");
        }
    }
}
