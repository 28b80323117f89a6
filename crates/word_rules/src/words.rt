//! Words that are no names, and words of other languages.

use near_names::{holder_for, is_float, is_nothing, kebab, nearest, rule_of_names, type_for};
use wit_findings::{Draft, Spot, closing};
use wit_tokens::{Punctuation, keyword_of};
use wit_tree::NodeKind;

/// What to do about a float of another language.
static NO_FLOATS: &str = "give another type: floats are not read here";

/// The bytes that a name may have.
const LONGEST: usize = 255;

/// The words that hold types.
static HOLDERS: [&str; 4] = ["list", "option", "result", "tuple"];

/// The words that are types.
static TYPES: [&str; 11] = [
    "bool", "char", "string", "s8", "s16", "s32", "s64", "u8", "u16", "u32", "u64",
];

/// Types of other languages that stand for a place in memory, which no value of WIT has.
static POINTERS: [&str; 10] = [
    "box",
    "rc",
    "arc",
    "ref",
    "ptr",
    "pointer",
    "unique-ptr",
    "shared-ptr",
    "weak",
    "cow",
];

/// Types of other languages that WIT has nothing for.
static STRANGERS: [&str; 10] = [
    "u128", "i128", "s128", "any", "object", "unknown", "dynamic", "promise", "task", "never",
];

/// The nearest of these words. A refused allocation is noted.
fn near<'a>(draft: &mut Draft, word: &str, names: &[&'a str]) -> Option<&'a str> {
    match nearest(draft.hint.alloc(), word, names) {
        Ok(found) => found,
        Err(_) => {
            draft.hint.refuse();
            None
        }
    }
}

/// One of these words that this one is but for the case of letters, or else the nearest.
pub fn meant<'a>(draft: &mut Draft, word: &str, names: &[&'a str]) -> Option<&'a str> {
    for name in names {
        if name.eq_ignore_ascii_case(word) {
            return Some(*name);
        }
    }
    near(draft, word, names)
}

/// A word in kebab case.
fn kebab_of(draft: &mut Draft, word: &str) -> String {
    let alloc = draft.hint.alloc();
    draft.hint.kept(kebab(alloc, word))
}

/// What to do about a type that WIT has nothing for. Whether it is one.
fn of_stranger(draft: &mut Draft, word: &str, name: &str) -> bool {
    if POINTERS.contains(&name) {
        draft.say(&[
            "values have no pointers: write the type without `",
            word,
            "`",
        ]);
    } else if STRANGERS.contains(&name) {
        draft.say(&["WIT has no `", word, "`: declare a type for it"]);
    } else {
        return false;
    }
    true
}

/// What to do about a type of another language, by its name in kebab case, and the type of WIT for it if there is one.
fn of_type(draft: &mut Draft, word: &str, name: &str) -> Option<&'static str> {
    for own in &TYPES {
        if own.eq_ignore_ascii_case(name) {
            draft.say_instead(*own, word);
            return Some(*own);
        }
    }
    if is_float(name) {
        draft.say(&[NO_FLOATS]);
    } else if is_nothing(name) {
        draft.say(&["leave out `-> ", word, "`, or write `_` in a result"]);
    } else if !of_stranger(draft, word, name) {
        let other = type_for(name)?;
        draft.say(&["no `", word, "` here; WIT has `"]);
        draft.say(&[other, "`"]);
        return Some(other);
    }
    None
}

/// Whether a type has to come at a word.
fn wants_type(spot: Spot<'_>) -> bool {
    match spot.mark_before() {
        Some(Punctuation::Less | Punctuation::Arrow | Punctuation::Equals) => true,
        Some(Punctuation::Colon) => matches!(
            spot.within(spot.at),
            NodeKind::Record | NodeKind::Parameters | NodeKind::NamedResults | NodeKind::TypeOf
        ),
        Some(Punctuation::Comma) => {
            let has_names = matches!(
                spot.within(spot.at),
                NodeKind::Record
                    | NodeKind::Variant
                    | NodeKind::Enum
                    | NodeKind::Flags
                    | NodeKind::Use
            );
            !has_names && !spot.is_named(spot.at)
        }
        Some(Punctuation::OpenParenthesis) => spot.within(spot.at) == NodeKind::Case,
        _ => false,
    }
}

/// Says how a name is written, and mends it.
fn rename(draft: &mut Draft, word: &str, name: &str) {
    draft.say(&[rule_of_names(word)]);
    if keyword_of(name.as_bytes()).is_some() {
        draft.say(&[": write `%", name, "`"]);
        draft.write(draft.start, draft.end, &["%", name]);
    } else {
        draft.say(&[": write `", name, "`"]);
        draft.write(draft.start, draft.end, &[name]);
    }
}

/// What to do about a word that is no name: it may be a type.
pub fn of_bad_word(draft: &mut Draft, spot: Spot<'_>) {
    let word = spot.between(draft.start, draft.end);
    let name = kebab_of(draft, word);
    let name = name.as_str();
    if wants_type(spot) {
        if let Some(own) = of_type(draft, word, name) {
            draft.write(draft.start, draft.end, &[own]);
        }
    }
    if !draft.is_open() {
        return;
    }
    if name.len() > LONGEST {
        draft.say(&["a name has at most 255 bytes"]);
    } else if name.is_empty() || name == word {
        draft.say(&["a name is words joined by `-`, each from a letter on"]);
    } else {
        rename(draft, word, name);
    }
}

/// Writes a type that holds others in place of a word, with what is in its `<` and `>`.
fn write_holder(draft: &mut Draft, spot: Spot<'_>, own: &str) {
    draft.say(&["write `", own, "` instead of `", spot.here(), "<..>`"]);
    let Some((front, back)) = own.split_once("..") else {
        return;
    };
    let open = spot.ahead(1);
    let Some(close) = closing(spot, open) else {
        return;
    };
    if back == ">" {
        let name = front.strip_suffix("<").unwrap_or(front);
        return draft.write(spot.start(spot.at), spot.end(spot.at), &[name]);
    }
    let parts = spot.between(spot.end(open), spot.start(close));
    draft.write(spot.start(spot.at), spot.end(close), &[front, parts, back]);
}

/// What to do about a word before `<` that holds no types.
pub fn of_holder(draft: &mut Draft, spot: Spot<'_>) {
    let word = spot.here();
    let name = kebab_of(draft, word);
    let name = name.as_str();
    if let Some(own) = meant(draft, name, &HOLDERS) {
        draft.say(&["write `", own, "<..>` "]);
        draft.say(&["instead of `", word, "<..>`"]);
        draft.write(spot.start(spot.at), spot.end(spot.at), &[own]);
    } else if let Some(own) = holder_for(name) {
        write_holder(draft, spot, own);
    } else if !of_stranger(draft, word, name) {
        draft.say(&[
            "`",
            word,
            "` holds no types: `list`, `option`, `result`, `tuple` do",
        ]);
    }
}

/// What to do about a name of a package that has capital letters.
pub fn of_package_name(draft: &mut Draft, spot: Spot<'_>) {
    let word = spot.between(draft.start, draft.end);
    let lower = word.to_ascii_lowercase(draft.hint.alloc());
    let lower = draft.hint.kept(lower);
    draft.say(&[
        "the name of a package is in lower case: write `",
        lower.as_str(),
        "`",
    ]);
    draft.write(draft.start, draft.end, &[lower.as_str()]);
}
