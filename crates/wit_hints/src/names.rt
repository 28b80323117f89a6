//! What to do about a name that stands for nothing, or is twice in a scope.

use crate::features::NO_FLOATS;
use crate::scopes::{Twins, find_twins};
use crate::source_lines::place_at;
use near_names::{is_float, is_nothing, nearest, type_for};
use std::alloc::{AllocError, Global};
use text_builder::TextBuilder;
use wit_places::{Declarations, Lexed, names_of_types};

/// The words that are types.
static TYPES: [&str; 15] = [
    "bool", "char", "string", "list", "option", "result", "tuple", "s8", "s16", "s32", "s64", "u8",
    "u16", "u32", "u64",
];

/// The nearest to a word among the words that are types and the names of types that the text has.
fn nearest_type<'a>(
    alloc: Global,
    lexed: &Lexed<'a>,
    word: &str,
) -> Result<Option<&'a str>, AllocError> {
    let mut names = names_of_types(alloc, lexed)?;
    for name in &TYPES {
        names.push(name)?;
    }
    nearest(alloc, word, names.as_slice())
}

/// What to do about a name that is no type of another language.
fn of_other_name(text: &mut TextBuilder, lexed: &Lexed<'_>, word: &str) {
    match nearest_type(text.alloc(), lexed, word) {
        Ok(Some(name)) => {
            text.push_three("no `", word, "` here; ");
            text.push_three("did you mean `", name, "`?");
        }
        Ok(None) => {
            text.push_three(
                "declare `",
                word,
                "`, or `use` it from the interface that has it",
            );
        }
        Err(_) => text.refuse(),
    }
}

/// What to do about a name that no interface of its text declares. It may be a type of another language.
fn of_undeclared(text: &mut TextBuilder, lexed: &Lexed<'_>, word: &str) {
    if is_float(word) {
        text.push(NO_FLOATS);
    } else if is_nothing(word) {
        text.push_three("no `", word, "` here: ");
        text.push_three("leave out `-> ", word, "`, or write `_` in a result");
    } else if let Some(name) = type_for(word) {
        text.push_three("no `", word, "` here; ");
        text.push_three("WIT has `", name, "`");
    } else {
        of_other_name(text, lexed, word);
    }
}

/// What to do about a name that stands for nothing.
pub fn hint_of_unknown(text: &mut TextBuilder, alloc: Global, lexed: &Lexed<'_>, word: &str) {
    match Declarations::of(alloc, lexed) {
        Ok(declarations) => match declarations.interface_with(word) {
            Some(interface) => {
                text.push_three("write `use ", interface, ".{");
                text.push(word);
                text.push("};` in this interface");
            }
            None => of_undeclared(text, lexed, word),
        },
        Err(_) => text.refuse(),
    }
}

/// Where a name is: in which line, or in which column of the line of another one.
fn push_place(text: &mut TextBuilder, lexed: &Lexed<'_>, twins: &Twins) {
    let first = place_at(lexed.text, twins.first.start);
    match (first, place_at(lexed.text, twins.second.start)) {
        (Some(first), Some(second)) if first.line == second.line => {
            text.push("column ");
            text.push_number(first.column);
        }
        (Some(first), _) => {
            text.push("line ");
            text.push_number(first.line);
        }
        (None, _) => {}
    }
}

/// What to do about a name that its scope has before. It may be the full name of an interface.
pub fn hint_of_duplicate(text: &mut TextBuilder, lexed: &Lexed<'_>, name: &str) {
    let Some(twins) = find_twins(lexed, name) else {
        return text.push("leave out one of the two");
    };
    let (first, second) = (lexed.at(twins.first), lexed.at(twins.second));
    if name.rsplit_once('/').is_some() {
        text.push("leave out one: the first is in ");
        push_place(text, lexed, &twins);
    } else if first.strip_prefix("%").unwrap_or(first)
        == second.strip_prefix("%").unwrap_or(second)
    {
        text.push("rename one: the first is in ");
        push_place(text, lexed, &twins);
    } else {
        text.push_three("rename one: `", first, "` in ");
        push_place(text, lexed, &twins);
        text.push(" differs in the case of letters alone");
    }
}
