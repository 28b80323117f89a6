//! Marks and words of JSON. No label and no full name has a character that JSON escapes.

use canonical_abi::CoreKind;
use layout::Kinds;
use tables::ValType;
use text_builder::TextBuilder;

/// Appends a word in quotes.
pub fn push_word(text: &mut TextBuilder, word: &str) {
    text.push_three("\"", word, "\"");
}

/// Appends a number after what it is of.
pub fn push_number(text: &mut TextBuilder, what: &str, number: u32) {
    text.push(what);
    text.push_number(number as usize);
}

/// Appends a type: its word, or the number of its row. `null` if there is none.
pub fn push_type(text: &mut TextBuilder, ty: Option<ValType>) {
    match ty {
        None => text.push("null"),
        Some(ValType::Primitive(primitive)) => push_word(text, primitive.keyword()),
        Some(ValType::String) => push_word(text, "string"),
        Some(ValType::Id(id)) => text.push_number(id.0 as usize),
    }
}

fn kind_word(kind: CoreKind) -> &'static str {
    match kind {
        CoreKind::I32 => "i32",
        CoreKind::I64 => "i64",
    }
}

/// Appends a list of core kinds.
pub fn push_kinds(text: &mut TextBuilder, kinds: &[CoreKind]) {
    text.push("[");
    for (place, kind) in kinds.iter().enumerate() {
        text.separate(place, ",");
        text.push_three("\"", kind_word(*kind), "\"");
    }
    text.push("]");
}

/// Appends flat kinds. `null` if they are more than 16.
pub fn push_flat(text: &mut TextBuilder, kinds: &Kinds) {
    match kinds {
        Kinds::Flat(kinds) => push_kinds(text, kinds.as_slice()),
        Kinds::Spilled => text.push("null"),
    }
}
