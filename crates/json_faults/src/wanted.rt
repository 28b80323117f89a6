//! What a value of a type is, in words.

use crate::parts::{Part, defined, unnamed};
use serde_json::Value as Json;
use std::alloc::Global;
use tables::{Primitive, Resolve, TypeDefKind, ValType};
use text_builder::TextBuilder;

/// The most labels that are named, and the most bytes of a value that are shown.
const MOST_LABELS: usize = 8;

const MOST_SHOWN: usize = 60;

/// What the values of a primitive type are.
fn values_of(primitive: Primitive) -> &'static str {
    match primitive {
        Primitive::Bool => "`true` or `false`",
        Primitive::S8 => "a whole number from -128 to 127",
        Primitive::U8 => "a whole number from 0 to 255",
        Primitive::S16 => "a whole number from -32768 to 32767",
        Primitive::U16 => "a whole number from 0 to 65535",
        Primitive::S32 => "a whole number from -2147483648 to 2147483647",
        Primitive::U32 => "a whole number from 0 to 4294967295",
        Primitive::S64 => "a whole number of 64 bits",
        Primitive::U64 => "a whole number of 64 bits, from 0 on",
        Primitive::Char => "a text of one character",
    }
}

/// Whether a text has just one character.
fn is_one(text: &str) -> bool {
    match text.chars().next() {
        Some(first) => first.len_utf8() == text.len(),
        None => false,
    }
}

fn is_signed(value: &Json, least: i64, most: i64) -> bool {
    value
        .as_i64()
        .is_some_and(|number| least <= number && number <= most)
}

fn is_unsigned(value: &Json, most: u64) -> bool {
    value.as_u64().is_some_and(|number| number <= most)
}

fn is_primitive(primitive: Primitive, value: &Json) -> bool {
    match primitive {
        Primitive::Bool => value.as_bool().is_some(),
        Primitive::S8 => is_signed(value, -128, 127),
        Primitive::U8 => is_unsigned(value, 255),
        Primitive::S16 => is_signed(value, -32_768, 32_767),
        Primitive::U16 => is_unsigned(value, 65_535),
        Primitive::S32 => is_signed(value, -2_147_483_648, 2_147_483_647),
        Primitive::U32 => is_unsigned(value, 4_294_967_295),
        Primitive::S64 => value.as_i64().is_some(),
        Primitive::U64 => value.as_u64().is_some(),
        Primitive::Char => value.as_str().is_some_and(is_one),
    }
}

/// Whether a value is one of a primitive type or of `string`. Of another type it is.
pub fn is_scalar(ty: ValType, value: &Json) -> bool {
    match ty {
        ValType::Primitive(primitive) => is_primitive(primitive, value),
        ValType::String => value.as_str().is_some(),
        ValType::Id(_) => true,
    }
}

/// Appends a text, cut short.
fn push_shown(words: &mut TextBuilder, text: &str) {
    for (place, character) in text.chars().enumerate() {
        if place == MOST_SHOWN {
            return words.push("..");
        }
        words.push_char(character);
    }
}

/// Appends what a primitive value or a text is.
fn push_scalar(words: &mut TextBuilder, ty: ValType) {
    match ty {
        ValType::Primitive(primitive) => {
            words.push_three("a `", primitive.keyword(), "` is ");
            words.push(values_of(primitive));
        }
        ValType::String | ValType::Id(_) => words.push("a `string` is a text"),
    }
}

/// A label, with whether a payload goes with it.
type Label<'a> = (&'a str, bool);

/// The one of two labels at a place.
fn one_of<'a>(place: usize, first: Label<'a>, second: Label<'a>) -> Option<Label<'a>> {
    match place {
        0 => Some(first),
        1 => Some(second),
        _ => None,
    }
}

/// A label of a kind: a key, a case or a flag.
fn label_at(kind: &TypeDefKind, place: usize) -> Option<Label<'_>> {
    match kind {
        TypeDefKind::Record(fields) => Some((fields.as_slice().get(place)?.name.as_str(), false)),
        TypeDefKind::Variant(cases) => {
            let case = cases.as_slice().get(place)?;
            Some((case.name.as_str(), case.ty.is_some()))
        }
        TypeDefKind::Enum(labels) | TypeDefKind::Flags(labels) => {
            Some((labels.as_slice().get(place)?.as_str(), false))
        }
        TypeDefKind::Option(_) => one_of(place, ("none", false), ("some", true)),
        TypeDefKind::Result(ok, error) => {
            one_of(place, ("ok", ok.is_some()), ("error", error.is_some()))
        }
        _ => None,
    }
}

/// Appends a label as JSON.
fn push_label(words: &mut TextBuilder, place: usize, label: Label<'_>) {
    let mark = if place == 0 { "" } else { ", " };
    let (before, after) = if label.1 {
        ("`{\"", "\":..}`")
    } else {
        ("`\"", "\"`")
    };
    words.push_three(mark, before, label.0);
    words.push(after);
}

/// Appends the labels of a kind as JSON, the first of them.
fn push_labels(words: &mut TextBuilder, kind: &TypeDefKind) {
    for place in 0..MOST_LABELS {
        let Some(label) = label_at(kind, place) else {
            return;
        };
        push_label(words, place, label);
    }
    if label_at(kind, MOST_LABELS).is_some() {
        words.push(", ..");
    }
}

/// What a value of a kind is, up to its labels.
fn beginning(kind: &TypeDefKind) -> &'static str {
    match kind {
        TypeDefKind::Record(_) => "a record is an object with just the keys ",
        TypeDefKind::Variant(_) => "a variant is one of ",
        TypeDefKind::Enum(_) => "an enum is one of ",
        TypeDefKind::Flags(_) => "flags are an array of those that are set, in the order of ",
        TypeDefKind::Option(_) => "an option is one of ",
        TypeDefKind::Result(_, _) => "a result is one of ",
        TypeDefKind::Tuple(_) => "a tuple is an array of one value for each of its types",
        TypeDefKind::List(_) | TypeDefKind::Use(_) | TypeDefKind::Alias(_) => "a list is an array",
    }
}

/// Appends what a value of a type is.
fn push_type(words: &mut TextBuilder, resolve: &Resolve, ty: ValType) {
    let ty = unnamed(resolve, ty);
    match defined(resolve, ty) {
        Some(kind) => {
            words.push(beginning(kind));
            push_labels(words, kind);
        }
        None => push_scalar(words, ty),
    }
}

/// Says what has to be in place of a part, and what is there.
pub fn push_wanted(words: &mut TextBuilder, alloc: Global, resolve: &Resolve, part: Part<'_>) {
    push_type(words, resolve, part.ty);
    words.push(", and not `");
    let found = words.kept(part.value.to_string(alloc));
    push_shown(words, found.as_str());
    words.push("`");
}
