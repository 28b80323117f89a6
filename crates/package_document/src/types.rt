//! The rows of types.

use crate::members::{
    Row, push_cases, push_elements, push_enum, push_extent, push_fields, push_pair,
};
use crate::words::{push_flat, push_type, push_word};
use atoms::Label;
use tables::{TypeDef, TypeDefKind, ValType};
use text_builder::TextBuilder;

fn kind_word(kind: &TypeDefKind) -> &'static str {
    match kind {
        TypeDefKind::Use(_) => "use",
        TypeDefKind::Alias(_) => "alias",
        TypeDefKind::List(_) => "list",
        TypeDefKind::Option(_) => "option",
        TypeDefKind::Result(_, _) => "result",
        TypeDefKind::Tuple(_) => "tuple",
        TypeDefKind::Record(_) => "record",
        TypeDefKind::Variant(_) => "variant",
        TypeDefKind::Enum(_) => "enum",
        TypeDefKind::Flags(_) => "flags",
    }
}

/// Appends the name of a type, and the interface that it stands in. Both are `null` of a type inside another one.
fn push_name(text: &mut TextBuilder, definition: &TypeDef) {
    match &definition.name {
        Some(name) => {
            text.push(",\"name\":");
            push_word(text, name.name.as_str());
            text.push(",\"owner\":{\"interface\":");
            text.push_number(name.interface.0 as usize);
            text.push("}");
        }
        None => text.push(",\"name\":null,\"owner\":null"),
    }
}

/// Appends the size, the alignment and the flat kinds of a row.
fn push_layout(text: &mut TextBuilder, row: Row<'_>) {
    text.push(",");
    push_extent(text, row.layouts, Some(row.ty));
    text.push(",\"flat\":");
    if !row.layouts.has(row.ty) {
        text.push("null");
        return;
    }
    push_flat(text, &row.layouts.flat(&[row.ty]));
}

/// Appends what a list holds, or what a name stands for.
fn push_target(text: &mut TextBuilder, ty: ValType) {
    text.push(",\"type\":");
    push_type(text, Some(ty));
}

/// Appends the labels of flags: label k is bit k.
fn push_labels(text: &mut TextBuilder, labels: &[Label]) {
    text.push(",\"labels\":[");
    for (place, label) in labels.iter().enumerate() {
        text.separate(place, ",");
        push_word(text, label.as_str());
    }
    text.push("]");
}

/// Appends the members of a type, or the one type that it has in place of them.
fn push_members(text: &mut TextBuilder, row: Row<'_>, kind: &TypeDefKind) {
    match kind {
        TypeDefKind::Use(target) => push_target(text, ValType::Id(*target)),
        TypeDefKind::Alias(ty) | TypeDefKind::List(ty) => push_target(text, *ty),
        TypeDefKind::Record(fields) => push_fields(text, row, fields.as_slice()),
        TypeDefKind::Tuple(types) => push_elements(text, row, types.as_slice()),
        TypeDefKind::Option(ty) => push_pair(text, row, [("none", None), ("some", Some(*ty))]),
        TypeDefKind::Result(ok, error) => push_pair(text, row, [("ok", *ok), ("error", *error)]),
        TypeDefKind::Variant(cases) => push_cases(text, row, cases.as_slice()),
        TypeDefKind::Enum(labels) => push_enum(text, row, labels.as_slice()),
        TypeDefKind::Flags(labels) => push_labels(text, labels.as_slice()),
    }
}

/// Appends the row of a type.
pub fn push_type_row(text: &mut TextBuilder, row: Row<'_>, definition: &TypeDef) {
    text.push("{\"kind\":");
    push_word(text, kind_word(&definition.kind));
    push_name(text, definition);
    push_layout(text, row);
    push_members(text, row, &definition.kind);
    text.push("}");
}
