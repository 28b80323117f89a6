//! What a type takes, in words.

ghost use Rattle.std.specs.Prelude.{IsTrue, length};
ghost use Rattle.tables.specs.Tables.{is_below};

use canonical_abi::CoreKind;
use layout::{CoreSignature, Kinds, Layouts, Shape};
use tables::ValType;
use text_builder::TextBuilder;

/// Writes the places of so many fields.
fn push_fields(text: &mut TextBuilder, layouts: &Layouts, ty: ValType, count: usize)
    requires { IsTrue (is_below (length layouts.now.rows) ty) }
{
    text.push("record (");
    for index in 0..count {
        text.separate(index, " ");
        if let Some(place) = layouts.field_offset(ty, index) {
            text.push_number(place as usize);
        }
    }
    text.push(")");
}

/// Writes which of so many cases have a payload.
fn push_filled(text: &mut TextBuilder, layouts: &Layouts, ty: ValType, count: usize)
    requires { IsTrue (is_below (length layouts.now.rows) ty) }
{
    let mut filled: usize = 0;
    for index in 0..count {
        if let Some(case) = layouts.case_info(ty, index)
            && case.payload.is_some()
        {
            text.separate(filled, " ");
            text.push_number(index);
            filled = filled.saturating_add(1);
        }
    }
}

/// Writes how many cases there are, the place of their payloads, which is one for all, and which have one.
fn push_cases(text: &mut TextBuilder, layouts: &Layouts, ty: ValType, count: usize)
    requires { IsTrue (is_below (length layouts.now.rows) ty) }
{
    text.push("variant ");
    text.push_number(count);
    text.push(" at ");
    if let Some(case) = layouts.case_info(ty, 0) {
        text.push_number(case.place as usize);
    }
    text.push(" (");
    push_filled(text, layouts, ty, count);
    text.push(")");
}

/// Writes the shape of a type, and its size and alignment in bytes.
pub fn push_shape_and_size(text: &mut TextBuilder, layouts: &Layouts, ty: ValType)
    requires { IsTrue (is_below (length layouts.now.rows) ty) }
{
    match layouts.shape(ty) {
        Shape::Primitive(primitive) => text.push(primitive.keyword()),
        Shape::String => text.push("string"),
        Shape::List(_) => text.push("list"),
        Shape::Record(count) => push_fields(text, layouts, ty, count),
        Shape::Variant(count) => push_cases(text, layouts, ty, count),
        Shape::Flags(count) => {
            text.push("flags ");
            text.push_number(count);
        }
    }
    text.push(" size ");
    text.push_number(layouts.size(ty) as usize);
    text.push(" align ");
    text.push_number(layouts.align(ty) as usize);
}

/// Writes flat kinds.
fn push_kinds(text: &mut TextBuilder, kinds: &[CoreKind]) {
    text.push("(");
    for (index, kind) in kinds.iter().enumerate() {
        text.separate(index, " ");
        text.push(match kind {
            CoreKind::I32 => "i32",
            CoreKind::I64 => "i64",
        });
    }
    text.push(")");
}

/// Writes the shape of a type, its size and alignment, and its flat kinds.
pub fn push_shape_and_flat(text: &mut TextBuilder, layouts: &Layouts, ty: ValType)
    requires { IsTrue (is_below (length layouts.now.rows) ty) }
{
    push_shape_and_size(text, layouts, ty);
    text.push(" flat ");
    match layouts.flat(&[ty]) {
        Kinds::Flat(kinds) => push_kinds(text, kinds.as_slice()),
        Kinds::Spilled => text.push("spilled"),
    }
}

fn push_signature(text: &mut TextBuilder, name: &str, signature: &CoreSignature) {
    text.push(name);
    push_kinds(text, signature.params.as_slice());
    text.push(" -> ");
    push_kinds(text, signature.result.as_slice());
}

/// Writes the signatures of a function's core function as it is lifted and as it is lowered.
pub fn push_signatures(text: &mut TextBuilder, lifted: &CoreSignature, lowered: &CoreSignature) {
    push_signature(text, " lift ", lifted);
    push_signature(text, " lower ", lowered);
}
