//! Values in words.

use layout::Shape;
use layout_picture::{TypeLayout, case_number_size, member_name, type_text};
use lift_lower::Val;
use std::alloc::{AllocError, Global};
use text_builder::TextBuilder;

/// A value of a primitive type other than string. No text for other values.
fn scalar_text(alloc: Global, value: &Val) -> Result<String, AllocError> {
    match value {
        Val::Bool(value) => value.to_string(alloc),
        Val::S8(value) => value.to_string(alloc),
        Val::U8(value) => value.to_string(alloc),
        Val::S16(value) => value.to_string(alloc),
        Val::U16(value) => value.to_string(alloc),
        Val::S32(value) => value.to_string(alloc),
        Val::U32(value) => value.to_string(alloc),
        Val::S64(value) => value.to_string(alloc),
        Val::U64(value) => value.to_string(alloc),
        Val::Char(value) => {
            let number = u32::from(*value);
            format!(in alloc; "U+{number:04X}")
        }
        _ => Ok(String::new(alloc)),
    }
}

/// Appends the labels of the bits that are set.
fn push_flags(text: &mut TextBuilder, layout: &TypeLayout<'_>, bits: u32, count: usize) {
    text.push(" = {");
    let mut mark = "";
    let mut rest = bits;
    for index in 0..count {
        if rest % 2 == 1 {
            text.push(mark);
            text.push(member_name(layout, index));
            mark = ", ";
        }
        rest /= 2;
    }
    text.push("}");
}

/// Appends the value that a value's own bytes say, after its type.
fn push_own_value(alloc: Global, text: &mut TextBuilder, layout: &TypeLayout<'_>, value: &Val) {
    match (value, layout.shape()) {
        (Val::String(bytes), _) => {
            text.push(" of ");
            text.push_number(bytes.len());
            text.push(" bytes");
        }
        (Val::List(values), _) => {
            text.push(" of ");
            text.push_number(values.len());
            text.push(" elements");
        }
        (Val::Variant(case, _), _) => {
            text.push(" = ");
            text.push(member_name(layout, *case as usize));
        }
        (Val::Flags(bits), Shape::Flags(count)) => push_flags(text, layout, *bits, count),
        _ => {
            text.push(" = ");
            text.push_made(scalar_text(alloc, value));
        }
    }
}

/// The path of a value, its type, and what its own bytes say.
pub fn own_words(
    alloc: Global,
    path: &str,
    layout: &TypeLayout<'_>,
    value: &Val,
) -> Result<String, AllocError> {
    let mut text = TextBuilder::new(alloc);
    text.push(path);
    text.push(": ");
    text.push_made(type_text(alloc, layout.resolve, layout.ty));
    push_own_value(alloc, &mut text, layout, value);
    text.finish()
}

/// How many bytes a value has of its own, from its first one on: those of a record are its fields', and those after the
/// number of a case the payload's.
pub fn own_size(layout: &TypeLayout<'_>, value: &Val) -> u32 {
    match (value, layout.shape()) {
        (Val::Record(_), _) => 0,
        (_, Shape::Variant(count)) => case_number_size(count),
        _ => layout.size(),
    }
}

/// The path of a field or a payload.
pub fn member_path(
    alloc: Global,
    path: &str,
    name: &str,
    index: usize,
) -> Result<String, AllocError> {
    match (path, name) {
        (_, "") => format!(in alloc; "{path}.{index}"),
        ("", _) => String::from_str(alloc, name),
        _ => [path, ".", name].concat(alloc),
    }
}
