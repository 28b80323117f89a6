//! Records and variants as structs, with assertions of their sizes, alignments and offsets.

use crate::header::{Header, push_declaration};
use c_types::{Form, Laid, Part, Row, Types, has_held, tag_bits};
use tables::ValType;
use text_builder::TextBuilder;

/// Writes the assertion of the size and the alignment of a type.
pub(crate) fn push_extent(text: &mut TextBuilder, laid: &Laid<'_>, c: &str, ty: ValType) {
    text.push_three("static_assert(sizeof(", c, ") == ");
    text.push_number(laid.size(ty) as usize);
    text.push_three(" && alignof(", c, ") == ");
    text.push_number(laid.align(ty) as usize);
    text.push(", \"layout\");\n");
}

fn push_offset(text: &mut TextBuilder, c: &str, label: &str, offset: Option<u32>) {
    if let Some(offset) = offset {
        text.push_three("static_assert(offsetof(", c, ", ");
        text.push(label);
        text.push(") == ");
        text.push_number(offset as usize);
        text.push(", \"layout\");\n");
    }
}

/// Writes the assertions of the offsets of a record or a variant.
fn push_offsets(text: &mut TextBuilder, laid: &Laid<'_>, ty: ValType, row: &Row) {
    let c = row.c.as_str();
    if row.form == Form::Variant {
        if has_held(row.parts.as_slice()) {
            push_offset(text, c, "as", laid.payload_offset(ty));
        }
        return;
    }
    for (index, part) in row.parts.iter().enumerate() {
        push_offset(text, c, part.label.as_str(), laid.offset(ty, index));
    }
}

/// Writes the fields of the parts that hold something.
fn push_fields(text: &mut TextBuilder, types: &Types<'_>, indent: &str, parts: &[Part]) {
    for part in parts {
        if let Some(ty) = part.ty {
            push_declaration(text, indent, types.c(ty), part.label.as_str());
        }
    }
}

/// Writes the tag of a variant, and the union of its payloads.
fn push_union(text: &mut TextBuilder, types: &Types<'_>, parts: &[Part]) {
    text.push("    uint");
    text.push_number(tag_bits(parts.len()) as usize);
    text.push("_t tag;\n");
    if has_held(parts) {
        text.push("    union {\n");
        push_fields(text, types, "        ", parts);
        text.push("    } as;\n");
    }
}

/// Writes a record or a variant, with its assertions.
fn push_struct(text: &mut TextBuilder, types: &Types<'_>, ty: ValType, row: &Row) {
    let (c, parts) = (row.c.as_str(), row.parts.as_slice());
    text.push("typedef struct {\n");
    if row.form == Form::Variant {
        push_union(text, types, parts);
    } else {
        push_fields(text, types, "    ", parts);
    }
    text.push_three("} ", c, ";\n");
    push_extent(text, &types.laid, c, ty);
    push_offsets(text, &types.laid, ty, row);
}

impl<'a> Header<'a> {
    /// Writes a record or a variant, with its assertions.
    pub fn put_struct(&mut self, ty: ValType, row: &Row) {
        push_struct(&mut self.text, &self.types, ty, row);
    }
}
