//! The rows of functions.

use crate::members::{Row, push_extent, push_parameters};
use crate::words::{push_kinds, push_number, push_type, push_word};
use layout::CoreSignature;
use tables::{Function, FunctionId, Owner, ValType};
use text_builder::TextBuilder;

/// Appends the name of a function, and the interface or the world that it stands in.
fn push_name(text: &mut TextBuilder, function: &Function) {
    text.push("{\"kind\":\"function\",\"name\":");
    push_word(text, function.name.as_str());
    match function.owner {
        Owner::Interface(id) => push_number(text, ",\"owner\":{\"interface\":", id.0),
        Owner::World(id) => push_number(text, ",\"owner\":{\"world\":", id.0),
    }
    text.push("}");
}

/// Appends the size and the alignment of what goes through memory; `null` if nothing does.
fn push_memory(text: &mut TextBuilder, row: Row<'_>, name: &str, ty: Option<ValType>) {
    text.push_three(",\"", name, "\":");
    if ty.is_none() {
        text.push("null");
        return;
    }
    text.push("{");
    push_extent(text, row.layouts, ty);
    text.push("}");
}

/// Appends the type of a result with its size and its alignment; `null` if there is none.
fn push_result(text: &mut TextBuilder, row: Row<'_>, ty: Option<ValType>) {
    text.push(",\"result\":");
    if ty.is_none() {
        text.push("null");
        return;
    }
    text.push("{\"type\":");
    push_type(text, ty);
    text.push(",");
    push_extent(text, row.layouts, ty);
    text.push("}");
}

/// Appends a core signature.
fn push_signature(text: &mut TextBuilder, name: &str, signature: &CoreSignature) {
    text.push_three(",\"", name, "\":{\"parameters\":");
    push_kinds(text, signature.params.as_slice());
    text.push(",\"results\":");
    match signature.result {
        Some(kind) => push_kinds(text, &[kind]),
        None => push_kinds(text, &[]),
    }
    text.push("}");
}

/// Whether the parameters of a function go through memory: they have more than 16 flat kinds.
fn are_spilled(row: Row<'_>) -> bool {
    row.layouts.has(row.ty) && row.layouts.flat_count(&[row.ty]).is_none()
}

/// Appends what goes through memory, and the core signatures of the export and of the import.
fn push_core(text: &mut TextBuilder, row: Row<'_>, id: FunctionId, answer: Option<ValType>) {
    if !row.layouts.has_function(id) {
        return;
    }
    let lifted = row.layouts.lifted(id);
    let lowered = row.layouts.lowered(id);
    let has_area = lifted.result.is_some() && lowered.result.is_none();
    push_memory(text, row, "record", are_spilled(row).then_some(row.ty));
    push_memory(text, row, "area", if has_area { answer } else { None });
    push_signature(text, "export", &lifted);
    push_signature(text, "import", &lowered);
}

/// Appends the row of a function. A function's row is the record of its parameters.
pub fn push_function_row(
    text: &mut TextBuilder,
    row: Row<'_>,
    id: FunctionId,
    function: &Function,
) {
    push_name(text, function);
    push_parameters(text, row, function.params.as_slice());
    push_result(text, row, function.result);
    push_core(text, row, id, function.result);
    text.push("}");
}
