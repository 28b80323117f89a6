//! How the core values of a call are made.

use crate::calls::Call;
use crate::comments::push_comment;
use c_types::{Laid, Types};
use canonical_abi::CoreKind;
use tables::ValType;
use text_builder::TextBuilder;

/// Appends the letters of core values.
fn push_kinds(text: &mut TextBuilder, kinds: &[CoreKind]) {
    for kind in kinds {
        text.push(match kind {
            CoreKind::I32 => "i",
            CoreKind::I64 => "I",
        });
    }
}

/// Appends the size and the alignment of a block for a value of a type, after what is said of it.
pub fn push_extent(comment: &mut TextBuilder, front: &str, laid: &Laid<'_>, ty: ValType) {
    let (size, align) = (laid.size(ty), laid.align(ty));
    comment.push(front);
    comment.push_number(size as usize);
    comment.push(" bytes and alignment ");
    comment.push_number(align as usize);
}

/// Appends what the function does that makes core values.
fn push_purpose(comment: &mut TextBuilder, laid: &Laid<'_>, call: &Call<'_>) {
    let called = &call.called;
    if called.passing.lowered.params.as_slice().is_empty() {
        comment.push("A call has no core values");
    } else {
        let count = call.names.count.as_str();
        comment.push_three("Makes the ", count, " core values of a call");
    }
    if called.passing.is_spilled {
        let front = ", whose parameters go to at, a block of the caller's of ";
        push_extent(comment, front, laid, called.ty);
    }
    if let Some(ty) = called.function.result
        && called.passing.has_area()
    {
        let front = ". area is a block of the caller's for the result, of ";
        push_extent(comment, front, laid, ty);
    }
    comment.push(".");
}

/// Appends the parameters of the function that makes core values.
fn push_parameters(text: &mut TextBuilder, call: &Call<'_>) {
    if call.called.passing.is_spilled {
        text.push(", uint8_t *memory, uint32_t at");
    }
    if !call.parameters.parts.is_empty() {
        text.push_three(", const ", call.parameters.c.as_str(), " *parameters");
    }
    if call.called.passing.has_area() {
        text.push(", uint32_t area");
    }
}

/// Writes the head of the function that makes core values.
fn push_head(text: &mut TextBuilder, call: &Call<'_>) {
    let fill = call.names.fill.as_str();
    text.push_three("static inline void ", fill, "(witcall_value *flats");
    push_parameters(text, call);
    text.push(") {\n    wit_begin(flats, \"");
    push_kinds(text, call.called.passing.lowered.params.as_slice());
    text.push("\");\n");
}

/// Writes how the core values of a call are made.
fn push_body(text: &mut TextBuilder, types: &Types<'_>, call: &Call<'_>) {
    let passing = &call.called.passing;
    if passing.is_spilled {
        text.push(SPILLED);
    } else {
        types.push_flats(text, "parameters->", call.parameters.parts.as_slice());
    }
    if passing.has_area() {
        text.push("    wit_put(flats, ");
        text.push_number(passing.passed);
        text.push(", area);\n");
    }
    text.push("}\n");
}

/// Writes the function that makes the core values of a call.
pub fn push_fill(text: &mut TextBuilder, types: &Types<'_>, call: &Call<'_>) {
    let mut comment = TextBuilder::new(types.alloc);
    push_purpose(&mut comment, &types.laid, call);
    let comment = text.kept(comment.finish());
    push_comment(text, comment.as_str());
    push_head(text, call);
    push_body(text, types, call);
}

static SPILLED: &str = "    memcpy(memory + at, parameters, sizeof *parameters);
    wit_put(flats, 0, at);
";
