//! How a callee gives its result.

use crate::calls::Call;
use crate::comments::push_comment;
use crate::fills::push_extent;
use c_types::Types;
use canonical_abi::CoreKind;
use tables::ValType;
use text_builder::TextBuilder;

/// Writes the function that puts a result into memory.
fn push_area(text: &mut TextBuilder, types: &Types<'_>, ty: ValType, answer: &str) {
    let mut comment = TextBuilder::new(types.alloc);
    let front = "For the callee: stores the result at area, a block of the callee's of ";
    push_extent(&mut comment, front, &types.laid, ty);
    comment.push(", and makes the core value that the callee returns.");
    let comment = text.kept(comment.finish());
    push_comment(text, comment.as_str());
    text.push_three(MADE, answer, "(uint8_t *memory, uint32_t area, ");
    text.push_three(types.c(ty), STORED, RETURNED);
}

/// Writes the function that makes the one core value of a result.
fn push_one(text: &mut TextBuilder, types: &Types<'_>, ty: ValType, call: &Call<'_>) {
    push_comment(
        text,
        "For the callee: makes the core value that it returns, of a result.",
    );
    let begun = match call.called.passing.returned {
        Some(CoreKind::I64) => "I\");\n",
        _ => "i\");\n",
    };
    text.push_three(MADE, call.names.answer.as_str(), "(");
    text.push_three(types.c(ty), BEGUN, begun);
    types.push_answered(text, ty);
    text.push(RETURNED);
}

/// Writes the function that gives a result of this type.
pub fn push_answer(text: &mut TextBuilder, types: &Types<'_>, call: &Call<'_>, ty: ValType) {
    if call.called.passing.has_area() {
        push_area(text, types, ty, call.names.answer.as_str());
    } else {
        push_one(text, types, ty, call);
    }
}

static MADE: &str = "static inline witcall_value ";

static BEGUN: &str = " value) {
    witcall_value flats[1];
    wit_begin(flats, \"";

static RETURNED: &str = "    return flats[0];\n}\n";

static STORED: &str = " value) {
    witcall_value flats[1];
    memcpy(memory + area, &value, sizeof value);
    wit_begin(flats, \"i\");
    wit_put(flats, 0, area);
";
