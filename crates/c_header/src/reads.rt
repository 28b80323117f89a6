//! How the result of a call is read.

use crate::calls::Call;
use crate::comments::push_reader;
use c_types::Types;
use tables::ValType;
use text_builder::TextBuilder;

/// Writes the function that reads a result of this type.
pub fn push_read(text: &mut TextBuilder, types: &Types<'_>, call: &Call<'_>, ty: ValType) {
    let (c, read) = (types.c(ty), call.names.read.as_str());
    if call.called.passing.has_area() {
        push_reader(text, c, read, IN_AREA);
    } else {
        push_reader(text, c, read, IN_ONE);
        types.push_one(text, ty, call.called.passing.returned);
    }
    text.push("    return value;\n}\n");
}

const IN_AREA: [&str; 3] = [
    "Reads the result in its return area.",
    "(const uint8_t *memory, uint32_t area) {\n    ",
    " value;\n    memcpy(&value, memory + area, sizeof value);\n",
];

const IN_ONE: [&str; 3] = [
    "Reads the result, of the one core value that witcall_leave gave.",
    "(const witcall_value *back) {\n    ",
    " value;\n",
];
