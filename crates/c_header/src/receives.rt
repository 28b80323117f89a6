//! How a callee reads its parameters.

use crate::calls::Call;
use crate::comments::push_reader;
use c_types::Types;
use text_builder::TextBuilder;

/// Writes the function that reads the parameters of a function, if it has some.
pub fn push_receive(text: &mut TextBuilder, types: &Types<'_>, call: &Call<'_>) {
    if call.parameters.parts.is_empty() {
        return;
    }
    let (c, receive) = (call.parameters.c.as_str(), call.names.receive.as_str());
    if call.called.passing.is_spilled {
        push_reader(text, c, receive, IN_RECORD);
    } else {
        push_reader(text, c, receive, IN_FLATS);
        types.push_received(text, "parameters.", call.parameters.parts.as_slice());
    }
    text.push("    return parameters;\n}\n");
}

const IN_RECORD: [&str; 3] = [
    "For the callee: reads the parameters in their record, whose address is the one core value that \
     witcall_enter gave.",
    "(const witcall_value *flats, const uint8_t *memory) {\n    ",
    " parameters;\n    memcpy(&parameters, memory + wit_i32(flats), sizeof parameters);\n",
];

const IN_FLATS: [&str; 3] = [
    "For the callee: reads the parameters out of the core values that witcall_enter gave.",
    "(const witcall_value *flats) {\n    ",
    " parameters;\n    memset(&parameters, 0, sizeof parameters);\n",
];
