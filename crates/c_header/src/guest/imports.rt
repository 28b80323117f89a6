//! A function that a guest imports: the import of core values, and the function of values that calls it.

use crate::calls::called_of;
use crate::guest::calls::{
    GuestCall, core_type, guest_call_of, push_value_head, put_heading, reader_of, returned_type,
};
use crate::guest::places::Place;
use c_declarations::Header;
use c_types::Types;
use canonical_abi::CoreKind;
use tables::{Direction, FunctionId};
use text_builder::TextBuilder;

/// Writes the types of core values.
fn push_core_types(text: &mut TextBuilder, kinds: &[CoreKind]) {
    if kinds.is_empty() {
        text.push("void");
        return;
    }
    for (index, kind) in kinds.iter().enumerate() {
        text.separate(index, ", ");
        text.push(core_type(*kind));
    }
}

/// Writes the import of core values.
fn push_core(text: &mut TextBuilder, place: &Place, call: &GuestCall<'_>) {
    let (module, name) = (place.module.as_str(), call.called.function.name.as_str());
    text.push_three("__attribute__((import_module(\"", module, "\"), ");
    text.push_three("import_name(\"", name, "\")))\n");
    text.push(returned_type(call.one()));
    text.push_three(" ", call.core.as_str(), "(");
    push_core_types(text, call.called.passing.lowered.params.as_slice());
    text.push(");\n");
}

/// Writes the variables of the function of values.
fn push_variables(text: &mut TextBuilder, types: &Types<'_>, call: &GuestCall<'_>) {
    let count = call.called.passing.lowered.params.len();
    if count > 0 {
        text.push("    wit_flat flats[");
        text.push_number(count);
        text.push("] = {0};\n");
    }
    if call.called.passing.is_spilled {
        text.push_three("    ", call.parameters.c.as_str(), " parameters;\n");
    }
    if call.one().is_some() {
        text.push("    wit_flat back[1];\n");
    }
    if let Some(ty) = call.called.function.result {
        text.push_three("    ", types.c(ty), " value;\n");
    }
}

/// Writes how the core values are made.
fn push_flats(text: &mut TextBuilder, types: &Types<'_>, call: &GuestCall<'_>) {
    let passing = &call.called.passing;
    if passing.is_spilled {
        for part in &call.parameters.parts {
            let label = part.label.as_str();
            text.push_three("    parameters.", label, " = in_");
            text.push(label);
            text.push(";\n");
        }
        text.push("    wit_put(flats, 0, (uintptr_t)&parameters);\n");
    } else {
        types.push_flats(text, "in_", call.parameters.parts.as_slice());
    }
    if passing.has_area() {
        text.push("    wit_put(flats, ");
        text.push_number(passing.passed);
        text.push(", (uintptr_t)&value);\n");
    }
}

/// Writes the call of the import of core values.
fn push_core_call(text: &mut TextBuilder, call: &GuestCall<'_>) {
    let is_kept = call.one().is_some();
    text.push(if is_kept { "    back[0] = " } else { "    " });
    text.push(call.core.as_str());
    text.push("(");
    let kinds = call.called.passing.lowered.params.as_slice();
    for (index, kind) in kinds.iter().enumerate() {
        text.separate(index, ", ");
        text.push(reader_of(*kind));
        text.push("(&flats[");
        text.push_number(index);
        text.push("])");
    }
    text.push(");\n");
}

/// Writes how the result is read and returned.
fn push_result(text: &mut TextBuilder, types: &Types<'_>, call: &GuestCall<'_>) {
    let Some(ty) = call.called.function.result else {
        return;
    };
    if let Some(kind) = call.one() {
        types.push_one(text, ty, Some(kind));
    }
    text.push("    return value;\n");
}

/// Writes the function of values.
fn push_value(text: &mut TextBuilder, types: &Types<'_>, call: &GuestCall<'_>) {
    text.push("\nstatic inline ");
    push_value_head(text, types, call);
    text.push(" {\n");
    push_variables(text, types, call);
    push_flats(text, types, call);
    push_core_call(text, call);
    push_result(text, types, call);
    text.push("}\n");
}

/// Writes a function that the guest imports.
pub fn put_import(header: &mut Header<'_>, place: &Place, id: FunctionId) {
    let Some(called) = called_of(&header.types.laid, id) else {
        return;
    };
    header.put_inners(id.0);
    put_heading(header, place, called.function, Direction::Import);
    let call = guest_call_of(header, place, ["wit_import_", ""], called);
    push_core(&mut header.text, place, &call);
    push_value(&mut header.text, &header.types, &call);
}
