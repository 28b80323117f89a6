//! A function that a guest exports: the function of values that the guest defines, and the export of core values that
//! calls it.

use crate::calls::{Called, called_of, take_if};
use crate::guest::calls::{
    GuestCall, core_type, guest_call_of, push_value_head, put_heading, reader_of, returned_type,
};
use crate::guest::places::Place;
use c_declarations::Header;
use c_types::Types;
use c_types::c_names::NameKind;
use tables::{Direction, FunctionId};
use text_builder::TextBuilder;

/// Writes the core values that the export takes.
fn push_core_parameters(text: &mut TextBuilder, call: &GuestCall<'_>) {
    let passing = &call.called.passing;
    if passing.passed == 0 {
        text.push("void");
        return;
    }
    let kinds = passing.lowered.params.as_slice();
    for (index, kind) in kinds.iter().take(passing.passed).enumerate() {
        text.separate(index, ", ");
        text.push(core_type(*kind));
        text.push(" flat");
        text.push_number(index);
    }
}

/// Writes that a function is exported under a name that consists of these words.
fn push_export_name(text: &mut TextBuilder, before: &str, front: &str, name: &str) {
    text.push_three("\n__attribute__((export_name(\"", before, front);
    text.push(name);
    text.push("\")))\n");
}

/// Writes the head of the export of core values.
fn push_head(text: &mut TextBuilder, place: &Place, call: &GuestCall<'_>) {
    let (front, name) = (place.front.as_str(), call.called.function.name.as_str());
    let returned = returned_type(call.called.passing.returned);
    push_export_name(text, "", front, name);
    text.push(returned);
    text.push_three(" ", call.core.as_str(), "(");
    push_core_parameters(text, call);
    text.push(") {\n");
}

/// Writes the variable of the result. One that goes through memory is there until the host has read it.
fn push_value(text: &mut TextBuilder, types: &Types<'_>, call: &GuestCall<'_>) {
    let Some(ty) = call.called.function.result else {
        return;
    };
    let storage = if call.called.passing.has_area() {
        "static "
    } else {
        ""
    };
    text.push_three("    ", storage, types.c(ty));
    text.push(" value;\n");
}

/// Writes the core values of the parameters, which have room for that of the result.
fn push_flats(text: &mut TextBuilder, call: &GuestCall<'_>) {
    let passing = &call.called.passing;
    let count = if passing.is_spilled {
        0
    } else {
        passing.passed
    };
    if count == 0 {
        if call.one().is_some() {
            text.push("    wit_flat flats[1] = {0};\n");
        }
        return;
    }
    text.push("    wit_flat flats[");
    text.push_number(count);
    text.push("] = {");
    for index in 0..count {
        text.separate(index, ", ");
        text.push("flat");
        text.push_number(index);
    }
    text.push("};\n");
}

/// Writes how the parameters are read.
fn push_parameters(text: &mut TextBuilder, types: &Types<'_>, call: &GuestCall<'_>) {
    if call.called.passing.is_spilled {
        let c = call.parameters.c.as_str();
        text.push_three("    const ", c, " *parameters = (const ");
        text.push(c);
        text.push(" *)(uintptr_t)flat0;\n");
        return;
    }
    let parts = call.parameters.parts.as_slice();
    for part in parts {
        if let Some(ty) = part.ty {
            text.push_three("    ", types.c(ty), " in_");
            text.push(part.label.as_str());
            text.push(";\n");
        }
    }
    types.push_received(text, "in_", parts);
}

/// Writes the call of what the guest defines.
fn push_value_call(text: &mut TextBuilder, call: &GuestCall<'_>) {
    let is_kept = call.called.function.result.is_some();
    text.push("    wit_enter();\n    ");
    text.push(if is_kept { "value = " } else { "" });
    text.push(call.name.as_str());
    text.push("(");
    let front = if call.called.passing.is_spilled {
        "parameters->"
    } else {
        "in_"
    };
    for (index, part) in call.parameters.parts.iter().enumerate() {
        text.separate(index, ", ");
        text.push(front);
        text.push(part.label.as_str());
    }
    text.push(");\n");
}

/// Writes how the result is returned. Blocks of one in memory are there until the host has read them.
fn push_returned(text: &mut TextBuilder, types: &Types<'_>, call: &GuestCall<'_>) {
    if call.called.passing.has_area() {
        text.push("    return (uint32_t)(uintptr_t)&value;\n");
        return;
    }
    text.push("    wit_leave();\n");
    if let (Some(ty), Some(kind)) = (call.called.function.result, call.one()) {
        types.push_answered(text, ty);
        text.push_three("    return ", reader_of(kind), "(&flats[0]);\n");
    }
}

/// Writes the export of core values.
fn push_export(text: &mut TextBuilder, types: &Types<'_>, place: &Place, call: &GuestCall<'_>) {
    push_head(text, place, call);
    push_value(text, types, call);
    push_flats(text, call);
    push_parameters(text, types, call);
    push_value_call(text, call);
    push_returned(text, types, call);
    text.push("}\n");
}

/// Writes what the host calls when it has read the result of a function, if it is in memory.
fn put_post(
    header: &mut Header<'_>,
    bodies: &mut TextBuilder,
    place: &Place,
    call: &GuestCall<'_>,
) {
    if !call.called.passing.has_area() {
        return;
    }
    let words = ["wit_post_", call.stem.as_str()];
    let post = take_if(header, false, NameKind::Function, &words);
    let (front, name) = (place.front.as_str(), call.called.function.name.as_str());
    push_export_name(bodies, "cabi_post_", front, name);
    bodies.push_three("void ", post.as_str(), "(uint32_t value) {\n");
    bodies.push("    (void)value;\n    wit_leave();\n}\n");
}

/// Writes the declaration of a function that the guest defines, and takes the names of what is made for it.
fn put_prototype<'a>(header: &mut Header<'_>, place: &Place, called: Called<'a>) -> GuestCall<'a> {
    put_heading(header, place, called.function, Direction::Export);
    let call = guest_call_of(header, place, ["wit_export_", "exports_"], called);
    push_value_head(&mut header.text, &header.types, &call);
    header.text.push(";\n");
    call
}

/// Writes a function that the guest defines, and into the bodies what is exported for it.
pub fn put_export(
    header: &mut Header<'_>,
    bodies: &mut TextBuilder,
    place: &Place,
    id: FunctionId,
) {
    let Some(called) = called_of(&header.types.laid, id) else {
        return;
    };
    header.put_inners(id.0);
    let call = put_prototype(header, place, called);
    push_export(bodies, &header.types, place, &call);
    put_post(header, bodies, place, &call);
}
