//! A function of a world, and what its import and its export have in common.

use crate::calls::{Called, put_parameters, signature_of, take_if};
use crate::guest::places::Place;
use c_declarations::Header;
use c_types::c_names::NameKind;
use c_types::{Part, Row, Types};
use canonical_abi::CoreKind;
use tables::{Direction, Function};
use text_builder::TextBuilder;

/// A function of a world, and the names of what is made for it.
#[derive(Drop)]
pub struct GuestCall<'a> {
    pub called: Called<'a>,
    /// Its parameters. Their record is written if they go through memory.
    pub parameters: Row,
    /// The function of values, which the guest calls if it is an import, and defines if it is an export.
    pub name: String,
    /// The function of core values.
    pub core: String,
    /// What the names begin with.
    pub stem: String,
}

impl<'a> GuestCall<'a> {
    /// The one core value of the result, if the result is one.
    pub fn one(&self) -> Option<CoreKind> {
        if self.called.passing.has_area() {
            None
        } else {
            self.called.passing.returned
        }
    }
}

/// Takes the names of what is made for a function: that of core values and that of values begin so.
pub fn guest_call_of<'a>(
    header: &mut Header<'_>,
    place: &Place,
    fronts: [&str; 2],
    called: Called<'a>,
) -> GuestCall<'a> {
    let [core, name] = fronts;
    let stem = place
        .scope
        .name(header.alloc, called.function.name.as_str());
    let stem = header.text.kept(stem);
    let is_spilled = called.passing.is_spilled;
    GuestCall {
        parameters: put_parameters(header, stem.as_str(), &called, is_spilled),
        core: take_if(header, false, NameKind::Function, &[core, stem.as_str()]),
        name: take_if(header, true, NameKind::Function, &[name, stem.as_str()]),
        stem,
        called,
    }
}

/// A core value in C.
pub fn core_type(kind: CoreKind) -> &'static str {
    match kind {
        CoreKind::I32 => "uint32_t",
        CoreKind::I64 => "uint64_t",
    }
}

/// What a function in C returns that returns this core value.
pub fn returned_type(kind: Option<CoreKind>) -> &'static str {
    match kind {
        Some(kind) => core_type(kind),
        None => "void",
    }
}

/// What reads the bits of a core value.
pub fn reader_of(kind: CoreKind) -> &'static str {
    match kind {
        CoreKind::I32 => "wit_i32",
        CoreKind::I64 => "wit_i64",
    }
}

/// What comes before the name of a function of the world itself where its comment is kept.
fn word_before(place: &Place, direction: Direction) -> &'static str {
    match direction {
        _ if !place.front.is_empty() => "",
        Direction::Import => "import ",
        Direction::Export => "export ",
    }
}

/// Writes the comment of a function, and the function as WIT spells it, with the full name of its interface or world.
pub fn put_heading(
    header: &mut Header<'_>,
    place: &Place,
    function: &Function,
    direction: Direction,
) {
    let (alloc, full_name) = (header.alloc, place.scope.full_name.as_str());
    let signature = signature_of(alloc, &header.types, function);
    let signature = header.text.kept(signature);
    let last = format!(in alloc; "{full_name} {}", signature.as_str());
    let last = header.text.kept(last);
    let (before, name) = (word_before(place, direction), function.name.as_str());
    let key = format!(in alloc; "{full_name} {before}{name}");
    let key = header.text.kept(key);
    header.put_comment(key.as_str(), last.as_str());
}

/// Writes the parameters of a function of values.
fn push_parameters(text: &mut TextBuilder, types: &Types<'_>, parameters: &[Part]) {
    if parameters.is_empty() {
        text.push("void");
        return;
    }
    for (index, part) in parameters.iter().enumerate() {
        if let Some(ty) = part.ty {
            text.separate(index, ", ");
            text.push_three(types.c(ty), " in_", part.label.as_str());
        }
    }
}

/// Writes the head of a function of values, up to its parameters.
pub fn push_value_head(text: &mut TextBuilder, types: &Types<'_>, call: &GuestCall<'_>) {
    let c = match call.called.function.result {
        Some(ty) => types.c(ty),
        None => "void",
    };
    text.push_three(c, " ", call.name.as_str());
    text.push("(");
    push_parameters(text, types, call.parameters.parts.as_slice());
    text.push(")");
}
