//! Members of a row: fields, cases and parameters.

use crate::words::{push_type, push_word};
use atoms::Label;
use layout::Layouts;
use tables::{Case, Field, Parameter, ValType};
use text_builder::TextBuilder;

/// A row of the table, and how it lies in memory.
#[derive(Clone, Copy)]
pub struct Row<'a> {
    pub layouts: &'a Layouts,
    pub ty: ValType,
}

impl Row<'_> {
    /// The place of a field in bytes.
    fn field_offset(&self, index: usize) -> u32 {
        if !self.layouts.has(self.ty) {
            return 0;
        }
        self.layouts.field_offset(self.ty, index).unwrap_or(0)
    }

    /// The place of a payload in bytes, which is one for all cases.
    fn payload_offset(&self) -> u32 {
        if !self.layouts.has(self.ty) {
            return 0;
        }
        match self.layouts.case_info(self.ty, 0) {
            Some(case) => case.place,
            None => 0,
        }
    }
}

/// Appends the size and the alignment of a type in bytes; both are 0 of none.
pub fn push_extent(text: &mut TextBuilder, layouts: &Layouts, ty: Option<ValType>) {
    let (size, align) = match ty {
        Some(ty) => extent_of(layouts, ty),
        None => (0, 0),
    };
    text.push("\"size\":");
    text.push_number(size as usize);
    text.push(",\"align\":");
    text.push_number(align as usize);
}

/// The size and the alignment of a type in bytes.
fn extent_of(layouts: &Layouts, ty: ValType) -> (u32, u32) {
    if !layouts.has(ty) {
        return (0, 0);
    }
    (layouts.size(ty), layouts.align(ty))
}

/// What is told of a member: its label and its type, of which it may have but one, and its place in the row in bytes.
#[derive(Clone, Copy)]
struct Member<'a> {
    name: Option<&'a str>,
    ty: Option<ValType>,
    offset: u32,
}

/// Appends a member.
fn push_member(text: &mut TextBuilder, row: Row<'_>, member: Member<'_>) {
    text.push("{\"name\":");
    match member.name {
        Some(name) => push_word(text, name),
        None => text.push("null"),
    }
    text.push(",\"type\":");
    push_type(text, member.ty);
    text.push(",");
    push_extent(text, row.layouts, member.ty);
    text.push(",\"offset\":");
    text.push_number(member.offset as usize);
    text.push("}");
}

/// Appends the fields of a record.
pub fn push_fields(text: &mut TextBuilder, row: Row<'_>, fields: &[Field]) {
    text.push(",\"fields\":[");
    for (place, field) in fields.iter().enumerate() {
        text.separate(place, ",");
        let member = Member {
            name: Some(field.name.as_str()),
            ty: Some(field.ty),
            offset: row.field_offset(place),
        };
        push_member(text, row, member);
    }
    text.push("]");
}

/// Appends the fields of a tuple, which have no labels.
pub fn push_elements(text: &mut TextBuilder, row: Row<'_>, types: &[ValType]) {
    text.push(",\"fields\":[");
    for (place, ty) in types.iter().enumerate() {
        text.separate(place, ",");
        let member = Member {
            name: None,
            ty: Some(*ty),
            offset: row.field_offset(place),
        };
        push_member(text, row, member);
    }
    text.push("]");
}

/// Appends the parameters of a function, with their places in the record of all.
pub fn push_parameters(text: &mut TextBuilder, row: Row<'_>, params: &[Parameter]) {
    text.push(",\"parameters\":[");
    for (place, param) in params.iter().enumerate() {
        text.separate(place, ",");
        let member = Member {
            name: Some(param.name.as_str()),
            ty: Some(param.ty),
            offset: row.field_offset(place),
        };
        push_member(text, row, member);
    }
    text.push("]");
}

/// A case, with its payload's type if it has one.
pub type NamedCase<'a> = (&'a str, Option<ValType>);

/// Appends the case of this place.
fn push_case(text: &mut TextBuilder, row: Row<'_>, place: usize, case: NamedCase<'_>) {
    let (name, ty) = case;
    text.separate(place, ",");
    let member = Member {
        name: Some(name),
        ty,
        offset: row.payload_offset(),
    };
    push_member(text, row, member);
}

/// Appends the cases of an option or a result.
pub fn push_pair(text: &mut TextBuilder, row: Row<'_>, cases: [NamedCase<'_>; 2]) {
    let [first, second] = cases;
    text.push(",\"cases\":[");
    push_case(text, row, 0, first);
    push_case(text, row, 1, second);
    text.push("]");
}

/// Appends the cases of a variant.
pub fn push_cases(text: &mut TextBuilder, row: Row<'_>, cases: &[Case]) {
    text.push(",\"cases\":[");
    for (place, case) in cases.iter().enumerate() {
        push_case(text, row, place, (case.name.as_str(), case.ty));
    }
    text.push("]");
}

/// Appends the cases of an enum, which have no payload.
pub fn push_enum(text: &mut TextBuilder, row: Row<'_>, labels: &[Label]) {
    text.push(",\"cases\":[");
    for (place, label) in labels.iter().enumerate() {
        push_case(text, row, place, (label.as_str(), None));
    }
    text.push("]");
}
