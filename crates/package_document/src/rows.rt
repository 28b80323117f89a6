//! The document, and the rows of its table.

use crate::functions::push_function_row;
use crate::members::Row;
use crate::owners::{push_interfaces, push_packages, push_worlds};
use crate::types::push_type_row;
use layout::Layouts;
use std::alloc::{AllocError, Global};
use tables::{Definition, FunctionId, Resolve, TypeId, ValType};
use text_builder::TextBuilder;

/// Appends the row of this number.
fn push_row(text: &mut TextBuilder, layouts: &Layouts, number: u32, definition: &Definition) {
    let row = Row {
        layouts,
        ty: ValType::Id(TypeId(number)),
    };
    match definition {
        Definition::Type(definition) => push_type_row(text, row, definition),
        Definition::Function(function) => {
            push_function_row(text, row, FunctionId(number), function)
        }
    }
}

/// Appends the rows of a table. Their numbers are those of types and functions, which have 32 bits.
fn push_rows(text: &mut TextBuilder, layouts: &Layouts, definitions: &[Definition]) {
    for (place, definition) in definitions.iter().enumerate() {
        let Ok(number) = u32::try_from(place) else {
            break;
        };
        text.separate(place, ",");
        push_row(text, layouts, number, definition);
    }
}

/// The packages, interfaces, worlds and rows of a table with its layouts, as compact JSON. The last package is the one
/// that was opened.
pub fn document(alloc: Global, resolve: &Resolve, layouts: &Layouts) -> Result<String, AllocError> {
    let mut text = TextBuilder::new(alloc);
    text.push("{\"packages\":[");
    push_packages(alloc, &mut text, resolve.packages.as_slice());
    text.push("],\"interfaces\":[");
    push_interfaces(alloc, &mut text, resolve, resolve.interfaces.as_slice());
    text.push("],\"worlds\":[");
    push_worlds(alloc, &mut text, resolve, resolve.worlds.as_slice());
    text.push("],\"rows\":[");
    push_rows(&mut text, layouts, resolve.definitions.as_slice());
    text.push("]}");
    text.finish()
}
