//! What the definitions of a package take.

use crate::expanded;
use crate::row_layouts::shapes::{push_shape_and_flat, push_shape_and_size, push_signatures};
use opening::{Package, open};
use tables::{
    Definition, Function, FunctionId, InterfaceId, Owner, Resolve, TypeDef, TypeId, ValType,
};
use text_builder::TextBuilder;

fn interface_name(resolve: &Resolve, id: InterfaceId) -> &str {
    match resolve.interfaces.as_slice().get(id.0 as usize) {
        Some(interface) => interface.name.as_str(),
        None => "",
    }
}

fn owner_name(resolve: &Resolve, owner: Owner) -> &str {
    match owner {
        Owner::Interface(id) => interface_name(resolve, id),
        Owner::World(id) => match resolve.worlds.as_slice().get(id.0 as usize) {
            Some(world) => world.name.as_str(),
            None => "",
        },
    }
}

/// Writes the name of a type, behind that of its interface.
fn push_type_name(text: &mut TextBuilder, resolve: &Resolve, definition: &TypeDef) {
    let Some(name) = &definition.name else {
        text.push("_");
        return;
    };
    text.push(interface_name(resolve, name.interface));
    text.push(".");
    text.push(name.name.as_str());
}

/// Writes the line of the type at this place.
fn push_type(text: &mut TextBuilder, package: &Package, place: u32, definition: &TypeDef) {
    let (layouts, ty) = (package.layouts(), ValType::Id(TypeId(place)));
    text.push("type ");
    push_type_name(text, package.resolve(), definition);
    if layouts.has(ty) {
        text.push(" ");
        push_shape_and_flat(text, layouts, ty);
    }
    text.push("; ");
}

/// Writes the line of the function at this place.
fn push_function(text: &mut TextBuilder, package: &Package, place: u32, function: &Function) {
    let layouts = package.layouts();
    let (ty, id) = (ValType::Id(TypeId(place)), FunctionId(place));
    text.push("func ");
    text.push(owner_name(package.resolve(), function.owner));
    text.push(".");
    text.push(function.name.as_str());
    if layouts.has(ty) && layouts.has_function(id) {
        text.push(" ");
        push_shape_and_size(text, layouts, ty);
        push_signatures(text, &layouts.lifted(id), &layouts.lowered(id));
    }
    text.push("; ");
}

/// Writes the line of the definition at this place.
fn push_line(text: &mut TextBuilder, package: &Package, index: usize, definition: &Definition) {
    let place = u32::try_from(index).unwrap_or(u32::MAX);
    match definition {
        Definition::Type(ty) => push_type(text, package, place, ty),
        Definition::Function(f) => push_function(text, package, place, f),
    }
}

/// Writes what a package's definitions take, or its last one alone, and the work of its layouts.
fn push_told(text: &mut TextBuilder, package: &Package, is_last: bool) {
    let definitions = package.resolve().definitions.as_slice();
    for (index, definition) in definitions.iter().enumerate() {
        if !is_last || index.saturating_add(1) == definitions.len() {
            push_line(text, package, index, definition);
        }
    }
    text.push("work ");
    text.push_number(package.layouts().work() as usize);
}

/// Writes what is told of the package of a text.
pub fn push_laid_out(text: &mut TextBuilder, line: &str, is_last: bool) -> anyhow::Result<()> {
    let wit = expanded(text.alloc(), line)?;
    let package = open(text.alloc(), wit.as_bytes())?;
    push_told(text, &package, is_last);
    Ok(())
}
