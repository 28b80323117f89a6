//! Packages, interfaces and worlds.

use crate::words::{push_number, push_word};
use atoms::Label;
use std::alloc::Global;
use tables::{
    Direction, FunctionId, Interface, PackageId, PackageName, Resolve, TypeId, World, WorldItem,
    WorldItemKind,
};
use text_builder::TextBuilder;

/// Appends the names of packages.
pub fn push_packages(alloc: Global, text: &mut TextBuilder, packages: &[PackageName]) {
    for (place, package) in packages.iter().enumerate() {
        text.separate(place, ",");
        text.push("\"");
        text.push_made(package.to_string(alloc));
        text.push("\"");
    }
}

/// Appends the full name of an interface or a world of a package.
fn push_full_name(alloc: Global, text: &mut TextBuilder, package: &PackageName, name: &Label) {
    match package.full_name(alloc, name) {
        Ok(name) => push_word(text, name.as_str()),
        Err(_) => text.refuse(),
    }
}

/// Appends the full name of an interface or a world, and the number of its package.
fn push_name(alloc: Global, text: &mut TextBuilder, resolve: &Resolve, owner: (PackageId, &Label)) {
    let (id, name) = owner;
    text.push("{\"name\":");
    match resolve.packages.as_slice().get(id.0 as usize) {
        Some(package) => push_full_name(alloc, text, package, name),
        None => push_word(text, name.as_str()),
    }
    text.push(",\"package\":");
    text.push_number(id.0 as usize);
}

/// Appends the rows of types.
fn push_types(text: &mut TextBuilder, name: &str, ids: &[TypeId]) {
    text.push_three(",\"", name, "\":[");
    for (place, id) in ids.iter().enumerate() {
        text.separate(place, ",");
        text.push_number(id.0 as usize);
    }
    text.push("]");
}

/// Appends the rows of functions.
fn push_functions(text: &mut TextBuilder, ids: &[FunctionId]) {
    text.push(",\"functions\":[");
    for (place, id) in ids.iter().enumerate() {
        text.separate(place, ",");
        text.push_number(id.0 as usize);
    }
    text.push("]");
}

/// Appends interfaces, each with the rows of its used names, its types and its functions.
pub fn push_interfaces(
    alloc: Global,
    text: &mut TextBuilder,
    resolve: &Resolve,
    interfaces: &[Interface],
) {
    for (place, interface) in interfaces.iter().enumerate() {
        text.separate(place, ",");
        push_name(alloc, text, resolve, (interface.package, &interface.name));
        push_types(text, "uses", interface.uses.as_slice());
        push_types(text, "types", interface.types.as_slice());
        push_functions(text, interface.functions.as_slice());
        text.push("}");
    }
}

/// Appends what an item of a world is: an interface by its number, or a function by its row.
fn push_item(text: &mut TextBuilder, kind: WorldItemKind) {
    match kind {
        WorldItemKind::Interface(id) => push_number(text, "{\"interface\":", id.0),
        WorldItemKind::Function(id) => push_number(text, "{\"function\":", id.0),
    }
    text.push("}");
}

/// Appends what a world imports, or what it exports.
fn push_items(text: &mut TextBuilder, name: &str, items: &[WorldItem], direction: Direction) {
    text.push_three(",\"", name, "\":[");
    let mut mark = "";
    for item in items {
        if item.direction == direction {
            text.push(mark);
            push_item(text, item.kind);
            mark = ",";
        }
    }
    text.push("]");
}

/// Appends worlds.
pub fn push_worlds(alloc: Global, text: &mut TextBuilder, resolve: &Resolve, worlds: &[World]) {
    for (place, world) in worlds.iter().enumerate() {
        let items = world.items.as_slice();
        text.separate(place, ",");
        push_name(alloc, text, resolve, (world.package, &world.name));
        push_items(text, "imports", items, Direction::Import);
        push_items(text, "exports", items, Direction::Export);
        text.push("}");
    }
}
