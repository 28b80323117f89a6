//! The interfaces whose types a world needs.

use c_types::Laid;
use std::alloc::{AllocError, Global};
use tables::{Interface, InterfaceId, TypeDefKind, TypeId, World, WorldItemKind};

fn mark(needed: &mut Vec<bool>, id: InterfaceId) {
    if let Some(place) = needed.get_mut(id.0 as usize) {
        *place = true;
    }
}

/// The interface that a type with a name is of.
fn interface_of(laid: &Laid<'_>, id: TypeId) -> Option<InterfaceId> {
    match &laid.definition(id)?.name {
        Some(name) => Some(name.interface),
        None => None,
    }
}

/// The interface that a used name is used from.
fn used_from(laid: &Laid<'_>, id: TypeId) -> Option<InterfaceId> {
    match &laid.definition(id)?.kind {
        TypeDefKind::Use(target) => interface_of(laid, *target),
        _ => None,
    }
}

/// Marks what an interface uses.
fn mark_used(needed: &mut Vec<bool>, laid: &Laid<'_>, interface: &Interface) {
    for id in interface.uses.as_slice() {
        if let Some(used) = used_from(laid, *id) {
            mark(needed, used);
        }
    }
}

/// Marks what a world imports and exports.
fn mark_items(needed: &mut Vec<bool>, world: &World) {
    for item in world.items.as_slice() {
        if let WorldItemKind::Interface(id) = item.kind {
            mark(needed, id);
        }
    }
}

/// No interface of so many.
fn none_of(alloc: Global, count: usize) -> Result<Vec<bool>, AllocError> {
    let mut needed = Vec::new(alloc);
    for _ in 0..count {
        needed.push(false)?;
    }
    Ok(needed)
}

/// For each interface of the tables whether a world needs its types: it imports or exports the interface, or one that
/// uses it, directly or not.
pub fn needs_of(alloc: Global, laid: &Laid<'_>, world: &World) -> Result<Vec<bool>, AllocError> {
    let interfaces = laid.resolve.interfaces.as_slice();
    let mut needed = none_of(alloc, interfaces.len())?;
    mark_items(&mut needed, world);
    // An interface comes after those that it uses.
    for place in (0..interfaces.len()).rev() {
        if needed.get(place).copied() == Some(true)
            && let Some(interface) = interfaces.get(place)
        {
            mark_used(&mut needed, laid, interface);
        }
    }
    Ok(needed)
}
