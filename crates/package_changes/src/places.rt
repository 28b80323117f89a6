//! The functions of a package, in order, and what a host does with each.
ghost use Rattle.std.specs.Prelude.{◌≡◌, ◌++◌, IfOk, OnOk};
ghost use Rattle.package_changes.specs.Judging.{function_places, has_item, is_item, is_last, is_on, is_on_world, is_side, item_places};
ghost use Rattle.package_changes.specs.Judging.{own_functions, places_of_interfaces, places_of_worlds, role_by};
ghost use Rattle.package_changes.specs.Judging.{role_of};

use crate::verdicts::Role;
use std::alloc::{AllocError, Global};
use tables::{Direction, FunctionId, PackageId, Resolve, World, WorldItem, WorldItemKind};

/// Where a function is.
#[derive(Clone, Copy, Debug)]
pub enum Standing {
    /// The interface at this place of the table.
    Interface(usize),
    /// An item of the world at this place of the table, on this side.
    World(usize, Direction),
}

/// A function, and where it is.
#[derive(Clone, Copy, Debug)]
pub struct Place {
    pub standing: Standing,
    pub function: FunctionId,
}

/// Whether a package is the last one.
pub fn is_last(table: &Resolve, package: PackageId) -> bool
    ensures { result ≡ is_last table.now «package» }
{
    (package.0 as usize) + 1 == table.packages.len()
}

fn push_interface(
    places: &mut Vec<Place>,
    place: usize,
    functions: &[FunctionId],
) -> Result<(), AllocError>
    ensures { OnOk result (places.new.items ≡ places.old.items ++ function_places place functions.now) }
{
    for function in functions {
        places.push(Place {
            standing: Standing::Interface(place),
            function: *function,
        })?;
    }
    Ok(())
}

fn push_interfaces(places: &mut Vec<Place>, table: &Resolve) -> Result<(), AllocError>
    ensures { OnOk result (places.new.items ≡ places.old.items
        ++ places_of_interfaces table.now 0 table.now.interfaces) }
{
    for (i, interface) in table.interfaces.as_slice().iter().enumerate() {
        if is_last(table, interface.package) {
            push_interface(places, i, interface.functions.as_slice())?;
        }
    }
    Ok(())
}

fn push_items(places: &mut Vec<Place>, place: usize, items: &[WorldItem]) -> Result<(), AllocError>
    ensures { OnOk result (places.new.items ≡ places.old.items ++ item_places place items.now) }
{
    for item in items {
        if let WorldItemKind::Function(function) = item.kind {
            places.push(Place {
                standing: Standing::World(place, item.direction),
                function,
            })?;
        }
    }
    Ok(())
}

fn push_worlds(places: &mut Vec<Place>, table: &Resolve) -> Result<(), AllocError>
    ensures { OnOk result (places.new.items ≡ places.old.items ++ places_of_worlds table.now 0 table.now.worlds) }
{
    for (i, world) in table.worlds.as_slice().iter().enumerate() {
        if is_last(table, world.package) {
            push_items(places, i, world.items.as_slice())?;
        }
    }
    Ok(())
}

/// The functions of the last package of a table.
pub(crate) fn own_functions(alloc: Global, table: &Resolve) -> Result<Vec<Place>, AllocError>
    ensures { IfOk result (λ ps. ps.items ≡ own_functions table.now) }
{
    let mut places = Vec::new(alloc);
    push_interfaces(&mut places, table)?;
    push_worlds(&mut places, table)?;
    Ok(places)
}

/// Whether a direction is this one.
pub fn is_side(direction: Direction, side: Direction) -> bool
    ensures { result ≡ is_side direction side }
{
    match direction {
        Direction::Import => match side {
            Direction::Import => true,
            Direction::Export => false,
        },
        Direction::Export => match side {
            Direction::Import => false,
            Direction::Export => true,
        },
    }
}

/// Whether an item is an interface, on this side.
fn is_item(item: &WorldItem, side: Direction, place: usize) -> bool
    ensures { result ≡ is_item side place item.now.kind item.now.direction }
{
    match item.kind {
        WorldItemKind::Interface(interface) => {
            interface.0 as usize == place && is_side(item.direction, side)
        }
        WorldItemKind::Function(_) => false,
    }
}

/// Whether one of these items is an interface, on this side.
fn has_item(items: &[WorldItem], side: Direction, place: usize) -> bool
    ensures { result ≡ has_item side place items.now }
{
    items.iter().any(|item| is_item(item, side, place))
}

/// Whether a world is one of the last package, and has an interface on this side.
fn is_on_world(table: &Resolve, world: &World, side: Direction, place: usize) -> bool
    ensures { result ≡ is_on_world table.now side place world.now }
{
    is_last(table, world.package) && has_item(world.items.as_slice(), side, place)
}

/// Whether a world of the last package has an interface on this side.
fn is_on(table: &Resolve, side: Direction, place: usize) -> bool
    ensures { result ≡ is_on table.now side place }
{
    let worlds = table.worlds.as_slice();
    worlds
        .iter()
        .any(|world| is_on_world(table, world, side, place))
}

fn role_by(is_imported: bool, is_exported: bool) -> Role
    ensures { result ≡ role_by is_imported is_exported }
{
    if !is_imported {
        return Role::Called;
    }
    if is_exported {
        Role::Both
    } else {
        Role::Served
    }
}

/// What a host of the last package does with a function that is here.
pub(crate) fn role_of(table: &Resolve, standing: Standing) -> Role
    ensures { result ≡ role_of table.now standing }
{
    match standing {
        Standing::Interface(place) => role_by(
            is_on(table, Direction::Import, place),
            is_on(table, Direction::Export, place),
        ),
        Standing::World(_, Direction::Import) => Role::Served,
        Standing::World(_, Direction::Export) => Role::Called,
    }
}
