//! Which interfaces a world has as imports and as exports.
ghost use Rattle.std.specs.Prelude.{◌≡◌, ◌⊎◌, IsTrue, IfOk, IfSome, OnOk, All, Contains};
ghost use Rattle.tables.specs.declared.tables.Direction.TheVariants.{Import, Export};
ghost use Rattle.structure_comparison.specs.Worlds.{AreIds, item_of, IsListed, IsUseOf, IsItem, IsNeeded, AreOfWorld};
ghost use Rattle.structure_comparison.specs.Worlds.{Uses, IsUsedByOne};

use crate::interfaces::Comparison;
use crate::lookup::{interface_at, name_at, type_at};
use std::alloc::{AllocError, Global};
use std::collections::BTreeSet;
use tables::{
    Direction, Interface, InterfaceId, Resolve, TypeDefKind, TypeId, World, WorldItem,
    WorldItemKind,
};

/// These interfaces, for a look-up.
fn set_of(alloc: Global, ids: &[InterfaceId]) -> Result<BTreeSet<u32>, AllocError>
    ensures { IfOk result (λ set. AreIds (Contains ids.now) set.keys) }
{
    let mut set = BTreeSet::new(alloc);
    for id in ids {
        set.insert(id.0)?;
    }
    Ok(set)
}

/// The interface that an item is, if it crosses this way.
fn interface_in(way: Direction, item: WorldItem) -> Option<InterfaceId>
    ensures { IfSome result (λ id. item ≡ item_of way id) }
{
    match (way, item.direction, item.kind) {
        (Direction::Import, Direction::Import, WorldItemKind::Interface(id)) => Some(id),
        (Direction::Export, Direction::Export, WorldItemKind::Interface(id)) => Some(id),
        _ => None,
    }
}

/// The interfaces that a world imports or exports itself, for a look-up.
fn items_of(alloc: Global, world: &World, way: Direction) -> Result<BTreeSet<u32>, AllocError>
    ensures { IfOk result (λ set. AreIds (IsItem world.now way) set.keys) }
{
    let mut set = BTreeSet::new(alloc);
    for item in world.items.as_slice() {
        if let Some(id) = interface_in(way, *item) {
            set.insert(id.0)?;
        }
    }
    Ok(set)
}

/// The interface that a used name is of.
fn used_interface(resolve: &Resolve, row: TypeId) -> Option<InterfaceId>
    ensures { IfSome result (λ id. IsUseOf resolve.now id row) }
{
    let TypeDefKind::Use(target) = type_at(resolve, row)?.kind else {
        return None;
    };
    Some(name_at(resolve, target)?.interface)
}

/// Puts the interfaces into the set that an interface uses.
fn put_uses(
    resolve: &Resolve,
    interface: &Interface,
    set: &mut BTreeSet<u32>,
) -> Result<(), AllocError>
    ensures { OnOk result (AreIds (λ id. Contains set.old.keys id.0 ⊎ Uses resolve.now id interface.now) set.new.keys) }
{
    for row in interface.uses.as_slice() {
        if let Some(used) = used_interface(resolve, *row) {
            set.insert(used.0)?;
        }
    }
    Ok(())
}

/// Puts the interfaces into the set that one of these uses.
fn put_used(
    resolve: &Resolve,
    users: &[InterfaceId],
    set: &mut BTreeSet<u32>,
) -> Result<(), AllocError>
    ensures { OnOk result (AreIds (λ id. Contains set.old.keys id.0
        ⊎ IsUsedByOne resolve.now users.now id) set.new.keys) }
{
    for user in users {
        if let Some(interface) = interface_at(resolve, *user) {
            put_uses(resolve, interface, set)?;
        }
    }
    Ok(())
}

/// Whether the set has all of these interfaces.
fn has_all(set: &BTreeSet<u32>, ids: &[InterfaceId]) -> bool
    ensures { IsTrue result → All (λ id. Contains set.now.keys id.0) ids.now }
{
    for id in ids {
        if !set.contains(&id.0) {
            return false;
        }
    }
    true
}

/// Whether an item, if it is an interface, is in the set of those that cross its way.
fn is_listed(item: WorldItem, imports: &BTreeSet<u32>, exports: &BTreeSet<u32>) -> bool
    ensures { IsTrue result → IsListed (λ id. Contains imports.now.keys id.0) (λ id. Contains exports.now.keys id.0)
        item.direction item.kind }
{
    match (item.direction, item.kind) {
        (Direction::Import, WorldItemKind::Interface(id)) => imports.contains(&id.0),
        (Direction::Export, WorldItemKind::Interface(id)) => exports.contains(&id.0),
        (_, WorldItemKind::Function(_)) => true,
    }
}

/// Whether each item that is an interface is in the set of those that cross its way.
fn are_listed(items: &[WorldItem], imports: &BTreeSet<u32>, exports: &BTreeSet<u32>) -> bool
    ensures { IsTrue result → All (λ item. IsListed (λ id. Contains imports.now.keys id.0)
        (λ id. Contains exports.now.keys id.0) item.direction item.kind) items.now }
{
    for item in items {
        if !is_listed(*item, imports, exports) {
            return false;
        }
    }
    true
}

/// Whether these are all interfaces that a world imports with those that are used, and those that it exports.
pub fn are_of_world(
    comparison: &Comparison<'_>,
    world: &World,
    imports: &[InterfaceId],
    exports: &[InterfaceId],
) -> Result<bool, AllocError>
    ensures { IfOk result (λ are. IsTrue are
        → AreOfWorld comparison.now.resolve.now world.now imports.now exports.now) }
{
    let alloc = comparison.alloc;
    let imported = set_of(alloc, imports)?;
    let exported = set_of(alloc, exports)?;
    let mut needed = items_of(alloc, world, Direction::Import)?;
    put_used(comparison.resolve, imports, &mut needed)?;
    put_used(comparison.resolve, exports, &mut needed)?;
    let wanted = items_of(alloc, world, Direction::Export)?;
    if !are_listed(world.items.as_slice(), &imported, &exported) {
        return Ok(false);
    }
    if !has_all(&needed, imports) {
        return Ok(false);
    }
    Ok(has_all(&wanted, exports))
}

/// Whether each of these interfaces is used by one of those.
pub fn are_used(
    comparison: &Comparison<'_>,
    users: &[InterfaceId],
    used: &[InterfaceId],
) -> Result<bool, AllocError>
    ensures { IfOk result (λ are. IsTrue are → All (IsUsedByOne comparison.now.resolve.now users.now) used.now) }
{
    let mut set = BTreeSet::new(comparison.alloc);
    put_used(comparison.resolve, users, &mut set)?;
    Ok(has_all(&set, used))
}
