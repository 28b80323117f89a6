//! Whether the interfaces of a table can be imports.
ghost use Rattle.std.specs.Prelude.{◌≡◌, ◌<◌, length, slice_index_or, Decides, IfOk};
ghost use Rattle.std.specs.List.{list_all};
ghost use Rattle.tree_meaning.specs.Imports.{AreApart, interfaces_of};
ghost use Rattle.tree_meaning.specs.Resolves.{AreImports, is_of_interfaces};
ghost use Rattle.tree_scopes.specs.Tested.{IsFirstOfName};

use package_form::is_postfix;
use package_names::{IndexedTable, PackageKey};
use std::alloc::{AllocError, Global};
use tables::{Definition, Interface, Owner, Resolve};

/// Whether the row is a type without a name, or stands in one of so many interfaces.
fn is_of_interfaces(count: usize, row: &Definition) -> bool
    ensures { result ≡ is_of_interfaces count row.now }
{
    match row {
        Definition::Type(definition) => match &definition.name {
            Some(name) => (name.interface.0 as usize) < count,
            None => true,
        },
        Definition::Function(function) => match function.owner {
            Owner::Interface(owner) => (owner.0 as usize) < count,
            Owner::World(_) => false,
        },
    }
}

fn are_of_interfaces(count: usize, rows: &[Definition]) -> bool
    ensures { result ≡ list_all (is_of_interfaces count) rows.now }
{
    rows.iter().all(|row| is_of_interfaces(count, row))
}

/// Whether the interface at this place is the first of its name in its package.
fn is_first(table: &IndexedTable<'_>, place: usize, interface: &Interface) -> bool
    requires below { place < length table.now.interfaces }
    requires there { interface.now ≡ slice_index_or table.now.interfaces place interface.now }
    ensures { Decides result (IsFirstOfName table.now place) }
{
    let package = &table.table().packages.as_slice()[interface.package.0 as usize];
    match table.place(PackageKey::of(package), &interface.name) {
        Some(first) => first == place,
        None => false,
    }
}

/// Whether no two interfaces of a package have one name.
fn names_differ(alloc: Global, imports: &Resolve) -> Result<bool, AllocError>
    ensures { IfOk result (λ b. Decides b (AreApart (interfaces_of imports.now))) }
{
    let table = IndexedTable::of(alloc, imports)?;
    for (place, interface) in imports.interfaces.as_slice().iter().enumerate() {
        if !is_first(&table, place, interface) {
            return Ok(false);
        }
    }
    Ok(true)
}

/// Whether the interfaces of a table can be a tree's imports: no two of a package have one name, each row stands in one
/// of them, none in a world, and rows without names stand in postfix order.
pub fn are_imports(alloc: Global, imports: &Resolve) -> Result<bool, AllocError>
    ensures { IfOk result (λ b. Decides b (AreImports imports.now)) }
{
    let rows = imports.definitions.as_slice();
    if !imports.worlds.as_slice().is_empty() {
        return Ok(false);
    }
    if !are_of_interfaces(imports.interfaces.len(), rows) {
        return Ok(false);
    }
    if !names_differ(alloc, imports)? {
        return Ok(false);
    }
    is_postfix(alloc, imports)
}
