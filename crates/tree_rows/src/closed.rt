//! A package of a table of definitions: the ids of its interfaces, and its limits.
ghost use Rattle.std.specs.Prelude.{◌≡◌, ◌<◌, ◌≤◌, ◌⊎◌, ◌+◌, ◌++◌, nat_lt, true, List, [], map, sum, length, IsTrue};
ghost use Rattle.std.specs.Prelude.{IfOk, IfErr, OnOk, IfSome, IfNone, Some, ℕ};
ghost use Rattle.tables.specs.Tables.{are_earlier, name_types};
ghost use Rattle.tables.specs.Package.{interface_names};
ghost use Rattle.wit_tokens.specs.View.{file_view};
ghost use Rattle.tree_meaning.specs.Declarations.{package_named};
ghost use Rattle.tree_meaning.specs.Resolves.{PassesLimit, interfaces_behind};
ghost use Rattle.package_form.specs.Entries.{world_entries, entries_of};
ghost use Rattle.tree_meaning.specs.Finished.{IsFinished, definition_interface, with_definition};
ghost use Rattle.tree_meaning.specs.WorldRows.{worlds_stand, with_worlds};

use crate::builder::Builder;
use crate::plan::Plan;
use package_form::passes_entries;
use package_names::IndexedTable;
use std::alloc::{AllocError, Global};
use table_building::{are_standard, copy_of};
use tables::{
    Definition, FunctionId, Interface, Owner, PackageId, PackageName, Resolve, ResolveError,
    Sequence, TypeDefKind, TypeId, World,
};
use tree_scopes::{package_name, place_behind};

/// The most type entries of a package, its imports counted.
const MAX_ENTRIES: usize = 65535;

/// The interface that a row has a name in.
fn interface_of(row: &Definition) -> Option<usize>
    ensures { result ≡ definition_interface row.now }
{
    match row {
        Definition::Type(definition) => match &definition.name {
            Some(name) => Some(name.interface.0 as usize),
            None => None,
        },
        Definition::Function(function) => match function.owner {
            Owner::Interface(owner) => Some(owner.0 as usize),
            Owner::World(_) => None,
        },
    }
}

/// The place among so many interfaces, the first of which stands at this place, of that which a row has a name in.
fn own_place(first: usize, count: usize, row: &Definition) -> Option<usize>
    ensures none { IfNone result ((j : ℕ) → j < count → definition_interface row.now ≡ Some (first + j) → ⊥) }
    ensures some { IfSome result (λ j. (j < count) × (definition_interface row.now ≡ Some (first + j))) }
{
    let index = interface_of(row)?;
    let place = index.checked_sub(first)?;
    if place < count { Some(place) } else { None }
}

/// Puts the id of the row at this place behind the interface's ids of its kind.
fn push_id(interface: &mut Interface, place: usize, row: &Definition) -> Result<(), AllocError>
    requires { place ≤ 65535 }
    ensures { OnOk result (interface.new ≡ with_definition place row.now interface.old) }
{
    match row {
        Definition::Type(definition) => match definition.kind {
            TypeDefKind::Use(_) => interface.uses.push(TypeId(place as u32))?,
            _ => interface.types.push(TypeId(place as u32))?,
        },
        Definition::Function(_) => interface.functions.push(FunctionId(place as u32))?,
    }
    Ok(())
}

/// Interfaces of a plan's names in this package, without definitions, for which there is room. The first of them stands
/// at this place.
fn empty_interfaces(
    alloc: Global,
    plan: &Plan<'_>,
    package: PackageId,
    first: usize,
) -> Result<Vec<Interface>, AllocError>
    ensures { IfOk result (λ is. is.items ≡ interfaces_behind «package».0 first [] plan.now.labels.now) }
{
    let mut interfaces = Vec::with_capacity(alloc, plan.labels.len())?;
    for (place, name) in plan.labels.iter().enumerate() {
        let counts = plan.counts(place);
        interfaces.push(Interface {
            package,
            name: name.copy(alloc)?,
            uses: Sequence::new(Vec::with_capacity(alloc, counts.uses)?),
            types: Sequence::new(Vec::with_capacity(alloc, counts.types)?),
            functions: Sequence::new(Vec::with_capacity(alloc, counts.functions)?),
        })?;
    }
    Ok(interfaces)
}

/// The interfaces of a plan's names, with the ids of their definitions.
fn interfaces_in(
    alloc: Global,
    plan: &Plan<'_>,
    rows: &[Definition],
    package: PackageId,
    first: usize,
) -> Result<Vec<Interface>, AllocError>
    requires { length rows.now ≤ 65535 }
    ensures { IfOk result (λ is. is.items ≡ interfaces_behind «package».0 first rows.now plan.now.labels.now) }
{
    let mut interfaces = empty_interfaces(alloc, plan, package, first)?;
    for (place, row) in rows.iter().enumerate() {
        if let Some(index) = own_place(first, interfaces.len(), row) {
            push_id(&mut interfaces[index], place, row)?;
        }
    }
    Ok(interfaces)
}

/// Whether a package of so many interfaces, of these worlds and of these rows has too many type entries.
fn passes_limit(interfaces: usize, worlds: &[World], rows: &[Definition]) -> bool
    ensures { result ≡ nat_lt 65535 (1 + interfaces
        + (sum (map world_entries worlds.now) + sum (map entries_of rows.now))) }
{
    if interfaces > MAX_ENTRIES {
        return true;
    }
    passes_entries(interfaces, worlds, rows)
}

/// The parts of a copy of the imports: their packages, their interfaces and their definitions, which have room for so
/// many more.
pub fn copied_parts(
    alloc: Global,
    imports: &IndexedTable<'_>,
    room: usize,
) -> Result<(Vec<PackageName>, Vec<Interface>, Vec<Definition>), AllocError>
    ensures packages { IfOk result (λ r. r.0.items ≡ imports.now.packages) }
    ensures interfaces { IfOk result (λ r. r.1.items ≡ imports.now.interfaces) }
    ensures definitions { IfOk result (λ r. r.2.items ≡ imports.now.definitions) }
{
    let Resolve {
        packages,
        interfaces,
        worlds: _,
        definitions,
    } = copy_of(alloc, imports.table())?;
    let mut rows = definitions.into_vec();
    rows.reserve_exact(room)?;
    Ok((packages.into_vec(), interfaces.into_vec(), rows))
}

/// The id of the package behind those of the imports. No memory where an id can't tell it.
pub fn package_id(imports: &IndexedTable<'_>) -> Result<PackageId, AllocError>
    ensures ok { IfOk result (λ id. id.0 ≡ length imports.now.packages) }
    ensures err { IfErr result (λ _. u32.MAX < length imports.now.packages) }
{
    match u32::try_from(imports.table().packages.len()) {
        Ok(place) => Ok(PackageId(place)),
        Err(_) => Err(AllocError),
    }
}

/// The interfaces of the imports and the own ones, which are not copied where there are no imports.
fn joined(imported: Vec<Interface>, own: Vec<Interface>) -> Result<Vec<Interface>, AllocError>
    ensures { IfOk result (λ is. is.items ≡ imported.items ++ own.items) }
{
    if imported.is_empty() {
        return Ok(own);
    }
    let mut all = imported;
    let mut behind = own;
    all.append(&mut behind)?;
    Ok(all)
}

/// The closed table of these definitions with these worlds behind the imports, whose packages and interfaces these are.
pub fn finish(
    alloc: Global,
    plan: &Plan<'_>,
    mut packages: Vec<PackageName>,
    interfaces: Vec<Interface>,
    builder: Builder,
    worlds: Vec<World>,
) -> Result<Resolve, ResolveError>
    requires packages { packages.items ≡ plan.now.imports.now.packages }
    requires interfaces { interfaces.items ≡ plan.now.imports.now.interfaces }
    requires names { builder.interfaces ≡ interface_names plan.now.imports.now ++ plan.now.labels.now }
    requires rows { (own : List Definition) × (builder.rows ≡ plan.now.imports.now.definitions ++ own) }
    requires earlier { IsTrue (are_earlier 0 builder.rows) }
    requires typed { IsTrue (name_types builder.rows) }
    requires worlds { worlds_stand (length plan.now.imports.now.packages) builder 0 worlds.items ≡ true }
    ensures ok { IfOk result (IsFinished plan.now.imports.now (package_named (file_view plan.now.ast.now))
        plan.now.labels.now (with_worlds builder.entry worlds.items)) }
    ensures err { IfErr result (λ e. (e ≡ ResolveError.NoMemory)
        ⊎ ((e ≡ ResolveError.Limit) × PassesLimit (with_worlds builder.entry worlds.items))) }
{
    let rows = builder.into_rows();
    let count = place_behind(plan.imports, plan.labels.len())?;
    if passes_limit(count, &worlds, &rows) || !are_standard(&rows) {
        return Err(ResolveError::Limit);
    }
    let id = package_id(plan.imports)?;
    let own = interfaces_in(alloc, plan, &rows, id, interfaces.len())?;
    let interfaces = joined(interfaces, own)?;
    packages.push(package_name(alloc, &plan.ast.package)?)?;
    Ok(Resolve {
        packages: Sequence::new(packages),
        interfaces: Sequence::new(interfaces),
        worlds: Sequence::new(worlds),
        definitions: Sequence::new(rows),
    })
}
