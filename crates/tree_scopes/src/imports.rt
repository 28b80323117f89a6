//! The interfaces of other packages that a tree may name, its imports.
ghost use Rattle.std.specs.Prelude.{◌≡◌, ◌<◌, ◌++◌, ◌+◌, filter_map, length, IfOk, IfErr, OnOk, MatchOption, None};
ghost use Rattle.std.specs.Prelude.{Some};
ghost use Rattle.std.specs.List.{list_any};
ghost use Rattle.package_form.specs.Closed.{is_same_package};
ghost use Rattle.package_form.specs.Entries.{Table};
ghost use Rattle.package_names.specs.Indexed.{key_parts};
ghost use Rattle.package_form.specs.Reached.{name_at};
ghost use Rattle.tree_meaning.specs.Finished.{header_name};
ghost use Rattle.tree_meaning.specs.Imports.{import_place, interfaces_of, type_within, types_within};
ghost use Rattle.tree_scopes.specs.KnownScopes.{IsScope, scope_names, AreImportScopes};

use crate::known::{KnownTypes, TypeIds};
use atoms::{KeyedState, Label};
use package_form::is_same_version;
use package_names::{IndexedTable, PackageKey};
use std::alloc::{AllocError, Global};
use tables::{
    Definition, Interface, InterfaceId, PackageName, Resolve, TypeId, TypeName, copy_version,
};
use wit_tokens::wit_syntax::PackageId;

/// Whether the package has the name that a path gives.
fn is_package(package: &PackageName, id: &PackageId) -> bool
    ensures { result ≡ is_same_package «package».now (header_name id.now) }
{
    package.namespace.as_bytes() == id.namespace.as_bytes()
        && package.name.as_bytes() == id.name.as_bytes()
        && is_same_version(&package.version, &id.version)
}

/// Whether one of these packages has the name that a path gives.
pub fn has_package(packages: &[PackageName], id: &PackageId) -> bool
    ensures { result ≡ list_any (λ p. is_same_package p (header_name id.now)) packages.now }
{
    for package in packages {
        if is_package(package, id) {
            return true;
        }
    }
    false
}

/// The name of the package that a tree's header gives.
pub fn package_name(alloc: Global, id: &PackageId) -> Result<PackageName, AllocError>
    ensures { IfOk result (λ p. p ≡ header_name id.now) }
{
    Ok(PackageName {
        namespace: id.namespace.copy(alloc)?,
        name: id.name.copy(alloc)?,
        version: copy_version(&id.version)?,
    })
}

/// The name of a package that a path gives, lent.
pub fn package_key(id: &PackageId) -> PackageKey<'_>
    ensures { key_parts result ≡ header_name id.now }
{
    PackageKey {
        namespace: id.namespace.as_bytes(),
        name: id.name.as_bytes(),
        version: &id.version,
    }
}

/// The place of the interface of this name of this package.
pub fn import_place(imports: &IndexedTable<'_>, package: &PackageId, name: &Label) -> Option<usize>
    ensures { result ≡ import_place (interfaces_of imports.now) (header_name «package».now) name.now }
{
    imports.place(package_key(package), name)
}

fn name_at(rows: &[Definition], id: TypeId) -> Option<&TypeName>
    ensures { MatchOption result (name_at rows.now (Some id) ≡ None) (λ n. name_at rows.now (Some id) ≡ Some n.now) }
{
    match rows.get(id.0 as usize) {
        Some(Definition::Type(definition)) => definition.name.as_ref(),
        _ => None,
    }
}

/// The name of a type, if it has one in this interface.
fn type_within(rows: &[Definition], interface: InterfaceId, id: TypeId) -> Option<&Label>
    ensures { MatchOption result (type_within rows.now interface.0 id ≡ None)
        (λ n. type_within rows.now interface.0 id ≡ Some n.now) }
{
    let name = name_at(rows, id)?;
    if name.interface.0 == interface.0 {
        Some(&name.name)
    } else {
        None
    }
}

/// Puts the types at these places into the scope of their interface.
fn push_types<'a>(
    rows: &'a [Definition],
    ids: &[TypeId],
    scope: &mut KnownTypes<'a>,
) -> Result<(), AllocError>
    ensures names { OnOk result (scope_names scope.new ≡ scope_names scope.old
        ++ filter_map (type_within rows.now scope.old.interface.0) ids.now) }
    ensures interface { OnOk result (scope.new.interface ≡ scope.old.interface) }
    ensures scoped { OnOk result ((t : Table) → t.rows ≡ rows.now → IsScope t scope.old → IsScope t scope.new) }
{
    for id in ids {
        if let Some(name) = type_within(rows, scope.interface, *id) {
            scope.entries.push(name, *id)?;
        }
    }
    Ok(())
}

/// The used names and the types of an import.
fn import_scope<'a>(
    alloc: Global,
    keyed: KeyedState,
    rows: &'a [Definition],
    place: InterfaceId,
    interface: &Interface,
) -> Result<KnownTypes<'a>, AllocError>
    ensures names { IfOk result (λ s. scope_names s ≡ types_within rows.now place.0 interface.now) }
    ensures place { IfOk result (λ s. s.interface ≡ place) }
    ensures scoped { IfOk result (λ s. (t : Table) → t.rows ≡ rows.now → IsScope t s) }
{
    let room = interface.uses.len().saturating_add(interface.types.len());
    let entries = TypeIds::with_room(alloc, keyed, room)?;
    let mut scope = KnownTypes {
        interface: place,
        entries,
    };
    push_types(rows, interface.uses.as_slice(), &mut scope)?;
    push_types(rows, interface.types.as_slice(), &mut scope)?;
    Ok(scope)
}

/// The id of the interface at this place. No memory where an id can't tell it.
pub fn interface_id(place: usize) -> Result<InterfaceId, AllocError>
    ensures ok { IfOk result (λ id. id.0 ≡ place) }
    ensures err { IfErr result (λ _. u32.MAX < place) }
{
    match u32::try_from(place) {
        Ok(place) => Ok(InterfaceId(place)),
        Err(_) => Err(AllocError),
    }
}

/// The scope of each import.
pub fn import_scopes<'a>(
    alloc: Global,
    keyed: KeyedState,
    imports: &'a Resolve,
) -> Result<Vec<KnownTypes<'a>>, AllocError>
    ensures { IfOk result (λ ss. AreImportScopes imports.now ss.items) }
{
    let rows = imports.definitions.as_slice();
    let mut scopes = Vec::with_capacity(alloc, imports.interfaces.len())?;
    for (place, interface) in imports.interfaces.as_slice().iter().enumerate() {
        let id = interface_id(place)?;
        scopes.push(import_scope(alloc, keyed, rows, id, interface)?)?;
    }
    Ok(scopes)
}

/// The place behind so many imports. No memory where no number can tell it.
pub fn place_behind(imports: &IndexedTable<'_>, place: usize) -> Result<usize, AllocError>
    ensures ok { IfOk result (λ n. n ≡ length imports.now.interfaces + place) }
    ensures err { IfErr result (λ _. usize.MAX < length imports.now.interfaces + place) }
{
    match imports.table().interfaces.len().checked_add(place) {
        Some(place) => Ok(place),
        None => Err(AllocError),
    }
}
