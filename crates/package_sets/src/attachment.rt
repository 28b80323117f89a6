//! A set with one package more.
ghost use Rattle.std.specs.Prelude.{◌≡◌, ◌≤◌, ◌+◌, ◌++◌, ◌∷◌, ◌⊎◌, [], Decides, IfOk, IfErr, OnOk, drop, length, map};
ghost use Rattle.std.specs.Prelude.{slice_get, Some, vec_capacity, vec_len};
ghost use Rattle.set_rows.specs.Moved.{put_interface, put_row, put_world};
ghost use Rattle.package_sets.specs.Attached.{HasAll, LacksFirst, IsAttached, IsOwn, IsRefused};
ghost use Rattle.tables.specs.PackageNames.{PackageParts};
ghost use Rattle.package_sets.specs.Joining.{own_interfaces, AreRowsThere, AreIdsThere, HasIds, HasIdsAt, HasImports};
ghost use Rattle.package_sets.specs.Joined.{joined_places, FitsBehind, IsJoined, renaming_of};
ghost use Rattle.tables.specs.declared.error.ResolveError.TheVariants.{NotThisShape, NoMemory, NoPackage};

use crate::joining::{Joined, has_package, imports, own_interfaces, places_of};
use crate::same::{Same, are_same};
use package_form::own_package;
use set_rows::moved::{Movable, copied_name, moved_functions, moved_types, push_moved};
use std::alloc::{AllocError, Global};
use tables::{
    Definition, Interface, PackageId, PackageName, Resolve, ResolveError, Sequence, World,
};

/// The packages that a set may have.
pub const MOST_PACKAGES: usize = 64;

/// Whether a row stands at this place of the set, as it is there.
fn is_row_at(
    alloc: Global,
    set: &Resolve,
    place: u32,
    row: &Definition,
    to: &Joined,
) -> Result<bool, AllocError>
    ensures { IfOk result (λ b. Decides b
        (slice_get set.now.definitions place ≡ Some (put_row (renaming_of (joined_places to.now)) row.now))) }
{
    match set.definitions.as_slice().get(place as usize) {
        Some(other) => Ok(other.is_same(&row.moved(alloc, to)?)),
        None => Ok(false),
    }
}

/// Whether these rows stand in the set at their places there.
fn are_rows_there(
    alloc: Global,
    set: &Resolve,
    rows: &[Definition],
    to: &Joined,
) -> Result<bool, AllocError>
    requires { length rows.now ≤ length to.now.rows.items }
    ensures { IfOk result (λ b. Decides b (AreRowsThere set.now (renaming_of (joined_places to.now)) rows.now)) }
{
    for (place, row) in rows.iter().enumerate() {
        if !is_row_at(alloc, set, to.rows[place], row, to)? {
            return Ok(false);
        }
    }
    Ok(true)
}

/// Whether an interface of the set has the ids of this one, as they are there.
fn has_ids(
    alloc: Global,
    import: &Interface,
    other: &Interface,
    to: &Joined,
) -> Result<bool, AllocError>
    ensures { IfOk result (λ b. Decides b (HasIds (renaming_of (joined_places to.now)) import.now other.now)) }
{
    let uses = moved_types(alloc, &import.uses, to)?;
    let types = moved_types(alloc, &import.types, to)?;
    let functions = moved_functions(alloc, &import.functions, to)?;
    Ok(
        are_same(&other.uses, &uses)
            && are_same(&other.types, &types)
            && are_same(&other.functions, &functions),
    )
}

/// Whether the interface at this place of the set has the ids of this one.
fn has_ids_at(
    alloc: Global,
    set: &Resolve,
    place: u32,
    import: &Interface,
    to: &Joined,
) -> Result<bool, AllocError>
    ensures { IfOk result (λ b. Decides b (HasIdsAt set.now (renaming_of (joined_places to.now)) import.now place)) }
{
    match set.interfaces.as_slice().get(place as usize) {
        Some(other) => has_ids(alloc, import, other, to),
        None => Ok(false),
    }
}

/// Whether these interfaces have their ids in the set, as they are there.
fn are_ids_there(
    alloc: Global,
    set: &Resolve,
    imports: &[Interface],
    to: &Joined,
) -> Result<bool, AllocError>
    requires { length imports.now ≤ length to.now.interfaces.items }
    ensures { IfOk result (λ b. Decides b (AreIdsThere set.now (renaming_of (joined_places to.now)) imports.now)) }
{
    for (place, import) in imports.iter().enumerate() {
        if !has_ids_at(alloc, set, to.interfaces[place], import, to)? {
            return Ok(false);
        }
    }
    Ok(true)
}

/// The places of what a closed table has, if its imports are as the set has them: 44 where they aren't.
fn placed(alloc: Global, set: &Resolve, closed: &Resolve) -> Result<Joined, ResolveError>
    ensures ok { IfOk result (λ j. IsJoined set.now closed.now (joined_places j)) }
    ensures err { IfErr result (λ e. (e ≡ NoMemory) ⊎ ((e ≡ NotThisShape) × (¬ HasImports set.now closed.now))) }
{
    let to = places_of(alloc, set, closed)?;
    if !are_rows_there(alloc, set, to.import_rows(closed), &to)? {
        return Err(ResolveError::NotThisShape);
    }
    if !are_ids_there(alloc, set, imports(closed), &to)? {
        return Err(ResolveError::NotThisShape);
    }
    Ok(to)
}

/// That the set has all of these packages. 47 at the first that it lacks.
fn has_packages(alloc: Global, set: &Resolve, packages: &[PackageName]) -> Result<(), ResolveError>
    ensures ok { OnOk result (HasAll set.now packages.now) }
    ensures err { IfErr result (λ e. (e ≡ NoMemory)
        ⊎ ((p : PackageParts) × (e ≡ NoPackage p) × LacksFirst set.now packages.now p)) }
{
    for package in packages {
        if !has_package(set, package) {
            return Err(ResolveError::NoPackage(copied_name(alloc, package)?));
        }
    }
    Ok(())
}

/// What a package has of its own, as it stands in a set.
#[derive(Drop)]
struct OwnPart {
    /// Its name alone.
    packages: Sequence<PackageName>,
    interfaces: Sequence<Interface>,
    worlds: Sequence<World>,
    definitions: Sequence<Definition>,
}

/// The own part of a closed table, at its places in the set.
fn own_part(alloc: Global, closed: &Resolve, to: &Joined) -> Result<OwnPart, AllocError>
    requires { (p : PackageParts) × IsOwn closed.now p }
    ensures packages { IfOk result (λ x. (p : PackageParts) × IsOwn closed.now p × (x.packages ≡ p ∷ [])) }
    ensures interfaces { IfOk result (λ x. x.interfaces
        ≡ map (put_interface (renaming_of (joined_places to.now))) (own_interfaces closed.now)) }
    ensures worlds { IfOk result (λ x. x.worlds
        ≡ map (put_world (renaming_of (joined_places to.now))) closed.now.worlds) }
    ensures definitions { IfOk result (λ x. x.definitions
        ≡ map (put_row (renaming_of (joined_places to.now))) (drop to.now.imported closed.now.definitions)) }
{
    let names = closed.packages.as_slice();
    let mut packages = Sequence::new(Vec::new(alloc));
    packages.push(copied_name(alloc, &names[own_package(names)])?)?;
    let mut interfaces = Sequence::new(Vec::new(alloc));
    push_moved(alloc, &mut interfaces, own_interfaces(closed), to)?;
    let mut worlds = Sequence::new(Vec::new(alloc));
    push_moved(alloc, &mut worlds, closed.worlds.as_slice(), to)?;
    let mut definitions = Sequence::new(Vec::new(alloc));
    push_moved(alloc, &mut definitions, to.own_rows(closed), to)?;
    Ok(OwnPart {
        packages,
        interfaces,
        worlds,
        definitions,
    })
}

/// Two lists as one. The first has room for both.
fn joined<T: Drop>(mut items: Vec<T>, more: Sequence<T>) -> Sequence<T>
    requires { vec_len items + length more ≤ vec_capacity items }
    ensures { result ≡ items.items ++ more }
{
    match items.append(&mut more.into_vec()) {
        Ok(()) => Sequence::new(items),
        Err(_) => unreachable!(),
    }
}

/// The lists of a set.
#[derive(Drop)]
struct Lists {
    packages: Vec<PackageName>,
    interfaces: Vec<Interface>,
    worlds: Vec<World>,
    definitions: Vec<Definition>,
}

impl Lists {
    fn of(set: Resolve) -> Lists
        ensures { (result.packages.items ≡ set.packages) × (result.interfaces.items ≡ set.interfaces)
            × (result.worlds.items ≡ set.worlds) × (result.definitions.items ≡ set.definitions) }
    {
        Lists {
            packages: set.packages.into_vec(),
            interfaces: set.interfaces.into_vec(),
            worlds: set.worlds.into_vec(),
            definitions: set.definitions.into_vec(),
        }
    }

    /// Makes room for a package more.
    fn reserve(&mut self, own: &OwnPart) -> Result<(), AllocError>
        ensures same { (self.new.packages.items ≡ self.old.packages.items)
            × (self.new.interfaces.items ≡ self.old.interfaces.items)
            × (self.new.worlds.items ≡ self.old.worlds.items)
            × (self.new.definitions.items ≡ self.old.definitions.items) }
        ensures room { OnOk result ((vec_len self.new.packages + length own.now.packages
            ≤ vec_capacity self.new.packages)
            × (vec_len self.new.interfaces + length own.now.interfaces ≤ vec_capacity self.new.interfaces)
            × (vec_len self.new.worlds + length own.now.worlds ≤ vec_capacity self.new.worlds)
            × (vec_len self.new.definitions + length own.now.definitions ≤ vec_capacity self.new.definitions)) }
    {
        self.packages.reserve(own.packages.len())?;
        self.interfaces.reserve(own.interfaces.len())?;
        self.worlds.reserve(own.worlds.len())?;
        self.definitions.reserve(own.definitions.len())
    }
}

/// The places of what a closed table has in a set, if its package can stand behind the set's: the interfaces of others
/// that it reaches are found in the set, and its own part stands behind all of the set.
///
/// 49 where the set has 64 packages; else 48 where it has a package of this name; else 47 where it lacks a package that
/// is imported from; else 44 where an interface that is imported isn't there, or isn't row for row as the set has it.
/// 46 where there is no memory, or no id for a row; not before 49.
pub fn fitting(alloc: Global, set: &Resolve, closed: &Resolve) -> Result<Joined, ResolveError>
    ensures ok { IfOk result (λ j. FitsBehind set.now closed.now (joined_places j)) }
    ensures err { IfErr result (IsRefused set.now closed.now) }
{
    if MOST_PACKAGES <= set.packages.len() {
        return Err(ResolveError::SetLimit);
    }
    let packages = closed.packages.as_slice();
    let own = own_package(packages);
    let Some(name) = packages.get(own) else {
        return Err(ResolveError::NotThisShape);
    };
    if has_package(set, name) {
        return Err(ResolveError::SamePackage(copied_name(alloc, name)?));
    }
    has_packages(alloc, set, &packages[..own])?;
    placed(alloc, set, closed)
}

/// A set with one package more, and the id of this package there. `closed` is its closed table, whose last package it
/// is, and which fits behind the set at these places. Where there is no memory, the set as it was.
pub fn put_behind(
    alloc: Global,
    set: Resolve,
    closed: &Resolve,
    to: &Joined,
) -> Result<(Resolve, PackageId), Resolve>
    requires { FitsBehind set closed.now (joined_places to.now) }
    ensures ok { IfOk result (λ r. IsAttached set closed.now r.0 r.1.0) }
    ensures err { IfErr result (λ r. r ≡ set) }
{
    let Ok(own) = own_part(alloc, closed, to) else {
        return Err(set);
    };
    let mut lists = Lists::of(set);
    if lists.reserve(&own).is_err() {
        return Err(Resolve {
            packages: Sequence::new(lists.packages),
            interfaces: Sequence::new(lists.interfaces),
            worlds: Sequence::new(lists.worlds),
            definitions: Sequence::new(lists.definitions),
        });
    }
    let resolve = Resolve {
        packages: joined(lists.packages, own.packages),
        interfaces: joined(lists.interfaces, own.interfaces),
        worlds: joined(lists.worlds, own.worlds),
        definitions: joined(lists.definitions, own.definitions),
    };
    Ok((resolve, PackageId(to.package)))
}
