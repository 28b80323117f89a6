//! Whether a table is closed: one package behind the interfaces of others that it reaches.
ghost use Rattle.std.specs.Prelude.{◌≡◌, ◌≤◌, ◌<◌, ◌++◌, ◌∷◌, [], ℕ, List, length, true, flat_map, None, Some, IfOk};
ghost use Rattle.std.specs.Prelude.{MatchOption, option_map, string_bytes, slice_set};
ghost use Rattle.std.specs.List.{list_all, list_any};
ghost use Rattle.package_form.specs.Reached.{used_in, name_at, reached_by_row, reached_by_item, reached_by_world};
ghost use Rattle.package_form.specs.Reached.{reached, is_interface_of, are_reached};
ghost use Rattle.package_form.specs.Marks.{AreMarked};
ghost use Rattle.package_form.specs.Closed.{own_package, has_own, is_world_of, is_same_version, is_same_package};
ghost use Rattle.package_form.specs.Closed.{are_apart, are_of_a_set, has_each_package, is_closed};

use std::alloc::{AllocError, Global};
use tables::{
    Definition, Interface, InterfaceId, PackageName, Resolve, TypeDefKind, TypeId, TypeName, World,
    WorldItem, WorldItemKind,
};

/// The packages that a set may have.
const MOST_PACKAGES: usize = 64;

fn has_interface_of(own: usize, interfaces: &[Interface]) -> bool
    ensures { result ≡ list_any (is_interface_of own) interfaces.now }
{
    interfaces
        .iter()
        .any(|interface| interface.package.0 as usize == own)
}

/// The place of the own package, the last.
pub fn own_package(packages: &[PackageName]) -> usize
    ensures { result ≡ own_package packages.now }
{
    packages.len().saturating_sub(1)
}

/// Whether the own package has an interface or a world.
fn has_own(own: usize, interfaces: &[Interface], worlds: &[World]) -> bool
    ensures { result ≡ has_own own interfaces.now worlds.now }
{
    !worlds.is_empty() || has_interface_of(own, interfaces)
}

/// Whether two versions are one.
pub fn is_same_version(a: &Option<String>, b: &Option<String>) -> bool
    ensures { result ≡ is_same_version (option_map string_bytes a.now) (option_map string_bytes b.now) }
{
    match (a, b) {
        (Some(a), Some(b)) => a.as_bytes() == b.as_bytes(),
        (None, None) => true,
        _ => false,
    }
}

/// Whether the names of two packages are one.
fn is_same_package(a: &PackageName, b: &PackageName) -> bool
    ensures { result ≡ is_same_package a.now b.now }
{
    a.namespace.as_bytes() == b.namespace.as_bytes()
        && a.name.as_bytes() == b.name.as_bytes()
        && is_same_version(&a.version, &b.version)
}

fn is_among(package: &PackageName, others: &[PackageName]) -> bool
    ensures { result ≡ list_any (is_same_package «package».now) others.now }
{
    for other in others {
        if is_same_package(package, other) {
            return true;
        }
    }
    false
}

/// Whether no two packages have one name.
fn are_apart(packages: &[PackageName]) -> bool
    ensures { result ≡ are_apart packages.now }
{
    for (place, package) in packages.iter().enumerate() {
        if is_among(package, &packages[place + 1..]) {
            return false;
        }
    }
    true
}

/// Whether a set may have these packages: there are at most 64, and no two have one name.
fn are_of_a_set(packages: &[PackageName]) -> bool
    ensures { result ≡ are_of_a_set packages.now }
{
    packages.len() <= MOST_PACKAGES && are_apart(packages)
}

/// Whether the packages of these interfaces leave none out, and each before `last` has come.
fn has_each_package(last: usize, interfaces: &[Interface]) -> bool
    ensures { result ≡ has_each_package last 0 interfaces.now }
{
    let mut next = 0;
    for interface in interfaces {
        let package = interface.package.0 as usize;
        if next < package {
            return false;
        }
        next = package + 1;
    }
    last <= next
}

fn are_own_worlds(own: usize, worlds: &[World]) -> bool
    ensures { result ≡ list_all (is_world_of own) worlds.now }
{
    worlds.iter().all(|world| world.package.0 as usize == own)
}

/// The type that a row uses of another interface, if it is a used name.
fn used_in(row: &Definition) -> Option<TypeId>
    ensures { result ≡ used_in row.now }
{
    match row {
        Definition::Type(definition) => match definition.kind {
            TypeDefKind::Use(target) => Some(target),
            _ => None,
        },
        Definition::Function(_) => None,
    }
}

/// The name of the type that a row uses.
pub fn used_name<'a>(rows: &'a [Definition], row: &Definition) -> Option<&'a TypeName>
    ensures { MatchOption result (name_at rows.now (used_in row.now) ≡ None)
        (λ n. name_at rows.now (used_in row.now) ≡ Some n.now) }
{
    let target = used_in(row)?;
    match rows.get(target.0 as usize) {
        Some(Definition::Type(definition)) => definition.name.as_ref(),
        _ => None,
    }
}

/// The interface that a row reaches, if it is a used name.
fn reached_by_row(rows: &[Definition], row: &Definition) -> Option<InterfaceId>
    ensures { MatchOption result (reached_by_row rows.now row.now ≡ [])
        (λ i. reached_by_row rows.now row.now ≡ i.0 ∷ []) }
{
    match used_name(rows, row) {
        Some(name) => Some(name.interface),
        None => None,
    }
}

/// The interface that an item is, if it is one.
fn reached_by_item(item: WorldItem) -> Option<InterfaceId>
    ensures { MatchOption result (reached_by_item item ≡ []) (λ i. reached_by_item item ≡ i.0 ∷ []) }
{
    match item.kind {
        WorldItemKind::Interface(id) => Some(id),
        WorldItemKind::Function(_) => None,
    }
}

fn mark(marks: &mut Vec<bool>, id: InterfaceId)
    ensures { marks.new.items ≡ slice_set marks.old.items id.0 true }
{
    if (id.0 as usize) < marks.len() {
        marks[id.0 as usize] = true;
    }
}

/// Marks the interfaces that used names reach.
fn mark_uses(marks: &mut Vec<bool>, rows: &[Definition])
    ensures { (n : ℕ) (places : List ℕ) → AreMarked n places marks.old.items
        → AreMarked n (places ++ flat_map (reached_by_row rows.now) rows.now) marks.new.items }
{
    for row in rows {
        if let Some(id) = reached_by_row(rows, row) {
            mark(marks, id);
        }
    }
}

fn mark_items(marks: &mut Vec<bool>, items: &[WorldItem])
    ensures { (n : ℕ) (places : List ℕ) → AreMarked n places marks.old.items
        → AreMarked n (places ++ flat_map reached_by_item items.now) marks.new.items }
{
    for item in items {
        if let Some(id) = reached_by_item(*item) {
            mark(marks, id);
        }
    }
}

/// Marks the interfaces that items of worlds are.
fn mark_worlds(marks: &mut Vec<bool>, worlds: &[World])
    ensures { (n : ℕ) (places : List ℕ) → AreMarked n places marks.old.items
        → AreMarked n (places ++ flat_map reached_by_world worlds.now) marks.new.items }
{
    for world in worlds {
        mark_items(marks, world.items.as_slice());
    }
}

/// Which of so many interfaces are reached.
fn reached_marks(
    alloc: Global,
    count: usize,
    rows: &[Definition],
    worlds: &[World],
) -> Result<Vec<bool>, AllocError>
    ensures { IfOk result (λ v. AreMarked count (reached rows.now worlds.now) v.items) }
{
    let mut marks = vec![in alloc; false; count]?;
    mark_uses(&mut marks, rows);
    mark_worlds(&mut marks, worlds);
    Ok(marks)
}

/// Whether each interface is of the own package or marked.
fn are_reached(own: usize, marks: &[bool], interfaces: &[Interface]) -> bool
    requires { length interfaces.now ≤ length marks.now }
    ensures { (places : List ℕ) → AreMarked (length interfaces.now) places marks.now
        → result ≡ are_reached own places 0 interfaces.now }
{
    for (place, interface) in interfaces.iter().enumerate() {
        if interface.package.0 as usize != own && !marks[place] {
            return false;
        }
    }
    true
}

/// Whether a table is closed, by one test after the other.
pub fn is_closed(alloc: Global, resolve: &Resolve) -> Result<bool, AllocError>
    ensures { IfOk result (λ b. b ≡ is_closed resolve.now) }
{
    let packages = resolve.packages.as_slice();
    let interfaces = resolve.interfaces.as_slice();
    let worlds = resolve.worlds.as_slice();
    let own = own_package(packages);
    if !has_own(own, interfaces, worlds) || !are_of_a_set(packages) {
        return Ok(false);
    }
    if !has_each_package(own, interfaces) || !are_own_worlds(own, worlds) {
        return Ok(false);
    }
    let marks = reached_marks(
        alloc,
        interfaces.len(),
        resolve.definitions.as_slice(),
        worlds,
    )?;
    Ok(are_reached(own, &marks, interfaces))
}
