//! Whether a table is one that packages have.
ghost use Rattle.std.specs.Prelude.{◌≡◌, ◌≤◌, ◌<◌, ◌+◌, ◌++◌, ◌&&◌, ◌↔◌, [], not, length, map, IsTrue, IfOk, OnOk};
ghost use Rattle.std.specs.List.{list_all};
ghost use Rattle.atoms.specs.FullName.{is_package_label};
ghost use Rattle.atoms.specs.Label.{is_upper};
ghost use Rattle.package_form.specs.Ids.{places_where};
ghost use Rattle.package_form.specs.Ends.{end_of, interfaces_end, world_end, are_worlds_parted, is_parted};
ghost use Rattle.package_form.specs.Form.{is_package_name, has_full_names, is_own_name, is_own, is_earlier_name};
ghost use Rattle.package_form.specs.Form.{is_earlier, uses_earlier, is_owned, is_local, is_named, ids_of, is_use_at};
ghost use Rattle.package_form.specs.Form.{has_ids, are_interfaces, is_nameless, is_of_world, is_world_row};
ghost use Rattle.package_form.specs.Form.{functions_of, has_items, have_items, is_in_form, IsInPackageForm};

use crate::closed::is_closed;
use crate::ends::{end_of, interfaces_end, world_end};
use crate::entries::passes_entries;
use crate::references::push_references;
use crate::unused::{are_used, is_unnamed};
use atoms::{Label, is_version};
use std::alloc::{AllocError, Global};
use tables::{
    Definition, Interface, Owner, PackageName, Resolve, TypeDefKind, TypeId, TypeName, World,
    WorldItemKind,
};

fn has_no_upper_case(text: &[u8]) -> bool
    ensures { result ≡ list_all (λ c. not (is_upper c)) text.now }
{
    text.iter().all(|byte| !byte.is_ascii_uppercase())
}

/// Whether all of a label's words are in lower case.
#[tactic(auto, unfolding(atoms::specs::FullName::is_package_label))]
fn is_lower_case(label: &Label) -> bool
    ensures { result ≡ is_package_label label.now }
{
    has_no_upper_case(label.as_bytes())
}

/// Whether a package's name is that of full names.
fn is_package_name(alloc: Global, package: &PackageName) -> Result<bool, AllocError>
    ensures { IfOk result (λ b. b ≡ is_package_name «package».now) }
{
    if !is_lower_case(&package.namespace) || !is_lower_case(&package.name) {
        return Ok(false);
    }
    match &package.version {
        Some(version) => is_version(alloc, version.as_str()),
        None => Ok(true),
    }
}

/// Whether the names of packages are those of full names.
fn has_full_names(alloc: Global, resolve: &Resolve) -> Result<bool, AllocError>
    ensures { IfOk result (λ b. b ≡ has_full_names resolve.now) }
{
    for package in resolve.packages.as_slice() {
        if !is_package_name(alloc, package)? {
            return Ok(false);
        }
    }
    Ok(true)
}

fn is_own_name(place: usize, name: &Option<TypeName>) -> bool
    ensures { result ≡ is_own_name place name.now }
{
    match name {
        Some(name) => name.interface.0 as usize == place,
        None => true,
    }
}

/// Whether the row is a type of this interface, or one without a name.
fn is_own(rows: &[Definition], place: usize, id: TypeId) -> bool
    ensures { result ≡ is_own rows.now place id }
{
    match rows.get(id.0 as usize) {
        Some(Definition::Type(definition)) => is_own_name(place, &definition.name),
        _ => false,
    }
}

fn is_earlier_name(place: usize, name: &Option<TypeName>) -> bool
    ensures { result ≡ is_earlier_name place name.now }
{
    match name {
        Some(name) => (name.interface.0 as usize) < place,
        None => false,
    }
}

/// Whether the row is a named type of an earlier interface.
fn is_earlier(rows: &[Definition], place: usize, id: TypeId) -> bool
    ensures { result ≡ is_earlier rows.now place id }
{
    match rows.get(id.0 as usize) {
        Some(Definition::Type(definition)) => is_earlier_name(place, &definition.name),
        _ => false,
    }
}

fn uses_earlier(rows: &[Definition], place: usize, kind: &TypeDefKind) -> bool
    ensures { result ≡ uses_earlier rows.now place kind.now }
{
    match kind {
        TypeDefKind::Use(target) => is_earlier(rows, place, *target),
        _ => true,
    }
}

fn is_owned(rows: &[Definition], place: usize, row: &Definition) -> bool
    ensures { result ≡ is_owned rows.now place row.now }
{
    match row {
        Definition::Type(definition) => {
            is_own_name(place, &definition.name) && uses_earlier(rows, place, &definition.kind)
        }
        Definition::Function(function) => match function.owner {
            Owner::Interface(owner) => owner.0 as usize == place,
            Owner::World(_) => false,
        },
    }
}

fn are_own(rows: &[Definition], place: usize, ids: &[TypeId]) -> bool
    ensures { result ≡ list_all (is_own rows.now place) ids.now }
{
    for id in ids {
        if !is_own(rows, place, *id) {
            return false;
        }
    }
    true
}

/// Whether it is a row of this interface that refers to the interface's types alone. `ids` is a room to put them in.
fn is_local(
    ids: &mut Vec<TypeId>,
    rows: &[Definition],
    place: usize,
    row: &Definition,
) -> Result<bool, AllocError>
    ensures { IfOk result (λ b. b ≡ is_local rows.now place row.now) }
{
    if !is_owned(rows, place, row) {
        return Ok(false);
    }
    ids.clear();
    push_references(ids, row)?;
    Ok(are_own(rows, place, ids))
}

/// Whether each is a row of this interface that refers to its types alone. `ids` is a room to put them in.
fn are_local(
    ids: &mut Vec<TypeId>,
    rows: &[Definition],
    place: usize,
    own: &[Definition],
) -> Result<bool, AllocError>
    ensures { IfOk result (λ b. b ≡ list_all (is_local rows.now place) own.now) }
{
    for row in own {
        if !is_local(ids, rows, place, row)? {
            return Ok(false);
        }
    }
    Ok(true)
}

fn push_types(ids: &mut Vec<u32>, types: &[TypeId]) -> Result<(), AllocError>
    ensures { OnOk result (ids.new.items ≡ ids.old.items ++ map (λ t. t.0) types.now) }
{
    for id in types {
        ids.push(id.0)?;
    }
    Ok(())
}

/// Puts an interface's ids in place of what is in `ids`: its uses, its types and its functions.
fn put_ids(ids: &mut Vec<u32>, interface: &Interface) -> Result<(), AllocError>
    ensures { OnOk result (ids.new.items ≡ ids_of interface.now) }
{
    ids.clear();
    push_types(ids, interface.uses.as_slice())?;
    push_types(ids, interface.types.as_slice())?;
    for id in interface.functions.as_slice() {
        ids.push(id.0)?;
    }
    Ok(())
}

/// Puts the places of the rows with names, the first of which stands at `start`, in place of what is in `places`.
fn put_named_places(
    places: &mut Vec<u32>,
    start: usize,
    rows: &[Definition],
) -> Result<(), AllocError>
    requires { start + length rows.now ≤ 65535 }
    ensures { OnOk result (places.new.items ≡ places_where is_named start rows.now) }
{
    places.clear();
    for (offset, row) in rows.iter().enumerate() {
        if !is_unnamed(row) {
            places.push((start + offset) as u32)?;
        }
    }
    Ok(())
}

fn is_use_at(rows: &[Definition], id: TypeId) -> bool
    ensures { result ≡ is_use_at rows.now id }
{
    match rows.get(id.0 as usize) {
        Some(Definition::Type(definition)) => matches!(definition.kind, TypeDefKind::Use(_)),
        _ => false,
    }
}

fn are_uses(rows: &[Definition], ids: &[TypeId]) -> bool
    ensures { result ≡ list_all (is_use_at rows.now) ids.now }
{
    for id in ids {
        if !is_use_at(rows, *id) {
            return false;
        }
    }
    true
}

fn are_no_uses(rows: &[Definition], ids: &[TypeId]) -> bool
    ensures { result ≡ list_all (λ t. not (is_use_at rows.now t)) ids.now }
{
    for id in ids {
        if is_use_at(rows, *id) {
            return false;
        }
    }
    true
}

/// Lists that are filled anew for each interface, so that they are requested once.
#[derive(Drop)]
struct Lists {
    ids: Vec<u32>,
    places: Vec<u32>,
    references: Vec<TypeId>,
}

/// Whether an interface's named rows are its uses, then its types, then its functions.
fn has_ids(
    lists: &mut Lists,
    rows: &[Definition],
    start: usize,
    end: usize,
    interface: &Interface,
) -> Result<bool, AllocError>
    requires end { end ≡ end_of start interface.now }
    requires some { start ≤ end }
    requires within { end ≤ length rows.now }
    requires few { length rows.now ≤ 65535 }
    ensures { IfOk result (λ b. b ≡ has_ids rows.now start interface.now) }
{
    put_ids(&mut lists.ids, interface)?;
    put_named_places(&mut lists.places, start, &rows[start..end])?;
    Ok(
        lists.ids.as_slice() == lists.places.as_slice()
            && are_uses(rows, interface.uses.as_slice())
            && are_no_uses(rows, interface.types.as_slice()),
    )
}

/// Whether each world's rows stand behind those of the world before it, and no other row is there.
fn are_worlds_parted(count: usize, first: usize, worlds: &[World]) -> bool
    ensures { result ≡ are_worlds_parted count first worlds.now }
{
    let mut start = first;
    for world in worlds {
        let end = world_end(start, world);
        if end < start || count < end {
            return false;
        }
        start = end;
    }
    start == count
}

/// Whether each interface's rows stand behind those of the interface before it, then the worlds', and no other row
/// is there.
fn is_parted(count: usize, interfaces: &[Interface], worlds: &[World]) -> bool
    ensures { result ≡ is_parted count 0 interfaces.now worlds.now }
{
    let mut start = 0;
    for interface in interfaces {
        let end = end_of(start, interface);
        if end < start || count < end {
            return false;
        }
        start = end;
    }
    are_worlds_parted(count, start, worlds)
}

/// Whether each interface has its ids, and its rows refer to its types alone.
fn are_interfaces(
    alloc: Global,
    rows: &[Definition],
    interfaces: &[Interface],
    worlds: &[World],
) -> Result<bool, AllocError>
    requires parted { IsTrue (is_parted (length rows.now) 0 interfaces.now worlds.now) }
    requires few { length rows.now ≤ 65535 }
    ensures { IfOk result (λ b. b ≡ are_interfaces rows.now 0 0 interfaces.now) }
{
    let mut lists = Lists {
        ids: Vec::new(alloc),
        places: Vec::new(alloc),
        references: Vec::new(alloc),
    };
    let mut start = 0;
    for (place, interface) in interfaces.iter().enumerate() {
        let end = end_of(start, interface);
        if !has_ids(&mut lists, rows, start, end, interface)? {
            return Ok(false);
        }
        if !are_local(&mut lists.references, rows, place, &rows[start..end])? {
            return Ok(false);
        }
        start = end;
    }
    Ok(true)
}

/// Whether the row is a type without a name.
fn is_nameless(rows: &[Definition], id: TypeId) -> bool
    ensures { result ≡ is_nameless rows.now id }
{
    match rows.get(id.0 as usize) {
        Some(Definition::Type(definition)) => definition.name.is_none(),
        _ => false,
    }
}

fn are_nameless(rows: &[Definition], ids: &[TypeId]) -> bool
    ensures { result ≡ list_all (is_nameless rows.now) ids.now }
{
    for id in ids {
        if !is_nameless(rows, *id) {
            return false;
        }
    }
    true
}

fn is_of_world(place: usize, row: &Definition) -> bool
    ensures { result ≡ is_of_world place row.now }
{
    match row {
        Definition::Type(definition) => definition.name.is_none(),
        Definition::Function(function) => match function.owner {
            Owner::World(owner) => owner.0 as usize == place,
            Owner::Interface(_) => false,
        },
    }
}

/// Whether each is a row of this world that refers to types without names alone.
fn are_world_rows(
    alloc: Global,
    rows: &[Definition],
    place: usize,
    own: &[Definition],
) -> Result<bool, AllocError>
    ensures { IfOk result (λ b. b ≡ list_all (is_world_row rows.now place) own.now) }
{
    let mut ids = Vec::new(alloc);
    for row in own {
        if !is_of_world(place, row) {
            return Ok(false);
        }
        ids.clear();
        push_references(&mut ids, row)?;
        if !are_nameless(rows, &ids) {
            return Ok(false);
        }
    }
    Ok(true)
}

/// The functions among a world's items.
fn functions_of(alloc: Global, world: &World) -> Result<Vec<u32>, AllocError>
    ensures { IfOk result (λ ids. ids.items ≡ functions_of world.now) }
{
    let mut ids = Vec::new(alloc);
    for item in world.items.as_slice() {
        if let WorldItemKind::Function(id) = item.kind {
            ids.push(id.0)?;
        }
    }
    Ok(ids)
}

/// Whether a world's named rows are the functions among its items.
fn has_items(
    alloc: Global,
    rows: &[Definition],
    start: usize,
    end: usize,
    world: &World,
) -> Result<bool, AllocError>
    requires end { end ≡ world_end start world.now }
    requires some { start ≤ end }
    requires within { end ≤ length rows.now }
    requires few { length rows.now ≤ 65535 }
    ensures { IfOk result (λ b. b ≡ has_items rows.now start world.now) }
{
    let ids = functions_of(alloc, world)?;
    let mut places = Vec::new(alloc);
    put_named_places(&mut places, start, &rows[start..end])?;
    Ok(places.as_slice() == ids.as_slice())
}

/// Whether each world has its functions, the rows of the first of which begin at `first`.
fn have_items(
    alloc: Global,
    rows: &[Definition],
    first: usize,
    worlds: &[World],
) -> Result<bool, AllocError>
    requires parted { IsTrue (are_worlds_parted (length rows.now) first worlds.now) }
    requires few { length rows.now ≤ 65535 }
    ensures { IfOk result (λ b. b ≡ have_items rows.now 0 first worlds.now) }
{
    let mut start = first;
    for (place, world) in worlds.iter().enumerate() {
        let end = world_end(start, world);
        if !has_items(alloc, rows, start, end, world)? {
            return Ok(false);
        }
        if !are_world_rows(alloc, rows, place, &rows[start..end])? {
            return Ok(false);
        }
        start = end;
    }
    Ok(true)
}

/// Whether a table is one that packages have, by one test after the other.
fn passes_tests(alloc: Global, resolve: &Resolve) -> Result<bool, AllocError>
    ensures { IfOk result (λ b. b ≡ is_in_form resolve.now) }
{
    let rows = resolve.definitions.as_slice();
    let interfaces = resolve.interfaces.as_slice();
    let worlds = resolve.worlds.as_slice();
    if !is_closed(alloc, resolve)? {
        return Ok(false);
    }
    if passes_entries(interfaces.len(), worlds, rows)
        || !is_parted(rows.len(), interfaces, worlds)
    {
        return Ok(false);
    }
    if !has_full_names(alloc, resolve)? || !are_interfaces(alloc, rows, interfaces, worlds)? {
        return Ok(false);
    }
    if !have_items(alloc, rows, interfaces_end(interfaces), worlds)? {
        return Ok(false);
    }
    are_used(alloc, rows)
}

/// Whether a table is one that packages have, as a component type spells them.
pub fn is_in_form(alloc: Global, resolve: &Resolve) -> Result<bool, AllocError>
    ensures { IfOk result (λ b. IsTrue b ↔ IsInPackageForm resolve.now) }
{
    passes_tests(alloc, resolve)
}
