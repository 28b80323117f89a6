//! 40: names of one scope differ in more than the case of their letters.
ghost use Rattle.std.specs.Prelude.{◌≡◌, ◌<◌, ◌⊎◌, ◌++◌, ◌∷◌, [], List, ℕ, All, Contains, IsTrue, map, flat_map};
ghost use Rattle.std.specs.Prelude.{length, slice_index_or, slice_set, IfOk, IfErr, OnOk};
ghost use Rattle.package_form.specs.Scope.{lowered, AreDistinct};
ghost use Rattle.package_form.specs.Distinct.{AreMet, AreMetInEach, RefusesNames, RefusesScopes};
ghost use Rattle.package_names.specs.Sides.{AreMetOnSides, RefusesSides};
ghost use Rattle.package_form.specs.Ends.{is_parted};
ghost use Rattle.tables.specs.Tables.{are_grouped, is_placed_item, is_placed_world};
ghost use Rattle.tables.specs.Names.{full_name};
ghost use Rattle.tables.specs.Package.{ItemMeaning, item_meaning, world_meaning, interface_names, trees, worlds};
ghost use Rattle.package_form.specs.Naming.{field_name, case_name, parameter_name, kind_members, row_members};
ghost use Rattle.package_form.specs.Naming.{row_names, rows_scopes, interfaces_scopes, item_name, item_direction};
ghost use Rattle.package_form.specs.Naming.{item_parameters, world_scopes, interface_labels_of, world_labels_of};
ghost use Rattle.package_form.specs.Naming.{of_each, package_scopes};

use crate::keys::{count_of_names, keyed_by_table};
use crate::scope::{NameTable, Scope};
use atoms::{KeyedState, Label};
use package_form::end_of;
use std::alloc::{AllocError, Global};
use tables::{
    Case, Definition, Direction, Field, Interface, Name, PackageId, PackageName, Parameter,
    Resolve, ResolveError, TypeDefKind, World, WorldItem, WorldItemKind,
};

fn distinct_labels(alloc: Global, keyed: KeyedState, labels: &[Label]) -> Result<(), ResolveError>
    ensures ok { OnOk result (AreDistinct labels.now) }
    ensures err { IfErr result (RefusesNames labels.now) }
{
    let mut scope = Scope::with_room(alloc, keyed, labels.len());
    for label in labels {
        scope.meet(alloc, label)?;
    }
    Ok(())
}

fn distinct_fields(alloc: Global, keyed: KeyedState, fields: &[Field]) -> Result<(), ResolveError>
    ensures ok { OnOk result (AreDistinct (map field_name fields.now)) }
    ensures err { IfErr result (RefusesNames (map field_name fields.now)) }
{
    let mut scope = Scope::with_room(alloc, keyed, fields.len());
    for field in fields {
        scope.meet(alloc, &field.name)?;
    }
    Ok(())
}

fn distinct_cases(alloc: Global, keyed: KeyedState, cases: &[Case]) -> Result<(), ResolveError>
    ensures ok { OnOk result (AreDistinct (map case_name cases.now)) }
    ensures err { IfErr result (RefusesNames (map case_name cases.now)) }
{
    let mut scope = Scope::with_room(alloc, keyed, cases.len());
    for case in cases {
        scope.meet(alloc, &case.name)?;
    }
    Ok(())
}

fn distinct_parameters(
    alloc: Global,
    keyed: KeyedState,
    params: &[Parameter],
) -> Result<(), ResolveError>
    ensures ok { OnOk result (AreDistinct (map parameter_name params.now)) }
    ensures err { IfErr result (RefusesNames (map parameter_name params.now)) }
{
    if params.len() < 2 {
        return Ok(());
    }
    let mut scope = Scope::with_room(alloc, keyed, params.len());
    for param in params {
        scope.meet(alloc, &param.name)?;
    }
    Ok(())
}

fn distinct_parts(alloc: Global, keyed: KeyedState, kind: &TypeDefKind) -> Result<(), ResolveError>
    ensures ok { OnOk result (AreDistinct (kind_members kind.now)) }
    ensures err { IfErr result (RefusesNames (kind_members kind.now)) }
{
    match kind {
        TypeDefKind::Record(fields) => distinct_fields(alloc, keyed, fields.as_slice()),
        TypeDefKind::Variant(cases) => distinct_cases(alloc, keyed, cases.as_slice()),
        TypeDefKind::Enum(labels) | TypeDefKind::Flags(labels) => {
            distinct_labels(alloc, keyed, labels.as_slice())
        }
        TypeDefKind::Use(_)
        | TypeDefKind::Alias(_)
        | TypeDefKind::List(_)
        | TypeDefKind::Option(_)
        | TypeDefKind::Result(_, _)
        | TypeDefKind::Tuple(_) => Ok(()),
    }
}

/// Whether the fields, cases, labels or parameters of a row differ.
fn distinct_members(alloc: Global, keyed: KeyedState, row: &Definition) -> Result<(), ResolveError>
    ensures ok { OnOk result (AreDistinct (row_members row.now)) }
    ensures err { IfErr result (RefusesNames (row_members row.now)) }
{
    match row {
        Definition::Type(definition) => distinct_parts(alloc, keyed, &definition.kind),
        Definition::Function(function) => distinct_parameters(
            alloc,
            keyed,
            function.params.as_slice(),
        ),
    }
}

/// Meets the name of a row, if it has one.
fn meet_row<'a>(
    alloc: Global,
    scope: &mut Scope<'a>,
    row: &'a Definition,
) -> Result<(), ResolveError>
    ensures ok { OnOk result ((ns : List (List ℕ)) → AreMet ns scope.old → AreMet (ns ++ row_names row.now) scope.new) }
    ensures err { IfErr result (λ e. (ns : List (List ℕ)) → AreMet ns scope.old
        → RefusesNames (ns ++ row_names row.now) e) }
{
    match row {
        Definition::Type(definition) => match &definition.name {
            Some(name) => scope.meet(alloc, &name.name),
            None => Ok(()),
        },
        Definition::Function(function) => scope.meet(alloc, &function.name),
    }
}

/// 40 for the first name of an interface's rows that its scope has before, a row's members before its name. About
/// `room` of the rows have names.
fn distinct_rows(
    alloc: Global,
    keyed: KeyedState,
    room: usize,
    rows: &[Definition],
) -> Result<(), ResolveError>
    ensures ok { OnOk result (All AreDistinct (rows_scopes rows.now)) }
    ensures err { IfErr result (RefusesScopes (rows_scopes rows.now)) }
{
    let mut scope = Scope::with_room(alloc, keyed, room);
    for row in rows {
        distinct_members(alloc, keyed, row)?;
        meet_row(alloc, &mut scope, row)?;
    }
    Ok(())
}

/// No names of so many packages.
fn scopes_of_packages<'a>(
    alloc: Global,
    keyed: KeyedState,
    count: usize,
) -> Result<Vec<Scope<'a>>, AllocError>
    ensures { IfOk result (λ v. AreMetInEach count (λ k. []) v.items) }
{
    let mut scopes = Vec::new(alloc);
    for _ in 0..count {
        scopes.push(Scope::new(alloc, keyed))?;
    }
    Ok(scopes)
}

/// Meets a name in its package's scope. 40 where it was met there before.
fn meet_in<'a>(
    alloc: Global,
    scopes: &mut Vec<Scope<'a>>,
    package: PackageId,
    name: &'a Label,
) -> Result<(), ResolveError>
    requires { «package».0 < length scopes.old.items }
    ensures new { OnOk result (¬ Contains (slice_index_or scopes.old.items «package».0 []) (lowered name.now)) }
    ensures ok { OnOk result (scopes.new.items
        ≡ slice_set scopes.old.items «package».0
        (slice_index_or scopes.old.items «package».0 [] ++ lowered name.now ∷ [])) }
    ensures err { IfErr result (λ e. (e ≡ ResolveError.NoMemory)
        ⊎ ((e ≡ ResolveError.Duplicate name.now)
        × Contains (slice_index_or scopes.old.items «package».0 []) (lowered name.now))) }
{
    let scope = &mut scopes[package.0 as usize];
    scope.meet(alloc, name)
}

/// Meets the names of these interfaces, each in its package's scope: 40 for the first that its scope has before, an
/// interface's rows before its name.
fn meet_interfaces<'a>(
    alloc: Global,
    keyed: KeyedState,
    packages: &[PackageName],
    rows: &[Definition],
    interfaces: &'a [Interface],
    worlds: &[World],
) -> Result<Vec<Scope<'a>>, ResolveError>
    requires parted { IsTrue (is_parted (length rows.now) 0 interfaces.now worlds.now) }
    requires grouped { IsTrue (are_grouped (length packages.now) 0 interfaces.now) }
    ensures names { IfOk result (λ v. AreMetInEach (length packages.now) (interface_labels_of interfaces.now) v.items) }
    ensures parts { OnOk result (All AreDistinct (interfaces_scopes rows.now 0 interfaces.now)) }
    ensures err { IfErr result (RefusesScopes
        (of_each (interface_labels_of interfaces.now) 0 packages.now ++ interfaces_scopes rows.now 0 interfaces.now)) }
{
    let mut scopes = scopes_of_packages(alloc, keyed, packages.len())?;
    let mut start = 0;
    for interface in interfaces {
        let end = end_of(start, interface);
        let room = count_of_names(interface);
        distinct_rows(alloc, keyed, room, &rows[start..end])?;
        meet_in(alloc, &mut scopes, interface.package, &interface.name)?;
        start = end;
    }
    Ok(scopes)
}

/// The names of a world's imports and of its exports.
#[derive(Drop)]
pub struct Sides {
    imports: NameTable,
    exports: NameTable,
}

impl Sides {
    /// No names; those that are met are told apart by hashers with this key.
    pub fn new(alloc: Global, keyed: KeyedState) -> Sides
        ensures { AreMetOnSides [] result }
    {
        Sides {
            imports: NameTable::new(alloc, keyed),
            exports: NameTable::new(alloc, keyed),
        }
    }

    /// Meets the name of an item. 40 where its side has it before.
    pub fn meet(
        &mut self,
        alloc: Global,
        direction: Direction,
        name: Name,
    ) -> Result<(), ResolveError>
        ensures ok { OnOk result ((items : List ItemMeaning) (i : ItemMeaning) → item_direction i ≡ direction
            → item_name i ≡ name
            → AreMetOnSides items self.old → AreMetOnSides (items ++ i ∷ []) self.new) }
        ensures err { IfErr result (λ e. (items : List ItemMeaning) (i : ItemMeaning) → item_direction i ≡ direction
            → item_name i ≡ name
            → AreMetOnSides items self.old → RefusesSides (items ++ i ∷ []) e) }
    {
        match direction {
            Direction::Import => self.imports.meet(alloc, name),
            Direction::Export => self.exports.meet(alloc, name),
        }
    }
}

/// The name under which an item stands in its world: of an interface its full name.
fn item_name(
    alloc: Global,
    resolve: &Resolve,
    place: usize,
    item: WorldItem,
) -> Result<Name, AllocError>
    requires { IsTrue (is_placed_item resolve.now.definitions (length resolve.now.interfaces) place item.kind) }
    ensures { IfOk result (λ n. n ≡ item_name
        (item_meaning (interface_names resolve.now) (trees resolve.now) resolve.now.definitions item.direction
        item.kind)) }
{
    match item.kind {
        WorldItemKind::Interface(id) => resolve.full_name(alloc, id),
        WorldItemKind::Function(id) => match resolve.definitions.as_slice().get(id.0 as usize) {
            Some(Definition::Function(function)) => Ok(Name::of(alloc, &function.name)?),
            _ => unreachable!(),
        },
    }
}

/// Whether the parameters of an item differ.
fn distinct_item(
    alloc: Global,
    keyed: KeyedState,
    resolve: &Resolve,
    place: usize,
    item: WorldItem,
) -> Result<(), ResolveError>
    requires { IsTrue (is_placed_item resolve.now.definitions (length resolve.now.interfaces) place item.kind) }
    ensures ok { OnOk result (AreDistinct
        (item_parameters (item_meaning (interface_names resolve.now) (trees resolve.now) resolve.now.definitions
        item.direction item.kind))) }
    ensures err { IfErr result (RefusesNames
        (item_parameters (item_meaning (interface_names resolve.now) (trees resolve.now) resolve.now.definitions
        item.direction item.kind))) }
{
    match item.kind {
        WorldItemKind::Interface(_) => Ok(()),
        WorldItemKind::Function(id) => {
            distinct_parameters(alloc, keyed, resolve.signature(id).params.as_slice())
        }
    }
}

/// Meets the name of an item on its side.
fn meet_item(
    alloc: Global,
    resolve: &Resolve,
    place: usize,
    sides: &mut Sides,
    item: WorldItem,
) -> Result<(), ResolveError>
    requires { IsTrue (is_placed_item resolve.now.definitions (length resolve.now.interfaces) place item.kind) }
    ensures ok { OnOk result ((items : List ItemMeaning) → AreMetOnSides items sides.old
        → AreMetOnSides (items ++ item_meaning (interface_names resolve.now) (trees resolve.now) resolve.now.definitions
        item.direction item.kind ∷ []) sides.new) }
    ensures err { IfErr result (λ e. (items : List ItemMeaning) → AreMetOnSides items sides.old
        → RefusesSides (items ++ item_meaning (interface_names resolve.now) (trees resolve.now) resolve.now.definitions
        item.direction item.kind ∷ []) e) }
{
    let name = item_name(alloc, resolve, place, item)?;
    sides.meet(alloc, item.direction, name)
}

/// 40 for the first name of a world's items that its side has before, a function's parameters before its name.
fn distinct_items(
    alloc: Global,
    keyed: KeyedState,
    resolve: &Resolve,
    place: usize,
    world: &World,
) -> Result<(), ResolveError>
    requires { IsTrue (is_placed_world resolve.now.definitions (length resolve.now.interfaces) place world.now) }
    ensures ok { OnOk result (All AreDistinct
        (world_scopes (world_meaning (interface_names resolve.now) (trees resolve.now) resolve.now.definitions []
        world.now))) }
    ensures err { IfErr result (RefusesScopes
        (world_scopes (world_meaning (interface_names resolve.now) (trees resolve.now) resolve.now.definitions []
        world.now))) }
{
    let mut sides = Sides::new(alloc, keyed);
    for item in world.items.as_slice() {
        distinct_item(alloc, keyed, resolve, place, *item)?;
        meet_item(alloc, resolve, place, &mut sides, *item)?;
    }
    Ok(())
}

/// 40 for the first name of the worlds that its package's scope has before, a world's items before its name. `met`
/// has the names of the interfaces.
fn distinct_worlds<'a>(
    alloc: Global,
    keyed: KeyedState,
    resolve: &'a Resolve,
    met: Vec<Scope<'a>>,
) -> Result<(), ResolveError>
    requires { length met.items ≡ length resolve.now.packages }
    ensures ok { OnOk result ((names : ℕ → List (List ℕ))
        → AreMetInEach (length resolve.now.packages) names met.entry.items
        → All AreDistinct (of_each (λ k. names k ++ world_labels_of resolve.now.worlds k) 0 resolve.now.packages)) }
    ensures parts { OnOk result (All AreDistinct (flat_map world_scopes (worlds resolve.now))) }
    ensures err { IfErr result (λ e. (names : ℕ → List (List ℕ))
        → AreMetInEach (length resolve.now.packages) names met.entry.items
        → RefusesScopes (of_each (λ k. names k ++ world_labels_of resolve.now.worlds k) 0 resolve.now.packages
        ++ flat_map world_scopes (worlds resolve.now)) e) }
{
    let mut scopes = met;
    for (place, world) in resolve.worlds.as_slice().iter().enumerate() {
        distinct_items(alloc, keyed, resolve, place, world)?;
        meet_in(alloc, &mut scopes, world.package, &world.name)?;
    }
    Ok(())
}

/// 40 for the first name in the order of the bytes that its scope has before.
pub fn distinct_names(alloc: Global, resolve: &Resolve) -> Result<(), ResolveError>
    requires { IsTrue (is_parted (length resolve.now.definitions) 0 resolve.now.interfaces resolve.now.worlds) }
    ensures ok { OnOk result (All AreDistinct (package_scopes resolve.now)) }
    ensures err { IfErr result (RefusesScopes (package_scopes resolve.now)) }
{
    let packages = resolve.packages.as_slice();
    let rows = resolve.definitions.as_slice();
    let interfaces = resolve.interfaces.as_slice();
    let worlds = resolve.worlds.as_slice();
    let keyed = keyed_by_table(resolve);
    let scopes = meet_interfaces(alloc, keyed, packages, rows, interfaces, worlds)?;
    distinct_worlds(alloc, keyed, resolve, scopes)
}
