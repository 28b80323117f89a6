//! 40: names of one scope differ in more than the case of their letters.
ghost use Rattle.std.specs.Prelude.{◌≡◌, ◌++◌, ◌∷◌, [], ◌⊎◌, List, ℕ, map, All, IfOk, IfErr, OnOk};
ghost use Rattle.wit_tokens.specs.View.{used_view, field_view, case_view, definition_view, entry_view, item_view};
ghost use Rattle.tables.specs.PackageNames.{PackageParts};
ghost use Rattle.tables.specs.Package.{ItemMeaning};
ghost use Rattle.tree_meaning.specs.Declarations.{local_name, member_name, tree_case_name, definition_scopes};
ghost use Rattle.tree_meaning.specs.Declarations.{entry_names, entry_scopes, item_scopes};
ghost use Rattle.tree_meaning.specs.Scopes.{file_name, interface_scopes, scopes_in};
ghost use Rattle.tree_scopes.specs.Sources.{item_in, world_in};
ghost use Rattle.package_form.specs.Naming.{item_name, item_parameters, world_scopes};
ghost use Rattle.package_form.specs.Distinct.{AreMet, RefusesNames, RefusesScopes};
ghost use Rattle.package_names.specs.Sides.{AreMetOnSides, RefusesSides};
ghost use Rattle.package_form.specs.Scope.{AreDistinct};

use crate::members::distinct_members;
use atoms::{KeyedState, Label};
use package_names::{Scope, Sides};
use std::alloc::{AllocError, Global};
use tables::{Name, PackageName, ResolveError};
use tree_scopes::{local_name, package_name, side_of};
use wit_tokens::wit_syntax::{
    Case, Field, InterfaceItem, Item, Path, TypeDefKind, UsedName, WorldItem, WorldItemKind,
};

fn distinct_labels(alloc: Global, keyed: KeyedState, labels: &[Label]) -> Result<(), ResolveError>
    ensures ok { OnOk result (AreDistinct labels.now) }
    ensures err { IfErr result (RefusesNames labels.now) }
{
    distinct_members(alloc, keyed, labels)
}

fn distinct_fields(alloc: Global, keyed: KeyedState, fields: &[Field]) -> Result<(), ResolveError>
    ensures ok { OnOk result (AreDistinct (map member_name (map field_view fields.now))) }
    ensures err { IfErr result (RefusesNames (map member_name (map field_view fields.now))) }
{
    distinct_members(alloc, keyed, fields)
}

fn distinct_cases(alloc: Global, keyed: KeyedState, cases: &[Case]) -> Result<(), ResolveError>
    ensures ok { OnOk result (AreDistinct (map tree_case_name (map case_view cases.now))) }
    ensures err { IfErr result (RefusesNames (map tree_case_name (map case_view cases.now))) }
{
    distinct_members(alloc, keyed, cases)
}

fn distinct_parts(alloc: Global, keyed: KeyedState, kind: &TypeDefKind) -> Result<(), ResolveError>
    ensures ok { OnOk result (All AreDistinct (definition_scopes (definition_view kind.now))) }
    ensures err { IfErr result (RefusesScopes (definition_scopes (definition_view kind.now))) }
{
    match kind {
        TypeDefKind::Alias(_) => Ok(()),
        TypeDefKind::Record(fields) => distinct_fields(alloc, keyed, fields),
        TypeDefKind::Variant(cases) => distinct_cases(alloc, keyed, cases),
        TypeDefKind::Enum(labels) | TypeDefKind::Flags(labels) => distinct_labels(
            alloc, keyed, labels,
        ),
    }
}

/// Meets the names of a use.
fn meet_used<'a>(
    alloc: Global,
    scope: &mut Scope<'a>,
    names: &'a [UsedName],
) -> Result<(), ResolveError>
    ensures ok { OnOk result ((ns : List (List ℕ)) → AreMet ns scope.old
        → AreMet (ns ++ map local_name (map used_view names.now)) scope.new) }
    ensures err { IfErr result (λ e. (ns : List (List ℕ)) → AreMet ns scope.old
        → RefusesNames (ns ++ map local_name (map used_view names.now)) e) }
{
    for name in names {
        scope.meet(alloc, local_name(name))?;
    }
    Ok(())
}

/// Meets the names of an item, and tests the scopes in it.
fn distinct_item<'a>(
    alloc: Global,
    keyed: KeyedState,
    scope: &mut Scope<'a>,
    item: &'a InterfaceItem,
) -> Result<(), ResolveError>
    ensures names { OnOk result ((ns : List (List ℕ)) → AreMet ns scope.old
        → AreMet (ns ++ entry_names (entry_view item.now)) scope.new) }
    ensures parts { OnOk result (All AreDistinct (entry_scopes (entry_view item.now))) }
    ensures err { IfErr result (λ e. (ns : List (List ℕ)) → AreMet ns scope.old
        → RefusesNames (ns ++ entry_names (entry_view item.now)) e
        ⊎ RefusesScopes (entry_scopes (entry_view item.now)) e) }
{
    match item {
        InterfaceItem::Use(used) => meet_used(alloc, scope, &used.names),
        InterfaceItem::TypeDef(definition) => {
            scope.meet(alloc, &definition.name)?;
            distinct_parts(alloc, keyed, &definition.kind)
        }
        InterfaceItem::Func(function) => {
            scope.meet(alloc, &function.name)?;
            distinct_fields(alloc, keyed, &function.ty.params)
        }
    }
}

fn distinct_items(
    alloc: Global,
    keyed: KeyedState,
    items: &[InterfaceItem],
) -> Result<(), ResolveError>
    ensures ok { OnOk result (All AreDistinct (item_scopes (map entry_view items.now))) }
    ensures err { IfErr result (RefusesScopes (item_scopes (map entry_view items.now))) }
{
    let mut scope = Scope::with_room(alloc, keyed, items.len());
    for item in items {
        distinct_item(alloc, keyed, &mut scope, item)?;
    }
    Ok(())
}

/// The name under which an item stands in its world: of an interface its full name.
fn world_item_name(
    alloc: Global,
    package: &PackageName,
    item: &WorldItem,
) -> Result<Name, AllocError>
    ensures { IfOk result (λ n. n ≡ item_name (item_in «package».now item.now)) }
{
    match &item.kind {
        WorldItemKind::Interface(Path::Local(name)) => package.full_name(alloc, name),
        WorldItemKind::Interface(Path::Foreign { package, interface }) => {
            package_name(alloc, package)?.full_name(alloc, interface)
        }
        WorldItemKind::Func(function) => Name::of(alloc, &function.name),
    }
}

/// Whether the parameters of an item differ.
fn distinct_item_parameters(
    alloc: Global,
    keyed: KeyedState,
    item: &WorldItem,
) -> Result<(), ResolveError>
    ensures ok { (p : PackageParts) → OnOk result (AreDistinct (item_parameters (item_in p item.now))) }
    ensures err { (p : PackageParts) → IfErr result (RefusesNames (item_parameters (item_in p item.now))) }
{
    match &item.kind {
        WorldItemKind::Interface(_) => Ok(()),
        WorldItemKind::Func(function) => distinct_fields(alloc, keyed, &function.ty.params),
    }
}

/// Meets the name of an item on its side.
fn meet_world_item(
    alloc: Global,
    package: &PackageName,
    sides: &mut Sides,
    item: &WorldItem,
) -> Result<(), ResolveError>
    ensures ok { OnOk result ((items : List ItemMeaning) → AreMetOnSides items sides.old
        → AreMetOnSides (items ++ item_in «package».now item.now ∷ []) sides.new) }
    ensures err { IfErr result (λ e. (items : List ItemMeaning) → AreMetOnSides items sides.old
        → RefusesSides (items ++ item_in «package».now item.now ∷ []) e) }
{
    let name = world_item_name(alloc, package, item)?;
    sides.meet(alloc, side_of(item.direction), name)
}

fn distinct_world_items(
    alloc: Global,
    keyed: KeyedState,
    package: &PackageName,
    items: &[WorldItem],
) -> Result<(), ResolveError>
    ensures ok { OnOk result (All AreDistinct (world_scopes (world_in «package».now items.now))) }
    ensures err { IfErr result (RefusesScopes (world_scopes (world_in «package».now items.now))) }
{
    let mut sides = Sides::new(alloc, keyed);
    for item in items {
        meet_world_item(alloc, package, &mut sides, item)?;
        distinct_item_parameters(alloc, keyed, item)?;
    }
    Ok(())
}

/// The name of an interface or a world.
fn file_name(item: &Item) -> &Label
    ensures { result.now ≡ file_name (item_view item.now) }
{
    match item {
        Item::Interface(interface) => &interface.name,
        Item::World(world) => &world.name,
    }
}

/// Tests the scopes in an interface or a world.
fn distinct_inside(
    alloc: Global,
    keyed: KeyedState,
    package: &PackageName,
    item: &Item,
) -> Result<(), ResolveError>
    ensures ok { OnOk result (All AreDistinct (interface_scopes «package».now (item_view item.now))) }
    ensures err { IfErr result (RefusesScopes (interface_scopes «package».now (item_view item.now))) }
{
    match item {
        Item::Interface(interface) => distinct_items(alloc, keyed, &interface.items),
        Item::World(world) => distinct_world_items(alloc, keyed, package, &world.items),
    }
}

/// 40 for the first name in the source that its scope has before.
pub fn distinct_names(
    alloc: Global,
    keyed: KeyedState,
    package: &PackageName,
    items: &[Item],
) -> Result<(), ResolveError>
    ensures ok { OnOk result (All AreDistinct (scopes_in «package».now (map item_view items.now))) }
    ensures err { IfErr result (RefusesScopes (scopes_in «package».now (map item_view items.now))) }
{
    let mut scope = Scope::with_room(alloc, keyed, items.len());
    for item in items {
        scope.meet(alloc, file_name(item))?;
        distinct_inside(alloc, keyed, package, item)?;
    }
    Ok(())
}
