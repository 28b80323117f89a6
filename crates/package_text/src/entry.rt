//! Interfaces: what is written for each of their rows.
ghost use Rattle.std.specs.Prelude.{◌≡◌, ◌<◌, ◌∷◌, [], ◌++◌, map, flat_map, length, None, Some, MatchOption, IfOk};
ghost use Rattle.std.specs.Prelude.{OnOk, IsTrue, slice_get};
ghost use Rattle.wit_tokens.specs.declared.token.Span.{Span};
ghost use Rattle.wit_tokens.specs.View.{version_view, path_view, used_view, entry_view, item_view};
ghost use Rattle.wit_print.specs.Unplaced.{nowhere};
ghost use Rattle.tables.specs.Tables.{kind_all, function_all, is_type_before};
ghost use Rattle.tables.specs.declared.tables.ValType.TheVariants as val;
ghost use Rattle.tables.specs.Package.{read_val, meaning_of, function_meaning};
ghost use Rattle.package_form.specs.Reached.{used_by, name_at};
ghost use Rattle.package_form.specs.Form.{IsInPackageForm, is_earlier as is_used, uses_earlier};
ghost use Rattle.package_text.specs.Tree.{other_package, path_at, name_path, own_trees, local_of, use_entry, entry_by};
ghost use Rattle.package_text.specs.Tree.{written_at, interface_entry};

use crate::definition::{definition, function_type};
use atoms::Label;
use package_form::own_package;
use std::alloc::{AllocError, Global};
use tables::{
    Definition, Function, FunctionId, Interface, InterfaceId, Owner, PackageName, Resolve,
    TypeDefKind, TypeId, TypeName, copy_version,
};
use wit_tokens::Span;
use wit_tokens::wit_syntax::{Func, InterfaceItem, Item, PackageId, Path, TypeDef, Use, UsedName};

/// The place of what stands in no text.
pub(crate) fn nowhere() -> Span
    ensures { result ≡ nowhere }
{
    Span { start: 0, end: 0 }
}

/// The name of a package in a tree.
pub(crate) fn package_id(alloc: Global, name: &PackageName) -> Result<PackageId, AllocError>
    ensures namespace { IfOk result (λ p. p.namespace ≡ name.now.namespace) }
    ensures name { IfOk result (λ p. p.name ≡ name.now.name) }
    ensures version { IfOk result (λ p. version_view p.version ≡ name.now.version) }
{
    Ok(PackageId {
        namespace: name.namespace.copy(alloc)?,
        name: name.name.copy(alloc)?,
        version: copy_version(&name.version)?,
    })
}

/// The package of an interface, where it isn't the own one.
fn other_package<'a>(resolve: &'a Resolve, interface: &Interface) -> Option<&'a PackageName>
    ensures { MatchOption result (other_package resolve.now interface.now ≡ None)
        (λ p. other_package resolve.now interface.now ≡ Some p.now) }
{
    let packages = resolve.packages.as_slice();
    let place = interface.package.0 as usize;
    if place == own_package(packages) {
        None
    } else {
        packages.get(place)
    }
}

/// The path to an interface of the table.
pub(crate) fn path_to(alloc: Global, resolve: &Resolve, id: InterfaceId) -> Result<Path, AllocError>
    requires { id.0 < length resolve.now.interfaces }
    ensures { IfOk result (λ p. path_view p ≡ path_at resolve.now id.0) }
{
    let interface = &resolve.interfaces.as_slice()[id.0 as usize];
    let name = interface.name.copy(alloc)?;
    match other_package(resolve, interface) {
        None => Ok(Path::Local(name)),
        Some(package) => Ok(Path::Foreign {
            package: package_id(alloc, package)?,
            interface: name,
        }),
    }
}

/// The name of a type that another interface uses.
fn used_name(resolve: &Resolve, target: TypeId) -> &TypeName
    requires { IsTrue (is_used resolve.now.definitions (length resolve.now.interfaces) target) }
    ensures name { name_at resolve.now.definitions (Some target) ≡ Some result.now }
    ensures interface { result.now.interface.0 < length resolve.now.interfaces }
{
    match resolve.definitions.as_slice().get(target.0 as usize) {
        Some(Definition::Type(definition)) => match &definition.name {
            Some(name) => name,
            None => unreachable!(),
        },
        _ => unreachable!(),
    }
}

/// The name behind `as`, where it is another.
fn local_name(alloc: Global, name: &Label, local: &Label) -> Result<Option<Label>, AllocError>
    ensures { IfOk result (λ l. l ≡ local_of name.now local.now) }
{
    if name.as_bytes() == local.as_bytes() {
        Ok(None)
    } else {
        Ok(Some(local.copy(alloc)?))
    }
}

fn used_as(alloc: Global, name: &Label, local: &Label) -> Result<Vec<UsedName>, AllocError>
    ensures { IfOk result (λ us. map used_view us.items
        ≡ record { name = name.now; local = local_of name.now local.now } ∷ []) }
{
    let mut names = Vec::new(alloc);
    names.push(UsedName {
        name: name.copy(alloc)?,
        local: local_name(alloc, name, local)?,
    })?;
    Ok(names)
}

fn use_entry(
    alloc: Global,
    resolve: &Resolve,
    target: TypeId,
    local: &Label,
) -> Result<InterfaceItem, AllocError>
    requires { IsTrue (is_used resolve.now.definitions (length resolve.now.interfaces) target) }
    ensures { IfOk result (λ e. entry_view e
        ≡ use_entry (name_path resolve.now (name_at resolve.now.definitions (Some target)))
        (read_val (own_trees resolve.now) (val.Id target)) local.now) }
{
    let name = used_name(resolve, target);
    let item = Use {
        span: nowhere(),
        interface: path_to(alloc, resolve, name.interface)?,
        names: used_as(alloc, &name.name, local)?,
    };
    Ok(InterfaceItem::Use(Box::new(alloc, item)?))
}

fn type_entry(
    alloc: Global,
    resolve: &Resolve,
    place: usize,
    name: &Label,
    kind: &TypeDefKind,
) -> Result<InterfaceItem, AllocError>
    requires form { IsInPackageForm resolve.now }
    requires earlier { IsTrue (kind_all (is_type_before resolve.now.definitions place) kind.now) }
    requires used { IsTrue (uses_earlier resolve.now.definitions (length resolve.now.interfaces) kind.now) }
    ensures { IfOk result (λ e. entry_view e
        ≡ entry_by (name_path resolve.now (name_at resolve.now.definitions (used_by kind.now))) name.now
        (meaning_of (own_trees resolve.now) kind.now)) }
{
    match kind {
        TypeDefKind::Use(target) => use_entry(alloc, resolve, *target, name),
        _ => Ok(InterfaceItem::TypeDef(TypeDef {
            span: nowhere(),
            name: name.copy(alloc)?,
            kind: definition(alloc, resolve, place, kind)?,
        })),
    }
}

/// The function at this place.
pub(crate) fn func(
    alloc: Global,
    resolve: &Resolve,
    place: usize,
    function: &Function,
) -> Result<Func, AllocError>
    requires form { IsInPackageForm resolve.now }
    requires earlier { IsTrue (function_all (is_type_before resolve.now.definitions place) function.now) }
    ensures { IfOk result (λ f. entry_view (InterfaceItem.Func f)
        ≡ entry_by (name_path resolve.now None) function.now.name
        (function_meaning (own_trees resolve.now) function.now)) }
{
    Ok(Func {
        span: nowhere(),
        name: function.name.copy(alloc)?,
        ty: function_type(alloc, resolve, place, function)?,
    })
}

fn row_at(resolve: &Resolve, place: usize) -> Option<&Definition>
    ensures { MatchOption result (slice_get resolve.now.definitions place ≡ None)
        (λ d. slice_get resolve.now.definitions place ≡ Some d.now) }
{
    resolve.definitions.as_slice().get(place)
}

/// Appends what is written for the row at this place, if it has a name in an interface.
fn push_entry(
    alloc: Global,
    resolve: &Resolve,
    place: usize,
    items: &mut Vec<InterfaceItem>,
) -> Result<(), AllocError>
    requires { IsInPackageForm resolve.now }
    ensures { OnOk result (map entry_view items.new.items ≡ map entry_view items.old.items
        ++ written_at resolve.now place) }
{
    match row_at(resolve, place) {
        Some(Definition::Type(definition)) => {
            if let Some(name) = &definition.name {
                let entry = type_entry(alloc, resolve, place, &name.name, &definition.kind)?;
                items.push(entry)?;
            }
        }
        Some(Definition::Function(function)) => {
            if let Owner::Interface(_) = function.owner {
                let entry = InterfaceItem::Func(func(alloc, resolve, place, function)?);
                items.push(entry)?;
            }
        }
        None => {}
    }
    Ok(())
}

fn push_types(
    alloc: Global,
    resolve: &Resolve,
    ids: &[TypeId],
    items: &mut Vec<InterfaceItem>,
) -> Result<(), AllocError>
    requires { IsInPackageForm resolve.now }
    ensures { OnOk result (map entry_view items.new.items ≡ map entry_view items.old.items
        ++ flat_map (λ t. written_at resolve.now t.0) ids.now) }
{
    for id in ids {
        push_entry(alloc, resolve, id.0 as usize, items)?;
    }
    Ok(())
}

fn push_functions(
    alloc: Global,
    resolve: &Resolve,
    ids: &[FunctionId],
    items: &mut Vec<InterfaceItem>,
) -> Result<(), AllocError>
    requires { IsInPackageForm resolve.now }
    ensures { OnOk result (map entry_view items.new.items ≡ map entry_view items.old.items
        ++ flat_map (λ f. written_at resolve.now f.0) ids.now) }
{
    for id in ids {
        push_entry(alloc, resolve, id.0 as usize, items)?;
    }
    Ok(())
}

/// The tree of an interface: its used names, its types and its functions.
pub(crate) fn interface_tree(
    alloc: Global,
    resolve: &Resolve,
    interface: &Interface,
) -> Result<Item, AllocError>
    requires { IsInPackageForm resolve.now }
    ensures { IfOk result (λ i. item_view i ≡ interface_entry resolve.now interface.now) }
{
    let mut items = Vec::new(alloc);
    push_types(alloc, resolve, interface.uses.as_slice(), &mut items)?;
    push_types(alloc, resolve, interface.types.as_slice(), &mut items)?;
    push_functions(alloc, resolve, interface.functions.as_slice(), &mut items)?;
    Ok(Item::Interface(wit_tokens::wit_syntax::Interface {
        name: interface.name.copy(alloc)?,
        items,
    }))
}
