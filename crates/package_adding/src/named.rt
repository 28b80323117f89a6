//! What the paths of a tree name of a set.
ghost use Rattle.std.specs.Prelude.{ℕ, Bool, List, map, IfOk, OnOk};
ghost use Rattle.tables.specs.PackageNames.{PackageParts};
ghost use Rattle.wit_tokens.specs.Syntax.{Uses};
ghost use Rattle.wit_tokens.specs.View.{path_view, used_view, entry_view, world_entry_view, item_view, file_view};
ghost use Rattle.package_adding.specs.Named.{AreNamed, path_names, entry_names_interface, world_entry_names};
ghost use Rattle.package_adding.specs.Named.{file_entry_names, any_names};
ghost use Rattle.package_adding.specs.Asked.{also, AreAsked};

use crate::marking::Named;
use package_names::Asked;
use std::alloc::{AllocError, Global};
use tables::Resolve;
use tree_scopes::package_key;
use wit_tokens::wit_syntax::{Ast, InterfaceItem, Item, Path, Use, WorldItem, WorldItemKind};

/// Asks for the interface of another package that a path names.
fn ask_path<'a>(set: &Resolve, asked: &mut Asked<'a>, path: &'a Path) -> Result<(), AllocError>
    ensures { OnOk result ((names : PackageParts → List ℕ → Bool) → AreAsked set.now names asked.old
        → AreAsked set.now (also names (path_names (path_view path.now))) asked.new) }
{
    match path {
        Path::Local(_) => Ok(()),
        Path::Foreign { package, interface } => {
            asked.ask(set.packages.as_slice(), package_key(package), interface)
        }
    }
}

/// .. of which a type is used.
fn ask_use<'a>(set: &Resolve, asked: &mut Asked<'a>, used: &'a Use) -> Result<(), AllocError>
    ensures { OnOk result ((names : PackageParts → List ℕ → Bool) → AreAsked set.now names asked.old
        → AreAsked set.now (also names (entry_names_interface
        (Uses used.now.span (path_view used.now.interface) (map used_view used.now.names.items)))) asked.new) }
{
    if used.names.is_empty() {
        Ok(())
    } else {
        ask_path(set, asked, &used.interface)
    }
}

fn ask_item<'a>(
    set: &Resolve,
    asked: &mut Asked<'a>,
    item: &'a InterfaceItem,
) -> Result<(), AllocError>
    ensures { OnOk result ((names : PackageParts → List ℕ → Bool) → AreAsked set.now names asked.old
        → AreAsked set.now (also names (entry_names_interface (entry_view item.now))) asked.new) }
{
    match item {
        InterfaceItem::Use(used) => ask_use(set, asked, used),
        InterfaceItem::TypeDef(_) | InterfaceItem::Func(_) => Ok(()),
    }
}

fn ask_world_item<'a>(
    set: &Resolve,
    asked: &mut Asked<'a>,
    item: &'a WorldItem,
) -> Result<(), AllocError>
    ensures { OnOk result ((names : PackageParts → List ℕ → Bool) → AreAsked set.now names asked.old
        → AreAsked set.now (also names (world_entry_names (world_entry_view item.now))) asked.new) }
{
    match &item.kind {
        WorldItemKind::Interface(path) => ask_path(set, asked, path),
        WorldItemKind::Func(_) => Ok(()),
    }
}

fn ask_items<'a>(
    set: &Resolve,
    asked: &mut Asked<'a>,
    items: &'a [InterfaceItem],
) -> Result<(), AllocError>
    ensures { OnOk result ((names : PackageParts → List ℕ → Bool) → AreAsked set.now names asked.old
        → AreAsked set.now (also names (any_names entry_names_interface (map entry_view items.now))) asked.new) }
{
    for item in items {
        ask_item(set, asked, item)?;
    }
    Ok(())
}

fn ask_world_items<'a>(
    set: &Resolve,
    asked: &mut Asked<'a>,
    items: &'a [WorldItem],
) -> Result<(), AllocError>
    ensures { OnOk result ((names : PackageParts → List ℕ → Bool) → AreAsked set.now names asked.old
        → AreAsked set.now (also names (any_names world_entry_names (map world_entry_view items.now))) asked.new) }
{
    for item in items {
        ask_world_item(set, asked, item)?;
    }
    Ok(())
}

/// Asks for what an interface or a world names.
fn ask_entry<'a>(set: &Resolve, asked: &mut Asked<'a>, item: &'a Item) -> Result<(), AllocError>
    ensures { OnOk result ((names : PackageParts → List ℕ → Bool) → AreAsked set.now names asked.old
        → AreAsked set.now (also names (file_entry_names (item_view item.now))) asked.new) }
{
    match item {
        Item::Interface(own) => ask_items(set, asked, &own.items),
        Item::World(world) => ask_world_items(set, asked, &world.items),
    }
}

fn ask_entries<'a>(
    set: &Resolve,
    asked: &mut Asked<'a>,
    items: &'a [Item],
) -> Result<(), AllocError>
    ensures { OnOk result ((names : PackageParts → List ℕ → Bool) → AreAsked set.now names asked.old
        → AreAsked set.now (also names (any_names file_entry_names (map item_view items.now))) asked.new) }
{
    for item in items {
        ask_entry(set, asked, item)?;
    }
    Ok(())
}

/// Marks of the packages and of the interfaces of a set that the paths of a tree name: an interface of which a type is
/// used, or which is an item of a world, and the package of such a one, whether it has that interface or not.
pub fn named_by_paths(alloc: Global, set: &Resolve, ast: &Ast) -> Result<Named, AllocError>
    ensures { IfOk result (λ n. AreNamed (file_view ast.now) set.now n.packages.items n.interfaces.items) }
{
    let mut asked = Asked::nothing(alloc, set.packages.len())?;
    ask_entries(set, &mut asked, &ast.items)?;
    Named::of(alloc, set, asked)
}
