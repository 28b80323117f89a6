//! 41: each name stands for something. Names are exact in case.
ghost use Rattle.std.specs.Prelude.{◌≡◌, ◌↔◌, ◌<◌, All, Contains, IsTrue, IfOk, IfErr, OnOk, IfSome, IfNone, None};
ghost use Rattle.std.specs.Prelude.{Some, map, filter_map, length};
ghost use Rattle.atoms.specs.Label.{IsLabel};
ghost use Rattle.wit_tokens.specs.View.{entry_view, path_view, used_view, world_entry_view, item_view};
ghost use Rattle.tree_meaning.specs.Declarations.{InterfaceTree, path_uses, item_tree, interface_of, world_of};
ghost use Rattle.tree_meaning.specs.Declarations.{interface_at, names_of_trees, type_names};
ghost use Rattle.tree_meaning.specs.Imports.{imports_of};
ghost use Rattle.tree_meaning.specs.Resolves.{IsKnownIn, IsKnownUseOf, IsLackingIn, IsUnknownUse, HasKnownNamesOf};
ghost use Rattle.tree_meaning.specs.Resolves.{IsKnownItemOf, IsUnknownItem, IsKnownWorldOf};
ghost use Rattle.tree_meaning.specs.Finished.{header_name};
ghost use Rattle.tree_scopes.specs.Lent.{lent_names};
ghost use Rattle.tree_scopes.specs.Sources.{declared_tree, use_of};
ghost use Rattle.tree_meaning.specs.Knowing.{IsThere, KnowsEntry, LacksEntry, LacksUse, LacksAny, LacksItem};
ghost use Rattle.tree_meaning.specs.Knowing.{KnowsFileEntry, LacksFileEntry, RefusesUnknown};

use crate::named::{list_definition, list_function};
use atoms::Label;
use std::alloc::{AllocError, Global};
use tables::ResolveError;
use tree_scopes::{Declarations, Imports, Names, import_place, interface_label, interface_names};
use wit_tokens::wit_syntax::{
    InterfaceItem, Item, PackageId, Path, UsedName, WorldItem, WorldItemKind,
};

/// What the names of a tree may stand for: its imports, and what its interfaces declare.
#[derive(Drop)]
struct Tree<'a> {
    imports: &'a Imports<'a>,
    all: &'a [Declarations<'a>],
    /// The names of these interfaces.
    names: Names<'a>,
    ghost named: { names ≡ names_of_trees (map declared_tree all.now) },
}

/// The first of these names that no type of the interface has.
fn first_unknown<'a>(declared: &Declarations, names: &[&'a Label]) -> Option<&'a Label>
    ensures none { IfNone result (All (Contains (type_names (declared_tree declared.now))) (lent_names names.now)) }
    ensures some { IfSome result (λ n. Contains (lent_names names.now) n.now
        × (¬ Contains (type_names (declared_tree declared.now)) n.now)) }
{
    for name in names {
        if !declared.has(name) {
            return Some(name);
        }
    }
    None
}

/// The interface of this name.
fn find_interface<'a>(tree: &Tree<'a>, name: &Label) -> Option<&'a Declarations<'a>>
    ensures none { IfNone result (¬ Contains (names_of_trees (map declared_tree tree.now.all.now)) name.now) }
    ensures some { IfSome result (λ d. Contains (map declared_tree tree.now.all.now) (declared_tree d.now)
        × ((declared_tree d.now).name ≡ name.now)) }
{
    match tree.names.place_of(name) {
        Some(place) => Some(&tree.all[place]),
        None => None,
    }
}

/// The interface of the own package where it isn't there, or the name where the interface lacks it.
fn unknown_in_own<'a>(tree: &Tree<'_>, interface: &'a Label, name: &'a Label) -> Option<&'a Label>
    ensures none { IfNone result (IsKnownIn (imports_of tree.now.imports.now.table) (map declared_tree tree.now.all.now)
        None interface.now name.now) }
    ensures some { IfSome result (λ n. IsLackingIn (imports_of tree.now.imports.now.table)
        (map declared_tree tree.now.all.now) None interface.now name.now n.now) }
{
    match find_interface(tree, interface) {
        None => Some(interface),
        Some(declared) => { if declared.has(name) { None } else { Some(name) } }
    }
}

/// The import of this package where it isn't there, or the name where it lacks it.
fn unknown_in_import<'a>(
    tree: &Tree<'_>,
    package: &PackageId,
    interface: &'a Label,
    name: &'a Label,
) -> Option<&'a Label>
    ensures none { IfNone result (IsKnownIn (imports_of tree.now.imports.now.table) (map declared_tree tree.now.all.now)
        (Some (header_name «package».now)) interface.now name.now) }
    ensures some { IfSome result (λ n. IsLackingIn (imports_of tree.now.imports.now.table)
        (map declared_tree tree.now.all.now) (Some (header_name «package».now)) interface.now name.now n.now) }
{
    match import_place(&tree.imports.table, package, interface) {
        None => Some(interface),
        Some(place) => {
            if tree.imports.scopes[place].entries.has(name) {
                None
            } else {
                Some(name)
            }
        }
    }
}

/// The interface where it isn't there, or the name where the interface lacks it.
fn unknown_used<'a>(tree: &Tree<'_>, path: &'a Path, name: &'a Label) -> Option<&'a Label>
    ensures none { IfNone result (IsKnownUseOf (imports_of tree.now.imports.now.table)
        (map declared_tree tree.now.all.now) (use_of (path_view path.now) name.now)) }
    ensures some { IfSome result (λ n. IsUnknownUse (imports_of tree.now.imports.now.table)
        (map declared_tree tree.now.all.now) (use_of (path_view path.now) name.now) n.now) }
{
    match path {
        Path::Local(interface) => unknown_in_own(tree, interface, name),
        Path::Foreign { package, interface } => {
            unknown_in_import(tree, package, interface, name)
        }
    }
}

/// The interface where it isn't there, or the first of these names that it lacks.
fn unknown_in_use<'a>(tree: &Tree<'_>, path: &'a Path, used: &'a [UsedName]) -> Option<&'a Label>
    ensures none { IfNone result (All (IsKnownUseOf (imports_of tree.now.imports.now.table)
        (map declared_tree tree.now.all.now)) (path_uses (path_view path.now) (map used_view used.now))) }
    ensures some { IfSome result (λ n. LacksUse (imports_of tree.now.imports.now.table)
        (map declared_tree tree.now.all.now) (path_uses (path_view path.now) (map used_view used.now)) n.now) }
{
    for item in used {
        if let Some(name) = unknown_used(tree, path, &item.name) {
            return Some(name);
        }
    }
    None
}

/// The first name in an item that stands for nothing. The list holds what the item names.
fn unknown_in_item<'a>(
    named: &mut Vec<&'a Label>,
    tree: &Tree<'_>,
    declared: &Declarations,
    item: &'a InterfaceItem,
) -> Result<Option<&'a Label>, AllocError>
    ensures none { IfOk result (λ o. IfNone o
        (KnowsEntry (imports_of tree.now.imports.now.table) (map declared_tree tree.now.all.now)
        (declared_tree declared.now) (entry_view item.now))) }
    ensures some { IfOk result (λ o. IfSome o
        (λ n. LacksEntry (imports_of tree.now.imports.now.table) (map declared_tree tree.now.all.now)
        (declared_tree declared.now) (entry_view item.now) n.now)) }
{
    match item {
        InterfaceItem::Use(used) => Ok(unknown_in_use(tree, &used.interface, &used.names)),
        InterfaceItem::TypeDef(definition) => {
            list_definition(named, &definition.kind)?;
            Ok(first_unknown(declared, named))
        }
        InterfaceItem::Func(function) => {
            list_function(named, &function.ty)?;
            Ok(first_unknown(declared, named))
        }
    }
}

fn unknown_in_items<'a>(
    named: &mut Vec<&'a Label>,
    tree: &Tree<'_>,
    declared: &Declarations,
    items: &'a [InterfaceItem],
) -> Result<Option<&'a Label>, AllocError>
    ensures none { IfOk result (λ o. IfNone o
        (All (KnowsEntry (imports_of tree.now.imports.now.table) (map declared_tree tree.now.all.now)
        (declared_tree declared.now)) (map entry_view items.now))) }
    ensures some { IfOk result (λ o. IfSome o
        (λ n. LacksAny (imports_of tree.now.imports.now.table) (map declared_tree tree.now.all.now)
        (declared_tree declared.now) (map entry_view items.now) n.now)) }
{
    for item in items {
        let unknown = unknown_in_item(named, tree, declared, item)?;
        if let Some(name) = unknown {
            return Ok(Some(name));
        }
    }
    Ok(None)
}

/// Whether a path names an interface of its own package, of these names, or an import.
fn is_there(tree: &Tree<'_>, path: &Path) -> bool
    ensures { IsTrue result ↔ IsThere (imports_of tree.now.imports.now.table) tree.now.names (path_view path.now) }
{
    match path {
        Path::Local(name) => tree.names.place_of(name).is_some(),
        Path::Foreign { package, interface } => {
            import_place(&tree.imports.table, package, interface).is_some()
        }
    }
}

/// The interface that an item of a world names where it isn't there, or the first type that it names: a world
/// declares none.
fn unknown_in_world_item<'a>(
    named: &mut Vec<&'a Label>,
    tree: &Tree<'_>,
    item: &'a WorldItem,
) -> Result<Option<&'a Label>, AllocError>
    ensures none { IfOk result (λ o. IfNone o
        (IsKnownItemOf (imports_of tree.now.imports.now.table) tree.now.names
        (item_tree (world_entry_view item.now)))) }
    ensures some { IfOk result (λ o. IfSome o
        (λ n. IsUnknownItem (imports_of tree.now.imports.now.table) tree.now.names
        (item_tree (world_entry_view item.now)) n.now)) }
{
    match &item.kind {
        WorldItemKind::Interface(path) => {
            if is_there(tree, path) {
                Ok(None)
            } else {
                Ok(Some(interface_label(path)))
            }
        }
        WorldItemKind::Func(function) => {
            list_function(named, &function.ty)?;
            if named.is_empty() {
                Ok(None)
            } else {
                Ok(Some(named[0]))
            }
        }
    }
}

fn unknown_in_world<'a>(
    named: &mut Vec<&'a Label>,
    tree: &Tree<'_>,
    items: &'a [WorldItem],
) -> Result<Option<&'a Label>, AllocError>
    ensures none { IfOk result (λ o. IfNone o
        (All (IsKnownItemOf (imports_of tree.now.imports.now.table) tree.now.names)
        (map item_tree (map world_entry_view items.now)))) }
    ensures some { IfOk result (λ o. IfSome o
        (λ n. LacksItem (imports_of tree.now.imports.now.table) tree.now.names
        (map item_tree (map world_entry_view items.now)) n.now)) }
{
    for item in items {
        if let Some(name) = unknown_in_world_item(named, tree, item)? {
            return Ok(Some(name));
        }
    }
    Ok(None)
}

/// A name of an interface, whose declarations stand at this place, or of a world that stands for nothing.
fn unknown_in_entry<'a>(
    named: &mut Vec<&'a Label>,
    tree: &Tree<'_>,
    place: usize,
    item: &'a Item,
) -> Result<Option<&'a Label>, AllocError>
    requires { (i : InterfaceTree) → interface_of (item_view item.now) ≡ Some i → (place < length tree.now.all.now)
        × (interface_at (map declared_tree tree.now.all.now) place ≡ i) }
    ensures none { IfOk result (λ o. IfNone o
        (KnowsFileEntry (imports_of tree.now.imports.now.table) (map declared_tree tree.now.all.now)
        (item_view item.now))) }
    ensures some { IfOk result (λ o. IfSome o
        (λ n. LacksFileEntry (imports_of tree.now.imports.now.table) (map declared_tree tree.now.all.now)
        (item_view item.now) n.now)) }
{
    match item {
        Item::Interface(interface) => {
            unknown_in_items(named, tree, &tree.all[place], &interface.items)
        }
        Item::World(world) => unknown_in_world(named, tree, &world.items),
    }
}

/// 41 for the first name in the source that stands for nothing, where these are what the tree's interfaces declare.
pub fn known_names(
    alloc: Global,
    imports: &Imports<'_>,
    all: &[Declarations],
    items: &[Item],
) -> Result<(), ResolveError>
    requires { map declared_tree all.now ≡ filter_map interface_of (map item_view items.now) }
    ensures ok { OnOk result (All (HasKnownNamesOf (imports_of imports.now.table) (map declared_tree all.now))
        (map declared_tree all.now)) }
    ensures worlds { OnOk result (All (IsKnownWorldOf (imports_of imports.now.table)
        (names_of_trees (map declared_tree all.now))) (filter_map world_of (map item_view items.now))) }
    ensures labels { OnOk result (All IsLabel (names_of_trees (map declared_tree all.now))) }
    ensures err { IfErr result (RefusesUnknown (imports_of imports.now.table) (map declared_tree all.now)
        (filter_map world_of (map item_view items.now))) }
{
    let names = interface_names(alloc, imports.keyed, all)?;
    let tree = Tree {
        imports,
        all,
        names,
    };
    let mut named = Vec::new(alloc);
    let mut place = 0;
    for item in items {
        let unknown = unknown_in_entry(&mut named, &tree, place, item)?;
        if let Some(name) = unknown {
            return Err(ResolveError::Unknown(name.copy(alloc)?));
        }
        if let Item::Interface(_) = item {
            place += 1;
        }
    }
    Ok(())
}
