//! 47: the packages that paths name.
ghost use Rattle.std.specs.Prelude.{map, flat_map, All, Contains, OnOk, IfErr, IfSome, IfNone};
ghost use Rattle.wit_tokens.specs.View.{path_view, entry_view, world_entry_view, item_view};
ghost use Rattle.tree_meaning.specs.Declarations.{path_packages, entry_packages, world_entry_packages};
ghost use Rattle.tree_meaning.specs.Declarations.{file_entry_packages};
ghost use Rattle.tree_meaning.specs.Finished.{header_name};
ghost use Rattle.tree_meaning.specs.Knowing.{RefusesPackage};
ghost use Rattle.tree_meaning.specs.Resolves.{IsLacking};

use std::alloc::Global;
use tables::{PackageName, ResolveError};
use tree_scopes::{has_package, package_name};
use wit_tokens::wit_syntax::{InterfaceItem, Item, PackageId, Path, WorldItem, WorldItemKind};

/// The package that a path names, where none of these has that name.
fn lacking<'a>(packages: &[PackageName], path: &'a Path) -> Option<&'a PackageId>
    ensures none { IfNone result (All (Contains packages.now) (path_packages (path_view path.now))) }
    ensures some { IfSome result (λ p. IsLacking packages.now (path_packages (path_view path.now))
        (header_name p.now)) }
{
    match path {
        Path::Local(_) => None,
        Path::Foreign { package, .. } => {
            if has_package(packages, package) {
                None
            } else {
                Some(package)
            }
        }
    }
}

fn lacking_in_item<'a>(packages: &[PackageName], item: &'a InterfaceItem) -> Option<&'a PackageId>
    ensures none { IfNone result (All (Contains packages.now) (entry_packages (entry_view item.now))) }
    ensures some { IfSome result (λ p. IsLacking packages.now (entry_packages (entry_view item.now))
        (header_name p.now)) }
{
    match item {
        InterfaceItem::Use(used) => lacking(packages, &used.interface),
        InterfaceItem::TypeDef(_) | InterfaceItem::Func(_) => None,
    }
}

fn lacking_in_world_item<'a>(packages: &[PackageName], item: &'a WorldItem) -> Option<&'a PackageId>
    ensures none { IfNone result (All (Contains packages.now) (world_entry_packages (world_entry_view item.now))) }
    ensures some { IfSome result (λ p. IsLacking packages.now (world_entry_packages (world_entry_view item.now))
        (header_name p.now)) }
{
    match &item.kind {
        WorldItemKind::Interface(path) => lacking(packages, path),
        WorldItemKind::Func(_) => None,
    }
}

/// The first package that items of an interface name and that isn't there.
fn lacking_in_items<'a>(
    packages: &[PackageName],
    items: &'a [InterfaceItem],
) -> Option<&'a PackageId>
    ensures none { IfNone result (All (Contains packages.now) (flat_map entry_packages (map entry_view items.now))) }
    ensures some { IfSome result (λ p. IsLacking packages.now (flat_map entry_packages (map entry_view items.now))
        (header_name p.now)) }
{
    for item in items {
        if let Some(package) = lacking_in_item(packages, item) {
            return Some(package);
        }
    }
    None
}

/// The first package that items of a world name and that isn't there.
fn lacking_in_world<'a>(packages: &[PackageName], items: &'a [WorldItem]) -> Option<&'a PackageId>
    ensures none { IfNone result (All (Contains packages.now)
        (flat_map world_entry_packages (map world_entry_view items.now))) }
    ensures some { IfSome result (λ p. IsLacking packages.now
        (flat_map world_entry_packages (map world_entry_view items.now)) (header_name p.now)) }
{
    for item in items {
        if let Some(package) = lacking_in_world_item(packages, item) {
            return Some(package);
        }
    }
    None
}

/// The first package that an interface or a world names and that isn't there.
fn lacking_in_entry<'a>(packages: &[PackageName], item: &'a Item) -> Option<&'a PackageId>
    ensures none { IfNone result (All (Contains packages.now) (file_entry_packages (item_view item.now))) }
    ensures some { IfSome result (λ p. IsLacking packages.now (file_entry_packages (item_view item.now))
        (header_name p.now)) }
{
    match item {
        Item::Interface(interface) => lacking_in_items(packages, &interface.items),
        Item::World(world) => lacking_in_world(packages, &world.items),
    }
}

/// 47 for the first package in the source that isn't one of these.
pub fn known_packages(
    alloc: Global,
    packages: &[PackageName],
    items: &[Item],
) -> Result<(), ResolveError>
    ensures ok { OnOk result (All (Contains packages.now) (flat_map file_entry_packages (map item_view items.now))) }
    ensures err { IfErr result (RefusesPackage packages.now (flat_map file_entry_packages (map item_view items.now))) }
{
    for item in items {
        if let Some(package) = lacking_in_entry(packages, item) {
            return Err(ResolveError::NoPackage(package_name(alloc, package)?));
        }
    }
    Ok(())
}
