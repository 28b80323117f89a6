//! What the interfaces of a tree declare, if each name stands for something: 43, 45 for nesting, 40, 47 and 41.
ghost use Rattle.std.specs.Prelude.{◌≡◌, true, map, filter_map, All, IfOk, IfErr, OnOk};
ghost use Rattle.atoms.specs.Label.{IsLabel};
ghost use Rattle.wit_tokens.specs.View.{item_view, file_view};
ghost use Rattle.tree_meaning.specs.Declarations.{interface_of, interfaces, names_of_trees};
ghost use Rattle.tree_meaning.specs.Imports.{imports_of};
ghost use Rattle.tree_meaning.specs.Resolves.{ResolveRefusesOf, HasNoFaultsOf, file_fits};
ghost use Rattle.tree_scopes.specs.Sources.{declared_tree};

use crate::duplicates::distinct_names;
use crate::nested::are_nested;
use crate::packages::known_packages;
use crate::unknown::known_names;
use atoms::KeyedState;
use std::alloc::{AllocError, Global};
use tables::ResolveError;
use tree_scopes::{Declarations, Imports, package_name};
use wit_tokens::wit_syntax::{Ast, Item};

/// How many interfaces stand among these items.
fn interface_count(items: &[Item]) -> usize {
    let mut count: usize = 0;
    for item in items {
        if let Item::Interface(_) = item {
            count = count.saturating_add(1);
        }
    }
    count
}

fn all_declarations<'a>(
    alloc: Global,
    keyed: KeyedState,
    items: &'a [Item],
) -> Result<Vec<Declarations<'a>>, AllocError>
    ensures { IfOk result (λ ds. map declared_tree ds.items ≡ filter_map interface_of (map item_view items.now)) }
{
    let mut all = Vec::with_capacity(alloc, interface_count(items))?;
    for item in items {
        if let Item::Interface(interface) = item {
            all.push(Declarations::of(alloc, keyed, interface)?)?;
        }
    }
    Ok(all)
}

/// What the interfaces of a tree declare, where each name of the tree stands for something. 43 where the tree has
/// neither interface nor world, 45 where a type is nested more than 64 deep, 40 where a name stands twice in a scope,
/// 47 where a path names a package that isn't among the imports', 41 where a name stands for nothing, in this order.
pub fn declarations<'a>(
    alloc: Global,
    imports: &Imports<'_>,
    ast: &'a Ast,
) -> Result<Vec<Declarations<'a>>, ResolveError>
    ensures faults { IfOk result (λ _. HasNoFaultsOf (imports_of imports.now.table) (file_view ast.now)) }
    ensures ok { IfOk result (λ ds. map declared_tree ds.items ≡ interfaces (file_view ast.now)) }
    ensures labels { IfOk result (λ _. All IsLabel (names_of_trees (interfaces (file_view ast.now)))) }
    ensures fits { OnOk result (file_fits (file_view ast.now) ≡ true) }
    ensures err { IfErr result (ResolveRefusesOf (imports_of imports.now.table) (file_view ast.now)) }
{
    if ast.items.is_empty() {
        return Err(ResolveError::EmptyPackage);
    }
    if !are_nested(&ast.items) {
        return Err(ResolveError::Limit);
    }
    let package = package_name(alloc, &ast.package)?;
    distinct_names(alloc, imports.keyed, &package, &ast.items)?;
    known_packages(alloc, imports.table.table().packages.as_slice(), &ast.items)?;
    let all = all_declarations(alloc, imports.keyed, &ast.items)?;
    known_names(alloc, imports, &all, &ast.items)?;
    Ok(all)
}
