//! Whole packages.
ghost use Rattle.std.specs.Prelude.{◌≡◌, ◌++◌, map, filter, IfOk, OnOk, OnErr};
ghost use Rattle.std.specs.String.{string_bytes};
ghost use Rattle.wit_tokens.specs.View.{item_view, file_view};
ghost use Rattle.package_form.specs.Reached.{is_interface_of};
ghost use Rattle.package_form.specs.Form.{IsInPackageForm};
ghost use Rattle.package_text.specs.Tree.{interface_entry, world_written, file_of};
ghost use Rattle.package_text.specs.Text.{text_of};

use crate::entry::{interface_tree, package_id};
use crate::world::world_tree;
use package_form::own_package;
use std::alloc::{AllocError, Global};
use tables::Resolve;
use wit_print::print_file;
use wit_tokens::wit_syntax::{Ast, Item};

/// The interfaces of the package at place `own`.
fn push_interfaces(
    alloc: Global,
    resolve: &Resolve,
    own: usize,
    items: &mut Vec<Item>,
) -> Result<(), AllocError>
    requires { IsInPackageForm resolve.now }
    ensures { OnOk result (map item_view items.new.items ≡ map item_view items.old.items
        ++ map (interface_entry resolve.now) (filter (is_interface_of own) resolve.now.interfaces)) }
{
    for interface in resolve.interfaces.as_slice() {
        if interface.package.0 as usize == own {
            items.push(interface_tree(alloc, resolve, interface)?)?;
        }
    }
    Ok(())
}

fn push_worlds(alloc: Global, resolve: &Resolve, items: &mut Vec<Item>) -> Result<(), AllocError>
    requires { IsInPackageForm resolve.now }
    ensures { OnOk result (map item_view items.new.items ≡ map item_view items.old.items
        ++ map (world_written resolve.now) resolve.now.worlds) }
{
    for world in resolve.worlds.as_slice() {
        items.push(world_tree(alloc, resolve, world)?)?;
    }
    Ok(())
}

/// The syntax tree of a package, each row without a name in the place where it is named.
fn tree(alloc: Global, resolve: &Resolve) -> Result<Ast, AllocError>
    requires { IsInPackageForm resolve.now }
    ensures { IfOk result (λ a. file_view a ≡ file_of resolve.now) }
{
    let packages = resolve.packages.as_slice();
    let own = own_package(packages);
    let package = package_id(alloc, &packages[own])?;
    let mut items = Vec::new(alloc);
    push_interfaces(alloc, resolve, own, &mut items)?;
    push_worlds(alloc, resolve, &mut items)?;
    Ok(Ast { package, items })
}

/// Appends the canonical text of the own package of a closed table, in which its imports go by their paths. Where
/// memory is wanting, the text is as it was. Takes time linear in the table and in the text, and room on the stack for
/// each type within a type.
pub fn print(alloc: Global, resolve: &Resolve, out: &mut String) -> Result<(), AllocError>
    requires { ∥ IsInPackageForm resolve.now ∥₁ }
    ensures ok { OnOk result (string_bytes out.new ≡ string_bytes out.old ++ text_of resolve.now) }
    ensures err { OnErr result (string_bytes out.new ≡ string_bytes out.old) }
{
    let tree = tree(alloc, resolve)?;
    print_file(alloc, &tree, out)
}
