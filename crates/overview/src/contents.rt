//! The name of a package, and how much each interface and each world of it has.
ghost use Rattle.std.specs.Prelude.{◌≡◌, ◌++◌, IfOk, string_bytes, flat_map};
ghost use Rattle.std.specs.Fmt.{decimal};
ghost use Rattle.std.specs.List.{count_by};
ghost use Rattle.overview.specs.Contents.{package_line, interface_line, interface_shown, crosses, world_line};
ghost use Rattle.overview.specs.Contents.{world_shown, shown};
ghost use Rattle.text_builder.specs.Growth.{Grows};

use package_form::own_package;
use std::alloc::{AllocError, Global};
use tables::{Direction, Interface, PackageName, Resolve, World, WorldItem};
use text_builder::TextBuilder;

/// Writes the line of a package's name.
fn push_package(text: &mut TextBuilder, name: &PackageName)
    ensures { Grows (package_line name.now) text.old text.new }
{
    text.push_three("package ", name.namespace.as_str(), ":");
    text.push(name.name.as_str());
    if let Some(version) = &name.version {
        text.push("@");
        text.push(version.as_str());
    }
    text.push("\n");
}

/// Writes a number behind words for it.
pub(crate) fn push_count(text: &mut TextBuilder, words: &str, count: usize)
    ensures { Grows (words.now ++ decimal count) text.old text.new }
{
    text.push(words);
    text.push_number(count);
}

/// Writes the line of an interface: how many names it uses, and how many types and functions it has.
fn push_interface(text: &mut TextBuilder, interface: &Interface)
    ensures { Grows (interface_line interface.now) text.old text.new }
{
    text.push("interface ");
    text.push(interface.name.as_str());
    push_count(text, " uses ", interface.uses.as_slice().len());
    push_count(text, " types ", interface.types.as_slice().len());
    push_count(text, " funcs ", interface.functions.as_slice().len());
    text.push("\n");
}

fn crosses(direction: Direction, item: WorldItem) -> bool
    ensures { result ≡ crosses direction item }
{
    match (direction, item.direction) {
        (Direction::Import, Direction::Import) | (Direction::Export, Direction::Export) => true,
        (Direction::Import, Direction::Export) | (Direction::Export, Direction::Import) => false,
    }
}

/// How many of these items cross in one direction.
fn count_of(direction: Direction, items: &[WorldItem]) -> usize
    ensures { result ≡ count_by (crosses direction) items.now }
{
    let mut count = 0;
    for item in items {
        if crosses(direction, *item) {
            count += 1;
        }
    }
    count
}

/// Writes the line of a world: how many items it imports and how many it exports.
fn push_world(text: &mut TextBuilder, world: &World)
    ensures { Grows (world_line world.now) text.old text.new }
{
    let imports = count_of(Direction::Import, world.items.as_slice());
    let exports = count_of(Direction::Export, world.items.as_slice());
    text.push("world ");
    text.push(world.name.as_str());
    push_count(text, " imports ", imports);
    push_count(text, " exports ", exports);
    text.push("\n");
}

fn push_packages(text: &mut TextBuilder, packages: &[PackageName])
    ensures { Grows (flat_map package_line packages.now) text.old text.new }
{
    for name in packages {
        push_package(text, name);
    }
}

fn push_interfaces(text: &mut TextBuilder, own: usize, interfaces: &[Interface])
    ensures { Grows (flat_map (interface_shown own) interfaces.now) text.old text.new }
{
    for interface in interfaces {
        if interface.package.0 as usize == own {
            push_interface(text, interface);
        }
    }
}

fn push_worlds(text: &mut TextBuilder, own: usize, worlds: &[World])
    ensures { Grows (flat_map (world_shown own) worlds.now) text.old text.new }
{
    for world in worlds {
        if world.package.0 as usize == own {
            push_world(text, world);
        }
    }
}

/// A line `package` with the name of the last package, and a line for each interface and each world of it, with its
/// label: how many names an interface uses and how many types and functions it has, and how many items a world imports
/// and exports.
pub fn shown(alloc: Global, resolve: &Resolve) -> Result<String, AllocError>
    ensures { IfOk result (λ s. string_bytes s ≡ shown resolve.now) }
{
    let mut text = TextBuilder::new(alloc);
    let packages = resolve.packages.as_slice();
    let own = own_package(packages);
    push_packages(&mut text, &packages[own..]);
    push_interfaces(&mut text, own, resolve.interfaces.as_slice());
    push_worlds(&mut text, own, resolve.worlds.as_slice());
    text.finish()
}
