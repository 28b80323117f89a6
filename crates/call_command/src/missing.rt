//! Functions that no package has: what to do about their names.

use checked_packages::Checked;
use near_names::nearest;
use std::alloc::{AllocError, Global};
use tables::{
    Definition, FunctionId, Interface, PackageId, Resolve, World, WorldItem, WorldItemKind,
};
use text_builder::TextBuilder;
use wit_faults::Report;

/// The most functions that a hint names.
const MOST_NAMED: usize = 8;

/// An interface or a world, with the functions that are called by its full name.
#[derive(Drop)]
struct Owner<'a> {
    full_name: String,
    name: &'a str,
    functions: Vec<&'a str>,
}

/// The full name of an interface or of a world of a table.
fn full_name(
    alloc: Global,
    tables: &Resolve,
    package: PackageId,
    name: &str,
) -> Result<String, AllocError> {
    let Some(package) = tables.packages.as_slice().get(package.0 as usize) else {
        return String::from_str(alloc, name);
    };
    let (namespace, own) = (package.namespace.as_str(), package.name.as_str());
    match &package.version {
        Some(version) => format!(in alloc; "{namespace}:{own}/{name}@{version}"),
        None => format!(in alloc; "{namespace}:{own}/{name}"),
    }
}

/// The name of a function of a table.
fn name_of(tables: &Resolve, func: FunctionId) -> Option<&str> {
    match tables.definitions.as_slice().get(func.0 as usize) {
        Some(Definition::Function(function)) => Some(function.name.as_str()),
        _ => None,
    }
}

/// The name of a function that is itself an item of a world.
fn name_of_item(tables: &Resolve, item: WorldItem) -> Option<&str> {
    match item.kind {
        WorldItemKind::Function(func) => name_of(tables, func),
        WorldItemKind::Interface(_) => None,
    }
}

/// The names of an interface's functions.
fn functions_of<'a>(
    alloc: Global,
    tables: &'a Resolve,
    interface: &Interface,
) -> Result<Vec<&'a str>, AllocError> {
    let mut names = Vec::new(alloc);
    for func in interface.functions.as_slice() {
        if let Some(name) = name_of(tables, *func) {
            names.push(name)?;
        }
    }
    Ok(names)
}

/// The names of the functions that are items of a world.
fn functions_of_world<'a>(
    alloc: Global,
    tables: &'a Resolve,
    world: &World,
) -> Result<Vec<&'a str>, AllocError> {
    let mut names = Vec::new(alloc);
    for item in world.items.as_slice() {
        if let Some(name) = name_of_item(tables, *item) {
            names.push(name)?;
        }
    }
    Ok(names)
}

/// Adds the interfaces of a table.
fn push_interfaces<'a>(
    alloc: Global,
    owners: &mut Vec<Owner<'a>>,
    tables: &'a Resolve,
) -> Result<(), AllocError> {
    for interface in tables.interfaces.as_slice() {
        let name = interface.name.as_str();
        owners.push(Owner {
            full_name: full_name(alloc, tables, interface.package, name)?,
            name,
            functions: functions_of(alloc, tables, interface)?,
        })?;
    }
    Ok(())
}

/// Adds the worlds of a table.
fn push_worlds<'a>(
    alloc: Global,
    owners: &mut Vec<Owner<'a>>,
    tables: &'a Resolve,
) -> Result<(), AllocError> {
    for world in tables.worlds.as_slice() {
        let name = world.name.as_str();
        owners.push(Owner {
            full_name: full_name(alloc, tables, world.package, name)?,
            name,
            functions: functions_of_world(alloc, tables, world)?,
        })?;
    }
    Ok(())
}

/// The interfaces and worlds of packages.
fn owners_of(alloc: Global, packages: &[Checked]) -> Result<Vec<Owner<'_>>, AllocError> {
    let mut owners = Vec::new(alloc);
    for package in packages {
        push_interfaces(alloc, &mut owners, &package.tables)?;
        push_worlds(alloc, &mut owners, &package.tables)?;
    }
    Ok(owners)
}

/// A full name without the version, if it has one.
fn without_version(full_name: &str) -> &str {
    match full_name.split_once('@') {
        Some((name, _)) => name,
        None => full_name,
    }
}

/// The full name that is nearest to a word.
fn nearest_owner<'a>(
    alloc: Global,
    owners: &'a [Owner<'_>],
    word: &str,
) -> Result<Option<&'a str>, AllocError> {
    let names: Vec<&'a str> = owners
        .iter()
        .map(|owner| owner.full_name.as_str())
        .collect(alloc)?;
    nearest(alloc, word, names.as_slice())
}

/// The full name that is meant by a word that is none: the same with another version, the one whose last part it is,
/// or the nearest one.
fn meant<'a>(
    alloc: Global,
    owners: &'a [Owner<'_>],
    word: &str,
) -> Result<Option<&'a str>, AllocError> {
    let plain = without_version(word);
    for owner in owners {
        if without_version(owner.full_name.as_str()) == plain || owner.name == plain {
            return Ok(Some(owner.full_name.as_str()));
        }
    }
    nearest_owner(alloc, owners, word)
}

/// The full name of the first that has a function of this name.
fn with_function<'a>(owners: &'a [Owner<'_>], function: &str) -> Option<&'a str> {
    for owner in owners {
        if owner.functions.as_slice().contains(&function) {
            return Some(owner.full_name.as_str());
        }
    }
    None
}

/// Writes names with commas between them, the first of them.
fn push_names(text: &mut TextBuilder, names: &[&str]) {
    for (place, name) in names.iter().take(MOST_NAMED).enumerate() {
        text.push_three(if place == 0 { "`" } else { ", `" }, *name, "`");
    }
    if names.len() > MOST_NAMED {
        text.push(", ..");
    }
}

/// Writes that an interface or a world has no function of this name, with the nearest one, or those that it has.
fn push_no_function(text: &mut TextBuilder, owner: &Owner<'_>, function: &str, near: Option<&str>) {
    text.push_three("`", owner.full_name.as_str(), "` has no function `");
    text.push(function);
    match near {
        Some(near) => text.push_three("`; did you mean `", near, "`?"),
        None if owner.functions.is_empty() => text.push("`; it has none"),
        None => {
            text.push("`; it has ");
            push_names(text, owner.functions.as_slice());
        }
    }
}

/// Writes that there is no interface and no world of this name, with the one that is meant.
fn push_no_owner(
    text: &mut TextBuilder,
    owners: &[Owner<'_>],
    words: (&str, &str),
    meant: Option<&str>,
) {
    let (owner, function) = words;
    text.push_three("no interface or world `", owner, "`");
    if let Some(meant) = meant {
        text.push_three("; did you mean `", meant, "`?");
    } else if let Some(other) = with_function(owners, function) {
        text.push_three("; `", function, "` is a function of `");
        text.push(other);
        text.push("`");
    } else {
        text.push(
            ": a full name is `NAMESPACE:PACKAGE/NAME`, with `@VERSION` if the package has one",
        );
    }
}

/// Writes what to do about a function that no package has.
fn push_hint(
    text: &mut TextBuilder,
    alloc: Global,
    owners: &[Owner<'_>],
    words: (&str, &str),
) -> Result<(), AllocError> {
    let (owner, function) = words;
    match owners.iter().find(|it| it.full_name.as_str() == owner) {
        Some(owner) => {
            let near = nearest(alloc, function, owner.functions.as_slice())?;
            push_no_function(text, owner, function, near);
        }
        None => push_no_owner(text, owners, words, meant(alloc, owners, owner)?),
    }
    Ok(())
}

/// Reports that no package has the function of this name in the interface or world of this full name.
pub fn report_missing(
    alloc: Global,
    report: &mut Report,
    packages: &[Checked],
    words: (&str, &str),
) -> Result<(), AllocError> {
    let owners = owners_of(alloc, packages)?;
    report.text.push("wit-explain: error 63 no function\n   = ");
    push_hint(&mut report.text, alloc, owners.as_slice(), words)?;
    report.text.push("\n");
    Ok(())
}
