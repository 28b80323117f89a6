//! Whether a closed table stands behind the imports that a set has for it.
ghost use Rattle.std.specs.Prelude.{◌≡◌, ◌++◌, ℕ, Bool, List, Decides, IfOk, OnOk, flat_map, length, take};
ghost use Rattle.tables.specs.PackageNames.{PackageParts};
ghost use Rattle.package_form.specs.Marks.{AreMarked};
ghost use Rattle.package_form.specs.Reached.{reached_by_item, reached_by_row, reached_by_world};
ghost use Rattle.package_sets.specs.Attached.{others};
ghost use Rattle.package_sets.specs.Joining.{imports};
ghost use Rattle.package_adding.specs.Asked.{also, AreAsked};
ghost use Rattle.package_sets.specs.NamedIn.{own_rows, own_reached, AreNamedIn};
ghost use Rattle.package_adding.specs.ImportNames.{import_names, marked_names};
ghost use Rattle.package_sets.specs.BehindImports.{HasImportTable, IsBehindImports};

use crate::marking::{Named, mark};
use package_form::{interfaces_end, own_package, used_name};
use package_names::{Asked, PackageKey};
use package_sets::same::are_same_items;
use package_sets::{imported_interfaces, imports};
use std::alloc::{AllocError, Global};
use tables::{Definition, Interface, PackageName, Resolve, World, WorldItem, WorldItemKind};

// ---- what its own part names

/// The rows behind those of the imports.
fn own_rows(closed: &Resolve) -> &[Definition]
    ensures { result.now ≡ own_rows closed.now }
{
    let rows = closed.definitions.as_slice();
    let end = interfaces_end(imported_interfaces(closed));
    &rows[end.min(rows.len())..]
}

/// Marks the interfaces that the used names among these rows of a table reach.
fn mark_uses(marks: &mut Vec<bool>, table: &[Definition], rows: &[Definition])
    ensures { (n : ℕ) (places : List ℕ) → AreMarked n places marks.old.items
        → AreMarked n (places ++ flat_map (reached_by_row table.now) rows.now) marks.new.items }
{
    for row in rows {
        if let Some(name) = used_name(table, row) {
            mark(marks, name.interface.0 as usize);
        }
    }
}

fn mark_items(marks: &mut Vec<bool>, items: &[WorldItem])
    ensures { (n : ℕ) (places : List ℕ) → AreMarked n places marks.old.items
        → AreMarked n (places ++ flat_map reached_by_item items.now) marks.new.items }
{
    for item in items {
        if let WorldItemKind::Interface(id) = item.kind {
            mark(marks, id.0 as usize);
        }
    }
}

/// Marks the interfaces that items of worlds are.
fn mark_worlds(marks: &mut Vec<bool>, worlds: &[World])
    ensures { (n : ℕ) (places : List ℕ) → AreMarked n places marks.old.items
        → AreMarked n (places ++ flat_map reached_by_world worlds.now) marks.new.items }
{
    for world in worlds {
        mark_items(marks, world.items.as_slice());
    }
}

/// Marks of the interfaces of a closed table that its own rows and its worlds reach.
fn reached_marks(alloc: Global, closed: &Resolve) -> Result<Vec<bool>, AllocError>
    ensures { IfOk result (λ v. AreMarked (length closed.now.interfaces) (own_reached closed.now) v.items) }
{
    let mut marks = vec![in alloc; false; closed.interfaces.len()]?;
    mark_uses(&mut marks, closed.definitions.as_slice(), own_rows(closed));
    mark_worlds(&mut marks, closed.worlds.as_slice());
    Ok(marks)
}

/// Asks a set for what an import is.
fn ask_import<'a>(
    set: &Resolve,
    asked: &mut Asked<'a>,
    closed: &Resolve,
    import: &'a Interface,
) -> Result<(), AllocError>
    ensures { OnOk result ((names : PackageParts → List ℕ → Bool) → AreAsked set.now names asked.old
        → AreAsked set.now (also names (import_names closed.now import.now)) asked.new) }
{
    let packages = closed.packages.as_slice();
    match packages.get(import.package.0 as usize) {
        Some(package) => asked.ask(
            set.packages.as_slice(),
            PackageKey::of(package),
            &import.name,
        ),
        None => Ok(()),
    }
}

/// Asks a set for what the imports with marks are.
fn ask_imports<'a>(
    set: &Resolve,
    asked: &mut Asked<'a>,
    closed: &'a Resolve,
    reached: &[bool],
) -> Result<(), AllocError>
    requires { length reached.now ≡ length closed.now.interfaces }
    ensures { OnOk result ((names : PackageParts → List ℕ → Bool) → AreAsked set.now names asked.old
        → AreAsked set.now (also names (marked_names closed.now reached.now (imports closed.now))) asked.new) }
{
    for (place, import) in imported_interfaces(closed).iter().enumerate() {
        if reached[place] {
            ask_import(set, asked, closed, import)?;
        }
    }
    Ok(())
}

/// Marks of the packages and of the interfaces of a set that the own part of a closed table names: an interface of
/// which a type is used, or which is an item of a world, and the package of such a one, whether it has that interface
/// or not.
pub fn named_in(alloc: Global, set: &Resolve, closed: &Resolve) -> Result<Named, AllocError>
    ensures { IfOk result (λ n. AreNamedIn closed.now set.now n.packages.items n.interfaces.items) }
{
    let reached = reached_marks(alloc, closed)?;
    let mut asked = Asked::nothing(alloc, set.packages.len())?;
    ask_imports(set, &mut asked, closed, &reached)?;
    Named::of(alloc, set, asked)
}

// ---- what it begins with

/// The packages of the imports.
fn others(closed: &Resolve) -> &[PackageName]
    ensures { result.now ≡ others closed.now }
{
    let packages = closed.packages.as_slice();
    &packages[..own_package(packages)]
}

/// So many rows, or all where there are fewer.
fn first_rows(closed: &Resolve, count: usize) -> &[Definition]
    ensures { result.now ≡ take count closed.now.definitions }
{
    let rows = closed.definitions.as_slice();
    &rows[..count.min(rows.len())]
}

/// Whether a closed table begins with this one.
fn has_import_table(closed: &Resolve, table: &Resolve) -> bool
    ensures { Decides result (HasImportTable closed.now table.now) }
{
    are_same_items(others(closed), table.packages.as_slice())
        && are_same_items(imported_interfaces(closed), table.interfaces.as_slice())
        && are_same_items(
            first_rows(closed, table.definitions.len()),
            table.definitions.as_slice(),
        )
}

/// Whether a closed table begins with just the table of the interfaces of a set that its own part names, with what
/// these reach: each as the set has it, in the set's order. (Binary.md)
pub fn is_behind_imports(alloc: Global, set: &Resolve, closed: &Resolve) -> Result<bool, AllocError>
    ensures { IfOk result (λ b. Decides b (IsBehindImports set.now closed.now)) }
{
    let named = named_in(alloc, set, closed)?;
    let table = imports(alloc, set, &named.packages, &named.interfaces)?;
    Ok(has_import_table(closed, &table))
}
