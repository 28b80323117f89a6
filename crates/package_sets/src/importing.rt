//! The table of some interfaces of a set, with those whose types they name.
ghost use Rattle.std.specs.Prelude.{IfOk};
ghost use Rattle.package_sets.specs.Imports.{AreNeededBy, IsImported, IsImportsOf};

use crate::part::{add_needed, part_table, reached_rows};
use set_rows::moved::Moved;
use set_rows::owners::owners;
use set_rows::places::Places;
use set_rows::reached::{Reached, padded};
use std::alloc::{AllocError, Global};
use tables::Resolve;

/// The packages that are needed: those with a mark, and each that has an interface which is reached.
fn needed_by(
    alloc: Global,
    set: &Resolve,
    reached: &Reached,
    packages: &[bool],
) -> Result<Vec<bool>, AllocError>
    ensures { IfOk result (λ marks. AreNeededBy set.now packages.now reached.now marks.items) }
{
    let mut marks = padded(alloc, packages, set.packages.len())?;
    add_needed(set, reached, &mut marks);
    Ok(marks)
}

/// What these interfaces reach, and where it stands then.
fn interfaces_part(
    alloc: Global,
    set: &Resolve,
    packages: &[bool],
    interfaces: &[bool],
) -> Result<Moved, AllocError>
    ensures { IfOk result (IsImported set.now packages.now interfaces.now) }
{
    let owners = owners(alloc, set.definitions.as_slice())?;
    let reached = Reached::from_marks(alloc, set, owners.as_slice(), interfaces)?;
    let rows = reached_rows(alloc, owners.as_slice(), &reached)?;
    let needed = needed_by(alloc, set, &reached, packages)?;
    let worlds = padded(alloc, &[], set.worlds.len())?;
    Ok(Moved {
        packages: Places::of(alloc, needed)?,
        interfaces: Places::of(alloc, reached.into_interfaces())?,
        worlds: Places::of(alloc, worlds)?,
        rows: Places::of(alloc, rows)?,
    })
}

/// The table of the interfaces of a set that have a mark, and of those whose types they name, directly or by others, in
/// the set's order. Its packages are those that have a mark, and each that has one of these interfaces; it has no
/// world. What has no mark, for there are fewer marks, isn't given.
///
/// A text or a binary that imports from these interfaces is read behind this table: the interfaces that it finds there
/// are the set's.
pub fn imports(
    alloc: Global,
    set: &Resolve,
    packages: &[bool],
    interfaces: &[bool],
) -> Result<Resolve, AllocError>
    ensures { IfOk result (IsImportsOf set.now packages.now interfaces.now) }
{
    let to = interfaces_part(alloc, set, packages, interfaces)?;
    let table = part_table(alloc, set, &to)?;
    Ok(table)
}
