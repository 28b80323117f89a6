//! The table of one package of a set.
ghost use Rattle.std.specs.Prelude.{IfOk};
ghost use Rattle.package_sets.specs.Restricted.{AreNeeded, IsNeeded, IsRestricted};
ghost use Rattle.package_sets.specs.Tower.{IsFormedOf};

use crate::part::{add_needed, part_table, reached_rows};
use set_rows::moved::Moved;
use set_rows::owners::owners;
use set_rows::places::Places;
use set_rows::reached::{Reached, mark, own_worlds, padded};
use std::alloc::{AllocError, Global};
use tables::{PackageId, Resolve};

/// The packages that are needed: a package's own, and each that has an interface which is reached.
fn needed(
    alloc: Global,
    set: &Resolve,
    reached: &Reached,
    id: PackageId,
) -> Result<Vec<bool>, AllocError>
    ensures { IfOk result (λ marks. AreNeeded set.now id.0 reached.now marks.items) }
{
    let mut marks = padded(alloc, &[], set.packages.len())?;
    mark(&mut marks, id.0);
    add_needed(set, reached, &mut marks);
    Ok(marks)
}

/// What a package reaches, and where it stands then.
fn package_part(alloc: Global, set: &Resolve, id: PackageId) -> Result<Moved, AllocError>
    ensures { IfOk result (IsNeeded set.now id.0) }
{
    let owners = owners(alloc, set.definitions.as_slice())?;
    let reached = Reached::of(alloc, set, owners.as_slice(), id)?;
    let rows = reached_rows(alloc, owners.as_slice(), &reached)?;
    let packages = needed(alloc, set, &reached, id)?;
    let worlds = own_worlds(alloc, set.worlds.as_slice(), id)?;
    Ok(Moved {
        packages: Places::of(alloc, packages)?,
        interfaces: Places::of(alloc, reached.into_interfaces())?,
        worlds: Places::of(alloc, worlds)?,
        rows: Places::of(alloc, rows)?,
    })
}

/// The table of one package of a set: what the package reaches, in the set's order. Its packages are the own one and
/// those that have an interface which is reached; its worlds are the package's. In a set each package stands behind
/// those that it names, so that the own one is the last.
pub fn restricted(alloc: Global, set: &Resolve, id: PackageId) -> Result<Resolve, AllocError>
    ensures ok { IfOk result (IsRestricted set.now id.0) }
    ensures form { IfOk result (IsFormedOf set.now id.0) }
{
    let to = package_part(alloc, set, id)?;
    let table = part_table(alloc, set, &to)?;
    Ok(table)
}
