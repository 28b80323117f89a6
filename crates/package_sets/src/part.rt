//! A part of a set that names nothing outside itself, and the table of it.
ghost use Rattle.std.specs.Prelude.{◌≡◌, IfOk, map};
ghost use Rattle.set_rows.specs.Reaches.{is_marked};
ghost use Rattle.package_sets.specs.Part.{IsPart, IsTableOf};
ghost use Rattle.package_sets.specs.Restricted.{AddsNeeded};

use set_rows::moved::{Moved, moved_kept};
use set_rows::reached::{Reached, mark};
use std::alloc::{AllocError, Global};
use tables::{Owner, Resolve};

/// Whether each row is of what is reached.
pub fn reached_rows(
    alloc: Global,
    owners: &[Option<Owner>],
    reached: &Reached,
) -> Result<Vec<bool>, AllocError>
    ensures { IfOk result (λ marks. marks.items ≡ map (is_marked reached.now) owners.now) }
{
    let mut marks = Vec::with_capacity(alloc, owners.len())?;
    for owner in owners {
        marks.push(reached.has(*owner))?;
    }
    Ok(marks)
}

/// Marks the packages of the interfaces that are reached.
pub fn add_needed(set: &Resolve, reached: &Reached, marks: &mut Vec<bool>)
    ensures { AddsNeeded set.now reached.now marks.old.items marks.new.items }
{
    for (place, interface) in set.interfaces.as_slice().iter().enumerate() {
        if reached.has_interface(place) {
            mark(marks, interface.package.0);
        }
    }
}

/// The table of what is kept.
pub fn part_table(alloc: Global, set: &Resolve, to: &Moved) -> Result<Resolve, AllocError>
    requires { IsPart set.now to.now }
    ensures { IfOk result (IsTableOf set.now to.now) }
{
    Ok(Resolve {
        packages: moved_kept(alloc, &set.packages, &to.packages, to)?,
        interfaces: moved_kept(alloc, &set.interfaces, &to.interfaces, to)?,
        worlds: moved_kept(alloc, &set.worlds, &to.worlds, to)?,
        definitions: moved_kept(alloc, &set.definitions, &to.rows, to)?,
    })
}
