//! Marks of what is named of a set.
ghost use Rattle.std.specs.Prelude.{◌≡◌, ℕ, Bool, true, List, map, slice_set, IfOk};
ghost use Rattle.package_names.specs.Asked.{is_asked_of};
ghost use Rattle.tables.specs.PackageNames.{PackageParts};
ghost use Rattle.package_sets.specs.NamedIn.{AreMarksOf};
ghost use Rattle.package_adding.specs.Asked.{AreAsked};

use package_names::{Asked, AskedNames};
use std::alloc::{AllocError, Global};
use tables::Resolve;

/// Marks of the packages and of the interfaces of a set.
#[derive(Drop)]
pub struct Named {
    pub packages: Vec<bool>,
    pub interfaces: Vec<bool>,
}

/// Marks a place, if there is one.
pub fn mark(marks: &mut Vec<bool>, place: usize)
    ensures { marks.new.items ≡ slice_set marks.old.items place true }
{
    if place < marks.len() {
        marks[place] = true;
    }
}

/// A mark for each interface of a set that was asked for.
fn asked_interfaces(
    alloc: Global,
    set: &Resolve,
    asked: &AskedNames<'_>,
) -> Result<Vec<bool>, AllocError>
    ensures { IfOk result (λ v. v.items ≡ map (is_asked_of asked.now) set.now.interfaces) }
{
    let mut marks = Vec::with_capacity(alloc, set.interfaces.len())?;
    for interface in set.interfaces.as_slice() {
        marks.push(asked.has(interface.package, &interface.name))?;
    }
    Ok(marks)
}

impl Named {
    /// The marks of what is asked of a set.
    pub fn of(alloc: Global, set: &Resolve, asked: Asked<'_>) -> Result<Named, AllocError>
        ensures { IfOk result (λ n. (names : PackageParts → List ℕ → Bool) → AreAsked set.now names asked.entry
            → AreMarksOf (λ q i. names q i ≡ true) set.now n.packages.items n.interfaces.items) }
    {
        let packages = asked.packages(alloc)?;
        let asked = AskedNames::of(alloc, asked)?;
        let interfaces = asked_interfaces(alloc, set, &asked)?;
        Ok(Named {
            packages,
            interfaces,
        })
    }
}
