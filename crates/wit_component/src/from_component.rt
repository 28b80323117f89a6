//! The package that a raw component stands for.
ghost use Rattle.std.specs.Prelude.{◌≡◌, ◌⊎◌, All, IfOk, IfErr, MatchResult};
ghost use Rattle.tables.specs.Same.{IsSamePackage};
ghost use Rattle.package_form.specs.Scope.{AreDistinct};
ghost use Rattle.package_form.specs.Naming.{package_scopes};
ghost use Rattle.package_form.specs.Form.{IsInPackageForm};
ghost use Rattle.wit_component.specs.ToComponent.{ComponentStands};
ghost use Rattle.wit_component.specs.FromComponent.{ClosedComponentRefuses};

use crate::comparison::is_component_of;
use crate::empty::is_empty_package;
use component_reader::{Unread, candidate};
use ctype_bin::RawComponent;
use package_form::is_in_form;
use package_names::distinct_names;
use std::alloc::Global;
use tables::{Resolve, ResolveError};

/// The package that a component stands for, whose names may stand twice in a scope.
fn standing(alloc: Global, raw: &RawComponent) -> Result<Resolve, ResolveError>
    ensures ok { IfOk result (λ r. ∥ ComponentStands raw.now r ∥₁) }
    ensures form { IfOk result (λ r. IsInPackageForm r) }
    ensures same { IfOk result (λ p. (r : Resolve) → ComponentStands raw.now r → All AreDistinct (package_scopes r)
        → IsSamePackage p r) }
    ensures err { IfErr result (λ e. (e ≡ ResolveError.NoMemory)
        ⊎ ((e ≡ ResolveError.NotThisShape) × ((r : Resolve) → ComponentStands raw.now r → ⊥))) }
{
    let package = match candidate(alloc, raw) {
        Ok(package) => package,
        Err(Unread::NotThisShape) => return Err(ResolveError::NotThisShape),
        Err(Unread::NoMemory) => return Err(ResolveError::NoMemory),
    };
    if !is_in_form(alloc, &package)? {
        return Err(ResolveError::NotThisShape);
    }
    if is_component_of(alloc, &package, raw)? {
        Ok(package)
    } else {
        Err(ResolveError::NotThisShape)
    }
}

/// The closed table that a component stands for, a package behind the interfaces of others that it imports: what is
/// read of it is written again part by part, and has to be the same. 43 `EmptyPackage` exactly where its one
/// type is a component type without declarations, whatever is exported; 44 `NotThisShape` exactly where it stands for
/// no package otherwise. 40 `Duplicate` where it stands for one, and a name of it stands twice in its scope, but for
/// the case of its letters: the first in the order of the bytes, a definition's members before its name, an interface's
/// definitions before the interface's. (Binary.md)
pub fn closed_from_component(alloc: Global, raw: &RawComponent) -> Result<Resolve, ResolveError>
    ensures ok { IfOk result (λ r. ∥ ComponentStands raw.now r ∥₁) }
    ensures form { IfOk result (λ r. IsInPackageForm r) }
    ensures distinct { IfOk result (λ r. All AreDistinct (package_scopes r)) }
    ensures only { (r : Resolve) → ComponentStands raw.now r → All AreDistinct (package_scopes r)
        → MatchResult result (λ p. IsSamePackage p r) (λ e. e ≡ ResolveError.NoMemory) }
    ensures err { IfErr result (ClosedComponentRefuses raw.now) }
{
    if is_empty_package(raw) {
        return Err(ResolveError::EmptyPackage);
    }
    let package = standing(alloc, raw)?;
    distinct_names(alloc, &package)?;
    Ok(package)
}
