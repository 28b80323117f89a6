//! The full names of interfaces and worlds.
ghost use Rattle.std.specs.Prelude.{◌≡◌, ◌<◌, length, slice_get, IsTrue, IfOk, OnOk};
ghost use Rattle.atoms.specs.Label.{IsLabel};
ghost use Rattle.ctype_format.specs.Names.{name_view};
ghost use Rattle.tables.specs.Names.{full_name_in};
ghost use Rattle.package_form.specs.Form.{has_full_names};

use atoms::{FullName, Label};
use ctype_bin::ExternName;
use std::alloc::{AllocError, Global};
use tables::{PackageId, Resolve, copy_version};

/// The full name of a name in this package.
pub fn full_name(
    alloc: Global,
    resolve: &Resolve,
    package: PackageId,
    name: &Label,
) -> Result<ExternName, AllocError>
    requires named { IsTrue (has_full_names resolve.now) }
    requires placed { «package».0 < length resolve.now.packages }
    ensures name { IfOk result (λ n. name_view n ≡ full_name_in (slice_get resolve.now.packages «package».0) name.now) }
    ensures label { OnOk result (IsLabel name.now) }
{
    let package = &resolve.packages.as_slice()[package.0 as usize];
    let name = FullName {
        namespace: package.namespace.copy(alloc)?,
        package: package.name.copy(alloc)?,
        name: Label::from_bytes(alloc, name.as_bytes())?,
        version: copy_version(&package.version)?,
    };
    Ok(ExternName::FullName(Box::new(alloc, name)?))
}
