//! Full names, part by part.
ghost use Rattle.std.specs.Prelude.{◌≡◌, IsTrue, option_map, string_bytes, slice_get};
ghost use Rattle.atoms.specs.FullNameView.{name_parts_of};
ghost use Rattle.component_structure.specs.Bytes.{extern_view, Full};
ghost use Rattle.tables.specs.Names.{full_name_in};
ghost use Rattle.tables.specs.PackageNames.{name_parts};

use atoms::{FullName, Label};
use ctype_format::ExternName;
use tables::{PackageId, PackageName, Resolve};

/// Whether both have the same version, or none.
fn is_same_version(some: &Option<String>, other: &Option<String>) -> bool
    ensures { IsTrue result → option_map string_bytes some.now ≡ option_map string_bytes other.now }
{
    match (some, other) {
        (Some(some), Some(other)) => some.as_bytes() == other.as_bytes(),
        (None, None) => true,
        _ => false,
    }
}

/// Whether a full name is that of a label in a package.
fn is_in_package(package: &PackageName, label: &Label, name: &FullName) -> bool
    ensures { IsTrue result → name_parts_of name.now ≡ name_parts «package».now label.now }
{
    name.namespace.as_bytes() == package.namespace.as_bytes()
        && name.package.as_bytes() == package.name.as_bytes()
        && name.name.as_bytes() == label.as_bytes()
        && is_same_version(&name.version, &package.version)
}

/// Whether a name is the full name of a label in a package of the table.
pub fn is_full_name(resolve: &Resolve, package: PackageId, label: &Label, name: &ExternName) -> bool
    ensures { IsTrue result
        → extern_view name.now ≡ Full (full_name_in (slice_get resolve.now.packages «package».0) label.now) }
{
    match (resolve.packages.as_slice().get(package.0 as usize), name) {
        (Some(package), ExternName::FullName(name)) => is_in_package(package, label, name),
        _ => false,
    }
}
