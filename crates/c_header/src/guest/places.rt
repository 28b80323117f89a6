//! Where the functions of a world are declared.

use crate::packages::scope_of;
use crate::prefixes::prefix_of;
use atoms::Label;
use c_declarations::{Header, Scope};
use tables::{Interface, PackageId, World};

/// The module that a core module imports a function of the world itself from.
static ROOT: &str = "$root";

/// An interface or a world, and how a core module names its functions.
#[derive(Drop)]
pub struct Place {
    pub scope: Scope,
    /// What the names of its package begin with in C.
    pub package: String,
    /// The module that its functions are imported from.
    pub module: String,
    /// What the names of its exported functions begin with.
    pub front: String,
}

/// What the names of a package begin with in C, and the scope of an interface or a world of this name in it. None if
/// there is no such package.
fn named(
    header: &mut Header<'_>,
    stems: &[String],
    package: PackageId,
    name: &Label,
) -> Option<(String, Scope)> {
    let packages = header.types.laid.resolve.packages.as_slice();
    let package = packages.get(package.0 as usize)?;
    let prefix = header.text.kept(prefix_of(header.alloc, stems, package));
    let scope = scope_of(header, prefix.as_str(), package, name);
    Some((prefix, scope))
}

/// The place of an interface. None if its package is not there.
pub fn place_of_interface(
    header: &mut Header<'_>,
    stems: &[String],
    interface: &Interface,
) -> Option<Place> {
    let (package, scope) = named(header, stems, interface.package, &interface.name)?;
    let full_name = scope.full_name.as_str();
    let module = String::from_str(header.alloc, full_name);
    let front = [full_name, "#"].concat(header.alloc);
    Some(Place {
        module: header.text.kept(module),
        front: header.text.kept(front),
        scope,
        package,
    })
}

/// The place of a world. None if its package is not there.
pub fn place_of_world(header: &mut Header<'_>, stems: &[String], world: &World) -> Option<Place> {
    let (package, scope) = named(header, stems, world.package, &world.name)?;
    let module = String::from_str(header.alloc, ROOT);
    Some(Place {
        scope,
        package,
        module: header.text.kept(module),
        front: String::new(header.alloc),
    })
}
