//! Full names of interfaces and worlds.

use atoms::Label;
use std::alloc::{AllocError, Global};
use tables::{PackageId, Resolve};

/// The full name of an interface or a world of a package.
pub fn full_name_of(
    alloc: Global,
    resolve: &Resolve,
    id: PackageId,
    label: &Label,
) -> Result<String, AllocError> {
    match resolve.packages.as_slice().get(id.0 as usize) {
        Some(package) => {
            let name = package.full_name(alloc, label)?;
            String::from_str(alloc, name.as_str())
        }
        None => Ok(String::new(alloc)),
    }
}
