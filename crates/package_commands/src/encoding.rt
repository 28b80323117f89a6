//! Packages and worlds as the binaries that other tools read.

use checked_packages::Checked;
use component_encoding::world_named;
use module_worlds::{EncodeError, package_bytes, world_bytes};
use package_form::own_package;
use std::alloc::{AllocError, Global};
use tables::{PackageId, Resolve, World};
use thiserror::Error;

/// Why a package or a world is not encoded.
#[derive(Debug, Drop, Error)]
pub enum Unencoded {
    #[error("no world `{0}`")]
    NoWorld(String),
    #[error(transparent)]
    Encode(EncodeError),
}

impl From<AllocError> for Unencoded {
    fn from(error: AllocError) -> Unencoded {
        Unencoded::Encode(EncodeError::from(error))
    }
}

impl From<EncodeError> for Unencoded {
    fn from(error: EncodeError) -> Unencoded {
        Unencoded::Encode(error)
    }
}

/// The number of the package that a table is of. A set has at most 64 packages.
fn own_id(tables: &Resolve) -> Result<PackageId, AllocError> {
    match u32::try_from(own_package(tables.packages.as_slice())) {
        Ok(place) => Ok(PackageId(place)),
        Err(_) => Err(AllocError),
    }
}

/// The world of a name in the package that a table is of.
pub fn own_world<'a>(
    alloc: Global,
    tables: &'a Resolve,
    name: &str,
) -> Result<&'a World, Unencoded> {
    match world_named(tables, own_id(tables)?, name) {
        Some(world) => Ok(world),
        None => Err(Unencoded::NoWorld(String::from_str(alloc, name)?)),
    }
}

/// The bytes of a package, or of the world of a name alone.
pub fn encoded(
    alloc: Global,
    package: &Checked,
    world: Option<&str>,
) -> Result<Vec<u8>, Unencoded> {
    let tables = &package.tables;
    match world {
        Some(name) => Ok(world_bytes(alloc, tables, own_world(alloc, tables, name)?)?),
        None => Ok(package_bytes(alloc, tables, own_id(tables)?)?),
    }
}
