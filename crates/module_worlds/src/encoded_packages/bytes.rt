//! Bytes that were read back.
ghost use Rattle.std.specs.Prelude.{◌≡◌, IfOk, Ok};
ghost use Rattle.component_decoding.specs.File.{decoded};
ghost use Rattle.component_structure.specs.Parts.{Parts};
ghost use Rattle.structure_comparison.specs.Worlds.{HasWorld};
ghost use Rattle.structure_comparison.specs.Packages.{HasPackage};

use crate::encoded_packages::error::EncodeError;
use component_decoding::decode;
use std::alloc::Global;
use structure_comparison::Comparison;
use tables::{PackageId, Resolve, World};

/// The bytes of a world of the table, as wit-component puts them into the section `component-type` of a module. What is
/// read of them is this world.
pub fn world_bytes(alloc: Global, resolve: &Resolve, world: &World) -> Result<Vec<u8>, EncodeError>
    ensures { IfOk result (λ bytes. (parts : Parts) × (decoded bytes.items ≡ Ok parts)
        × HasWorld resolve.now world.now parts) }
{
    let bytes = component_encoding::world_bytes(alloc, resolve, world)?;
    let structure = decode(alloc, bytes.as_slice())?;
    let comparison = Comparison {
        alloc,
        resolve,
        structure: &structure,
    };
    if comparison.has_world(world)? {
        return Ok(bytes);
    }
    Err(EncodeError::Different)
}

/// The bytes of all interfaces and worlds of a package of the table, as `wasm-tools component wit --wasm` writes them.
/// What is read of them is this package.
pub fn package_bytes(
    alloc: Global,
    resolve: &Resolve,
    package: PackageId,
) -> Result<Vec<u8>, EncodeError>
    ensures { IfOk result (λ bytes. (parts : Parts) × (decoded bytes.items ≡ Ok parts)
        × HasPackage resolve.now «package» parts) }
{
    let bytes = component_encoding::package_bytes(alloc, resolve, package)?;
    let structure = decode(alloc, bytes.as_slice())?;
    let comparison = Comparison {
        alloc,
        resolve,
        structure: &structure,
    };
    if comparison.has_package(package)? {
        return Ok(bytes);
    }
    Err(EncodeError::Different)
}
