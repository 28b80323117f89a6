//! Packages that a module carries.
ghost use Rattle.std.specs.Prelude.{IfErr};
ghost use Rattle.c_border.specs.Modules.{IsUncarried, OpensCarried};

use checked_packages::Carried;
use component_decoding::DecodeError;
use opening::{IndexedPackage, OpenError, open_indexed};
use std::alloc::Global;
use tables::ResolveError;

/// The packages that a binary carries, which other tools wrote: 44 if it carries none.
fn carried(alloc: Global, bytes: &[u8]) -> Result<Carried, OpenError>
    ensures { IfErr result IsUncarried }
{
    match Carried::of(alloc, bytes) {
        Ok(carried) => Ok(carried),
        Err(DecodeError::At(_, _)) => Err(OpenError::Resolve(ResolveError::NotThisShape)),
        Err(DecodeError::NoMemory) => Err(OpenError::NoMemory),
    }
}

/// Opens the package of the world or of the interfaces that a binary carries, with those that it depends on: a
/// component as wit-component writes a package or a world, or a core module with such a world in a section. 44 if it
/// carries none.
pub fn open_module(alloc: Global, bytes: &[u8]) -> Result<IndexedPackage, OpenError>
    ensures { OpensCarried result }
{
    let packages = carried(alloc, bytes)?;
    let texts = packages.texts(alloc)?;
    open_indexed(alloc, texts.as_slice())
}
