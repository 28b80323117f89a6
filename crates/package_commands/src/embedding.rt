//! Modules that carry a world.

use crate::encoding::{Unencoded, own_world};
use checked_packages::Checked;
use module_worlds::{EmbedError, Embedding};
use std::alloc::AllocError;
use thiserror::Error;
use wit_faults::ReadError;
use wit_files::{Source, source_of};

/// Why a module is not written with a world.
#[derive(Debug, Drop, Error)]
pub enum Unembedded {
    /// The package does not have the world.
    #[error(transparent)]
    World(Unencoded),
    /// The module can't be read.
    #[error(transparent)]
    Read(ReadError),
    #[error(transparent)]
    Embed(EmbedError),
}

impl From<Unencoded> for Unembedded {
    fn from(error: Unencoded) -> Unembedded {
        Unembedded::World(error)
    }
}

impl From<ReadError> for Unembedded {
    fn from(error: ReadError) -> Unembedded {
        Unembedded::Read(error)
    }
}

impl From<EmbedError> for Unembedded {
    fn from(error: EmbedError) -> Unembedded {
        Unembedded::Embed(error)
    }
}

impl From<AllocError> for Unembedded {
    fn from(_error: AllocError) -> Unembedded {
        Unembedded::Read(ReadError::NoMemory)
    }
}

/// The module of a path with the section of a world of a package behind it, if the module fits the world.
pub fn embedded(
    rt: &HostRuntime,
    package: &Checked,
    world: &str,
    path: &str,
) -> Result<Vec<u8>, Unembedded> {
    let alloc = rt.alloc();
    let world = own_world(alloc, &package.tables, world)?;
    let Source { bytes, .. } = source_of(rt, path)?;
    let module = bytes?;
    let embedding = Embedding {
        module: module.as_slice(),
        tables: &package.tables,
        layouts: &package.layouts,
        world,
    };
    Ok(embedding.embedded(alloc)?)
}
