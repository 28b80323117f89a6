//! Why a package is not written.

use std::alloc::AllocError;
use tables::ResolveError;
use thiserror::Error;

/// Why a package is not written.
#[derive(Debug, Drop, Error)]
pub enum Unwritten {
    #[error("error 36 limit at 1048576..1048576")]
    LongText,
    #[error("error 17 limit at 1048576")]
    LongBinary,
    #[error(transparent)]
    Resolve(ResolveError),
}

impl From<AllocError> for Unwritten {
    fn from(_error: AllocError) -> Unwritten {
        Unwritten::Resolve(ResolveError::NoMemory)
    }
}

impl From<ResolveError> for Unwritten {
    fn from(error: ResolveError) -> Unwritten {
        Unwritten::Resolve(error)
    }
}
