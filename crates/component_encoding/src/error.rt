//! Why a package or a world is not encoded.

use std::alloc::{AllocError, AllocFailed};
use tables::Name;
use thiserror::Error;

/// Why a package or a world is not encoded.
#[derive(Debug, Drop, Error)]
pub enum EncodeError {
    /// What a world exports uses this interface, directly or not, both as an import and as an export.
    #[error("the exports depend on {} both as an import and as an export", .0.as_str())]
    BothWays(Name),
    /// 46: no memory, or a length or an index that is no number of 32 bits.
    #[error("error 46 no memory")]
    NoMemory,
}

impl From<AllocError> for EncodeError {
    fn from(_error: AllocError) -> Self {
        EncodeError::NoMemory
    }
}

impl<T: Drop> From<AllocFailed<T>> for EncodeError {
    fn from(_error: AllocFailed<T>) -> Self {
        EncodeError::NoMemory
    }
}
