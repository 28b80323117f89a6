//! Why a package or a world has no bytes.

use component_encoding::EncodeError as Unwritten;
use component_structure::DecodeError;
use std::alloc::{AllocError, AllocFailed};
use thiserror::Error;

/// Why a package or a world has no bytes.
#[derive(Debug, Drop, Error)]
pub enum EncodeError {
    /// It is not written.
    #[error(transparent)]
    Unwritten(Unwritten),
    /// It passes a limit of those that read it.
    #[error("what was written passes a limit of its readers: {0}")]
    Unreadable(DecodeError),
    /// What was written reads as something else. This never happened.
    #[error("what was written does not read as what it should be: please report this")]
    Different,
}

impl From<Unwritten> for EncodeError {
    fn from(error: Unwritten) -> EncodeError {
        EncodeError::Unwritten(error)
    }
}

impl From<AllocError> for EncodeError {
    fn from(_error: AllocError) -> EncodeError {
        EncodeError::Unwritten(Unwritten::NoMemory)
    }
}

impl<T: Drop> From<AllocFailed<T>> for EncodeError {
    fn from(_error: AllocFailed<T>) -> EncodeError {
        EncodeError::Unwritten(Unwritten::NoMemory)
    }
}

impl From<DecodeError> for EncodeError {
    fn from(error: DecodeError) -> EncodeError {
        match error {
            DecodeError::NoMemory => EncodeError::Unwritten(Unwritten::NoMemory),
            DecodeError::At(..) => EncodeError::Unreadable(error),
        }
    }
}
