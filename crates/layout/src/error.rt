//! Why a package could not be laid out.
ghost use Rattle.std.specs.Prelude.{◌≡◌};
ghost use Rattle.layout.specs.declared.error.LayoutError.TheVariants.{NoMemory};

use std::alloc::{AllocError, AllocFailed};
use thiserror::Error;

/// Why a package could not be laid out.
#[derive(Clone, Copy, Debug, PartialEq, Eq, Error)]
pub enum LayoutError {
    /// 50: a type, or a function's parameters as a record, takes more than 16,777,216 bytes.
    #[error("error 50 too large")]
    TooLarge,
    /// 51: types stand more than 64 deep in a type.
    #[error("error 51 too deep")]
    TooDeep,
    /// 52
    #[error("error 52 no memory")]
    NoMemory,
}

impl From<AllocError> for LayoutError {
    ghost from_gives = { λ _ e. e ≡ NoMemory };

    fn from(_error: AllocError) -> Self {
        LayoutError::NoMemory
    }
}

impl<T: Drop> From<AllocFailed<T>> for LayoutError {
    ghost from_gives = { λ _ e. e ≡ NoMemory };

    fn from(_error: AllocFailed<T>) -> Self {
        LayoutError::NoMemory
    }
}
