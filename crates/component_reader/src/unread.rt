//! Why a component is not read as a package.
ghost use Rattle.std.specs.Prelude.{◌≡◌};
ghost use Rattle.component_reader.specs.declared.unread.Unread.TheVariants.{NoMemory};

use std::alloc::{AllocError, AllocFailed};

/// Why a component is not read as a package.
#[derive(Drop)]
pub enum Unread {
    /// It isn't of a package's shape.
    NotThisShape,
    NoMemory,
}

impl From<AllocError> for Unread {
    ghost from_gives = { λ _ e. e ≡ NoMemory };

    fn from(_error: AllocError) -> Self {
        Unread::NoMemory
    }
}

impl<T: Drop> From<AllocFailed<T>> for Unread {
    ghost from_gives = { λ _ e. e ≡ NoMemory };

    fn from(_error: AllocFailed<T>) -> Self {
        Unread::NoMemory
    }
}
