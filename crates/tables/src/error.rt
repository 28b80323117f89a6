//! Why a package could not be made, or not be added to a set.
ghost use Rattle.std.specs.Prelude.{◌≡◌};
ghost use Rattle.tables.specs.declared.error.ResolveError.TheVariants.{NoMemory};

use crate::name::Name;
use crate::tables::PackageName;
use atoms::Label;
use std::alloc::{AllocError, AllocFailed};
use thiserror::Error;

/// Why a package could not be made, or not be added to a set.
#[derive(Debug, Drop, Error)]
pub enum ResolveError {
    /// 40: a name stands twice in one scope, but for the case of its letters. It is given as it is spelt at
    /// the later place, an interface among the items of a world by its full name.
    #[error("error 40 duplicate {}", .0.as_str())]
    Duplicate(Name),
    /// 41: a name stands for nothing.
    #[error("error 41 unknown {}", .0.as_str())]
    Unknown(Label),
    /// 42: interfaces use each other, or types name each other.
    #[error("error 42 cycle")]
    Cycle,
    /// 43: the package has neither an interface nor a world.
    #[error("error 43 empty package")]
    EmptyPackage,
    /// 44: the package isn't of the shape that is read, or an interface of another package isn't there, or isn't as
    /// the set has it.
    #[error("error 44 not this shape")]
    NotThisShape,
    /// 45: the package has too many types, cases or labels.
    #[error("error 45 limit")]
    Limit,
    /// 46: no memory, or more rows than there are ids.
    #[error("error 46 no memory")]
    NoMemory,
    /// 47: the package names a package that isn't there.
    #[error("error 47 no package {0}")]
    NoPackage(PackageName),
    /// 48: the set has a package of this name.
    #[error("error 48 same package {0}")]
    SamePackage(PackageName),
    /// 49: the set has 64 packages.
    #[error("error 49 set limit")]
    SetLimit,
}

impl From<AllocError> for ResolveError {
    ghost from_gives = { λ _ e. e ≡ NoMemory };

    fn from(_error: AllocError) -> Self {
        ResolveError::NoMemory
    }
}

impl<T: Drop> From<AllocFailed<T>> for ResolveError {
    ghost from_gives = { λ _ e. e ≡ NoMemory };

    fn from(_error: AllocFailed<T>) -> Self {
        ResolveError::NoMemory
    }
}
