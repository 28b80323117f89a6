//! Why no value was read.
ghost use Rattle.std.specs.Prelude.{◌≡◌};
ghost use Rattle.lift_lower.specs.NoValue.{fault_in_step};

use canonical_abi::{Fault, Step, Trap, TrapKind};
use std::alloc::{AllocError, AllocFailed};

/// A trap that does not know its step yet, or want of the host's memory.
#[derive(Clone, Copy, Debug, PartialEq, Eq)]
pub(crate) enum NoValue {
    Trap(TrapKind),
    NoMemory,
}

impl NoValue {
    /// The fault of a step.
    pub(crate) fn at(self, step: Step) -> Fault
        ensures { result ≡ fault_in_step step self }
    {
        match self {
            NoValue::Trap(kind) => Fault::Trap(Trap { kind, step }),
            NoValue::NoMemory => Fault::NoMemory,
        }
    }
}

impl From<AllocError> for NoValue {
    ghost use Rattle.std.specs.Prelude.{◌≡◌};
    ghost use Rattle.lift_lower.specs.declared.no_value.NoValue.TheVariants.{NoMemory};

    ghost from_gives = { λ _ e. e ≡ NoMemory };

    fn from(_error: AllocError) -> Self {
        NoValue::NoMemory
    }
}

impl<T: Drop> From<AllocFailed<T>> for NoValue {
    ghost use Rattle.std.specs.Prelude.{◌≡◌};
    ghost use Rattle.lift_lower.specs.declared.no_value.NoValue.TheVariants.{NoMemory};

    ghost from_gives = { λ _ e. e ≡ NoMemory };

    fn from(_error: AllocFailed<T>) -> Self {
        NoValue::NoMemory
    }
}
