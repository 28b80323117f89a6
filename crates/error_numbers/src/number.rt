//! What has a number.
use canonical_abi::{Fault, Step, Trap, TrapKind};

/// An error, a kind of trap or a step, which has a number.
pub trait Numbered {
    ghost use Rattle.std.specs.Prelude.{◌≡◌, ℕ};

    ghost number_of: { Self → ℕ };

    /// Its number, as docs/ERRORS.md and the header for C list it.
    fn number(&self) -> u32
        ensures { result ≡ number_of self.now };
}

/// 1 to 8, as in `K1` to `K8`.
impl Numbered for TrapKind {
    ghost use Rattle.error_numbers.specs.Numbers.{kind_number};

    ghost number_of = { kind_number };

    fn number(&self) -> u32 {
        match self {
            TrapKind::Char => 1,
            TrapKind::Case => 2,
            TrapKind::Align => 3,
            TrapKind::Bounds => 4,
            TrapKind::Utf8 => 5,
            TrapKind::Full => 6,
            TrapKind::Body => 7,
            TrapKind::CoreSignature => 8,
        }
    }
}

/// 0 to 7, in the order of a call: `place` and `take` of a host of this library's own come first.
impl Numbered for Step {
    ghost use Rattle.error_numbers.specs.Numbers.{step_number};

    ghost number_of = { step_number };

    fn number(&self) -> u32 {
        match self {
            Step::Place => 0,
            Step::Take => 1,
            Step::LiftArgs => 2,
            Step::LowerArgs => 3,
            Step::Body => 4,
            Step::LiftResult => 5,
            Step::LowerResult => 6,
            Step::Post => 7,
        }
    }
}

/// That of its kind.
impl Numbered for Trap {
    ghost use Rattle.error_numbers.specs.Numbers.{trap_number};

    ghost number_of = { trap_number };

    fn number(&self) -> u32 {
        self.kind.number()
    }
}

/// That of its trap; 66 if the host is out of memory.
impl Numbered for Fault {
    ghost use Rattle.error_numbers.specs.Numbers.{fault_number};

    ghost number_of = { fault_number };

    fn number(&self) -> u32 {
        match self {
            Fault::Trap(trap) => trap.number(),
            Fault::NoMemory => 66,
        }
    }
}
