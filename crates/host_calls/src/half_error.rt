//! Why a half of a call was broken off.
ghost use Rattle.std.specs.Prelude.{◌≡◌, ◌≤◌};
ghost use Rattle.host_calls.specs.Halves.{IsHalfError};

use canonical_abi::{Fault, TrapKind};

/// Why a half of a call came to no end.
#[derive(Clone, Copy, Debug, Drop)]
pub enum HalfError {
    /// The block of this index has another size or alignment than the one that was asked for.
    OtherBlock(usize),
    /// K6 where there were fewer blocks than requests.
    Fault(Fault),
}

/// The error of a fault after which so many of these blocks are left.
pub fn broken_off(fault: Fault, blocks: usize, left: usize) -> HalfError
    requires { left ≤ blocks }
    ensures { IsHalfError blocks left fault result }
{
    match fault {
        Fault::Trap(trap) => match trap.kind {
            TrapKind::Full if left > 0 => HalfError::OtherBlock(blocks - left),
            _ => HalfError::Fault(fault),
        },
        Fault::NoMemory => HalfError::Fault(fault),
    }
}
