//! Faults of a call.
ghost use Rattle.std.specs.Prelude.{◌≡◌};
ghost use Rattle.adapter.specs.Faults.{fault_in};

use canonical_abi::{Fault, Step, Trap, TrapKind};
use crossing::Stopped;

pub(crate) fn trap(kind: TrapKind, step: Step) -> Fault
    ensures { result ≡ Fault.Trap (record { kind = kind; step = step }) }
{
    Fault::Trap(Trap { kind, step })
}

/// The trap of a way that stopped: in the step `lift` if its source was at fault, in `lower` if a request failed.
pub(crate) fn fault_of(stopped: Stopped, lift: Step, lower: Step) -> Fault
    ensures { result ≡ fault_in lift lower stopped }
{
    match stopped {
        Stopped::Source(kind) => trap(kind, lift),
        Stopped::Target(kind) => trap(kind, lower),
    }
}
