//! The arguments of a call, read from the guest's memory.
ghost use Rattle.std.specs.Prelude.{◌≡◌, ◌<◌, map, length, IfOk, IfErr};
ghost use Rattle.canonical_abi.specs.Call.{KindsFit, argument_flats};
ghost use Rattle.canonical_abi.specs.Flat.{Denotes};
ghost use Rattle.canonical_abi.specs.Layout.{max_flat_params};
ghost use Rattle.canonical_abi.specs.Values.{HaveTypes};
ghost use Rattle.layout.specs.Layout.{AreWithin};
ghost use Rattle.lift_lower.specs.Crossing.{LiftFails};
ghost use Rattle.tables.specs.Closed.{IsFunction, function_type};
ghost use Rattle.values.specs.Val.{value_of};
ghost use Rattle.host_values.specs.Arguments.{AreReadArguments, ArgumentsAreNotRead, AskWithin};

use crate::import_values::call::ImportCall;
use adapter::parameter_types;
use canonical_abi::{Fault, Flat};
use host_calls::{CallError, enter_requests, put_flats};
use lift_lower::{Flats, Val, lift_params};
use memory::Lent;

impl ImportCall<'_> {
    /// The arguments that the guest passed, which its memory holds. `limit` is the most bytes that they may ask for, as
    /// if they crossed into another memory. K8 in `lift-args` if the core values are of another number or kind; 72 if
    /// the memory has 2^32 bytes or more; 76 if the arguments ask for more than the limit; otherwise their trap, or 66.
    /// The memory is only read.
    pub fn arguments(&self, memory: &mut [u8], limit: u64) -> Result<Vec<Val>, CallError>
        requires within { ∥ AreWithin self.now.types.now ∥₁ }
        requires function { IsFunction self.now.types.now self.now.func }
        ensures values { IfOk result (λ vs. AreReadArguments (function_type self.now.types.now self.now.func)
            self.now.flats.now memory.old (map value_of vs.items)) }
        ensures typed { IfOk result (λ vs. HaveTypes (map value_of vs.items)
            (function_type self.now.types.now self.now.func).params) }
        ensures few { IfOk result (λ _. AskWithin (function_type self.now.types.now self.now.func) self.now.flats.now
            memory.old limit) }
        ensures err { IfErr result (ArgumentsAreNotRead (function_type self.now.types.now self.now.func)
            self.now.flats.now memory.old limit) }
        ensures same { memory.new ≡ memory.old }
    {
        enter_requests(self.types, self.func, self.flats, memory, &mut [], limit)?;
        let mut flats = Flats::new();
        if !put_flats(self.flats, &mut flats) {
            unreachable!()
        }
        match self.lift_lent(flats.as_slice(), memory) {
            Ok(values) => Ok(values),
            Err(fault) => Err(CallError::Fault(fault)),
        }
    }

    /// The arguments that core values of a whole call denote in a memory that is lent, and that is only read.
    fn lift_lent(&self, flats: &[Flat], memory: &mut [u8]) -> Result<Vec<Val>, Fault>
        requires within { ∥ AreWithin self.now.types.now ∥₁ }
        requires function { IsFunction self.now.types.now self.now.func }
        requires kinds { KindsFit (function_type self.now.types.now self.now.func) flats.now }
        requires limited { length memory.old < 4294967296 }
        ensures values { IfOk result (λ vs. Denotes max_flat_params
            (function_type self.now.types.now self.now.func).params memory.old
            (argument_flats (function_type self.now.types.now self.now.func) flats.now) (map value_of vs.items)) }
        ensures typed { IfOk result (λ vs. HaveTypes (map value_of vs.items)
            (function_type self.now.types.now self.now.func).params) }
        ensures fault { IfErr result (LiftFails (function_type self.now.types.now self.now.func).params memory.old
            (argument_flats (function_type self.now.types.now self.now.func) flats.now)) }
        ensures same { memory.new ≡ memory.old }
    {
        let Ok(params) = parameter_types(self.alloc, self.types, self.func) else {
            return Err(Fault::NoMemory);
        };
        let count = self.types.layouts().lifted_count(self.func);
        let guest = Lent::new(memory, &[]);
        lift_params(
            self.alloc,
            self.types,
            params.as_slice(),
            &flats[..count],
            &guest,
        )
    }
}
