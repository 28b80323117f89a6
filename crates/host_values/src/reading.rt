//! Values read from a memory that a host keeps.
ghost use Rattle.std.specs.Prelude.{◌≡◌, ◌<◌, map, length, option_to_list, IfOk, IfErr};
ghost use Rattle.canonical_abi.specs.Flat.{Denotes};
ghost use Rattle.canonical_abi.specs.Layout.{max_flat_results};
ghost use Rattle.std.specs.Option.{option_map};
ghost use Rattle.canonical_abi.specs.Types.{result_fields};
ghost use Rattle.canonical_abi.specs.Values.{HaveTypes};
ghost use Rattle.layout.specs.Layout.{AreWithin};
ghost use Rattle.tables.specs.Closed.{IsFunction, function_type};
ghost use Rattle.values.specs.Val.{value_of};
ghost use Rattle.host_values.specs.Reading.{IsReadResult, IsResultFault, AsksWithin, ResultIsNotRead};

use canonical_abi::{Fault, Flat};
use host_calls::{CallError, Value, leave_requests, put_flats};
use lift_lower::{Flats, Types, Val, lift_result};
use memory::Lent;
use std::alloc::Global;
use tables::FunctionId;

/// What values are read as: those of a function.
#[derive(Clone, Copy)]
pub struct Reading<'a> {
    /// The host's allocator, which holds the values.
    pub alloc: Global,
    pub types: &'a Types<'a>,
    pub func: FunctionId,
    /// The most bytes that the values may ask for, as if they crossed into another memory.
    pub limit: u64,
}

impl Reading<'_> {
    /// The value of the function's result that the core values of an answer say, in the memory of the component that
    /// answered; none where it has no result. K8 in `lift-result` if the core values are of another number or kind; 72
    /// if the memory has 2^32 bytes or more; 76 if the value asks for more than the limit; otherwise the trap of the
    /// answer, or 66. The memory is only read.
    pub fn result(&self, answer: &[Value], memory: &mut [u8]) -> Result<Option<Val>, CallError>
        requires within { ∥ AreWithin self.now.types.now ∥₁ }
        requires function { IsFunction self.now.types.now self.now.func }
        ensures value { IfOk result (λ v. IsReadResult (function_type self.now.types.now self.now.func) answer.now
            memory.old
            (option_to_list (option_map value_of v))) }
        ensures typed { IfOk result (λ v. HaveTypes (option_to_list (option_map value_of v))
            (result_fields (function_type self.now.types.now self.now.func).result)) }
        ensures few { IfOk result (λ _. AsksWithin (function_type self.now.types.now self.now.func) answer.now
            memory.old self.now.limit) }
        ensures err { IfErr result (ResultIsNotRead (function_type self.now.types.now self.now.func) answer.now
            memory.old self.now.limit) }
        ensures same { memory.new ≡ memory.old }
    {
        leave_requests(self.types, self.func, answer, memory, &mut [], self.limit)?;
        let mut flats = Flats::new();
        if !put_flats(answer, &mut flats) {
            unreachable!()
        }
        match lift_lent(self.alloc, self.types, self.func, flats.as_slice(), memory) {
            Ok(value) => Ok(value),
            Err(fault) => Err(CallError::Fault(fault)),
        }
    }
}

/// `lift_result` of the function over a memory that is lent, and that is only read.
fn lift_lent(
    alloc: Global,
    types: &Types,
    func: FunctionId,
    flats: &[Flat],
    memory: &mut [u8],
) -> Result<Option<Val>, Fault>
    requires function { IsFunction types.now func }
    requires limited { length memory.old < 4294967296 }
    ensures value { IfOk result (λ v. Denotes max_flat_results (result_fields (function_type types.now func).result)
        memory.old flats.now
        (option_to_list (option_map value_of v))) }
    ensures typed { IfOk result (λ v. HaveTypes (option_to_list (option_map value_of v))
        (result_fields (function_type types.now func).result)) }
    ensures fault { IfErr result (IsResultFault (function_type types.now func) flats.now memory.old) }
    ensures same { memory.new ≡ memory.old }
{
    let ty = types.resolve().signature(func).result;
    let guest = Lent::new(memory, &[]);
    lift_result(alloc, types, ty, flats, &guest)
}
