//! The second way of a call: the result, from the callee into the caller.
ghost use Rattle.std.specs.Prelude.{◌≡◌, ◌^◌, ◌<◌, ◌≤◌, [], length, map, OnOk, IfErr};
ghost use Rattle.canonical_abi.specs.Reading.{low_bits, number_of};
ghost use Rattle.canonical_abi.specs.Call.{KindsFit};
ghost use Rattle.canonical_abi.specs.Halves.{HasReturned, ReturnFails};
ghost use Rattle.layout.specs.Layout.{AreWithin};
ghost use Rattle.tables.specs.Closed.{IsFunction, function_type};

use crate::fault::{fault_of, trap};
use crate::invocation::Invocation;
use arrayvec::ArrayVec;
use canonical_abi::{Fault, Flat, Guest, Step, TrapKind};
use crossing::{Returned, Walk};
use lift_lower::{are_kinds, low_word};

/// Puts the body's answer, as the walk's source holds it, into the caller: the flat values that carry it there into
/// `back`, which was empty, and in `nodes` how many nodes were visited, those up to the fault if there was
/// one. The kinds of the answer come first. Takes no memory of the host.
pub(crate) fn pass_answer<C: Guest, const N: usize>(
    walk: &Walk,
    call: &Invocation,
    answer: &[Flat],
    caller: &mut C,
    back: &mut ArrayVec<Flat, N>,
    nodes: &mut u64,
) -> Result<(), Fault>
    requires within { ∥ AreWithin walk.now.types.now ∥₁ }
    requires function { IsFunction walk.now.types.now call.now.func }
    requires short { length walk.now.source.now < 2 ^ 32 }
    requires capacity { N ≤ 17 }
    requires room { 1 ≤ N }
    requires empty { back.old.items ≡ [] }
    requires fresh { nodes.old ≡ 0 }
    requires kinds { KindsFit (function_type walk.now.types.now call.now.func) call.now.flats.now }
    ensures returned { OnOk result (HasReturned C.allocates (function_type walk.now.types.now call.now.func)
        call.now.flats.now walk.now.source.now answer.now
        (C.memory caller.old) back.new.items (C.memory caller.new) nodes.new) }
    ensures fault { IfErr result (λ fault. ReturnFails C.allocates (function_type walk.now.types.now call.now.func)
        call.now.flats.now walk.now.source.now answer.now
        (C.memory caller.old) fault (C.memory caller.new) nodes.new) }
    ensures no_shorter { OnOk result (length (C.memory caller.old).bytes ≤ length (C.memory caller.new).bytes) }
{
    let layouts = walk.types.layouts();
    if !are_kinds(layouts.lifted_result(call.func).as_slice(), answer) {
        return Err(trap(TrapKind::CoreSignature, Step::LiftResult));
    }
    let returned = Returned {
        flats: answer,
        area: area_in(call.flats, layouts.lifted_count(call.func)),
    };
    let types = walk.types.resolve().signature(call.func).result.as_slice();
    let crossed = walk.cross_result(types, &returned, caller, back, nodes);
    // A count is a number of 64 bits.
    let _count = *nodes;
    // A memory's length is a number of 32 bits.
    let _len = caller.len();
    match crossed {
        Ok(()) => Ok(()),
        Err(stopped) => Err(fault_of(stopped, Step::LiftResult, Step::LowerResult)),
    }
}

/// The address of the return area: the flat value after those of the arguments, 0 if there is none.
#[tactic(auto, unfolding(canonical_abi::specs::Reading::low_bits))]
fn area_in(flats: &[Flat], count: usize) -> u32
    ensures { result ≡ low_bits (map number_of flats.now) count 32 }
{
    if count < flats.len() {
        low_word(flats, count)
    } else {
        0
    }
}
