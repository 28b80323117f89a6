//! The first way of a call: the arguments, from the caller into the callee.
ghost use Rattle.std.specs.Prelude.{◌≡◌, ◌^◌, ◌<◌, ◌≤◌, min, [], length, OnOk, IfErr};
ghost use Rattle.canonical_abi.specs.Halves.{HasEntered, EntryFails};
ghost use Rattle.tables.specs.Closed.{IsFunction, function_type};

use crate::fault::{fault_of, trap};
use crate::invocation::Invocation;
use arrayvec::ArrayVec;
use canonical_abi::{Fault, Flat, Guest, Step, TrapKind};
use crossing::{Parameters, Walk};
use tables::{TypeId, ValType};

/// Puts the arguments, as the walk's source holds them, into the callee: the flat values that carry them there into
/// `handed`, which was empty, and in `nodes` how many nodes were visited, those up to the fault if there was
/// one. The kinds of all flat values come first. Takes no memory of the host.
pub(crate) fn pass_arguments<E: Guest, const N: usize>(
    walk: &Walk,
    call: &Invocation,
    callee: &mut E,
    handed: &mut ArrayVec<Flat, N>,
    nodes: &mut u64,
) -> Result<(), Fault>
    requires function { IsFunction walk.now.types.now call.now.func }
    requires short { length walk.now.source.now < 2 ^ 32 }
    requires capacity { N ≤ 17 }
    requires room { min 17 (length call.now.flats.now) ≤ N }
    requires empty { handed.old.items ≡ [] }
    requires fresh { nodes.old ≡ 0 }
    ensures entered { OnOk result (HasEntered E.allocates (function_type walk.now.types.now call.now.func)
        call.now.flats.now walk.now.source.now
        (E.memory callee.old) handed.new.items (E.memory callee.new) nodes.new) }
    ensures fault { IfErr result (λ fault. EntryFails E.allocates (function_type walk.now.types.now call.now.func)
        call.now.flats.now walk.now.source.now
        (E.memory callee.old) fault (E.memory callee.new) nodes.new) }
{
    let layouts = walk.types.layouts();
    if !layouts.takes(call.func, call.flats) {
        return Err(trap(TrapKind::CoreSignature, Step::LiftArgs));
    }
    let count = layouts.lifted_count(call.func);
    let flats = &call.flats[..count];
    // A function's row is the record of its parameters.
    let params = &Parameters {
        row: ValType::Id(TypeId(call.func.0)),
        each: walk.types.resolve().signature(call.func).params.as_slice(),
    };
    let crossed = walk.cross_params(params, flats, callee, handed, nodes);
    // A count is a number of 64 bits.
    let _count = *nodes;
    // A memory's length is a number of 32 bits.
    let _len = callee.len();
    match crossed {
        Ok(()) => Ok(()),
        Err(stopped) => Err(fault_of(stopped, Step::LiftArgs, Step::LowerArgs)),
    }
}
