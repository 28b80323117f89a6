//! What the two ways of a call will ask their targets for.
ghost use Rattle.std.specs.Prelude.{◌≡◌, ◌+◌, ◌*◌, ◌≤◌, map, IfOk, IfErr};
ghost use Rattle.adapter.specs.Asking.{IsToldAhead};
ghost use Rattle.canonical_abi.specs.Call.{KindsFit};
ghost use Rattle.canonical_abi.specs.Flat.{Denotes, DenotesFault};
ghost use Rattle.canonical_abi.specs.Headline.{AreArguments, IsArgumentFault};
ghost use Rattle.canonical_abi.specs.Layout.{lifted_signature, max_flat_params, max_flat_results, size};
ghost use Rattle.canonical_abi.specs.Reading.{kind_of};
ghost use Rattle.canonical_abi.specs.Requests.{params_requests, fields_requests};
ghost use Rattle.canonical_abi.specs.Types.{record_type, result_fields};
ghost use Rattle.canonical_abi.specs.declared.trap.Step.TheVariants.{LiftArgs, LiftResult};
ghost use Rattle.layout.specs.Layout.{AreWithin};
ghost use Rattle.tables.specs.Closed.{IsFunction, function_type};
ghost use Rattle.adapter.specs.Ahead.{arguments_asked, result_asked, HalfTellsLimit};
ghost use Rattle.adapter.specs.Asked.{IsUnasked, unasked_in};

use crate::asking::{Request, Untold, Walk};
use crate::fault::trap;
use canonical_abi::{Fault, Flat, Guest, Step, TrapKind};
use lift_lower::{Types, are_kinds};
use tables::{FunctionId, TypeId, ValType};

/// Why the requests of a half aren't listed: a trap, or they ask for more bytes than the limit.
#[derive(Clone, Copy, Debug, PartialEq, Eq)]
pub enum Unasked {
    Fault(Fault),
    AboveLimit,
}

/// The same of a half whose source is read in this step.
fn unasked_of(untold: Untold, step: Step) -> Unasked
    ensures { result ≡ unasked_in step untold }
{
    match untold {
        Untold::Fault(kind) => Unasked::Fault(trap(kind, step)),
        Untold::AboveLimit => Unasked::AboveLimit,
    }
}

/// Lists what the arguments will ask the callee for. The kinds of all flat values come first.
pub(crate) fn ask_arguments<C: Guest>(
    table: &Types,
    func: FunctionId,
    flats: &[Flat],
    caller: &C,
    slots: &mut [Request],
    limit: u64,
    nodes: &mut u64,
) -> Result<usize, Unasked>
    requires function { IsFunction table.now func }
    ensures kinds { IfOk result (λ _. KindsFit (function_type table.now func) flats.now) }
    ensures told { let f = function_type table.now func in
        IfOk result (IsToldAhead (AreArguments f flats.now (C.memory caller.now))
        (params_requests max_flat_params f.params) limit slots.old slots.new) }
    ensures fault { let f = function_type table.now func in
        IfErr result (IsUnasked LiftArgs (AreArguments f flats.now (C.memory caller.now))
        (IsArgumentFault f flats.now (C.memory caller.now)) (params_requests max_flat_params f.params) limit) }
    ensures limit { let f = function_type table.now func in
        KindsFit f flats.now → HalfTellsLimit (arguments_asked f flats.now (C.memory caller.now).bytes) limit result }
    ensures few { ∥ AreWithin table.now ∥₁ → nodes.new ≤ 64 * (limit + 16) }
    ensures each { IfOk result (λ count. count ≤ nodes.new + 1) }
{
    *nodes = 0;
    let layouts = table.layouts();
    if !layouts.takes(func, flats) {
        return Err(Unasked::Fault(trap(TrapKind::CoreSignature, Step::LiftArgs)));
    }
    let count = layouts.lifted_count(func);
    // A memory's length is a number of 32 bits.
    let _len = caller.len();
    // A function's row is the record of its parameters.
    let params = ValType::Id(TypeId(func.0));
    let walk = Walk {
        types: table,
        source: caller.bytes(),
    };
    match walk.ask_params(params, &flats[..count], slots, limit, nodes) {
        Ok(told) => Ok(told),
        Err(untold) => Err(unasked_of(untold, Step::LiftArgs)),
    }
}

/// Lists what the answer will ask the caller for. The kinds of its flat values come first.
pub(crate) fn ask_answer<E: Guest>(
    table: &Types,
    func: FunctionId,
    answer: &[Flat],
    callee: &E,
    slots: &mut [Request],
    limit: u64,
    nodes: &mut u64,
) -> Result<usize, Unasked>
    requires within { ∥ AreWithin table.now ∥₁ }
    requires function { IsFunction table.now func }
    ensures told { let fs = result_fields (function_type table.now func).result in
        IfOk result (IsToldAhead (Denotes max_flat_results fs (E.memory callee.now).bytes answer.now)
        (fields_requests fs) limit slots.old slots.new) }
    ensures fault { let fs = result_fields (function_type table.now func).result in
        IfErr result (IsUnasked LiftResult (Denotes max_flat_results fs (E.memory callee.now).bytes answer.now)
        (DenotesFault max_flat_results fs (E.memory callee.now).bytes answer.now) (fields_requests fs) limit) }
    ensures limit { let f = function_type table.now func in
        map kind_of answer.now ≡ (lifted_signature f).results
        → HalfTellsLimit (result_asked (result_fields f.result) (E.memory callee.now).bytes answer.now) limit result }
    ensures few { let f = function_type table.now func in nodes.new
        ≤ 64 * (limit + size (record_type (result_fields f.result)) + 16) }
    ensures each { IfOk result (λ count. count ≤ nodes.new) }
{
    *nodes = 0;
    let result = table.layouts().lifted_result(func);
    if !are_kinds(result.as_slice(), answer) {
        return Err(Unasked::Fault(trap(TrapKind::CoreSignature, Step::LiftResult)));
    }
    // A memory's length is a number of 32 bits.
    let _len = callee.len();
    let types = table.resolve().signature(func).result.as_slice();
    let walk = Walk {
        types: table,
        source: callee.bytes(),
    };
    match walk.ask_result(types, answer, slots, limit, nodes) {
        Ok(told) => Ok(told),
        Err(untold) => Err(unasked_of(untold, Step::LiftResult)),
    }
}
