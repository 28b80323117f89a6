//! The first step of each half: which blocks it will need.
ghost use Rattle.std.specs.Prelude.{◌≡◌, ◌<◌, IfOk, IfErr, length};
ghost use Rattle.adapter.specs.Asking.{IsToldAhead};
ghost use Rattle.canonical_abi.specs.Flat.{Denotes, DenotesFault};
ghost use Rattle.canonical_abi.specs.Halves.{source};
ghost use Rattle.canonical_abi.specs.Headline.{AreArguments, IsArgumentFault};
ghost use Rattle.canonical_abi.specs.Layout.{max_flat_params, max_flat_results};
ghost use Rattle.canonical_abi.specs.Requests.{params_requests, fields_requests};
ghost use Rattle.canonical_abi.specs.Types.{result_fields};
ghost use Rattle.canonical_abi.specs.declared.trap.Step.TheVariants.{LiftArgs, LiftResult};
ghost use Rattle.adapter.specs.Asked.{IsUnasked};
ghost use Rattle.layout.specs.Layout.{AreWithin};
ghost use Rattle.tables.specs.Closed.{IsFunction, function_type};

use adapter::{Invocation, Link, Request, Unasked};
use canonical_abi::Flat;
use lift_lower::Types;
use memory::Lent;
use tables::FunctionId;

/// Tells in `slots` what the first half will ask the callee for, in its order, as many requests as there is room for,
/// and answers how many there are in all. If the flat values denote no arguments, it answers the fault, and 76 if they
/// ask for more than `limit` bytes.
pub fn request_arguments(
    types: &Types,
    invocation: &Invocation<'_>,
    caller: &mut [u8],
    slots: &mut [Request],
    limit: u64,
) -> Result<usize, Unasked>
    requires within { ∥ AreWithin types.now ∥₁ }
    requires function { IsFunction types.now invocation.now.func }
    requires short { length caller.old < 4294967296 }
    ensures told { let f = function_type types.now invocation.now.func in
        IfOk result (IsToldAhead (AreArguments f invocation.now.flats.now (source caller.old))
        (params_requests max_flat_params f.params) limit slots.old slots.new) }
    ensures fault { let f = function_type types.now invocation.now.func in
        IfErr result (IsUnasked LiftArgs (AreArguments f invocation.now.flats.now (source caller.old))
        (IsArgumentFault f invocation.now.flats.now (source caller.old)) (params_requests max_flat_params f.params)
        limit) }
    ensures same_caller { caller.new ≡ caller.old }
{
    let lent = Lent::new(caller, &[]);
    let mut link = Link::new(types.resolve(), types.layouts());
    link.enter_requests(invocation.func, invocation.flats, &lent, slots, limit)
}

/// The same of the second half, which asks the caller for what the core function's answer needs.
pub fn request_answer(
    types: &Types,
    func: FunctionId,
    answer: &[Flat],
    callee: &mut [u8],
    slots: &mut [Request],
    limit: u64,
) -> Result<usize, Unasked>
    requires within { ∥ AreWithin types.now ∥₁ }
    requires function { IsFunction types.now func }
    requires short { length callee.old < 4294967296 }
    ensures told { let fs = result_fields (function_type types.now func).result in
        IfOk result (IsToldAhead (Denotes max_flat_results fs callee.old answer.now) (fields_requests fs) limit
        slots.old slots.new) }
    ensures fault { let fs = result_fields (function_type types.now func).result in
        IfErr result (IsUnasked LiftResult (Denotes max_flat_results fs callee.old answer.now)
        (DenotesFault max_flat_results fs callee.old answer.now) (fields_requests fs) limit) }
    ensures same_callee { callee.new ≡ callee.old }
{
    let lent = Lent::new(callee, &[]);
    let mut link = Link::new(types.resolve(), types.layouts());
    link.leave_requests(func, answer, &lent, slots, limit)
}
