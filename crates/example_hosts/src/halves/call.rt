//! One call: its steps, and what it promises.
ghost use Rattle.std.specs.Prelude.{◌≡◌, ◌<◌, length};
ghost use Rattle.layout.specs.Layout.{AreWithin};
ghost use Rattle.tables.specs.Closed.{IsFunction, function_type};
ghost use Rattle.example_hosts.specs.Promise.{MakesCall};

use crate::halves::core_function::CoreFunction;
use crate::halves::steps::{enter, leave};
use adapter::Invocation;
use canonical_abi::laws::halves_keep_promise;
use canonical_abi::{Fault, Step, Trap, TrapKind};
use host_calls::HalfError;
use lift_lower::{Flats, Types};
use memory::Lent;
use std::alloc::Global;
use tables::laws::types_are_standard;

/// The trap of a core function, or of a post-return, that stopped.
fn stopped(step: Step) -> HalfError
    ensures { result ≡ HalfError.Fault (Fault.Trap (record { kind = TrapKind.Body; step = step })) }
{
    HalfError::Fault(Fault::Trap(Trap {
        kind: TrapKind::Body,
        step,
    }))
}

/// Calls a function of the package, whose core function the host runs itself.
///
/// If it answers, the core function made one run, on flat values that denote exactly the caller's arguments in the
/// callee's memory. Post-return made one run after it, and the caller holds exactly what the core function answered.
/// Otherwise the call ended at the step of the fault, and no later step took place.
///
/// Each allocator changes its own four bytes. Beside these no byte of the callee is changed before the run but in
/// blocks that were granted, and no byte of the caller at any time but in such blocks and in the return area.
pub fn call<F: CoreFunction>(
    alloc: Global,
    types: &Types,
    invocation: &Invocation<'_>,
    caller: &mut [u8],
    callee: &mut [u8],
    core: &F,
) -> Result<Flats, HalfError>
    requires within { ∥ AreWithin types.now ∥₁ }
    requires function { IsFunction types.now invocation.now.func }
    requires short { length caller.old < 4294967296 }
    requires limited { length callee.old < 4294967296 }
    ensures promise { MakesCall (F.runs core.now) (F.posts core.now) (function_type types.now invocation.now.func)
        invocation.now.flats.now
        caller.old callee.old result caller.new callee.new }
{
    // The laws that the promise rests on.
    types_are_standard(types.resolve());
    halves_keep_promise::<Lent, Lent, F>(core);
    let handed = enter(alloc, types, invocation, caller, callee)?;
    let arguments = handed.as_slice();
    let Ok(answer) = core.run(callee, arguments) else {
        return Err(stopped(Step::Body));
    };
    let answer = answer.as_slice();
    let given = leave(alloc, types, invocation, answer, callee, caller)?;
    let Ok(()) = core.post_return(callee, answer) else {
        return Err(stopped(Step::Post));
    };
    Ok(given)
}
