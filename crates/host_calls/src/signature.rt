//! The core signatures of a function, as C is told them.
ghost use Rattle.std.specs.Prelude.{◌≡◌};
ghost use Rattle.canonical_abi.specs.Layout.{lifted_signature, lowered_signature};
ghost use Rattle.tables.specs.Closed.{IsFunction, function_type};
ghost use Rattle.layout.specs.Layout.{results_of};
ghost use Rattle.host_calls.specs.Signatures.{number_of_kind, KindsDone};

use crate::error::CallError;
use canonical_abi::CoreKind;
use lift_lower::Types;
use tables::FunctionId;

/// A kind as C has it.
fn kind_number(kind: CoreKind) -> u32
    ensures { result ≡ number_of_kind kind }
{
    match kind {
        CoreKind::I32 => 0,
        CoreKind::I64 => 1,
    }
}

/// Tells these kinds at the front of an array: 71 where it has no room for them.
fn tell_kinds(kinds: &[CoreKind], out: &mut [u32]) -> Result<usize, CallError>
    ensures { KindsDone kinds.now out.old result out.new }
{
    if out.len() < kinds.len() {
        return Err(CallError::NoRoom(kinds.len()));
    }
    for (place, kind) in kinds.iter().enumerate() {
        out[place] = kind_number(*kind);
    }
    Ok(kinds.len())
}

/// Tells the kind of a result, if there is one.
fn tell_result(kind: Option<CoreKind>, out: &mut [u32]) -> Result<usize, CallError>
    ensures { KindsDone (results_of kind) out.old result out.new }
{
    match kind {
        Some(kind) => tell_kinds(&[kind], out),
        None => tell_kinds(&[], out),
    }
}

/// The kinds of the parameters of the callee's core function.
pub fn lifted_params(types: &Types, func: FunctionId, out: &mut [u32]) -> Result<usize, CallError>
    requires function { IsFunction types.now func }
    ensures { KindsDone (lifted_signature (function_type types.now func)).params out.old result out.new }
{
    tell_kinds(types.layouts().lifted(func).params.as_slice(), out)
}

/// The kind of its result, if it has one.
pub fn lifted_result(types: &Types, func: FunctionId, out: &mut [u32]) -> Result<usize, CallError>
    requires function { IsFunction types.now func }
    ensures { KindsDone (lifted_signature (function_type types.now func)).results out.old result out.new }
{
    tell_result(types.layouts().lifted(func).result, out)
}

/// The kinds of the parameters of the caller's import.
pub fn lowered_params(types: &Types, func: FunctionId, out: &mut [u32]) -> Result<usize, CallError>
    requires function { IsFunction types.now func }
    ensures { KindsDone (lowered_signature (function_type types.now func)).params out.old result out.new }
{
    tell_kinds(types.layouts().lowered(func).params.as_slice(), out)
}

/// The kind of its result, if it has one.
pub fn lowered_result(types: &Types, func: FunctionId, out: &mut [u32]) -> Result<usize, CallError>
    requires function { IsFunction types.now func }
    ensures { KindsDone (lowered_signature (function_type types.now func)).results out.old result out.new }
{
    tell_result(types.layouts().lowered(func).result, out)
}
