//! Core values of C that cross as they are.
ghost use Rattle.std.specs.Prelude.{◌≡◌, ◌≤◌, length, map, IsTrue};
ghost use Rattle.canonical_abi.specs.Types.{result_fields};
ghost use Rattle.tables.specs.Closed.{IsFunction, function_type};
ghost use Rattle.values.specs.Members.{fields_of_types, AreAllInside};
ghost use Rattle.adapter.specs.Plain.{AreOwn, PassAsTheyAre};
ghost use Rattle.host_calls.specs.Values.{flat_of};

use crate::value::Value;
use adapter::{is_own_of, is_plain_result};
use lift_lower::Types;
use tables::{FunctionId, Parameter};

/// Whether these core values, one for each parameter, are the very ones that carry what they stand for.
#[inline(always)]
fn are_own(types: &Types, params: &[Parameter], values: &[Value]) -> bool
    requires { AreAllInside types.now (map (λ p. p.ty) params.now) }
    ensures { IsTrue result → AreOwn (fields_of_types types.now (map (λ p. p.ty) params.now))
        (map flat_of values.now) }
{
    if values.len() != params.len() {
        return false;
    }
    for (i, parameter) in params.iter().enumerate() {
        if !is_own_of(types, parameter.ty, values[i].flat()) {
            return false;
        }
    }
    true
}

/// Whether a call's core values are those of the function's signature, and cross as they are.
#[inline(always)]
pub(crate) fn are_plain(types: &Types, func: FunctionId, values: &[Value]) -> bool
    requires { IsFunction types.now func }
    ensures { IsTrue result → PassAsTheyAre (function_type types.now func) (map flat_of values.now) }
{
    if values.len() > 16 {
        return false;
    }
    if !is_plain_result(types, func) {
        return false;
    }
    are_own(
        types,
        types.resolve().signature(func).params.as_slice(),
        values,
    )
}

/// Whether what a core function answered is of its signature, and crosses as it is.
#[inline(always)]
pub(crate) fn is_plain_answer(types: &Types, func: FunctionId, answer: &[Value]) -> bool
    requires { IsFunction types.now func }
    ensures own { IsTrue result → AreOwn (result_fields (function_type types.now func).result)
        (map flat_of answer.now) }
    ensures few { IsTrue result → length answer.now ≤ 1 }
{
    match answer {
        [] => adapter::is_plain_answer(types, func, &[]),
        [value] => adapter::is_plain_answer(types, func, &[value.flat()]),
        _ => false,
    }
}
