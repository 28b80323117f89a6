//! The types of a function's parameters and of its result.
ghost use Rattle.std.specs.Prelude.{◌≡◌, ◌≤◌, Some, map, option_to_list, IfOk, IfSome};
ghost use Rattle.canonical_abi.specs.Types.{record_type, result_fields};
ghost use Rattle.canonical_abi.specs.Layout.{size};
ghost use Rattle.layout.specs.Layout.{AreWithin};
ghost use Rattle.values.specs.Members.{fields_of_types, AreTypesOf};
ghost use Rattle.values.specs.Types.{IsInside};
ghost use Rattle.tables.specs.Closed.{IsFunction, function_at, function_type};
ghost use Rattle.tables.specs.Standard.{IsTypeOf};
ghost use Rattle.tables.specs.declared.tables.Function.{Function};
ghost use Rattle.adapter.specs.Signature.{function_signature};

use lift_lower::Types;
use std::alloc::{AllocError, Global};
use tables::{FunctionId, Parameter, Resolve, ValType};

/// The types of a function's parameters, in their order.
pub fn parameter_types(
    alloc: Global,
    table: &Types,
    func: FunctionId,
) -> Result<Vec<ValType>, AllocError>
    requires function { IsFunction table.now func }
    requires within { ∥ AreWithin table.now ∥₁ }
    ensures types { IfOk result (λ types. (function_type table.now func).params
        ≡ fields_of_types table.now types.items) }
    ensures named { IfOk result (λ types. (f : Function) → function_at table.now func ≡ Some f
        → types.items ≡ map (λ p. p.ty) f.params) }
    ensures known { IfOk result (λ types. AreTypesOf table.now types.items) }
    ensures small { IfOk result (λ types. size (record_type (fields_of_types table.now types.items)) ≤ 16777216) }
{
    types_of(alloc, table.resolve().signature(func).params.as_slice())
}

fn types_of(alloc: Global, params: &[Parameter]) -> Result<Vec<ValType>, AllocError>
    ensures { IfOk result (λ types. types.items ≡ map (λ p. p.ty) params.now) }
{
    let mut types = Vec::new(alloc);
    for parameter in params {
        types.push(parameter.ty)?;
    }
    Ok(types)
}

/// The type of a function's result, if it has one.
pub fn result_type(resolve: &Resolve, func: FunctionId) -> Option<ValType>
    requires { IsFunction resolve.now func }
    ensures ty { result ≡ (function_signature (function_at resolve.now func)).result }
    ensures known { IfSome result (IsTypeOf resolve.now) }
    ensures inside { IfSome result (IsInside resolve.now) }
    ensures all_known { AreTypesOf resolve.now (option_to_list result) }
    ensures fields { fields_of_types resolve.now (option_to_list result)
        ≡ result_fields (function_type resolve.now func).result }
{
    resolve.signature(func).result
}
