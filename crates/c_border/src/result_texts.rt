//! The result of a function, as a text of JSON that a host says.
ghost use Rattle.std.specs.Prelude.{option_to_list, IfOk, IfErr};
ghost use Rattle.std.specs.Option.{option_map};
ghost use Rattle.canonical_abi.specs.Types.{result_fields};
ghost use Rattle.canonical_abi.specs.Values.{HaveTypes};
ghost use Rattle.tables.specs.Closed.{IsFunction, function_type};
ghost use Rattle.values.specs.Val.{value_of};
ghost use Rattle.c_border.specs.Imports.{IsTextOfResult, RefusesResult, result_of};

use adapter::result_type;
use lift_lower::Val;
use opening::Package;
use package_values::{JsonError, from_json};
use std::alloc::Global;
use tables::FunctionId;

/// The value of a function's result that a text says. If the function has no result, the text has no bytes, and any
/// other is 62.
pub(crate) fn result_from_json(
    alloc: Global,
    package: &Package,
    func: FunctionId,
    text: &str,
) -> Result<Option<Val>, JsonError>
    requires { IsFunction «package».now.resolve func }
    ensures ok { IfOk result (λ v. IsTextOfResult «package».now.resolve (result_of «package».now.resolve func) text.now
        (option_to_list (option_map value_of v))) }
    ensures typed { IfOk result (λ v. HaveTypes (option_to_list (option_map value_of v))
        (result_fields (function_type «package».now.resolve func).result)) }
    ensures err { IfErr result (RefusesResult «package».now.resolve (result_of «package».now.resolve func) text.now) }
{
    let Some(ty) = result_type(package.resolve(), func) else {
        if text.is_empty() {
            return Ok(None);
        }
        return Err(JsonError::NotThisType);
    };
    match from_json(alloc, package, ty, text) {
        Ok(value) => Ok(Some(value)),
        Err(error) => Err(error),
    }
}
