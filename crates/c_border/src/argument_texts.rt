//! Arguments as one text of JSON.
ghost use Rattle.std.specs.Prelude.{map, string_bytes, IfOk};
ghost use Rattle.canonical_abi.specs.Values.{HaveTypes};
ghost use Rattle.serde_json.specs.View.{view};
ghost use Rattle.tables.specs.Closed.{IsFunction, function_type};
ghost use Rattle.tables.specs.Labelled.{labelled_members, labelled_types};
ghost use Rattle.value_json.specs.Apart.{HasApartLabels};
ghost use Rattle.value_json.specs.Json.{MembersJson};
ghost use Rattle.values.specs.Members.{AreTypesOf, fields_of_types};
ghost use Rattle.values.specs.Val.{value_of};
ghost use Rattle.c_border.specs.Imports.{AreArgumentsText};
ghost use Rattle.c_border.specs.Json.{parameters_of};

use adapter::parameter_types;
use lift_lower::Val;
use opening::Package;
use package_values::laws::has_labels_apart;
use serde_json::Value as Json;
use std::alloc::{AllocError, Global};
use tables::{FunctionId, Resolve, ValType};
use value_json::{has_one_value, json_of_value};

/// The compact text of a function's arguments, an array of one value for each parameter. What is written is read back
/// as the same values.
pub(crate) fn arguments_text(
    alloc: Global,
    package: &Package,
    func: FunctionId,
    values: &[Val],
) -> Result<String, AllocError>
    requires function { IsFunction «package».now.resolve func }
    requires typed { HaveTypes (map value_of values.now) (function_type «package».now.resolve func).params }
    ensures { IfOk result (λ text. AreArgumentsText «package».now.resolve (parameters_of «package».now.resolve func)
        (map value_of values.now) (string_bytes text)) }
{
    let types = parameter_types(alloc, &package.types(), func)?;
    has_labels_apart(package);
    has_one_value();
    let items = items_of(alloc, package.resolve(), types.as_slice(), values)?;
    let json = Json::Array(items);
    let text = json.to_string(alloc)?;
    Ok(text)
}

/// The JSON values of values, each of its type.
fn items_of(
    alloc: Global,
    resolve: &Resolve,
    types: &[ValType],
    values: &[Val],
) -> Result<Vec<Json>, AllocError>
    requires known { AreTypesOf resolve.now types.now }
    requires labels { HasApartLabels resolve.now }
    requires typed { HaveTypes (map value_of values.now) (fields_of_types resolve.now types.now) }
    ensures { IfOk result (λ items. MembersJson (labelled_members (labelled_types resolve.now) types.now)
        (map value_of values.now) (map view items.items)) }
{
    let mut items = Vec::new(alloc);
    for (i, value) in values.iter().enumerate() {
        items.push(json_of_value(alloc, resolve, types[i], value)?)?;
    }
    Ok(items)
}
