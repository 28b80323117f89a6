//! Texts of JSON, and the values that they say, both ways.

ghost use Rattle.std.specs.Prelude.{◌≡◌, None, Some, IfOk, IfErr, IsErrOf, string_bytes, map};
ghost use Rattle.serde_json.specs.Read.{read as read_text};
ghost use Rattle.serde_json.specs.View.{view};
ghost use Rattle.canonical_abi.specs.Values.{HasType, HaveTypes};
ghost use Rattle.tables.specs.Closed.{IsFunction, closed_type, function_at, function_type};
ghost use Rattle.tables.specs.Standard.{IsTypeOf};
ghost use Rattle.values.specs.Members.{fields_of_types, AreTypesOf};
ghost use Rattle.values.specs.Val.{value_of};
ghost use Rattle.adapter.specs.Signature.{function_signature};
ghost use Rattle.package_values.specs.Json.{IsTextOf, IsTextOfNone, IsTextOfOnly, IsCompactTextOf, IsArrayTextOf};
ghost use Rattle.package_values.specs.Json.{RefusesArray};

use crate::laws::has_labels_apart;
use adapter::parameter_types;
use error_numbers::Numbered;
use lift_lower::Val;
use opening::Package;
use serde_json::Value as Json;
use std::alloc::{AllocError, AllocFailed, Global};
use tables::{FunctionId, ValType};
use thiserror::Error;
use value_json::{
    JsonError as ValueError, has_one_value, json_of_value, value_of_json, values_of_json,
};

/// Why a text says no value of a type.
#[derive(Clone, Copy, Debug, PartialEq, Eq, Error)]
pub enum JsonError {
    /// The text is no JSON, or nests deeper than 127.
    #[error("error 61 bad JSON")]
    BadJson,
    /// The JSON value stands for no value of the type.
    #[error("error 62 not this type")]
    NotThisType,
    #[error("error 66 no memory")]
    NoMemory,
}

impl From<AllocError> for JsonError {
    ghost use Rattle.std.specs.Prelude.{◌≡◌};
    ghost use Rattle.package_values.specs.declared.json.JsonError.TheVariants.{NoMemory};

    ghost from_gives = { λ _ e. e ≡ NoMemory };

    fn from(_error: AllocError) -> JsonError {
        JsonError::NoMemory
    }
}

impl<T: Drop> From<AllocFailed<T>> for JsonError {
    ghost use Rattle.std.specs.Prelude.{◌≡◌};
    ghost use Rattle.package_values.specs.declared.json.JsonError.TheVariants.{NoMemory};

    ghost from_gives = { λ _ e. e ≡ NoMemory };

    fn from(_error: AllocFailed<T>) -> JsonError {
        JsonError::NoMemory
    }
}

/// 61, 62 or 66.
impl Numbered for JsonError {
    ghost use Rattle.package_values.specs.Numbers.{json_number};

    ghost number_of = { json_number };

    fn number(&self) -> u32 {
        match self {
            JsonError::BadJson => 61,
            JsonError::NotThisType => 62,
            JsonError::NoMemory => 66,
        }
    }
}

/// The value of a type of the package that a text of JSON says.
pub fn from_json(
    alloc: Global,
    package: &Package,
    ty: ValType,
    text: &str,
) -> Result<Val, JsonError>
    requires { IsTypeOf «package».now.resolve ty }
    ensures ok { IfOk result (λ v. IsTextOf «package».now.resolve ty text.now (value_of v)) }
    ensures typed { IfOk result (λ v. HasType (value_of v) (closed_type «package».now.resolve ty)) }
    ensures bad { IsErrOf result JsonError.BadJson → read_text text.now ≡ None }
    ensures other { IsErrOf result JsonError.NotThisType → IsTextOfNone «package».now.resolve ty text.now }
{
    let json = read_json(alloc, text)?;
    has_labels_apart(package);
    match value_of_json(alloc, package.resolve(), ty, &json) {
        Ok(value) => Ok(value),
        Err(ValueError::NotThisType) => Err(JsonError::NotThisType),
        Err(ValueError::NoMemory) => Err(JsonError::NoMemory),
    }
}

/// The values of these types that a text of JSON says: an array of exactly as many. 61 if the text is no JSON, 62 if it
/// is no such array.
pub fn values_from_json(
    alloc: Global,
    package: &Package,
    types: &[ValType],
    text: &str,
) -> Result<Vec<Val>, JsonError>
    requires { AreTypesOf «package».now.resolve types.now }
    ensures ok { IfOk result (λ vs. IsArrayTextOf «package».now.resolve types.now text.now (map value_of vs.items)) }
    ensures typed { IfOk result (λ vs. HaveTypes (map value_of vs.items)
        (fields_of_types «package».now.resolve types.now)) }
    ensures err { IfErr result (RefusesArray «package».now.resolve types.now text.now) }
{
    let json = read_json(alloc, text)?;
    has_labels_apart(package);
    match values_of_json(alloc, package.resolve(), types, &json) {
        Ok(values) => Ok(values),
        Err(ValueError::NotThisType) => Err(JsonError::NotThisType),
        Err(ValueError::NoMemory) => Err(JsonError::NoMemory),
    }
}

/// The arguments of a function of the package that a text of JSON says: an array of one value for each parameter, in
/// their order.
pub fn arguments_from_json(
    alloc: Global,
    package: &Package,
    func: FunctionId,
    text: &str,
) -> Result<Vec<Val>, JsonError>
    requires { IsFunction «package».now.resolve func }
    ensures ok { IfOk result (λ vs. IsArrayTextOf «package».now.resolve
        (function_signature (function_at «package».now.resolve func)).params
        text.now (map value_of vs.items)) }
    ensures typed { IfOk result (λ vs. HaveTypes (map value_of vs.items)
        (function_type «package».now.resolve func).params) }
    ensures err { IfErr result (RefusesArray «package».now.resolve
        (function_signature (function_at «package».now.resolve func)).params text.now) }
{
    let types = parameter_types(alloc, &package.types(), func)?;
    values_from_json(alloc, package, types.as_slice(), text)
}

/// The JSON value that a text says.
fn read_json(alloc: Global, text: &str) -> Result<Json, JsonError>
    ensures ok { IfOk result (λ json. read_text text.now ≡ Some (view json)) }
    ensures bad { IsErrOf result JsonError.BadJson → read_text text.now ≡ None }
    ensures other { IsErrOf result JsonError.NotThisType → ⊥ }
{
    match Json::from_str(alloc, text) {
        Ok(json) => Ok(json),
        Err(error) => {
            if error.is_memory() {
                Err(JsonError::NoMemory)
            } else {
                Err(JsonError::BadJson)
            }
        }
    }
}

/// The compact text of a value of a type of the package. What is written is read back as the same value.
pub fn to_json(
    alloc: Global,
    package: &Package,
    ty: ValType,
    value: &Val,
) -> Result<String, AllocError>
    requires known { IsTypeOf «package».now.resolve ty }
    requires typed { HasType (value_of value.now) (closed_type «package».now.resolve ty) }
    ensures written { IfOk result (λ text. IsCompactTextOf «package».now.resolve ty (value_of value.now)
        (string_bytes text)) }
    ensures read_back { IfOk result (λ text. IsTextOfOnly «package».now.resolve ty (string_bytes text)
        (value_of value.now)) }
{
    has_labels_apart(package);
    has_one_value();
    let json = json_of_value(alloc, package.resolve(), ty, value)?;
    let text = json.to_string(alloc)?;
    Ok(text)
}
