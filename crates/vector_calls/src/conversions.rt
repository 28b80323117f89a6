//! Values over the caller's memory: lifted from core values or lowered to them, loaded from an address or stored there.

ghost use Rattle.std.specs.Prelude.{◌≤◌, [], ◌∷◌, IfOk};
ghost use Rattle.canonical_abi.specs.Layout.{size};
ghost use Rattle.canonical_abi.specs.Types.{record_type};
ghost use Rattle.tables.specs.Standard.{IsTypeOf};
ghost use Rattle.value_json.specs.Apart.{HasApartLabels};
ghost use Rattle.values.specs.Members.{fields_of_types};
ghost use Rattle.values.specs.Types.{IsInside};

use crate::functions::{parameter_of_row, push_fault};
use crate::vector_sides::{
    Logged, begin_answer, end_answer, field, flats, list, memories_of, number, push_flats,
};
use canonical_abi::{Fault, Flat};
use lift_lower::{Flats, Types, Val, has_type, lift, load, lower, store};
use serde_json::Value;
use std::alloc::Global;
use std::slice;
use tables::ValType;
use text_builder::TextBuilder;
use value_json::{JsonError, json_of_value, value_of_json};

/// The type of the first parameter of the row's function, which is small.
fn type_of(types: &Types<'_>, row: &Value) -> anyhow::Result<ValType>
    ensures known { IfOk result (IsTypeOf «types».now) }
    ensures small { IfOk result (λ ty. size (record_type (fields_of_types «types».now (ty ∷ []))) ≤ 16777216) }
{
    let resolve = types.resolve();
    let ty = parameter_of_row(resolve, row)?;
    if resolve.is_type(ty) && types.fits_record(&[ty]) {
        return Ok(ty);
    }
    Err(anyhow::anyhow!("no small type"))
}

/// The value of a type that a row says.
fn value_of(alloc: Global, types: &Types<'_>, ty: ValType, json: &Value) -> anyhow::Result<Val>
    requires known { IsTypeOf «types».now ty }
    requires labels { HasApartLabels «types».now }
{
    match value_of_json(alloc, types.resolve(), ty, json) {
        Ok(value) => Ok(value),
        Err(JsonError::NotThisType) => Err(anyhow::anyhow!("error 62 not this type")),
        Err(JsonError::NoMemory) => Err(anyhow::anyhow!("error 66 no memory")),
    }
}

/// The values that the core values of a row denote.
fn lifted(
    alloc: Global,
    row: &Value,
    types: &Types<'_>,
    ty: ValType,
    guest: &Logged,
) -> anyhow::Result<Result<Vec<Val>, Fault>>
    requires known { IsTypeOf «types».now ty }
    requires small { size (record_type (fields_of_types «types».now (ty ∷ []))) ≤ 16777216 }
{
    let flats = flats(alloc, list(row.get("lift")))?;
    Ok(lift(
        alloc,
        types.resolve(),
        types.layouts(),
        &[ty],
        flats.as_slice(),
        guest,
    ))
}

/// The core values of a value.
fn lowered(
    types: &Types<'_>,
    ty: ValType,
    value: Val,
    guest: &mut Logged,
) -> anyhow::Result<Result<Flats, Fault>>
    requires known { IsTypeOf «types».now ty }
    requires small { size (record_type (fields_of_types «types».now (ty ∷ []))) ≤ 16777216 }
{
    let (resolve, layouts) = (types.resolve(), types.layouts());
    if !has_type(resolve, layouts, ty, &value) {
        return Err(anyhow::anyhow!("no value of its type"));
    }
    Ok(lower(resolve, layouts, &[ty], slice::from_ref(&value), guest))
}

/// Writes the values that core values denote, which have to be one of this type.
fn push_values(
    text: &mut TextBuilder,
    types: &Types<'_>,
    ty: ValType,
    values: &[Val],
) -> anyhow::Result<()>
    requires known { IsTypeOf «types».now ty }
    requires labels { HasApartLabels «types».now }
{
    let [value] = values else {
        return Err(anyhow::anyhow!("not one value"));
    };
    if !has_type(types.resolve(), types.layouts(), ty, value) {
        return Err(anyhow::anyhow!("no value of its type"));
    }
    let json = json_of_value(text.alloc(), types.resolve(), ty, value)?;
    text.push("{\"lifted\":");
    text.push_made(json.to_string(text.alloc()));
    text.push("}");
    Ok(())
}

/// Writes what core values are lifted to.
fn push_lifted(
    text: &mut TextBuilder,
    row: &Value,
    types: &Types<'_>,
    guest: &Logged,
) -> anyhow::Result<()>
    requires { HasApartLabels «types».now }
{
    let ty = type_of(types, row)?;
    match lifted(text.alloc(), row, types, ty, guest)? {
        Err(fault) => push_fault(text, fault),
        Ok(values) => push_values(text, types, ty, values.as_slice())?,
    }
    Ok(())
}

/// Writes what a value is lowered to.
fn push_lowered(
    text: &mut TextBuilder,
    json: &Value,
    row: &Value,
    types: &Types<'_>,
    guest: &mut Logged,
) -> anyhow::Result<()>
    requires { HasApartLabels «types».now }
{
    let ty = type_of(types, row)?;
    let value = value_of(text.alloc(), types, ty, json)?;
    match lowered(types, ty, value, guest)? {
        Ok(flats) => {
            text.push("{\"lowered\":");
            push_flats(text, flats.as_slice());
            text.push("}");
        }
        Err(fault) => push_fault(text, fault),
    }
    Ok(())
}

/// The type of the first parameter of the row's function, which is in the table.
#[tactic(auto, using(crate::proofs::HeadsAreOfTheirTypes::inside))]
fn stored_type(types: &Types<'_>, row: &Value) -> anyhow::Result<ValType>
    ensures known { IfOk result (IsTypeOf «types».now) }
    ensures inside { IfOk result (IsInside «types».now) }
{
    let resolve = types.resolve();
    let ty = parameter_of_row(resolve, row)?;
    if resolve.is_type(ty) {
        return Ok(ty);
    }
    Err(anyhow::anyhow!("no type"))
}

/// Writes the value at an address.
fn push_loaded(
    text: &mut TextBuilder,
    at: u32,
    row: &Value,
    types: &Types<'_>,
    guest: &Logged,
) -> anyhow::Result<()>
    requires { HasApartLabels «types».now }
{
    let ty = stored_type(types, row)?;
    let (alloc, resolve, layouts) = (text.alloc(), types.resolve(), types.layouts());
    match load(alloc, resolve, layouts, ty, guest, at) {
        Err(fault) => push_fault(text, fault),
        Ok(value) => {
            let json = json_of_value(alloc, resolve, ty, &value)?;
            text.push("{\"loaded\":");
            text.push_made(json.to_string(alloc));
            text.push("}");
        }
    }
    Ok(())
}

/// Stores a value at an address, and writes whether it is there.
fn push_stored(
    text: &mut TextBuilder,
    json: &Value,
    row: &Value,
    types: &Types<'_>,
    guest: &mut Logged,
) -> anyhow::Result<()>
    requires { HasApartLabels «types».now }
{
    let ty = stored_type(types, row)?;
    let at = number(row.get("at"))?;
    let value = value_of(text.alloc(), types, ty, json)?;
    let (resolve, layouts) = (types.resolve(), types.layouts());
    if !has_type(resolve, layouts, ty, &value) {
        return Err(anyhow::anyhow!("no value of its type"));
    }
    match store(resolve, layouts, ty, &value, guest, at) {
        Ok(()) => text.push("\"stored\""),
        Err(fault) => push_fault(text, fault),
    }
    Ok(())
}

/// Writes what is told of a value that is converted over the caller's memory.
fn push_converted(
    text: &mut TextBuilder,
    row: &Value,
    types: &Types<'_>,
    caller: &mut Logged,
) -> anyhow::Result<()>
    requires { HasApartLabels «types».now }
{
    if row.get("load").is_some() {
        return push_loaded(text, number(row.get("load"))?, row, types, caller);
    }
    if let Some(json) = field(row, "store") {
        return push_stored(text, json, row, types, caller);
    }
    match field(row, "lower") {
        None => push_lifted(text, row, types, caller),
        Some(json) => push_lowered(text, json, row, types, caller),
    }
}

/// Writes what is told of a row that lifts, lowers, loads or stores, and of the memories.
pub fn push_conversion(text: &mut TextBuilder, row: &Value, types: &Types<'_>) -> anyhow::Result<()>
    requires { HasApartLabels «types».now }
{
    let mut memories = memories_of(text.alloc(), row)?;
    begin_answer(text);
    push_converted(text, row, types, &mut memories.caller)?;
    end_answer(text, &memories);
    Ok(())
}
