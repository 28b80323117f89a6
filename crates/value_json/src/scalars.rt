//! Scalar values as JSON.
ghost use Rattle.std.specs.Prelude.{◌≡◌, ℕ, IfOk, IfSome, IfNone, encode_utf8};
ghost use Rattle.std.specs.Char.{IsScalar};
ghost use Rattle.serde_json.specs.View.{view};
ghost use Rattle.tables.specs.Closed.{prim_of};
ghost use Rattle.values.specs.Val.{value_of};
ghost use Rattle.value_json.specs.Json.{PrimJson, HasNoneOfPrim};
ghost use Rattle.value_json.specs.Writing.{IsOfPrim, data_of};

use serde_json::Value as Json;
use std::alloc::{AllocError, Global};
use tables::Primitive;
use values::Val;

/// The value of a scalar type that stands as this JSON value, if one does.
pub(crate) fn scalar_of_json(primitive: Primitive, json: &Json) -> Option<Val>
    ensures some { IfSome result (λ v. PrimJson (prim_of primitive) (value_of v) (view json.now)) }
    ensures none { IfNone result (HasNoneOfPrim (prim_of primitive) (view json.now)) }
{
    let value = match primitive {
        Primitive::Bool => Val::Bool(json.as_bool()?),
        Primitive::S8 => Val::S8(i8::try_from(json.as_i64()?).ok()?),
        Primitive::U8 => Val::U8(u8::try_from(json.as_u64()?).ok()?),
        Primitive::S16 => Val::S16(i16::try_from(json.as_i64()?).ok()?),
        Primitive::U16 => Val::U16(u16::try_from(json.as_u64()?).ok()?),
        Primitive::S32 => Val::S32(i32::try_from(json.as_i64()?).ok()?),
        Primitive::U32 => Val::U32(u32::try_from(json.as_u64()?).ok()?),
        Primitive::S64 => Val::S64(json.as_i64()?),
        Primitive::U64 => Val::U64(json.as_u64()?),
        Primitive::Char => Val::Char(only_char(json.as_str()?)?),
    };
    Some(value)
}

/// The one character of a text that has just one.
fn only_char(text: &str) -> Option<char>
    ensures some { IfSome result (λ c. IsScalar c × (text.now ≡ encode_utf8 c)) }
    ensures none { IfNone result ((c : ℕ) → IsScalar c → text.now ≡ encode_utf8 c → ⊥) }
{
    let Some(first) = text.chars().next() else {
        return None;
    };
    if first.len_utf8() == text.len() {
        Some(first)
    } else {
        None
    }
}

/// The JSON value that stands for a scalar value.
pub(crate) fn json_of_scalar(alloc: Global, value: &Val) -> Result<Json, AllocError>
    requires { IsOfPrim (value_of value.now) }
    ensures { IfOk result (λ json. view json ≡ data_of (value_of value.now)) }
{
    Ok(match value {
        Val::Bool(b) => Json::from(*b),
        Val::S8(z) => Json::from(*z),
        Val::U8(n) => Json::from(*n),
        Val::S16(z) => Json::from(*z),
        Val::U16(n) => Json::from(*n),
        Val::S32(z) => Json::from(*z),
        Val::U32(n) => Json::from(*n),
        Val::S64(z) => Json::from(*z),
        Val::U64(n) => Json::from(*n),
        Val::Char(c) => {
            let mut text = String::new(alloc);
            text.push(*c)?;
            Json::String(text)
        }
        Val::String(_) => unreachable!(),
        Val::List(_) => unreachable!(),
        Val::Record(_) => unreachable!(),
        Val::Variant(_, _) => unreachable!(),
        Val::Flags(_) => unreachable!(),
    })
}
