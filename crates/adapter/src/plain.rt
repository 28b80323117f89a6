//! Core values that cross as they are: those of functions of numbers, bools and characters, where each is the very one
//! that carries its value.
ghost use Rattle.std.specs.Prelude.{◌≡◌, ◌≤◌, [], true, length, map, IsTrue, IfSome};
ghost use Rattle.canonical_abi.specs.Types.{prim_type, result_fields};
ghost use Rattle.canonical_abi.specs.Layout.{fits_flat, max_flat_results};
ghost use Rattle.tables.specs.Closed.{closed_type, function_type, prim_of, IsFunction};
ghost use Rattle.values.specs.Members.{fields_of_types, AreAllInside};
ghost use Rattle.values.specs.Types.{IsInside};
ghost use Rattle.adapter.specs.Plain.{IsOwn, IsOwnOf, AreOwn, PassAsTheyAre, ArePlainArguments};

use canonical_abi::Flat;
use layout::Shape;
use lift_lower::{Flats, Types, lift_scalar, lower_scalar};
use tables::{FunctionId, Parameter, Primitive, ValType};

/// Whether a core value is the very one that carries the value that it denotes.
#[inline(always)]
fn is_own_of_one(primitive: Primitive, flat: Flat) -> bool
    ensures { IsTrue result → IsOwn (prim_of primitive) flat }
{
    match lift_scalar(primitive, flat) {
        Ok(scalar) => lower_scalar(scalar) == flat,
        Err(_) => false,
    }
}

/// The same: each arm has a primitive of its own, so that nothing is asked about it again.
#[inline(always)]
pub(crate) fn is_own(primitive: Primitive, flat: Flat) -> bool
    ensures { IsTrue result → IsOwn (prim_of primitive) flat }
{
    match primitive {
        Primitive::Bool => is_own_of_one(Primitive::Bool, flat),
        Primitive::S8 => is_own_of_one(Primitive::S8, flat),
        Primitive::U8 => is_own_of_one(Primitive::U8, flat),
        Primitive::S16 => is_own_of_one(Primitive::S16, flat),
        Primitive::U16 => is_own_of_one(Primitive::U16, flat),
        Primitive::S32 => is_own_of_one(Primitive::S32, flat),
        Primitive::U32 => is_own_of_one(Primitive::U32, flat),
        Primitive::S64 => is_own_of_one(Primitive::S64, flat),
        Primitive::U64 => is_own_of_one(Primitive::U64, flat),
        Primitive::Char => is_own_of_one(Primitive::Char, flat),
    }
}

/// The primitive that a name means.
fn named_primitive(types: &Types, ty: ValType) -> Option<Primitive>
    requires { IsInside types.now ty }
    ensures { IfSome result (λ p. closed_type types.now ty ≡ prim_type (prim_of p)) }
{
    match types.shape_of(ty) {
        Shape::Primitive(primitive) => Some(primitive),
        _ => None,
    }
}

/// The primitive that a type is, once names are followed.
#[inline(always)]
fn primitive_of(types: &Types, ty: ValType) -> Option<Primitive>
    requires { IsInside types.now ty }
    ensures { IfSome result (λ p. closed_type types.now ty ≡ prim_type (prim_of p)) }
{
    match ty {
        ValType::Primitive(primitive) => Some(primitive),
        ValType::String => None,
        ValType::Id(_) => named_primitive(types, ty),
    }
}

/// Whether the type is a primitive, and the core value the very one that carries its value.
#[inline(always)]
pub fn is_own_of(types: &Types, ty: ValType, flat: Flat) -> bool
    requires { IsInside types.now ty }
    ensures { IsTrue result → IsOwnOf (closed_type types.now ty) flat }
{
    match primitive_of(types, ty) {
        Some(primitive) => is_own(primitive, flat),
        None => false,
    }
}

/// Whether these core values, one for each parameter, are such ones.
#[inline(always)]
fn are_own(types: &Types, params: &[Parameter], flats: &[Flat]) -> bool
    requires { AreAllInside types.now (map (λ p. p.ty) params.now) }
    ensures { IsTrue result → AreOwn (fields_of_types types.now (map (λ p. p.ty) params.now)) flats.now }
{
    if flats.len() != params.len() {
        return false;
    }
    for (i, parameter) in params.iter().enumerate() {
        if !is_own_of(types, parameter.ty, flats[i]) {
            return false;
        }
    }
    true
}

/// Whether a result goes flat without being looked at: there is none, or it is a primitive.
#[inline(always)]
pub fn is_plain_result(types: &Types, func: FunctionId) -> bool
    requires { IsFunction types.now func }
    ensures { IsTrue result → fits_flat max_flat_results (result_fields (function_type types.now func).result) ≡ true }
{
    match types.resolve().signature(func).result {
        Some(ty) => primitive_of(types, ty).is_some(),
        None => true,
    }
}

/// Whether a call's core values are those of the function's signature, and cross as they are.
#[inline(always)]
pub fn are_plain(types: &Types, func: FunctionId, flats: &[Flat]) -> bool
    requires { IsFunction types.now func }
    ensures { IsTrue result → PassAsTheyAre (function_type types.now func) flats.now }
{
    if flats.len() > 16 {
        return false;
    }
    if !is_plain_result(types, func) {
        return false;
    }
    are_own(
        types,
        types.resolve().signature(func).params.as_slice(),
        flats,
    )
}

/// The core values that carry a call's arguments, where the call's are those of the function's signature and these
/// cross as they are.
#[inline(always)]
pub(crate) fn plain_arguments<'a>(
    types: &Types,
    func: FunctionId,
    flats: &'a [Flat],
) -> Option<&'a [Flat]>
    requires { IsFunction types.now func }
    ensures { IfSome result (λ arguments. ArePlainArguments (function_type types.now func) flats.now arguments.now) }
{
    let params = types.resolve().signature(func).params.as_slice();
    if params.len() > 16 || flats.len() < params.len() {
        return None;
    }
    let arguments = &flats[..params.len()];
    if !are_own(types, params, arguments) {
        return None;
    }
    if flats.len() == params.len() && is_plain_result(types, func) {
        return Some(arguments);
    }
    // The return area's address is behind them.
    if types.layouts().takes(func, flats) {
        return Some(arguments);
    }
    None
}

/// Puts core values into a list that was empty.
pub(crate) fn put(flats: &[Flat], list: &mut Flats)
    requires empty { list.old.items ≡ [] }
    requires few { length flats.now ≤ 16 }
    ensures { list.new.items ≡ flats.now }
{
    for flat in flats {
        list.push(*flat);
    }
}

/// Whether what a core function answered is of its signature, and crosses as it is.
#[inline(always)]
pub fn is_plain_answer(types: &Types, func: FunctionId, answer: &[Flat]) -> bool
    requires { IsFunction types.now func }
    ensures own { IsTrue result → AreOwn (result_fields (function_type types.now func).result) answer.now }
    ensures few { IsTrue result → length answer.now ≤ 1 }
{
    match types.resolve().signature(func).result {
        Some(ty) => match answer {
            [flat] => is_own_of(types, ty, *flat),
            _ => false,
        },
        None => answer.is_empty(),
    }
}
