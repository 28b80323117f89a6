//! Lists of values of primitive types: parameters and results that need no memory.
ghost use Rattle.std.specs.Prelude.{◌≡◌, ◌≤◌, ◌↔◌, IsTrue, IfOk, IfErr, length, map};
ghost use Rattle.tables.specs.Closed.{prim_of, is_scalar_type};
ghost use Rattle.tables.specs.declared.tables.ValType.{ValType};
ghost use Rattle.values.specs.Scalar.{value_in};
ghost use Rattle.values.specs.Scalars.{AreScalar, prim_of_type, ScalarKindsFit, ScalarsStand, FirstFault, StandFor};
ghost use Rattle.values.specs.Scalars.{FailAs, AreOfTypes};

use crate::scalar::{Scalar, core_kind, lift_scalar};
use arrayvec::ArrayVec;
use canonical_abi::{Flat, TrapKind};
use tables::{Primitive, ValType};

/// The core values of one call: sixteen parameters and a return area at most.
pub type Flats = ArrayVec<Flat, 17>;

/// What a core function returns: one core value at most where it follows the ABI. There is room for four, so that a
/// core function of another signature can be told by what it returns (K8).
pub type FlatResults = ArrayVec<Flat, 4>;

/// The values of one way of a call.
pub type Scalars = ArrayVec<Scalar, 16>;

/// The values that core values carry: `CoreSignature` where their number or kinds are others than the
/// types', else `Char` at the first that carries none.
pub fn lift_scalars(types: &[ValType], flats: &[Flat]) -> Result<Scalars, TrapKind>
    requires { AreScalar types.now }
    ensures values { IfOk result (λ ss. StandFor types.now flats.now (map value_in ss.items)) }
    ensures typed { IfOk result (λ ss. AreOfTypes types.now ss.items) }
    ensures fault { IfErr result (FailAs types.now flats.now) }
{
    if !kinds_fit(types, flats) {
        return Err(TrapKind::CoreSignature);
    }
    lift_each(types, flats)
}

/// These core values, of which there is one at most, as what a core function returns.
pub fn flat_results(flats: &[Flat]) -> FlatResults
    requires { length flats.now ≤ 1 }
    ensures { result.items ≡ flats.now }
{
    let mut results = FlatResults::new();
    if let Some(flat) = flats.first() {
        results.push(*flat);
    }
    results
}

/// Whether the core values have the number and the kinds that the types ask for.
fn kinds_fit(types: &[ValType], flats: &[Flat]) -> bool
    requires { AreScalar types.now }
    ensures { IsTrue result ↔ ScalarKindsFit types.now flats.now }
{
    if flats.len() != types.len() {
        return false;
    }
    for (i, ty) in types.iter().enumerate() {
        if flats[i].kind() != core_kind(primitive_of(*ty)) {
            return false;
        }
    }
    true
}

/// The values that core values of the right kinds carry.
fn lift_each(types: &[ValType], flats: &[Flat]) -> Result<Scalars, TrapKind>
    requires scalar { AreScalar types.now }
    requires kinds { ScalarKindsFit types.now flats.now }
    ensures values { IfOk result (λ ss. ScalarsStand types.now flats.now ss.items) }
    ensures fault { IfErr result (FirstFault types.now flats.now) }
{
    let mut values = Scalars::new();
    for (i, ty) in types.iter().enumerate() {
        values.push(lift_scalar(primitive_of(*ty), flats[i])?);
    }
    Ok(values)
}

/// The primitive that a scalar type is.
fn primitive_of(ty: ValType) -> Primitive
    requires { IsTrue (is_scalar_type ty) }
    ensures { prim_of result ≡ prim_of_type ty }
{
    match ty {
        ValType::Primitive(primitive) => primitive,
        _ => unreachable!(),
    }
}
