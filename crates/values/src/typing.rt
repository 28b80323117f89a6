//! Which values are of a type.
ghost use Rattle.std.specs.Prelude.{◌≡◌, ◌↔◌, ◌<◌, ◌^◌, List, IsTrue, map};
ghost use Rattle.std.specs.List.{AllByRecursion};
ghost use Rattle.canonical_abi.specs.Types.{ClosedType, variant_cases, variant_type, field_count};
ghost use Rattle.canonical_abi.specs.Values.{HasType, HaveTypes, HasPrimType};
ghost use Rattle.layout.specs.Layout.{layouts_of};
ghost use Rattle.tables.specs.Closed.{closed_type, function_type, IsFunction};
ghost use Rattle.values.specs.Members.{fields_of_types, AreInside, AreAllInside, members_fields};
ghost use Rattle.values.specs.Scalar.{prim_in, value_in};
ghost use Rattle.values.specs.Types.{HasShapeIn, IsInside};
ghost use Rattle.values.specs.Val.{value_of, variant_value};

use crate::members::Members;
use crate::scalar::Scalar;
use crate::types::Types;
use crate::val::Val;
use layout::{Layouts, Shape};
use tables::{FunctionId, Resolve, TypeId, ValType};

/// Whether a value is of a type of this package. Takes no memory of the host.
pub fn has_type(resolve: &Resolve, layouts: &Layouts, ty: ValType, value: &Val) -> bool
    requires laid_out { layouts.now ≡ layouts_of resolve.now }
    requires inside { IsInside resolve.now ty }
    ensures { IsTrue result ↔ HasType (value_of value.now) (closed_type resolve.now ty) }
{
    is_of(&Types::new(resolve, layouts), ty, value)
}

/// Whether these are arguments of a function, as many as its parameters and each of its type. Takes no memory
/// of the host.
pub fn has_arguments(table: &Types, func: FunctionId, values: &[Val]) -> bool
    requires { IsFunction table.now func }
    ensures { IsTrue result ↔ HaveTypes (map value_of values.now) (function_type table.now func).params }
{
    // A function's row is the record of its parameters.
    let members = Members::Of(ValType::Id(TypeId(func.0)));
    let count = table.resolve().signature(func).params.len();
    members_have_types(table, &members, count, values)
}

/// Whether these are values of these types, as many as types and each of its type. Takes no memory of the host.
pub fn have_types(table: &Types, types: &[ValType], values: &[Val]) -> bool
    requires { AreAllInside table.now types.now }
    ensures { IsTrue result ↔ HaveTypes (map value_of values.now) (fields_of_types table.now types.now) }
{
    members_have_types(table, &Members::Listed(types), types.len(), values)
}

/// Whether a scalar is of a type of this shape.
fn scalar_is_of(shape: Shape, scalar: Scalar) -> bool
    requires { HasPrimType (value_in scalar) (prim_in scalar) }
    ensures { (rows : List ClosedType) (t : ClosedType) → HasShapeIn rows t shape
        → (IsTrue result ↔ HasType (value_in scalar) t) }
{
    match shape {
        Shape::Primitive(primitive) => scalar.primitive() == primitive,
        _ => false,
    }
}

/// Whether flags have no bit past so many labels.
fn has_labels(bits: u32, labels: usize) -> bool
    ensures { IsTrue result ↔ (bits < 2 ^ labels) }
{
    if labels >= 32 {
        return true;
    }
    bits < 1 << labels
}

#[cycle(typing)]
fn is_of(table: &Types, ty: ValType, value: &Val) -> bool
    requires inside { IsInside table.now ty }
    ensures { IsTrue result ↔ HasType (value_of value.now) (closed_type table.now ty) }
{
    let shape = table.shape_of(ty);
    match value {
        Val::String(_) => matches!(shape, Shape::String),
        Val::List(items) => match shape {
            Shape::List(element) => are_of(table, element, items.as_slice()),
            _ => false,
        },
        Val::Record(fields) => match shape {
            Shape::Record(count) => {
                let members = Members::Of(ty);
                members_have_types(table, &members, count, fields.as_slice())
            }
            _ => false,
        },
        Val::Variant(case, payload) => match shape {
            Shape::Variant(_) => is_of_case(table, ty, *case, payload),
            _ => false,
        },
        Val::Flags(bits) => match shape {
            Shape::Flags(labels) => has_labels(*bits, labels),
            _ => false,
        },
        _ => match Scalar::of(value) {
            Some(scalar) => scalar_is_of(shape, scalar),
            None => unreachable!(),
        },
    }
}

/// Whether all these are of one type.
#[cycle(typing)]
fn are_of(table: &Types, element: ValType, items: &[Val]) -> bool
    requires inside { IsInside table.now element }
    ensures { IsTrue result ↔ AllByRecursion (λ w. HasType w (closed_type table.now element)) (map value_of items.now) }
{
    for item in items {
        if !is_of(table, element, item) {
            return false;
        }
    }
    true
}

/// Whether there are as many values as members, each of its member's type.
#[cycle(typing)]
fn members_have_types(table: &Types, members: &Members, count: usize, values: &[Val]) -> bool
    requires inside { AreInside table.now members.now }
    requires counted { field_count (members_fields table.now members.now) ≡ count }
    ensures { IsTrue result ↔ HaveTypes (map value_of values.now) (members_fields table.now members.now) }
{
    if values.len() != count {
        return false;
    }
    for index in 0..count {
        let Some(member) = table.member_type(members, index) else {
            unreachable!()
        };
        if !is_of(table, member, &values[index]) {
            return false;
        }
    }
    true
}

/// Whether this is a case of the variant, with a payload of its type where the case has one.
#[cycle(typing)]
fn is_of_case(table: &Types, ty: ValType, case: u32, payload: &Option<Box<Val>>) -> bool
    requires inside { IsInside table.now ty }
    requires variant { variant_type (variant_cases (closed_type table.now ty)) ≡ closed_type table.now ty }
    ensures { IsTrue result ↔ HasType (variant_value case payload.now) (closed_type table.now ty) }
{
    let Some(known) = table.case_payload(ty, case as usize) else {
        return false;
    };
    match payload {
        None => match known {
            None => true,
            Some(_) => false,
        },
        Some(value) => match known {
            Some(member) => is_of(table, member, value),
            None => false,
        },
    }
}
