//! The values of primitive types other than string: each is carried by one core value.
ghost use Rattle.std.specs.Prelude.{◌≡◌, ◌%◌, ◌^◌, IfOk, IfErr, IfSome, IfNone, IsSome};
ghost use Rattle.canonical_abi.specs.Types.{Prim};
ghost use Rattle.canonical_abi.specs.Values.{HasPrimType};
ghost use Rattle.canonical_abi.specs.Layout.{prim_kind};
ghost use Rattle.canonical_abi.specs.Memory.{PrimFaulty};
ghost use Rattle.canonical_abi.specs.Reading.{number_of, flat_bits};
ghost use Rattle.tables.specs.Closed.{prim_of};
ghost use Rattle.values.specs.Scalar.{prim_in, value_in, core_in, ScalarIs};
ghost use Rattle.values.specs.Val.{value_of, IsCompound};

use crate::val::Val;
use canonical_abi::{CoreKind, Flat, TrapKind};
use tables::Primitive;

/// A value of a primitive type other than string.
#[derive(Clone, Copy, Debug, PartialEq, Eq)]
pub enum Scalar {
    Bool(bool),
    S8(i8),
    U8(u8),
    S16(i16),
    U16(u16),
    S32(i32),
    U32(u32),
    S64(i64),
    U64(u64),
    Char(char),
}

impl Default for Scalar {
    fn default() -> Self {
        Scalar::Bool(false)
    }
}

impl Scalar {
    /// The type that the value is of.
    pub fn primitive(self) -> Primitive
        ensures { prim_of result ≡ prim_in self }
    {
        match self {
            Scalar::Bool(_) => Primitive::Bool,
            Scalar::S8(_) => Primitive::S8,
            Scalar::U8(_) => Primitive::U8,
            Scalar::S16(_) => Primitive::S16,
            Scalar::U16(_) => Primitive::U16,
            Scalar::S32(_) => Primitive::S32,
            Scalar::U32(_) => Primitive::U32,
            Scalar::S64(_) => Primitive::S64,
            Scalar::U64(_) => Primitive::U64,
            Scalar::Char(_) => Primitive::Char,
        }
    }

    /// The value as a tree of one node.
    pub fn to_val(self) -> Val
        ensures { value_of result ≡ value_in self }
    {
        match self {
            Scalar::Bool(b) => Val::Bool(b),
            Scalar::S8(n) => Val::S8(n),
            Scalar::U8(n) => Val::U8(n),
            Scalar::S16(n) => Val::S16(n),
            Scalar::U16(n) => Val::U16(n),
            Scalar::S32(n) => Val::S32(n),
            Scalar::U32(n) => Val::U32(n),
            Scalar::S64(n) => Val::S64(n),
            Scalar::U64(n) => Val::U64(n),
            Scalar::Char(c) => Val::Char(c),
        }
    }

    /// A tree's own value, where it is of a primitive type other than string.
    pub fn of(value: &Val) -> Option<Scalar>
        ensures value { IfSome result (λ s. value_in s ≡ value_of value.now) }
        ensures typed { IfSome result (λ s. HasPrimType (value_in s) (prim_in s)) }
        ensures none { IfNone result (IsCompound value.now) }
        ensures found { (p : Prim) → HasPrimType (value_of value.now) p → IsSome result }
    {
        match value {
            Val::Bool(b) => Some(Scalar::Bool(*b)),
            Val::S8(n) => Some(Scalar::S8(*n)),
            Val::U8(n) => Some(Scalar::U8(*n)),
            Val::S16(n) => Some(Scalar::S16(*n)),
            Val::U16(n) => Some(Scalar::U16(*n)),
            Val::S32(n) => Some(Scalar::S32(*n)),
            Val::U32(n) => Some(Scalar::U32(*n)),
            Val::S64(n) => Some(Scalar::S64(*n)),
            Val::U64(n) => Some(Scalar::U64(*n)),
            Val::Char(c) => Some(Scalar::Char(*c)),
            Val::String(_) | Val::List(_) | Val::Record(_) | Val::Variant(_, _) | Val::Flags(_) =>
                None,
        }
    }
}

/// The core type of the values that carry this type's.
pub fn core_kind(ty: Primitive) -> CoreKind
    ensures { result ≡ prim_kind (prim_of ty) }
{
    match ty {
        Primitive::S64 | Primitive::U64 => CoreKind::I64,
        _ => CoreKind::I32,
    }
}

/// The value that a core value carries, by its low bits: a bool is true where they are not zero. `Char`
/// where they are no character's code.
pub fn lift_scalar(ty: Primitive, flat: Flat) -> Result<Scalar, TrapKind>
    ensures value { IfOk result (ScalarIs (prim_of ty) (number_of flat)) }
    ensures fault { IfErr result
        (PrimFaulty (prim_of ty) (number_of flat % 2 ^ flat_bits (prim_of ty))) }
{
    let number = flat.number();
    let low = (number % 0x1_0000_0000) as u32;
    match ty {
        Primitive::Bool => Ok(Scalar::Bool(low != 0)),
        Primitive::S8 => Ok(Scalar::S8(((number % 0x100) as u8).cast_signed())),
        Primitive::U8 => Ok(Scalar::U8((number % 0x100) as u8)),
        Primitive::S16 => Ok(Scalar::S16(((number % 0x1_0000) as u16).cast_signed())),
        Primitive::U16 => Ok(Scalar::U16((number % 0x1_0000) as u16)),
        Primitive::S32 => Ok(Scalar::S32(low.cast_signed())),
        Primitive::U32 => Ok(Scalar::U32(low)),
        Primitive::S64 => Ok(Scalar::S64(number.cast_signed())),
        Primitive::U64 => Ok(Scalar::U64(number)),
        Primitive::Char => match char::from_u32(low) {
            Some(c) => Ok(Scalar::Char(c)),
            None => Err(TrapKind::Char),
        },
    }
}

/// The core value that carries a value: a negative number is extended by its sign to 32 bits.
pub fn lower_scalar(value: Scalar) -> Flat
    ensures { result ≡ core_in value }
{
    match value {
        Scalar::Bool(b) => Flat::I32(u32::from(b)),
        Scalar::S8(n) => Flat::I32(i32::from(n).cast_unsigned()),
        Scalar::U8(n) => Flat::I32(u32::from(n)),
        Scalar::S16(n) => Flat::I32(i32::from(n).cast_unsigned()),
        Scalar::U16(n) => Flat::I32(u32::from(n)),
        Scalar::S32(n) => Flat::I32(n.cast_unsigned()),
        Scalar::U32(n) => Flat::I32(n),
        Scalar::S64(n) => Flat::I64(n.cast_unsigned()),
        Scalar::U64(n) => Flat::I64(n),
        Scalar::Char(c) => Flat::I32(u32::from(c)),
    }
}
