//! Scalar values as texts of JSON.
ghost use Rattle.std.specs.Prelude.{◌≡◌, ◌≤◌};
ghost use Rattle.serde_json.specs.Written.{compact_text};
ghost use Rattle.values.specs.Scalar.{value_in};
ghost use Rattle.value_json.specs.Writing.{data_of};
ghost use Rattle.value_text.specs.Puts.{PutsWithin};

use crate::puts::{TooLong, put, put_char, put_signed, put_unsigned};
use lift_lower::Scalar;

/// Puts the text of a scalar value.
pub(crate) fn put_scalar(
    limit: usize,
    room: &mut [u8],
    at: usize,
    scalar: Scalar,
) -> Result<usize, TooLong>
    requires { at ≤ limit }
    ensures { PutsWithin limit (compact_text (data_of (value_in scalar))) room.old at result room.new }
{
    match scalar {
        Scalar::Bool(true) => put(limit, room, at, b"true"),
        Scalar::Bool(false) => put(limit, room, at, b"false"),
        Scalar::S8(z) => put_signed(limit, room, at, i64::from(z)),
        Scalar::U8(n) => put_unsigned(limit, room, at, u64::from(n)),
        Scalar::S16(z) => put_signed(limit, room, at, i64::from(z)),
        Scalar::U16(n) => put_unsigned(limit, room, at, u64::from(n)),
        Scalar::S32(z) => put_signed(limit, room, at, i64::from(z)),
        Scalar::U32(n) => put_unsigned(limit, room, at, u64::from(n)),
        Scalar::S64(z) => put_signed(limit, room, at, z),
        Scalar::U64(n) => put_unsigned(limit, room, at, n),
        Scalar::Char(c) => put_char(limit, room, at, c),
    }
}
