//! Parts of a text, put into an array behind one another.
ghost use Rattle.std.specs.Prelude.{◌≡◌, ◌+◌, ◌≤◌, ◌<◌, ◌++◌, [], if◌then◌else◌, IfOk, IfErr, length};
ghost use Rattle.std.specs.Char.{digit_char};
ghost use Rattle.std.specs.Prelude.{encode_utf8};
ghost use Rattle.serde_json.specs.Data.{unsigned, array};
ghost use Rattle.serde_json.specs.Find.{of_integer};
ghost use Rattle.serde_json.specs.View.{items_of};
ghost use Rattle.serde_json.specs.Written.{compact_text, number_text};
ghost use Rattle.json.specs.Print.{escape_byte, quoted};
ghost use Rattle.value_text.specs.Puts.{PutsWithin};
ghost use Rattle.value_text.specs.Function.{flags_json};
ghost use Rattle.value_text.specs.Texts.{comma_at, key_at};

use atoms::Label;

/// The text has more bytes than the limit.
#[derive(Clone, Copy, Debug, PartialEq, Eq)]
pub struct TooLong;

/// Puts a part behind `at` bytes if there is room for all so far, and answers how many bytes there are then.
pub(crate) fn put(limit: usize, room: &mut [u8], at: usize, part: &[u8]) -> Result<usize, TooLong>
    requires { at ≤ limit }
    ensures { PutsWithin limit part.now room.old at result room.new }
{
    if part.len() > limit - at {
        return Err(TooLong);
    }
    let end = at + part.len();
    if end <= room.len() {
        room[at..end].copy_from_slice(part);
    }
    Ok(end)
}

/// Puts a comma before each item but the first.
pub(crate) fn put_comma(
    limit: usize,
    room: &mut [u8],
    at: usize,
    index: usize,
) -> Result<usize, TooLong>
    requires { at ≤ limit }
    ensures { PutsWithin limit (comma_at index) room.old at result room.new }
{
    if index == 0 {
        put(limit, room, at, b"")
    } else {
        put(limit, room, at, b",")
    }
}

/// A digit of base 16 in lower case.
fn hex_digit(digit: u8) -> u8
    requires { digit < 16 }
    ensures { result ≡ digit_char digit }
{
    if digit < 10 {
        b'0' + digit
    } else {
        b'W' + digit
    }
}

/// Puts what stands in a string for a byte.
#[tactic(auto, unfolding(json::specs::Print::escape_byte))]
pub(crate) fn put_escaped(
    limit: usize,
    room: &mut [u8],
    at: usize,
    byte: u8,
) -> Result<usize, TooLong>
    requires { at ≤ limit }
    ensures { PutsWithin limit (escape_byte byte) room.old at result room.new }
{
    match byte {
        b'"' => put(limit, room, at, b"\\\""),
        b'\\' => put(limit, room, at, b"\\\\"),
        8 => put(limit, room, at, b"\\b"),
        12 => put(limit, room, at, b"\\f"),
        b'\n' => put(limit, room, at, b"\\n"),
        b'\r' => put(limit, room, at, b"\\r"),
        b'\t' => put(limit, room, at, b"\\t"),
        0..=31 => {
            let low = hex_digit(byte % 16);
            let high = hex_digit(byte / 16);
            put(limit, room, at, &[b'\\', b'u', b'0', b'0', high, low])
        }
        _ => put(limit, room, at, &[byte]),
    }
}

/// Puts the bytes of a text in quotes, with escapes.
pub(crate) fn put_bytes(
    limit: usize,
    room: &mut [u8],
    at: usize,
    bytes: &[u8],
) -> Result<usize, TooLong>
    requires { at ≤ limit }
    ensures { PutsWithin limit (quoted bytes.now) room.old at result room.new }
{
    let mut end = put(limit, room, at, b"\"")?;
    for byte in bytes {
        end = put_escaped(limit, room, end, *byte)?;
    }
    put(limit, room, end, b"\"")
}

/// Puts a text in quotes, with escapes.
pub(crate) fn put_quoted(
    limit: usize,
    room: &mut [u8],
    at: usize,
    text: &str,
) -> Result<usize, TooLong>
    requires { at ≤ limit }
    ensures { PutsWithin limit (quoted text.now) room.old at result room.new }
{
    put_bytes(limit, room, at, text.as_bytes())
}

/// Puts a number in decimal digits.
pub(crate) fn put_unsigned(
    limit: usize,
    room: &mut [u8],
    at: usize,
    number: u64,
) -> Result<usize, TooLong>
    requires { at ≤ limit }
    ensures { PutsWithin limit (number_text (unsigned number)) room.old at result room.new }
{
    put(
        limit,
        room,
        at,
        itoa::Buffer::new().format(number).as_bytes(),
    )
}

/// Puts a number in decimal digits, with its sign if it is below 0.
pub(crate) fn put_signed(
    limit: usize,
    room: &mut [u8],
    at: usize,
    number: i64,
) -> Result<usize, TooLong>
    requires { at ≤ limit }
    ensures { PutsWithin limit (number_text (of_integer number)) room.old at result room.new }
{
    put(
        limit,
        room,
        at,
        itoa::Buffer::new().format(number).as_bytes(),
    )
}

/// Puts a text of one character in quotes.
pub(crate) fn put_char(
    limit: usize,
    room: &mut [u8],
    at: usize,
    character: char,
) -> Result<usize, TooLong>
    requires { at ≤ limit }
    ensures { PutsWithin limit (quoted (encode_utf8 character)) room.old at result room.new }
{
    let mut bytes = [0; 4];
    put_quoted(limit, room, at, character.encode_utf8(&mut bytes))
}

/// Puts the key of a member of an object, behind a comma but for the first member.
pub(crate) fn put_key(
    limit: usize,
    room: &mut [u8],
    at: usize,
    index: usize,
    label: &str,
) -> Result<usize, TooLong>
    requires { at ≤ limit }
    ensures { PutsWithin limit (key_at index label.now) room.old at result room.new }
{
    let begun = put_comma(limit, room, at, index)?;
    let end = put_quoted(limit, room, begun, label)?;
    put(limit, room, end, b":")
}

/// Puts a label among those before it if its flag is set.
fn put_flag(
    limit: usize,
    room: &mut [u8],
    at: usize,
    index: usize,
    is_set: bool,
    label: &str,
) -> Result<usize, TooLong>
    requires { at ≤ limit }
    ensures { PutsWithin limit (if is_set then comma_at index ++ quoted label.now else []) room.old at result room.new }
{
    if is_set {
        let begun = put_comma(limit, room, at, index)?;
        put_quoted(limit, room, begun, label)
    } else {
        put(limit, room, at, b"")
    }
}

/// Puts an array of the labels of the flags that are set: the first label's bit is the lowest.
pub(crate) fn put_flags(
    limit: usize,
    room: &mut [u8],
    at: usize,
    labels: &[Label],
    bits: u32,
) -> Result<usize, TooLong>
    requires { at ≤ limit }
    ensures { PutsWithin limit (compact_text (array (items_of (flags_json labels.now bits)))) room.old at
        result room.new }
{
    let mut rest = bits;
    let mut count: usize = 0;
    let mut end = put(limit, room, at, b"[")?;
    for label in labels {
        let bit = rest % 2;
        end = put_flag(limit, room, end, count, bit == 1, label.as_str())?;
        count += bit as usize;
        rest /= 2;
    }
    put(limit, room, end, b"]")
}
