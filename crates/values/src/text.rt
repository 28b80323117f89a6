//! Texts in memory, as they stand there.
ghost use Rattle.std.specs.Prelude.{◌≡◌, ◌+◌, ◌<◌, ◌^◌, length, IsTrue, IsUtf8, IfOk, IfErr, IfSome, IfNone};
ghost use Rattle.std.specs.Str.{IsAscii};
ghost use Rattle.canonical_abi.specs.Memory.{TextHolds, TextFaulty};
ghost use Rattle.canonical_abi.specs.Values.{string_value};
ghost use Rattle.canonical_abi.specs.declared.trap.Step.TheVariants.{Take};

use crate::bytes::largest_byte;
use canonical_abi::{Guest, Step, Trap, TrapKind};

/// Lends the text of so many bytes at an address of a guest's memory: `Bounds` where it ends past the memory,
/// else `Utf8` where its bytes are not UTF-8, in step `take`. Takes no memory of the host.
pub fn str_at<G: Guest>(guest: &G, at: u32, len: u32) -> Result<&str, Trap>
    ensures text { IfOk result (λ text. TextHolds (G.memory guest.now).bytes at len (string_value text.now)) }
    ensures fault { IfErr result (λ trap. (trap.step ≡ Take) × TextFaulty (G.memory guest.now).bytes at len trap.kind) }
{
    match text_in(guest.bytes(), at as usize, len as usize) {
        Ok(text) => Ok(text),
        Err(kind) => Err(Trap {
            kind,
            step: Step::Take,
        }),
    }
}

/// Of longer texts the beginning is tested first.
const SHORT: usize = 64;

/// Whether the bytes of a long text are all ASCII. A text that is not mostly isn't in its beginning, and then is read
/// no further.
#[inline(never)]
fn is_long_ascii(bytes: &[u8]) -> bool
    requires { 64 < length bytes.now }
    ensures { IsTrue result → IsAscii bytes.now }
{
    bytes[..SHORT].is_ascii() && largest_byte(bytes) < 128
}

/// Whether all bytes are ASCII.
#[inline(always)]
fn are_ascii(bytes: &[u8]) -> bool
    ensures { IsTrue result → IsAscii bytes.now }
{
    if bytes.len() <= SHORT {
        bytes.is_ascii()
    } else {
        is_long_ascii(bytes)
    }
}

/// The text of bytes that are not all ASCII. By itself, so that `text_in` stays small.
#[inline(never)]
fn text_of(bytes: &[u8]) -> Option<&str>
    ensures some { IfSome result (λ text. IsUtf8 bytes.now × (text.now ≡ bytes.now)) }
    ensures none { IfNone result (¬ (IsUtf8 bytes.now)) }
{
    match simdutf8::compat::from_utf8(bytes) {
        Ok(text) => Some(text),
        Err(_) => None,
    }
}

/// The text of so many bytes.
#[inline(always)]
pub fn text_in(memory: &[u8], at: usize, len: usize) -> Result<&str, TrapKind>
    requires { at + len < 2 ^ 64 }
    ensures text { IfOk result (λ text. TextHolds memory.now at len (string_value text.now)) }
    ensures fault { IfErr result (TextFaulty memory.now at len) }
{
    let end = at + len;
    if end > memory.len() {
        return Err(TrapKind::Bounds);
    }
    let bytes = &memory[at..end];
    if are_ascii(bytes) {
        // SAFETY: bytes below 128 are UTF-8.
        return Ok(unsafe { str::from_utf8_unchecked(bytes) });
    }
    match text_of(bytes) {
        Some(text) => Ok(text),
        None => Err(TrapKind::Utf8),
    }
}
