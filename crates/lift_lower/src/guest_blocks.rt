//! Blocks of a guest's memory, and bytes that are put into it.
ghost use Rattle.std.specs.Prelude.{◌≡◌, ◌+◌, ◌^◌, ◌<◌, ◌≤◌, ◌⊎◌, length, IfOk, IfErr};
ghost use Rattle.canonical_abi.specs.Guest.{IsAlignment};
ghost use Rattle.canonical_abi.specs.Layout.{prim_width};
ghost use Rattle.canonical_abi.specs.Reading.{byte_width};
ghost use Rattle.canonical_abi.specs.Storing.{pointer_pair, number_in};
ghost use Rattle.canonical_abi.specs.Trace.{EventLeads, RequestEnds, write};
ghost use Rattle.std.specs.Int.{to_le_bytes, byte_len, next_multiple_of};
ghost use Rattle.values.specs.Scalar.{prim_in, value_in};
ghost use Rattle.lift_lower.specs.Scripts.{IsDone, HasEnded, GrantsBlock, PutsText, PutsTextAt};

use canonical_abi::{Guest, TrapKind};
use values::Scalar;
use values::bytes::test_block;

/// The next multiple of an alignment. Of those that there are each has a constant divisor here, so that nothing is
/// divided.
#[inline(always)]
pub(crate) fn aligned(end: usize, align: usize) -> usize
    requires positive { 0 < align }
    requires fits { next_multiple_of end align < 2 ^ 64 }
    ensures value { result ≡ next_multiple_of end align }
    ensures lower_bound { end ≤ result }
    ensures upper_bound { result < end + align }
{
    match align {
        1 => end.next_multiple_of(1),
        2 => end.next_multiple_of(2),
        4 => end.next_multiple_of(4),
        8 => end.next_multiple_of(8),
        _ => end.next_multiple_of(align),
    }
}

/// Writes bytes at an address.
pub fn write_bytes<G: Guest>(guest: &mut G, at: usize, bytes: &[u8])
    requires inside { at + length bytes.now ≤ length (G.memory guest.old).bytes }
    requires small { at < 2 ^ 32 }
    ensures led { EventLeads G.allocates (G.memory guest.old) (write at bytes.now) (G.memory guest.new) }
    ensures same_length { length (G.memory guest.new).bytes ≡ length (G.memory guest.old).bytes }
{
    guest.write(at as u32, bytes);
}

/// Writes the address and the length that tell of a text or a list.
pub fn write_header<G: Guest>(guest: &mut G, at: usize, start: usize, count: usize)
    requires inside { at + 8 ≤ length (G.memory guest.old).bytes }
    requires small { at < 2 ^ 32 }
    requires start { start < 2 ^ 32 }
    requires count { count < 2 ^ 32 }
    ensures led { EventLeads G.allocates (G.memory guest.old) (write at (pointer_pair start count))
        (G.memory guest.new) }
    ensures same_length { length (G.memory guest.new).bytes ≡ length (G.memory guest.old).bytes }
{
    let mut bytes = [0; 8];
    bytes[..4].copy_from_slice(&(start as u32).to_le_bytes());
    bytes[4..].copy_from_slice(&(count as u32).to_le_bytes());
    write_bytes(guest, at, &bytes);
}

/// Writes the number of a discriminant or of flags, which has 1, 2 or 4 bytes.
pub fn write_number<G: Guest>(guest: &mut G, at: usize, size: usize, number: u32)
    requires known { (size ≡ 1) ⊎ ((size ≡ 2) ⊎ (size ≡ 4)) }
    requires inside { at + size ≤ length (G.memory guest.old).bytes }
    requires small { at < 2 ^ 32 }
    ensures led { EventLeads G.allocates (G.memory guest.old) (write at (to_le_bytes (byte_width size) number))
        (G.memory guest.new) }
    ensures same_length { length (G.memory guest.new).bytes ≡ length (G.memory guest.old).bytes }
{
    let bytes = number.to_le_bytes();
    write_bytes(guest, at, &bytes[..size]);
}

/// `write_scalar` as a part of the loop that calls it, where the value's type is looked at already.
#[inline(always)]
pub(crate) fn put_scalar_at<G: Guest>(guest: &mut G, at: usize, scalar: Scalar)
    requires inside { at + byte_len (prim_width (prim_in scalar)) ≤ length (G.memory guest.old).bytes }
    requires small { at < 2 ^ 32 }
    ensures led { let w = prim_width (prim_in scalar) in
        EventLeads G.allocates (G.memory guest.old) (write at (to_le_bytes w (number_in w (value_in scalar))))
        (G.memory guest.new) }
    ensures same_length { length (G.memory guest.new).bytes ≡ length (G.memory guest.old).bytes }
{
    match scalar {
        Scalar::Bool(b) => write_bytes(guest, at, &[u8::from(b)]),
        Scalar::S8(n) => write_bytes(guest, at, &n.to_le_bytes()),
        Scalar::U8(n) => write_bytes(guest, at, &n.to_le_bytes()),
        Scalar::S16(n) => write_bytes(guest, at, &n.to_le_bytes()),
        Scalar::U16(n) => write_bytes(guest, at, &n.to_le_bytes()),
        Scalar::S32(n) => write_bytes(guest, at, &n.to_le_bytes()),
        Scalar::U32(n) => write_bytes(guest, at, &n.to_le_bytes()),
        Scalar::S64(n) => write_bytes(guest, at, &n.to_le_bytes()),
        Scalar::U64(n) => write_bytes(guest, at, &n.to_le_bytes()),
        Scalar::Char(c) => write_bytes(guest, at, &u32::from(c).to_le_bytes()),
    }
}

/// Writes a value of a primitive type other than string.
pub fn write_scalar<G: Guest>(guest: &mut G, at: usize, scalar: Scalar)
    requires inside { at + byte_len (prim_width (prim_in scalar)) ≤ length (G.memory guest.old).bytes }
    requires small { at < 2 ^ 32 }
    ensures led { let w = prim_width (prim_in scalar) in
        EventLeads G.allocates (G.memory guest.old) (write at (to_le_bytes w (number_in w (value_in scalar))))
        (G.memory guest.new) }
    ensures same_length { length (G.memory guest.new).bytes ≡ length (G.memory guest.old).bytes }
{
    put_scalar_at(guest, at, scalar);
}

/// Asks for a block and tests its address: `Bounds` where it is for more than the limit, before it is asked
/// for, then `Full`, `Align` and `Bounds`.
pub fn ask_block<G: Guest>(
    guest: &mut G,
    limit: u32,
    align: usize,
    size: usize,
) -> Result<usize, TrapKind>
    requires aligned { IsAlignment align }
    ensures ok { IfOk result (λ at. IsDone limit G.allocates (GrantsBlock align size at) (G.memory guest.old)
        (G.memory guest.new)) }
    ensures fault { IfErr result (λ k. RequestEnds limit G.allocates (G.memory guest.old) align size k
        (G.memory guest.new)) }
    ensures inside { IfOk result (λ at. at + size ≤ length (G.memory guest.new).bytes) }
    ensures small { IfOk result (λ at. at + size < 2 ^ 32) }
    ensures within { IfOk result (λ at. size ≤ limit) }
{
    if size > limit as usize {
        return Err(TrapKind::Bounds);
    }
    let Ok(start) = guest.alloc(align as u32, size as u32) else {
        return Err(TrapKind::Full);
    };
    let start = start as usize;
    test_block(guest.len() as usize, start, align, size)?;
    Ok(start)
}

/// Puts a text into a block of its own, and answers the block's address.
pub(crate) fn put_text<G: Guest>(guest: &mut G, limit: u32, text: &str) -> Result<usize, TrapKind>
    ensures ok { IfOk result (λ at. IsDone limit G.allocates (PutsTextAt text.now at) (G.memory guest.old)
        (G.memory guest.new)) }
    ensures fault { IfErr result (λ k. HasEnded limit G.allocates (PutsText text.now) (G.memory guest.old) k
        (G.memory guest.new)) }
    ensures small { IfOk result (λ at. at < 2 ^ 32) }
    ensures within { IfOk result (λ at. length text.now ≤ limit) }
{
    let start = ask_block(guest, limit, 1, text.len())?;
    write_bytes(guest, start, text.as_bytes());
    Ok(start)
}
