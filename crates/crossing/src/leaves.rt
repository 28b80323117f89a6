//! Nodes without parts: primitives, flags and texts.
ghost use Rattle.std.specs.Prelude.{◌≡◌, ℕ, ◌+◌, ◌^◌, ◌<◌, ◌≤◌, length};
ghost use Rattle.std.specs.Int.{byte_len};
ghost use Rattle.canonical_abi.specs.Types.{prim_type, string_type, flags_type};
ghost use Rattle.canonical_abi.specs.Layout.{prim_width, flags_size};
ghost use Rattle.tables.specs.Closed.{prim_of};
ghost use Rattle.crossing.specs.Outcome.{Walks, Behind, Ends};

use crate::addresses::Addresses;
use crate::stopped::Stopped;
use canonical_abi::Guest;
use lift_lower::nodes::{
    ask_block, flags_bytes, low_flags, number_of_size, scalar_at, text_in, u32_at, write_bytes,
    write_header, write_number, write_scalar,
};
use tables::Primitive;

/// Crosses a primitive other than string.
pub(crate) fn cross_primitive<G: Guest>(
    primitive: Primitive,
    source: &[u8],
    at: Addresses,
    guest: &mut G,
) -> Result<(), Stopped>
    requires inside { at.from + byte_len (prim_width (prim_of primitive)) ≤ length source.now }
    requires room { at.to + byte_len (prim_width (prim_of primitive)) ≤ length (G.memory guest.old).bytes }
    requires small { at.to < 2 ^ 32 }
    requires short { length source.now < 2 ^ 32 }
    ensures { (n : ℕ) → Ends G.allocates (Behind (Walks (prim_type (prim_of primitive)) source.now at.from at.to))
        (G.memory guest.old) n result (G.memory guest.new) n }
{
    match scalar_at(primitive, source, at.from) {
        Ok(scalar) => {
            write_scalar(guest, at.to, scalar);
            Ok(())
        }
        Err(kind) => Err(Stopped::Source(kind)),
    }
}

/// Crosses the bits of flags.
pub(crate) fn cross_flags<G: Guest>(
    labels: usize,
    source: &[u8],
    at: Addresses,
    guest: &mut G,
) -> Result<(), Stopped>
    requires inside { at.from + flags_size labels ≤ length source.now }
    requires room { at.to + flags_size labels ≤ length (G.memory guest.old).bytes }
    requires small { at.to < 2 ^ 32 }
    ensures { (n : ℕ) → Ends G.allocates (Behind (Walks (flags_type labels) source.now at.from at.to))
        (G.memory guest.old) n result (G.memory guest.new) n }
{
    let width = flags_bytes(labels);
    let bits = number_of_size(source, at.from, width);
    write_number(guest, at.to, width, low_flags(bits, labels));
    Ok(())
}

/// Crosses a text: it is tested, then its block is asked for, then its bytes and its header are written.
#[inline(always)]
pub(crate) fn cross_text<G: Guest>(
    source: &[u8],
    at: Addresses,
    guest: &mut G,
) -> Result<(), Stopped>
    requires inside { at.from + 8 ≤ length source.now }
    requires room { at.to + 8 ≤ length (G.memory guest.old).bytes }
    requires small { at.to < 2 ^ 32 }
    requires short { length source.now < 2 ^ 32 }
    ensures { (n : ℕ) → Ends G.allocates (Behind (Walks string_type source.now at.from at.to))
        (G.memory guest.old) n result (G.memory guest.new) n }
{
    let start = u32_at(source, at.from) as usize;
    let len = u32_at(source, at.from + 4) as usize;
    let text = match text_in(source, start, len) {
        Ok(text) => text,
        Err(kind) => return Err(Stopped::Source(kind)),
    };
    let place = match ask_block(guest, u32::MAX, 1, text.len()) {
        Ok(place) => place,
        Err(kind) => return Err(Stopped::Target(kind)),
    };
    write_bytes(guest, place, text.as_bytes());
    write_header(guest, at.to, place, text.len());
    Ok(())
}
