//! Lists of values of primitive types other than string, whose type is looked at once and not for each. Their bytes are
//! put into a buffer, and a chunk of them is written at once.
ghost use Rattle.std.specs.Prelude.{◌≡◌, ◌+◌, ◌*◌, ◌^◌, ◌<◌, ◌≤◌, length, take, map};
ghost use Rattle.std.specs.Int.{byte_len, to_le_bytes};
ghost use Rattle.std.specs.List.{AllByRecursion};
ghost use Rattle.canonical_abi.specs.Guest.{overwrite};
ghost use Rattle.canonical_abi.specs.Layout.{prim_width};
ghost use Rattle.canonical_abi.specs.Reading.{reading, each_at};
ghost use Rattle.canonical_abi.specs.Storing.{number_in};
ghost use Rattle.canonical_abi.specs.Trace.{EventLeads, write};
ghost use Rattle.canonical_abi.specs.Types.{prim_type};
ghost use Rattle.canonical_abi.specs.Values.{HasType};
ghost use Rattle.tables.specs.Closed.{prim_of};
ghost use Rattle.lift_lower.specs.NoValue.{AnswersAs};
ghost use Rattle.lift_lower.specs.ScalarLists.{bytes_of_scalars};
ghost use Rattle.values.specs.Scalar.{prim_in, value_in};
ghost use Rattle.values.specs.Val.{value_of};

use crate::guest_blocks::write_bytes;
use crate::loading::load_primitive;
use crate::no_value::NoValue;
use canonical_abi::Guest;
use std::alloc::Global;
use tables::Primitive;
use values::{Scalar, Val};

/// The bytes of a value of a primitive type.
fn scalar_bytes(primitive: Primitive) -> usize
    ensures value { result ≡ byte_len (prim_width (prim_of primitive)) }
    ensures few { result ≤ 8 }
{
    match primitive {
        Primitive::Bool | Primitive::S8 | Primitive::U8 => 1,
        Primitive::S16 | Primitive::U16 => 2,
        Primitive::S32 | Primitive::U32 | Primitive::Char => 4,
        Primitive::S64 | Primitive::U64 => 8,
    }
}

/// Puts bytes into a buffer.
#[inline(always)]
fn put(buffer: &mut [u8], at: usize, bytes: &[u8])
    requires { at + length bytes.now ≤ length buffer.old }
    ensures { buffer.new ≡ overwrite buffer.old at bytes.now }
{
    buffer[at..at + bytes.len()].copy_from_slice(bytes);
}

/// Puts the bytes of a value into a buffer. Where its type is a constant, nothing of it is looked at.
#[inline(always)]
fn put_scalar(primitive: Primitive, scalar: Scalar, buffer: &mut [u8], at: usize)
    requires typed { prim_in scalar ≡ prim_of primitive }
    requires room { at + byte_len (prim_width (prim_of primitive)) ≤ length buffer.old }
    ensures { let w = prim_width (prim_of primitive) in
        buffer.new ≡ overwrite buffer.old at (to_le_bytes w (number_in w (value_in scalar))) }
{
    match (primitive, scalar) {
        (Primitive::Bool, Scalar::Bool(b)) => put(buffer, at, &[u8::from(b)]),
        (Primitive::S8, Scalar::S8(n)) => put(buffer, at, &n.to_le_bytes()),
        (Primitive::U8, Scalar::U8(n)) => put(buffer, at, &n.to_le_bytes()),
        (Primitive::S16, Scalar::S16(n)) => put(buffer, at, &n.to_le_bytes()),
        (Primitive::U16, Scalar::U16(n)) => put(buffer, at, &n.to_le_bytes()),
        (Primitive::S32, Scalar::S32(n)) => put(buffer, at, &n.to_le_bytes()),
        (Primitive::U32, Scalar::U32(n)) => put(buffer, at, &n.to_le_bytes()),
        (Primitive::S64, Scalar::S64(n)) => put(buffer, at, &n.to_le_bytes()),
        (Primitive::U64, Scalar::U64(n)) => put(buffer, at, &n.to_le_bytes()),
        (Primitive::Char, Scalar::Char(c)) => put(buffer, at, &u32::from(c).to_le_bytes()),
        _ => unreachable!(),
    }
}

/// Puts the bytes of values of a primitive type into a buffer, one after another.
#[inline(always)]
fn fill_each(primitive: Primitive, items: &[Val], buffer: &mut [u8])
    requires typed { AllByRecursion (λ v. HasType v (prim_type (prim_of primitive))) (map value_of items.now) }
    requires room { length items.now * byte_len (prim_width (prim_of primitive)) ≤ length buffer.old }
    ensures filled { let w = prim_width (prim_of primitive) in
        take (length items.now * byte_len w) buffer.new ≡ bytes_of_scalars w (map value_of items.now) }
    ensures same_length { length buffer.new ≡ length buffer.old }
{
    let step = scalar_bytes(primitive);
    for index in 0..items.len() {
        let Some(scalar) = Scalar::of(&items[index]) else {
            unreachable!()
        };
        put_scalar(primitive, scalar, buffer, index * step);
    }
}

/// The same, with the type as a constant.
fn fill(primitive: Primitive, items: &[Val], buffer: &mut [u8])
    requires typed { AllByRecursion (λ v. HasType v (prim_type (prim_of primitive))) (map value_of items.now) }
    requires room { length items.now * byte_len (prim_width (prim_of primitive)) ≤ length buffer.old }
    ensures filled { let w = prim_width (prim_of primitive) in
        take (length items.now * byte_len w) buffer.new ≡ bytes_of_scalars w (map value_of items.now) }
    ensures same_length { length buffer.new ≡ length buffer.old }
{
    match primitive {
        Primitive::Bool => fill_each(Primitive::Bool, items, buffer),
        Primitive::S8 => fill_each(Primitive::S8, items, buffer),
        Primitive::U8 => fill_each(Primitive::U8, items, buffer),
        Primitive::S16 => fill_each(Primitive::S16, items, buffer),
        Primitive::U16 => fill_each(Primitive::U16, items, buffer),
        Primitive::S32 => fill_each(Primitive::S32, items, buffer),
        Primitive::U32 => fill_each(Primitive::U32, items, buffer),
        Primitive::S64 => fill_each(Primitive::S64, items, buffer),
        Primitive::U64 => fill_each(Primitive::U64, items, buffer),
        Primitive::Char => fill_each(Primitive::Char, items, buffer),
    }
}

/// Writes values of a primitive type, whose bytes are put into the buffer before.
fn write_chunk<G: Guest>(
    primitive: Primitive,
    items: &[Val],
    buffer: &mut [u8],
    guest: &mut G,
    at: usize,
)
    requires typed { AllByRecursion (λ v. HasType v (prim_type (prim_of primitive))) (map value_of items.now) }
    requires room { length items.now * byte_len (prim_width (prim_of primitive)) ≤ length buffer.old }
    requires inside { at + length items.now * byte_len (prim_width (prim_of primitive))
        ≤ length (G.memory guest.old).bytes }
    requires small { at < 2 ^ 32 }
    ensures led { EventLeads G.allocates (G.memory guest.old)
        (write at (bytes_of_scalars (prim_width (prim_of primitive)) (map value_of items.now))) (G.memory guest.new) }
    ensures same_length { length (G.memory guest.new).bytes ≡ length (G.memory guest.old).bytes }
    ensures same_room { length buffer.new ≡ length buffer.old }
{
    fill(primitive, items, buffer);
    let size = items.len() * scalar_bytes(primitive);
    write_bytes(guest, at, &buffer[..size]);
}

/// Stores values of a primitive type one after another.
pub(crate) fn store_scalars<G: Guest>(
    primitive: Primitive,
    items: &[Val],
    guest: &mut G,
    start: usize,
)
    requires typed { AllByRecursion (λ v. HasType v (prim_type (prim_of primitive))) (map value_of items.now) }
    requires room { start + length items.now * byte_len (prim_width (prim_of primitive))
        ≤ length (G.memory guest.old).bytes }
    requires small { start + length items.now * byte_len (prim_width (prim_of primitive)) < 2 ^ 32 }
    ensures led { EventLeads G.allocates (G.memory guest.old)
        (write start (bytes_of_scalars (prim_width (prim_of primitive)) (map value_of items.now)))
        (G.memory guest.new) }
{
    let step = scalar_bytes(primitive);
    // A chunk has 64 values, of which each has at most eight bytes.
    let mut buffer: [u8; 512] = [0; 512];
    let mut done = 0;
    while done < items.len() {
        let end = items.len().min(done + 64);
        write_chunk(
            primitive,
            &items[done..end],
            &mut buffer,
            guest,
            start + done * step,
        );
        done = end;
    }
}

/// Loads values of a primitive type that stand one after another inside the memory.
#[inline(always)]
fn load_each(
    alloc: Global,
    primitive: Primitive,
    memory: &[u8],
    start: usize,
    count: usize,
) -> Result<Vec<Val>, NoValue>
    requires inside { start + count * byte_len (prim_width (prim_of primitive)) ≤ length memory.now }
    ensures { let p = prim_of primitive in AnswersAs (λ v. map value_of v.items) result
        (each_at (reading (prim_type p) memory.now) (byte_len (prim_width p)) start count) }
{
    let step = scalar_bytes(primitive);
    let mut items = Vec::new(alloc);
    items.reserve(count)?;
    for index in 0..count {
        let item = load_primitive(primitive, memory, start + index * step)?;
        items.push_reserved(item);
    }
    Ok(items)
}

/// The same, with the type as a constant.
pub(crate) fn load_scalars(
    alloc: Global,
    primitive: Primitive,
    memory: &[u8],
    start: usize,
    count: usize,
) -> Result<Vec<Val>, NoValue>
    requires inside { start + count * byte_len (prim_width (prim_of primitive)) ≤ length memory.now }
    ensures { let p = prim_of primitive in AnswersAs (λ v. map value_of v.items) result
        (each_at (reading (prim_type p) memory.now) (byte_len (prim_width p)) start count) }
{
    match primitive {
        Primitive::Bool => load_each(alloc, Primitive::Bool, memory, start, count),
        Primitive::S8 => load_each(alloc, Primitive::S8, memory, start, count),
        Primitive::U8 => load_each(alloc, Primitive::U8, memory, start, count),
        Primitive::S16 => load_each(alloc, Primitive::S16, memory, start, count),
        Primitive::U16 => load_each(alloc, Primitive::U16, memory, start, count),
        Primitive::S32 => load_each(alloc, Primitive::S32, memory, start, count),
        Primitive::U32 => load_each(alloc, Primitive::U32, memory, start, count),
        Primitive::S64 => load_each(alloc, Primitive::S64, memory, start, count),
        Primitive::U64 => load_each(alloc, Primitive::U64, memory, start, count),
        Primitive::Char => load_each(alloc, Primitive::Char, memory, start, count),
    }
}
