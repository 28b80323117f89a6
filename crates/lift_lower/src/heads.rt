//! The head of a node: what it has of its own in memory or in flat values, without the nodes below it. Heads take no
//! memory of the host.
ghost use Rattle.std.specs.Prelude.{◌≡◌, ◌+◌, ◌*◌, ◌^◌, ◌<◌, ◌≤◌, length, map, IfOk, IfErr};
ghost use Rattle.std.specs.Int.{byte_len};
ghost use Rattle.canonical_abi.specs.Layout.{size, prim_width};
ghost use Rattle.canonical_abi.specs.Memory.{PrimIs, PrimFaulty, BlockHolds, BlockFaulty};
ghost use Rattle.canonical_abi.specs.Reading.{number_at, number_of, low_bits, flat_bits};
ghost use Rattle.canonical_abi.specs.Trace.{TraceLeads};
ghost use Rattle.tables.specs.Closed.{prim_of, closed_type};
ghost use Rattle.lift_lower.specs.Heads.{HeadHolds, HeadFaulty, HeadLifts, HeadLiftFaulty, IsHeadOf, head_flats};
ghost use Rattle.lift_lower.specs.Heads.{head_writes};
ghost use Rattle.values.specs.Scalar.{prim_in, value_in};
ghost use Rattle.values.specs.Types.{IsInside};

use crate::guest_blocks::{write_header, write_number, write_scalar};
use crate::lift_flat::{flags_in, low_word};
use canonical_abi::{Flat, Guest, TrapKind};
use layout::Shape;
use tables::{Primitive, ValType};
use values::bytes::{
    discriminant_bytes, flags_bytes, low_flags, number_of_size, test_block, u8_at, u16_at, u32_at,
    u64_at,
};
use values::{Scalar, Types, lift_scalar};

/// What a node has of its own.
#[derive(Clone, Copy, Debug, PartialEq, Eq)]
pub enum Head {
    /// A value of a primitive type other than string.
    Scalar(Scalar),
    /// Where the bytes of a text or the elements of a list begin, and how many they are.
    Block(u32, u32),
    /// The number of a variant's case.
    Case(u32),
    /// The bits of flags.
    Flags(u32),
    /// A record has only its fields.
    Nothing,
}

/// The value of a primitive type in memory.
pub fn scalar_at(primitive: Primitive, memory: &[u8], at: usize) -> Result<Scalar, TrapKind>
    requires inside { at + byte_len (prim_width (prim_of primitive)) ≤ length memory.now }
    ensures typed { IfOk result (λ s. prim_in s ≡ prim_of primitive) }
    ensures value { IfOk result (λ s. PrimIs (prim_of primitive)
        (number_at memory.now at (prim_width (prim_of primitive))) (value_in s)) }
    ensures fault { IfErr result (PrimFaulty (prim_of primitive)
        (number_at memory.now at (prim_width (prim_of primitive)))) }
{
    match primitive {
        Primitive::Bool => Ok(Scalar::Bool(u8_at(memory, at) != 0)),
        Primitive::S8 => Ok(Scalar::S8(u8_at(memory, at).cast_signed())),
        Primitive::U8 => Ok(Scalar::U8(u8_at(memory, at))),
        Primitive::S16 => Ok(Scalar::S16(u16_at(memory, at).cast_signed())),
        Primitive::U16 => Ok(Scalar::U16(u16_at(memory, at))),
        Primitive::S32 => Ok(Scalar::S32(u32_at(memory, at).cast_signed())),
        Primitive::U32 => Ok(Scalar::U32(u32_at(memory, at))),
        Primitive::S64 => Ok(Scalar::S64(u64_at(memory, at).cast_signed())),
        Primitive::U64 => Ok(Scalar::U64(u64_at(memory, at))),
        Primitive::Char => match char::from_u32(u32_at(memory, at)) {
            Some(c) => Ok(Scalar::Char(c)),
            None => Err(TrapKind::Char),
        },
    }
}

/// The value of a primitive type in the first of these flat values.
#[tactic(auto, unfolding(canonical_abi::specs::Reading::low_bits))]
pub fn scalar_in(primitive: Primitive, flats: &[Flat]) -> Result<Scalar, TrapKind>
    requires { 0 < length flats.now }
    ensures typed { IfOk result (λ s. prim_in s ≡ prim_of primitive) }
    ensures value { IfOk result (λ s. PrimIs (prim_of primitive)
        (low_bits (map number_of flats.now) 0 (flat_bits (prim_of primitive))) (value_in s)) }
    ensures fault { IfErr result (PrimFaulty (prim_of primitive)
        (low_bits (map number_of flats.now) 0 (flat_bits (prim_of primitive)))) }
{
    lift_scalar(primitive, flats[0])
}

fn block_head(
    memory: &[u8],
    start: u32,
    count: u32,
    align: usize,
    size: usize,
) -> Result<Head, TrapKind>
    requires aligned { 0 < align }
    requires small { size < 2 ^ 32 }
    ensures ok { IfOk result (λ h. (h ≡ Head.Block start count) × BlockHolds memory.now start align (count * size)) }
    ensures fault { IfErr result (BlockFaulty memory.now start align (count * size)) }
{
    test_block(memory.len(), start as usize, align, count as usize * size)?;
    Ok(Head::Block(start, count))
}

fn case_head(number: u32, cases: usize) -> Result<Head, TrapKind>
    ensures ok { IfOk result (λ h. (number < cases) × (h ≡ Head.Case number)) }
    ensures fault { IfErr result (λ k. (cases ≤ number) × (k ≡ TrapKind.Case)) }
{
    if (number as usize) < cases {
        Ok(Head::Case(number))
    } else {
        Err(TrapKind::Case)
    }
}

/// The head of the node at an address of a memory, with the tests of that node: a character's code, a case's number,
/// the alignment and the end of a list's block, the end of a text's. A text's bytes are not read, so that a head takes
/// the same time for every text: `str_at` tests them (K5 utf8).
pub fn head_at(table: &Types, ty: ValType, memory: &[u8], at: usize) -> Result<Head, TrapKind>
    requires inside { IsInside table.now ty }
    requires fits { at + size (closed_type table.now ty) ≤ length memory.now }
    ensures head { IfOk result (HeadHolds (closed_type table.now ty) memory.now at) }
    ensures fault { IfErr result (HeadFaulty (closed_type table.now ty) memory.now at) }
{
    match table.shape_of(ty) {
        Shape::Primitive(primitive) => match scalar_at(primitive, memory, at) {
            Ok(scalar) => Ok(Head::Scalar(scalar)),
            Err(kind) => Err(kind),
        },
        Shape::String => block_head(memory, u32_at(memory, at), u32_at(memory, at + 4), 1, 1),
        Shape::List(element) => {
            let start = u32_at(memory, at);
            let count = u32_at(memory, at + 4);
            let align = table.align_of(element);
            block_head(memory, start, count, align, table.size_of(element))
        }
        Shape::Record(_) => Ok(Head::Nothing),
        Shape::Variant(cases) => {
            case_head(number_of_size(memory, at, discriminant_bytes(cases)), cases)
        }
        Shape::Flags(labels) => {
            let bits = number_of_size(memory, at, flags_bytes(labels));
            Ok(Head::Flags(low_flags(bits, labels)))
        }
    }
}

/// The head of the node in the first of these flat values, with the same tests. The blocks that it names are those of
/// the memory. Two flat values are enough for every type.
pub fn head_of(table: &Types, ty: ValType, memory: &[u8], flats: &[Flat]) -> Result<Head, TrapKind>
    requires inside { IsInside table.now ty }
    requires carried { head_flats (closed_type table.now ty) ≤ length flats.now }
    ensures head { IfOk result (HeadLifts (closed_type table.now ty) memory.now (map number_of flats.now)) }
    ensures fault { IfErr result (HeadLiftFaulty (closed_type table.now ty) memory.now (map number_of flats.now)) }
{
    match table.shape_of(ty) {
        Shape::Primitive(primitive) => match scalar_in(primitive, flats) {
            Ok(scalar) => Ok(Head::Scalar(scalar)),
            Err(kind) => Err(kind),
        },
        Shape::String => block_head(memory, low_word(flats, 0), low_word(flats, 1), 1, 1),
        Shape::List(element) => {
            let start = low_word(flats, 0);
            let count = low_word(flats, 1);
            let align = table.align_of(element);
            block_head(memory, start, count, align, table.size_of(element))
        }
        Shape::Record(_) => Ok(Head::Nothing),
        Shape::Variant(cases) => case_head(low_word(flats, 0), cases),
        Shape::Flags(labels) => Ok(Head::Flags(flags_in(flats, labels))),
    }
}

/// Writes a head of this type at an address: its own bytes and no others, and none of a record.
pub fn put_head<G: Guest>(table: &Types, ty: ValType, head: Head, guest: &mut G, at: usize)
    requires inside { IsInside table.now ty }
    requires known { IsHeadOf (closed_type table.now ty) head }
    requires room { at + size (closed_type table.now ty) ≤ length (G.memory guest.old).bytes }
    requires small { at < 2 ^ 32 }
    ensures led { TraceLeads G.allocates (G.memory guest.old) (head_writes head (closed_type table.now ty) at)
        (G.memory guest.new) }
    ensures same_length { length (G.memory guest.new).bytes ≡ length (G.memory guest.old).bytes }
{
    match head {
        Head::Scalar(scalar) => write_scalar(guest, at, scalar),
        Head::Block(start, count) => write_header(guest, at, start as usize, count as usize),
        Head::Case(number) => {
            let Shape::Variant(cases) = table.shape_of(ty) else {
                unreachable!()
            };
            write_number(guest, at, discriminant_bytes(cases), number);
        }
        Head::Flags(bits) => {
            let Shape::Flags(labels) = table.shape_of(ty) else {
                unreachable!()
            };
            write_number(guest, at, flags_bytes(labels), bits);
        }
        Head::Nothing => {}
    }
}
