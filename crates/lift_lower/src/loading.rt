//! Loading: the values that stand in a memory.
//!
//! The walk goes down the type, whose depth is bounded; long lists are loops.
ghost use Rattle.std.specs.Prelude.{◌≡◌, ◌≢◌, Err, IfOk, ◌+◌, ◌*◌, ◌<◌, ◌≤◌, ◌^◌, length, map};
ghost use Rattle.canonical_abi.specs.Types.{IsPlain, AllPlain, variant_cases, field_count, case_count, prim_type};
ghost use Rattle.canonical_abi.specs.Types.{variant_type, record_fields};
ghost use Rattle.canonical_abi.specs.Values.{HasType, values_of, list_value};
ghost use Rattle.canonical_abi.specs.Layout.{size, align, payload_place, end_from, field_extents};
ghost use Rattle.canonical_abi.specs.Memory.{HoldsInBlock, FaultyInBlock};
ghost use Rattle.canonical_abi.specs.Reading.{reading, text_at, block_at, list_at, reading_fields, reading_case};
ghost use Rattle.canonical_abi.specs.Reading.{case_number};
ghost use Rattle.canonical_abi.specs.declared.trap.Step.TheVariants.{Take};
ghost use Rattle.layout.specs.Layout.{layouts_of};
ghost use Rattle.tables.specs.Closed.{prim_of, closed_type};
ghost use Rattle.lift_lower.specs.NoValue.{AnswersAs, AnswerStands};
ghost use Rattle.lift_lower.specs.Loading.{reading_block};
ghost use Rattle.values.specs.Bytes.{AreBytes};
ghost use Rattle.values.specs.Members.{AreInside, members_fields};
ghost use Rattle.values.specs.Types.{IsInside};
ghost use Rattle.values.specs.Val.{value_of};

use crate::guest_blocks::aligned;
use crate::no_value::NoValue;
use crate::record_fields::field_at;
use crate::scalar_lists::load_scalars;
use canonical_abi::{Fault, Guest, Step, TrapKind};
use layout::{Layouts, Shape};
use std::alloc::Global;
use tables::{Primitive, Resolve, ValType};
use values::bytes::{
    discriminant_bytes, flags_bytes, low_flags, number_of_size, test_block, u8_at, u16_at, u32_at,
    u64_at,
};
use values::{Members, Types, Val, text_in};

/// Tests a block's alignment, then its end.
pub(crate) fn check_block(
    memory: &[u8],
    at: usize,
    align: usize,
    size: usize,
) -> Result<(), NoValue>
    requires aligned { 0 < align }
    requires fits { at + size < 2 ^ 64 }
    ensures value { AnswersAs (λ _. at) result (block_at memory.now at align size) }
    ensures plain { result ≢ Err NoValue.NoMemory }
{
    match test_block(memory.len(), at, align, size) {
        Ok(()) => Ok(()),
        Err(kind) => Err(NoValue::Trap(kind)),
    }
}

pub(crate) fn load_primitive(primitive: Primitive, memory: &[u8], at: usize) -> Result<Val, NoValue>
    requires { at + size (prim_type (prim_of primitive)) ≤ length memory.now }
    ensures value { AnswersAs value_of result (reading (prim_type (prim_of primitive)) memory.now at) }
    ensures plain { result ≢ Err NoValue.NoMemory }
{
    match primitive {
        Primitive::Bool => Ok(Val::Bool(u8_at(memory, at) != 0)),
        Primitive::S8 => Ok(Val::S8(u8_at(memory, at).cast_signed())),
        Primitive::U8 => Ok(Val::U8(u8_at(memory, at))),
        Primitive::S16 => Ok(Val::S16(u16_at(memory, at).cast_signed())),
        Primitive::U16 => Ok(Val::U16(u16_at(memory, at))),
        Primitive::S32 => Ok(Val::S32(u32_at(memory, at).cast_signed())),
        Primitive::U32 => Ok(Val::U32(u32_at(memory, at))),
        Primitive::S64 => Ok(Val::S64(u64_at(memory, at).cast_signed())),
        Primitive::U64 => Ok(Val::U64(u64_at(memory, at))),
        Primitive::Char => match char::from_u32(u32_at(memory, at)) {
            Some(c) => Ok(Val::Char(c)),
            None => Err(NoValue::Trap(TrapKind::Char)),
        },
    }
}

/// The text of so many bytes.
pub(crate) fn load_text(
    alloc: Global,
    memory: &[u8],
    start: usize,
    size: usize,
) -> Result<Val, NoValue>
    requires { start + size < 2 ^ 64 }
    ensures { AnswersAs value_of result (text_at memory.now start size) }
{
    match text_in(memory, start, size) {
        Ok(text) => Ok(Val::String(String::from_str(alloc, text)?)),
        Err(kind) => Err(NoValue::Trap(kind)),
    }
}

/// The value at a place that lies inside the memory.
#[cycle(load)]
#[inline(always)]
pub(crate) fn load_at(
    alloc: Global,
    table: &Types,
    ty: ValType,
    memory: &[u8],
    at: usize,
) -> Result<Val, NoValue>
    requires inside { IsInside table.now ty }
    requires fits { at + size (closed_type table.now ty) ≤ length memory.now }
    ensures value { AnswersAs value_of result (reading (closed_type table.now ty) memory.now at) }
    ensures plain { IsPlain (closed_type table.now ty) → result ≢ Err NoValue.NoMemory }
{
    match ty {
        ValType::Primitive(primitive) => load_primitive(primitive, memory, at),
        _ => load_compound(alloc, table, ty, memory, at),
    }
}

#[cycle(load)]
fn load_compound(
    alloc: Global,
    table: &Types,
    ty: ValType,
    memory: &[u8],
    at: usize,
) -> Result<Val, NoValue>
    requires inside { IsInside table.now ty }
    requires fits { at + size (closed_type table.now ty) ≤ length memory.now }
    ensures value { AnswersAs value_of result (reading (closed_type table.now ty) memory.now at) }
    ensures plain { IsPlain (closed_type table.now ty) → result ≢ Err NoValue.NoMemory }
{
    match table.shape_of(ty) {
        Shape::Primitive(primitive) => load_primitive(primitive, memory, at),
        Shape::String => {
            let start = u32_at(memory, at) as usize;
            let size = u32_at(memory, at + 4) as usize;
            load_text(alloc, memory, start, size)
        }
        Shape::List(element) => {
            let start = u32_at(memory, at) as usize;
            let count = u32_at(memory, at + 4) as usize;
            let items = load_list(alloc, table, element, memory, start, count)?;
            Ok(Val::List(items))
        }
        Shape::Record(count) => {
            let fields = load_record(alloc, table, ty, count, memory, at)?;
            Ok(Val::Record(fields))
        }
        Shape::Variant(count) => load_variant(alloc, table, ty, count, memory, at),
        Shape::Flags(labels) => {
            let bits = number_of_size(memory, at, flags_bytes(labels));
            Ok(Val::Flags(low_flags(bits, labels)))
        }
    }
}

/// The values of a list, which stand one after another.
#[cycle(load)]
pub(crate) fn load_list(
    alloc: Global,
    table: &Types,
    element: ValType,
    memory: &[u8],
    start: usize,
    count: usize,
) -> Result<Vec<Val>, NoValue>
    requires inside { IsInside table.now element }
    requires start { start < 2 ^ 32 }
    requires count { count < 2 ^ 32 }
    ensures { let t = closed_type table.now element in
        AnswersAs (λ v. list_value (values_of (map value_of v.items))) result
        (list_at (reading t memory.now) memory.now (align t) (size t) start count) }
{
    let step = table.size_of(element);
    let align = table.align_of(element);
    check_block(memory, start, align, count * step)?;
    if let ValType::Primitive(primitive) = element {
        return load_scalars(alloc, primitive, memory, start, count);
    }
    let mut items = Vec::new(alloc);
    for index in 0..count {
        let item = load_at(alloc, table, element, memory, start + index * step)?;
        items.push(item)?;
    }
    Ok(items)
}

/// The members of a record, each at the next multiple of its alignment.
pub(crate) fn load_fields(
    alloc: Global,
    table: &Types,
    members: &Members,
    count: usize,
    memory: &[u8],
    at: usize,
) -> Result<Vec<Val>, NoValue>
    requires inside { AreInside table.now members.now }
    requires counted { field_count (members_fields table.now members.now) ≡ count }
    requires fits { at + end_from 0 (field_extents (members_fields table.now members.now)) ≤ length memory.now }
    ensures { AnswersAs (λ v. map value_of v.items) result
        (reading_fields (members_fields table.now members.now) memory.now at 0) }
{
    if let Members::Of(ty) = members {
        return load_record(alloc, table, *ty, count, memory, at);
    }
    let mut fields = Vec::new(alloc);
    fields.reserve(count)?;
    let mut end: usize = 0;
    for index in 0..count {
        let Some(member) = table.member_type(members, index) else {
            unreachable!()
        };
        let place = aligned(end, table.align_of(member));
        let field = load_at(alloc, table, member, memory, at + place)?;
        fields.push(field)?;
        end = place + table.size_of(member);
    }
    Ok(fields)
}

/// The fields of a record, each at the place that the layout table tells.
#[cycle(load)]
fn load_record(
    alloc: Global,
    table: &Types,
    ty: ValType,
    count: usize,
    memory: &[u8],
    at: usize,
) -> Result<Vec<Val>, NoValue>
    requires inside { IsInside table.now ty }
    requires counted { field_count (record_fields (closed_type table.now ty)) ≡ count }
    requires fits { at + end_from 0 (field_extents (record_fields (closed_type table.now ty))) ≤ length memory.now }
    ensures { AnswersAs (λ v. map value_of v.items) result
        (reading_fields (record_fields (closed_type table.now ty)) memory.now at 0) }
{
    let mut fields = Vec::new(alloc);
    fields.reserve(count)?;
    for index in 0..count {
        let Some(field) = field_at(table, ty, index) else {
            unreachable!()
        };
        let place = at + field.offset as usize;
        let value = load_at(alloc, table, field.ty, memory, place)?;
        fields.push(value)?;
    }
    Ok(fields)
}

/// The case that the discriminant names, with its payload.
#[cycle(load)]
fn load_variant(
    alloc: Global,
    table: &Types,
    ty: ValType,
    count: usize,
    memory: &[u8],
    at: usize,
) -> Result<Val, NoValue>
    requires inside { IsInside table.now ty }
    requires variant { variant_type (variant_cases (closed_type table.now ty)) ≡ closed_type table.now ty }
    requires counted { case_count (variant_cases (closed_type table.now ty)) ≡ count }
    requires fits { at + size (closed_type table.now ty) ≤ length memory.now }
    ensures value { let cs = variant_cases (closed_type table.now ty) in
        let i = case_number cs memory.now at in
        AnswersAs value_of result (reading_case cs memory.now (at + payload_place cs) i i) }
    ensures plain { AllPlain (variant_cases (closed_type table.now ty)) → result ≢ Err NoValue.NoMemory }
{
    let case = number_of_size(memory, at, discriminant_bytes(count));
    let Some(payload) = table.case_payload(ty, case as usize) else {
        return Err(NoValue::Trap(TrapKind::Case));
    };
    let Some(member) = payload else {
        return Ok(Val::Variant(case, None));
    };
    // A payload stands at the variant's alignment.
    let place = table.align_of(ty);
    let value = load_at(alloc, table, member, memory, at + place)?;
    Ok(Val::Variant(case, Some(Box::new(alloc, value)?)))
}

/// The value at an address of a guest's memory, or the first fault: the address's own, then those of the
/// nodes in order, in step `take`. `NoMemory` where the host has none for the value, and never where the type
/// is plain: its values have no parts.
pub fn load<G: Guest>(
    alloc: Global,
    resolve: &Resolve,
    layouts: &Layouts,
    ty: ValType,
    guest: &G,
    at: u32,
) -> Result<Val, Fault>
    requires laid_out { layouts.now ≡ layouts_of resolve.now }
    requires inside { IsInside resolve.now ty }
    ensures value { let t = closed_type resolve.now ty in
        AnswerStands Take (λ v. HoldsInBlock t (G.memory guest.now).bytes at (value_of v))
        (FaultyInBlock t (G.memory guest.now).bytes at) result }
    ensures plain { IsPlain (closed_type resolve.now ty) → result ≢ Err Fault.NoMemory }
    ensures typed { IfOk result (λ v. HasType (value_of v) (closed_type resolve.now ty)) }
{
    let table = &Types::new(resolve, layouts);
    // A memory's length is a number of 32 bits.
    let _len = guest.len();
    match load_block(alloc, table, ty, guest.bytes(), at) {
        Ok(value) => Ok(value),
        Err(no_value) => Err(no_value.at(Step::Take)),
    }
}

/// The value in the block at an address.
pub(crate) fn load_block(
    alloc: Global,
    table: &Types,
    ty: ValType,
    memory: &[u8],
    at: u32,
) -> Result<Val, NoValue>
    requires inside { IsInside table.now ty }
    ensures value { let t = closed_type table.now ty in
        AnswersAs value_of result (reading_block t memory.now at) }
    ensures plain { IsPlain (closed_type table.now ty) → result ≢ Err NoValue.NoMemory }
    ensures bytes { AreBytes memory.now }
{
    let at = at as usize;
    let align = table.align_of(ty);
    check_block(memory, at, align, table.size_of(ty))?;
    load_at(alloc, table, ty, memory, at)
}
