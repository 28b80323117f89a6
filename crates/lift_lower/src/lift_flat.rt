//! Values in flat values, as numbers: what a joined core value has above a kind's own bits is cut off.
//!
//! The walk goes down the type and takes from the front of the flat values; texts and lists are loaded.
ghost use Rattle.std.specs.Prelude.{◌≡◌, ◌≢◌, Err, ◌+◌, ◌%◌, ◌<◌, ◌≤◌, ℕ, List, length, map, drop};
ghost use Rattle.canonical_abi.specs.Types.{IsPlain, AllPlain, variant_cases, field_count, prim_type, variant_type};
ghost use Rattle.canonical_abi.specs.Layout.{flat_kinds, field_kinds, payload_kinds};
ghost use Rattle.canonical_abi.specs.Reading.{number_of, low_bits, lifting, lifting_fields, lifting_case};
ghost use Rattle.tables.specs.Closed.{prim_of, closed_type};
ghost use Rattle.lift_lower.specs.NoValue.{AnswersAs};
ghost use Rattle.values.specs.Members.{AreInside, members_fields};
ghost use Rattle.values.specs.Types.{IsInside};
ghost use Rattle.values.specs.Val.{value_of};

use crate::loading::{load_list, load_text};
use crate::no_value::NoValue;
use canonical_abi::{Flat, TrapKind};
use layout::Shape;
use std::alloc::Global;
use tables::{Primitive, ValType};
use values::{Members, Types, Val, lift_scalar};

/// The low 32 bits of a flat value.
#[tactic(auto, unfolding(canonical_abi::specs::Reading::low_bits))]
pub fn low_word(flats: &[Flat], index: usize) -> u32
    requires { index < length flats.now }
    ensures { result ≡ low_bits (map number_of flats.now) index 32 }
{
    (flats[index].number() % 0x1_0000_0000) as u32
}

#[tactic(auto, unfolding(canonical_abi::specs::Reading::low_bits))]
pub(crate) fn lift_primitive(primitive: Primitive, flats: &[Flat]) -> Result<Val, NoValue>
    requires { 0 < length flats.now }
    ensures value { (m : List ℕ) → AnswersAs value_of result
        (lifting (prim_type (prim_of primitive)) m (map number_of flats.now)) }
    ensures plain { result ≢ Err NoValue.NoMemory }
{
    match lift_scalar(primitive, flats[0]) {
        Ok(scalar) => Ok(scalar.to_val()),
        Err(kind) => Err(NoValue::Trap(kind)),
    }
}

/// The value in the first of these flat values.
#[cycle(lift)]
pub(crate) fn lift_at(
    alloc: Global,
    table: &Types,
    ty: ValType,
    memory: &[u8],
    flats: &[Flat],
) -> Result<Val, NoValue>
    requires inside { IsInside table.now ty }
    requires carried { length (flat_kinds (closed_type table.now ty)) ≤ length flats.now }
    requires few { length flats.now ≤ 16 }
    ensures value { AnswersAs value_of result
        (lifting (closed_type table.now ty) memory.now (map number_of flats.now)) }
    ensures plain { IsPlain (closed_type table.now ty) → result ≢ Err NoValue.NoMemory }
{
    match table.shape_of(ty) {
        Shape::Primitive(primitive) => lift_primitive(primitive, flats),
        Shape::String => {
            let start = low_word(flats, 0) as usize;
            let size = low_word(flats, 1) as usize;
            load_text(alloc, memory, start, size)
        }
        Shape::List(element) => {
            let start = low_word(flats, 0) as usize;
            let count = low_word(flats, 1) as usize;
            let items = load_list(alloc, table, element, memory, start, count)?;
            Ok(Val::List(items))
        }
        Shape::Record(count) => {
            let members = Members::Of(ty);
            let fields = lift_fields(alloc, table, &members, count, memory, flats)?;
            Ok(Val::Record(fields))
        }
        Shape::Variant(_) => lift_variant(alloc, table, ty, memory, flats),
        Shape::Flags(labels) => Ok(Val::Flags(flags_in(flats, labels))),
    }
}

/// The values of members, each in the flat values behind those of the member before it.
#[cycle(lift)]
pub(crate) fn lift_fields(
    alloc: Global,
    table: &Types,
    members: &Members,
    count: usize,
    memory: &[u8],
    flats: &[Flat],
) -> Result<Vec<Val>, NoValue>
    requires inside { AreInside table.now members.now }
    requires counted { field_count (members_fields table.now members.now) ≡ count }
    requires carried { length (field_kinds (members_fields table.now members.now)) ≤ length flats.now }
    requires few { length flats.now ≤ 16 }
    ensures { AnswersAs (λ v. map value_of v.items) result
        (lifting_fields (members_fields table.now members.now) memory.now (map number_of flats.now)) }
{
    let mut fields = Vec::new(alloc);
    let mut used: usize = 0;
    for index in 0..count {
        let Some(member) = table.member_type(members, index) else {
            unreachable!()
        };
        let rest = &flats[used..];
        let field = lift_at(alloc, table, member, memory, rest)?;
        fields.push(field)?;
        used += table.kind_count(member);
    }
    Ok(fields)
}

/// The case that the first flat value names, with its payload; what the payload leaves is skipped.
#[cycle(lift)]
fn lift_variant(
    alloc: Global,
    table: &Types,
    ty: ValType,
    memory: &[u8],
    flats: &[Flat],
) -> Result<Val, NoValue>
    requires inside { IsInside table.now ty }
    requires variant { variant_type (variant_cases (closed_type table.now ty)) ≡ closed_type table.now ty }
    requires carried { length (payload_kinds (variant_cases (closed_type table.now ty))) < length flats.now }
    requires few { length flats.now ≤ 16 }
    ensures value { let ns = map number_of flats.now in
        AnswersAs value_of result (lifting_case (variant_cases (closed_type table.now ty)) memory.now (drop 1 ns)
        (low_bits ns 0 32) (low_bits ns 0 32)) }
    ensures plain { AllPlain (variant_cases (closed_type table.now ty)) → result ≢ Err NoValue.NoMemory }
{
    let case = low_word(flats, 0);
    let Some(payload) = table.case_payload(ty, case as usize) else {
        return Err(NoValue::Trap(TrapKind::Case));
    };
    let Some(member) = payload else {
        return Ok(Val::Variant(case, None));
    };
    let rest = &flats[1..];
    let value = lift_at(alloc, table, member, memory, rest)?;
    Ok(Val::Variant(case, Some(Box::new(alloc, value)?)))
}

/// The flags in the first flat value: as many low bits as there are labels.
#[tactic(auto, unfolding(canonical_abi::specs::Reading::low_bits))]
pub fn flags_in(flats: &[Flat], labels: usize) -> u32
    requires some { 0 < length flats.now }
    requires labels { labels ≤ 32 }
    ensures { result ≡ low_bits (map number_of flats.now) 0 labels }
{
    (flats[0].number() % (1 << labels)) as u32
}
