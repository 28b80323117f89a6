//! Lifting: the values that flat values denote.
ghost use Rattle.std.specs.Prelude.{◌≡◌, ◌≢◌, ◌≤◌, ◌↔◌, ◌<◌, ◌^◌, ℕ, List, Err, [], ◌∷◌, length, map, IfOk, IfErr};
ghost use Rattle.std.specs.Prelude.{IfSome, option_map, option_to_list};
ghost use Rattle.canonical_abi.specs.Types.{prim_type, record_type, result_fields, field, no_field, IsPlain};
ghost use Rattle.canonical_abi.specs.Flat.{Denotes, DenotesFault};
ghost use Rattle.canonical_abi.specs.Layout.{size, max_flat_params, max_flat_results};
ghost use Rattle.canonical_abi.specs.Reading.{denoting};
ghost use Rattle.canonical_abi.specs.Values.{HaveTypes};
ghost use Rattle.canonical_abi.specs.declared.trap.Step.TheVariants.{Take};
ghost use Rattle.layout.specs.Layout.{layouts_of};
ghost use Rattle.tables.specs.Closed.{closed_type, prim_of};
ghost use Rattle.values.specs.Members.{fields_of_types, AreAllInside};
ghost use Rattle.lift_lower.specs.Crossing.{LiftFails};
ghost use Rattle.lift_lower.specs.NoValue.{AnswersAs, AnswerStands};
ghost use Rattle.lift_lower.specs.Loading.{reading_members};
ghost use Rattle.values.specs.Bytes.{AreBytes};
ghost use Rattle.values.specs.Types.{IsInside};
ghost use Rattle.values.specs.Val.{value_of};

use crate::lift_flat::{lift_at, lift_fields, lift_primitive, low_word};
use crate::loading::{check_block, load_block, load_fields};
use crate::no_value::NoValue;
use canonical_abi::{CoreKind, Fault, Flat, Guest, Step, TrapKind};
use layout::{Layouts, are_kinds};
use std::alloc::Global;
use tables::{Primitive, Resolve, ValType};
use values::{Members, Types, Val, core_kind};

/// The values that flat values denote over a memory, or the first fault, in step `take`. `NoMemory` where
/// the host has none for the values.
pub fn lift<G: Guest>(
    alloc: Global,
    resolve: &Resolve,
    layouts: &Layouts,
    types: &[ValType],
    flats: &[Flat],
    guest: &G,
) -> Result<Vec<Val>, Fault>
    requires laid_out { layouts.now ≡ layouts_of resolve.now }
    requires inside { AreAllInside resolve.now types.now }
    requires small { size (record_type (fields_of_types resolve.now types.now)) ≤ 16777216 }
    ensures values { IfOk result (λ values. Denotes max_flat_params (fields_of_types resolve.now types.now)
        (G.memory guest.now).bytes flats.now (map value_of values.items)) }
    ensures typed { IfOk result (λ values. HaveTypes (map value_of values.items)
        (fields_of_types resolve.now types.now)) }
    ensures fault { IfErr result
        (LiftFails (fields_of_types resolve.now types.now) (G.memory guest.now).bytes flats.now) }
{
    lift_params(alloc, &Types::new(resolve, layouts), types, flats, guest)
}

/// `lift` over the types of a package.
pub fn lift_params<G: Guest>(
    alloc: Global,
    table: &Types,
    types: &[ValType],
    flats: &[Flat],
    guest: &G,
) -> Result<Vec<Val>, Fault>
    requires inside { AreAllInside table.now types.now }
    requires small { size (record_type (fields_of_types table.now types.now)) ≤ 16777216 }
    ensures values { IfOk result (λ values. Denotes max_flat_params (fields_of_types table.now types.now)
        (G.memory guest.now).bytes flats.now (map value_of values.items)) }
    ensures typed { IfOk result (λ values. HaveTypes (map value_of values.items)
        (fields_of_types table.now types.now)) }
    ensures fault { IfErr result
        (LiftFails (fields_of_types table.now types.now) (G.memory guest.now).bytes flats.now) }
{
    // A memory's length is a number of 32 bits, and so is that of each of its blocks.
    let _len = guest.len();
    match lift_values(alloc, table, types, flats, guest.bytes(), 16) {
        Ok(values) => Ok(values),
        Err(no_value) => Err(no_value.at(Step::Take)),
    }
}

/// The value of a result that flat values denote over a memory, of which at most one goes flat, or the first
/// fault, in step `take`. Where there is no result, there is no value. `NoMemory` where the host has none for
/// the value, and never where its type is plain: its values have no parts.
pub fn lift_result<G: Guest>(
    alloc: Global,
    table: &Types,
    ty: Option<ValType>,
    flats: &[Flat],
    guest: &G,
) -> Result<Option<Val>, Fault>
    requires inside { IfSome ty (IsInside table.now) }
    ensures value { let ts = result_fields (option_map (closed_type table.now) ty) in
        AnswerStands Take (λ v. Denotes max_flat_results ts (G.memory guest.now).bytes flats.now
        (option_to_list (option_map value_of v)))
        (DenotesFault max_flat_results ts (G.memory guest.now).bytes flats.now) result }
    ensures plain { IfSome ty (λ t. IsPlain (closed_type table.now t)) → result ≢ Err Fault.NoMemory }
    ensures typed { IfOk result (λ v. HaveTypes (option_to_list (option_map value_of v))
        (result_fields (option_map (closed_type table.now) ty))) }
{
    let Some(ty) = ty else {
        if flats.is_empty() {
            return Ok(None);
        }
        return Err(NoValue::Trap(TrapKind::CoreSignature).at(Step::Take));
    };
    // A memory's length is a number of 32 bits, and so is that of each of its blocks.
    let _len = guest.len();
    match lift_value(alloc, table, ty, flats, guest.bytes()) {
        Ok(value) => Ok(Some(value)),
        Err(no_value) => Err(no_value.at(Step::Take)),
    }
}

/// The value that flat values denote, of which at most one goes flat.
fn lift_value(
    alloc: Global,
    table: &Types,
    ty: ValType,
    flats: &[Flat],
    memory: &[u8],
) -> Result<Val, NoValue>
    requires inside { IsInside table.now ty }
    ensures value { AnswersAs (λ v. value_of v ∷ []) result
        (denoting max_flat_results (field (closed_type table.now ty) no_field) memory.now flats.now) }
    ensures plain { IsPlain (closed_type table.now ty) → result ≢ Err NoValue.NoMemory }
    ensures bytes { AreBytes memory.now }
{
    if let ValType::Primitive(primitive) = ty {
        return lift_one(primitive, flats);
    }
    let Some(kinds) = table.kinds_within(&[ty], 1) else {
        if !are_kinds(&[CoreKind::I32], flats) {
            return Err(NoValue::Trap(TrapKind::CoreSignature));
        }
        let at = low_word(flats, 0);
        return load_block(alloc, table, ty, memory, at);
    };
    if !are_kinds(kinds.as_slice(), flats) {
        return Err(NoValue::Trap(TrapKind::CoreSignature));
    }
    lift_at(alloc, table, ty, memory, flats)
}

/// The value of a primitive type that flat values denote.
fn lift_one(primitive: Primitive, flats: &[Flat]) -> Result<Val, NoValue>
    ensures value { (m : List ℕ) → AnswersAs (λ v. value_of v ∷ []) result
        (denoting max_flat_results (field (prim_type (prim_of primitive)) no_field) m flats.now) }
    ensures plain { result ≢ Err NoValue.NoMemory }
{
    if !are_kinds(&[core_kind(primitive)], flats) {
        return Err(NoValue::Trap(TrapKind::CoreSignature));
    }
    lift_primitive(primitive, flats)
}

/// The values that flat values denote, of which at most `limit` go flat.
pub(crate) fn lift_values(
    alloc: Global,
    table: &Types,
    types: &[ValType],
    flats: &[Flat],
    memory: &[u8],
    limit: usize,
) -> Result<Vec<Val>, NoValue>
    requires inside { AreAllInside table.now types.now }
    requires small { size (record_type (fields_of_types table.now types.now)) ≤ 16777216 }
    requires limit { limit ≤ 16 }
    ensures value { AnswersAs (λ v. map value_of v.items) result
        (denoting limit (fields_of_types table.now types.now) memory.now flats.now) }
    ensures bytes { AreBytes memory.now }
{
    let Some(kinds) = table.kinds_within(types, limit) else {
        if !are_kinds(&[CoreKind::I32], flats) {
            return Err(NoValue::Trap(TrapKind::CoreSignature));
        }
        let at = low_word(flats, 0) as usize;
        return load_spilled(alloc, table, types, memory, at);
    };
    if !are_kinds(kinds.as_slice(), flats) {
        return Err(NoValue::Trap(TrapKind::CoreSignature));
    }
    let members = Members::Listed(types);
    lift_fields(alloc, table, &members, types.len(), memory, flats)
}

/// The values of a record at an address.
fn load_spilled(
    alloc: Global,
    table: &Types,
    types: &[ValType],
    memory: &[u8],
    at: usize,
) -> Result<Vec<Val>, NoValue>
    requires inside { AreAllInside table.now types.now }
    requires small { size (record_type (fields_of_types table.now types.now)) ≤ 16777216 }
    requires at { at < 2 ^ 32 }
    ensures { AnswersAs (λ v. map value_of v.items) result
        (reading_members (fields_of_types table.now types.now) memory.now at) }
{
    let (size, align) = table.record_extent(types);
    check_block(memory, at, align, size)?;
    let members = Members::Listed(types);
    load_fields(alloc, table, &members, types.len(), memory, at)
}
