//! The caller's side of a typed call: arguments and return area are put into its memory, and the result is
//! taken from there.
ghost use Rattle.std.specs.Prelude.{◌≡◌, ◌≢◌, ◌≤◌, ◌↔◌, ℕ, List, [], IsTrue, Err, length, map, IfOk, IfErr, IfSome};
ghost use Rattle.std.specs.Prelude.{OnOk, option_map, option_to_list};
ghost use Rattle.canonical_abi.specs.Types.{record_type, record_fields, result_fields, AreStandardFields, IsPlain};
ghost use Rattle.canonical_abi.specs.Values.{HaveTypes};
ghost use Rattle.canonical_abi.specs.Layout.{fits_flat, align, size};
ghost use Rattle.canonical_abi.specs.Memory.{BlockHolds};
ghost use Rattle.canonical_abi.specs.Lowering.{PassesParams, SpilledLower};
ghost use Rattle.canonical_abi.specs.Session.{HasResult, HasResultFault};
ghost use Rattle.canonical_abi.specs.declared.trap.Step.TheVariants.{Take};
ghost use Rattle.tables.specs.Closed.{closed_type, function_type, IsFunction};
ghost use Rattle.lift_lower.specs.Crossing.{AreLowered, LowerFails};
ghost use Rattle.lift_lower.specs.NoValue.{AnswerStands};
ghost use Rattle.lift_lower.specs.Lowered.{PassesParamsBy, SpilledLowerBy, CarryScalars};
ghost use Rattle.lift_lower.specs.Placing.{area_at, IsAreaIn, IsAreaAsked, AreaFails};
ghost use Rattle.lift_lower.specs.Scripts.{IsDone, HasEnded};
ghost use Rattle.values.specs.Types.{IsInside};
ghost use Rattle.values.specs.Val.{value_of};

use crate::guest_blocks::ask_block;
use crate::lifting::lift_result;
use crate::loading::load;
use crate::lower_flat::lower_fields;
use crate::storing::{MAX_BLOCK, place_fault, store_fields};
use canonical_abi::{Fault, Flat, Guest, TrapKind};
use std::alloc::Global;
use tables::{FunctionId, TypeId, ValType};
use values::bytes::test_block;
use values::{Flats, Members, Scalar, Types, Val, lower_scalar};

/// Lowers a function's arguments into the caller: their core values replace those that the list had. A trap is in step
/// `place`: the first request that fails. Takes no memory of the host.
pub fn lower_arguments<G: Guest>(
    table: &Types,
    func: FunctionId,
    values: &[Val],
    guest: &mut G,
    flats: &mut Flats,
) -> Result<(), Fault>
    requires function { IsFunction table.now func }
    requires typed { HaveTypes (map value_of values.now) (function_type table.now func).params }
    ensures flats { OnOk result (AreLowered G.allocates (function_type table.now func).params
        (map value_of values.now) (G.memory guest.old) flats.new.items (G.memory guest.new)) }
    ensures few { OnOk result (length flats.new.items ≤ 16) }
    ensures fault { IfErr result (λ fault. LowerFails G.allocates (function_type table.now func).params
        (map value_of values.now) (G.memory guest.old) fault (G.memory guest.new)) }
{
    flats.clear();
    if lower_scalars(values, flats) {
        return Ok(());
    }
    flats.clear();
    // A function's row is the record of its parameters.
    let row = ValType::Id(TypeId(func.0));
    match lower_record(table, row, values, guest, flats) {
        Ok(()) => Ok(()),
        Err(kind) => Err(place_fault(kind)),
    }
}

/// Lowers at most sixteen values without a look at their types, if all are of primitive types other than string: no
/// block is asked for.
fn lower_scalars(values: &[Val], flats: &mut Flats) -> bool
    requires empty { flats.old.items ≡ [] }
    ensures carried { IsTrue result → CarryScalars (map value_of values.now) flats.new.items }
    ensures few { IsTrue result → length flats.new.items ≤ 16 }
{
    if values.len() > 16 {
        return false;
    }
    for value in values {
        let Some(scalar) = Scalar::of(value) else {
            return false;
        };
        flats.push(lower_scalar(scalar));
    }
    true
}

/// Lowers the fields of a record: flat, or into a block where more than sixteen core values would carry them.
fn lower_record<G: Guest>(
    table: &Types,
    ty: ValType,
    values: &[Val],
    guest: &mut G,
    flats: &mut Flats,
) -> Result<(), TrapKind>
    requires empty { flats.old.items ≡ [] }
    requires inside { IsInside table.now ty }
    requires record { closed_type table.now ty ≡ record_type (record_fields (closed_type table.now ty)) }
    requires standard { AreStandardFields (record_fields (closed_type table.now ty)) }
    requires typed { HaveTypes (map value_of values.now) (record_fields (closed_type table.now ty)) }
    ensures ok { OnOk result (IsDone 16777216 G.allocates
        (λ es. PassesParams 16 (record_fields (closed_type table.now ty)) (map value_of values.now) es flats.new.items)
        (G.memory guest.old) (G.memory guest.new)) }
    ensures fault { IfErr result (λ k. HasEnded 16777216 G.allocates
        (PassesParamsBy 16 (record_fields (closed_type table.now ty)) (map value_of values.now))
        (G.memory guest.old) k (G.memory guest.new)) }
{
    if !goes_flat(table, ty) {
        return spill_record(table, ty, values, guest, flats);
    }
    let members = Members::Of(ty);
    lower_fields(table, MAX_BLOCK, &members, values, guest, flats)
}

/// Whether at most sixteen core values carry the fields of a record.
fn goes_flat(table: &Types, ty: ValType) -> bool
    requires inside { IsInside table.now ty }
    requires record { closed_type table.now ty ≡ record_type (record_fields (closed_type table.now ty)) }
    ensures { result ≡ fits_flat 16 (record_fields (closed_type table.now ty)) }
{
    table.count_within(&[ty], 16).is_some()
}

/// Stores the fields of a record in a block of its own, whose address is the one core value.
fn spill_record<G: Guest>(
    table: &Types,
    ty: ValType,
    values: &[Val],
    guest: &mut G,
    flats: &mut Flats,
) -> Result<(), TrapKind>
    requires empty { flats.old.items ≡ [] }
    requires inside { IsInside table.now ty }
    requires record { closed_type table.now ty ≡ record_type (record_fields (closed_type table.now ty)) }
    requires standard { AreStandardFields (record_fields (closed_type table.now ty)) }
    requires typed { HaveTypes (map value_of values.now) (record_fields (closed_type table.now ty)) }
    ensures ok { OnOk result (IsDone 16777216 G.allocates
        (λ es. SpilledLower (record_fields (closed_type table.now ty)) (map value_of values.now) es flats.new.items)
        (G.memory guest.old) (G.memory guest.new)) }
    ensures fault { IfErr result (λ k. HasEnded 16777216 G.allocates
        (SpilledLowerBy (record_fields (closed_type table.now ty)) (map value_of values.now))
        (G.memory guest.old) k (G.memory guest.new)) }
{
    let size = table.size_of(ty);
    let align = table.align_of(ty);
    let start = ask_block(guest, MAX_BLOCK, align, size)?;
    let members = Members::Of(ty);
    store_fields(table, MAX_BLOCK, &members, values, guest, start)?;
    flats.push(Flat::I32(start as u32));
    Ok(())
}

/// Asks for the return area of a call, where the result does not go flat. A trap is in step `place`. Takes no
/// memory of the host.
pub fn ask_area<G: Guest>(
    table: &Types,
    ty: Option<ValType>,
    guest: &mut G,
) -> Result<Option<u32>, Fault>
    requires inside { IfSome ty (IsInside table.now) }
    ensures area { IfOk result (λ area. IsAreaIn (result_fields (option_map (closed_type table.now) ty))
        (G.memory guest.new).bytes area) }
    ensures asked { IfOk result (λ area. IsAreaAsked G.allocates (result_fields (option_map (closed_type table.now) ty))
        (G.memory guest.old) area (G.memory guest.new)) }
    ensures fault { IfErr result (λ fault. AreaFails G.allocates (result_fields (option_map (closed_type table.now) ty))
        (G.memory guest.old) fault (G.memory guest.new)) }
{
    let Some(ty) = ty else {
        return Ok(None);
    };
    let Some(_) = table.count_within(&[ty], 1) else {
        let size = table.size_of(ty);
        let align = table.align_of(ty);
        return match ask_block(guest, MAX_BLOCK, align, size) {
            Ok(at) => Ok(Some(at as u32)),
            Err(kind) => Err(place_fault(kind)),
        };
    };
    Ok(None)
}

/// Whether a block of the type begins at the address, inside a memory of so many bytes.
fn is_block(table: &Types, ty: ValType, at: u32, len: u32) -> bool
    requires { IsInside table.now ty }
    ensures { (m : List ℕ) → length m ≡ len
        → IsTrue result ↔ BlockHolds m at (align (closed_type table.now ty)) (size (closed_type table.now ty)) }
{
    test_block(
        len as usize,
        at as usize,
        table.align_of(ty),
        table.size_of(ty),
    )
    .is_ok()
}

/// Whether the result of a call goes where `area` says: into flat values, or to the address of a block of its type's
/// size and alignment inside the memory. What `take_result` asks for.
pub fn is_area<G: Guest>(table: &Types, ty: Option<ValType>, area: Option<u32>, guest: &G) -> bool
    requires { IfSome ty (IsInside table.now) }
    ensures { IsTrue result ↔ IsAreaIn (result_fields (option_map (closed_type table.now) ty))
        (G.memory guest.now).bytes area }
{
    let Some(ty) = ty else {
        return area.is_none();
    };
    match (table.count_within(&[ty], 1), area) {
        (Some(_), None) => true,
        (None, Some(at)) => is_block(table, ty, at, guest.len()),
        _ => false,
    }
}

/// The result of a call that came back with flat values: what they denote, or what stands in the return area;
/// else the first fault, in step `take`. `NoMemory` where the host has none for the value, and never where its
/// type is plain.
pub fn take_result<G: Guest>(
    alloc: Global,
    table: &Types,
    ty: Option<ValType>,
    flats: &[Flat],
    area: Option<u32>,
    guest: &G,
) -> Result<Option<Val>, Fault>
    requires inside { IfSome ty (IsInside table.now) }
    requires area { IsAreaIn (result_fields (option_map (closed_type table.now) ty)) (G.memory guest.now).bytes area }
    ensures value { let ts = result_fields (option_map (closed_type table.now) ty) in
        AnswerStands Take (λ v. HasResult ts (G.memory guest.now).bytes flats.now (area_at area)
        (option_to_list (option_map value_of v)))
        (HasResultFault ts (G.memory guest.now).bytes flats.now (area_at area)) result }
    ensures plain { IfSome ty (λ t. IsPlain (closed_type table.now t)) → result ≢ Err Fault.NoMemory }
    ensures typed { IfOk result (λ v. HaveTypes (option_to_list (option_map value_of v))
        (result_fields (option_map (closed_type table.now) ty))) }
{
    let (Some(ty), Some(at)) = (ty, area) else {
        return lift_result(alloc, table, ty, flats, guest);
    };
    match load(alloc, table.resolve(), table.layouts(), ty, guest, at) {
        Ok(value) => Ok(Some(value)),
        Err(fault) => Err(fault),
    }
}
