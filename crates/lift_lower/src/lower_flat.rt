//! Flat lowering: the core values that carry values, and what stands in memory for them.
//!
//! The walk goes down the value as its type does, and puts core values behind those that are there.
ghost use Rattle.std.specs.Prelude.{◌≡◌, ◌+◌, ◌<◌, ◌≤◌, ◌^◌, ◌∷◌, [], ◌++◌, length, map, drop, IfErr, OnOk};
ghost use Rattle.std.specs.List.{AllByRecursion};
ghost use Rattle.canonical_abi.specs.Types.{IsStandard, AreStandardFields, string_type, list_type, variant_type};
ghost use Rattle.canonical_abi.specs.Types.{variant_cases};
ghost use Rattle.canonical_abi.specs.Values.{HasType, HaveTypes, string_value, list_value, values_of};
ghost use Rattle.canonical_abi.specs.Layout.{flat_kinds, field_kinds};
ghost use Rattle.canonical_abi.specs.Lowering.{zero_of, widened, joined_flats};
ghost use Rattle.tables.specs.Closed.{closed_type};
ghost use Rattle.lift_lower.specs.Lowered.{LowersInto, LowersBy, FieldsLowerInto, FieldsLowerBy};
ghost use Rattle.values.specs.Members.{AreInside, members_fields};
ghost use Rattle.lift_lower.specs.Scripts.{IsDone, HasEnded};
ghost use Rattle.values.specs.Types.{IsInside};
ghost use Rattle.values.specs.Val.{value_of, variant_value};

use crate::guest_blocks::put_text;
use crate::storing::{Chosen, ask_elements, store_items};
use canonical_abi::{CoreKind, Flat, Guest, TrapKind};
use layout::Shape;
use tables::ValType;
use values::{Flats, Members, Scalar, Types, Val, lower_scalar};

/// Lowers a value.
#[cycle(lower)]
fn lower_at<G: Guest>(
    table: &Types,
    limit: u32,
    ty: ValType,
    value: &Val,
    guest: &mut G,
    flats: &mut Flats,
) -> Result<(), TrapKind>
    requires inside { IsInside table.now ty }
    requires standard { IsStandard (closed_type table.now ty) }
    requires typed { HasType (value_of value.now) (closed_type table.now ty) }
    requires room { length flats.old.items + length (flat_kinds (closed_type table.now ty)) ≤ 16 }
    ensures ok { OnOk result (IsDone limit G.allocates
        (LowersInto (closed_type table.now ty) (value_of value.now) flats.old.items flats.new.items)
        (G.memory guest.old) (G.memory guest.new)) }
    ensures fault { IfErr result (λ k. HasEnded limit G.allocates
        (LowersBy (closed_type table.now ty) (value_of value.now))
        (G.memory guest.old) k (G.memory guest.new)) }
{
    match value {
        Val::String(text) => lower_text(limit, text.as_str(), guest, flats),
        Val::List(items) => {
            let Shape::List(element) = table.shape_of(ty) else {
                unreachable!()
            };
            let items = items.as_slice();
            lower_list(table, limit, element, items, guest, flats)
        }
        Val::Record(fields) => {
            let members = Members::Of(ty);
            let fields = fields.as_slice();
            lower_fields(table, limit, &members, fields, guest, flats)
        }
        Val::Variant(case, payload) => {
            let chosen = Chosen {
                case: *case,
                payload,
            };
            lower_variant(table, limit, ty, &chosen, guest, flats)
        }
        Val::Flags(bits) => {
            flats.push(Flat::I32(*bits));
            Ok(())
        }
        _ => {
            let Some(scalar) = Scalar::of(value) else {
                unreachable!()
            };
            flats.push(lower_scalar(scalar));
            Ok(())
        }
    }
}

/// Puts down the address and the length that tell of a text or a list.
pub fn push_header(flats: &mut Flats, start: usize, count: usize)
    requires room { length flats.old.items + 2 ≤ 16 }
    requires start { start < 2 ^ 32 }
    requires count { count < 2 ^ 32 }
    ensures { flats.new.items ≡ flats.old.items ++ (Flat.I32 start ∷ Flat.I32 count ∷ []) }
{
    flats.push(Flat::I32(start as u32));
    flats.push(Flat::I32(count as u32));
}

fn lower_text<G: Guest>(
    limit: u32,
    text: &str,
    guest: &mut G,
    flats: &mut Flats,
) -> Result<(), TrapKind>
    requires room { length flats.old.items + 2 ≤ 16 }
    ensures ok { OnOk result (IsDone limit G.allocates
        (LowersInto string_type (string_value text.now) flats.old.items flats.new.items)
        (G.memory guest.old) (G.memory guest.new)) }
    ensures fault { IfErr result (λ k. HasEnded limit G.allocates (LowersBy string_type (string_value text.now))
        (G.memory guest.old) k (G.memory guest.new)) }
{
    let start = put_text(guest, limit, text)?;
    push_header(flats, start, text.len());
    Ok(())
}

/// Stores the elements of a list in a block of their own.
fn lower_list<G: Guest>(
    table: &Types,
    limit: u32,
    element: ValType,
    items: &[Val],
    guest: &mut G,
    flats: &mut Flats,
) -> Result<(), TrapKind>
    requires inside { IsInside table.now element }
    requires standard { IsStandard (closed_type table.now element) }
    requires typed { AllByRecursion (λ w. HasType w (closed_type table.now element)) (map value_of items.now) }
    requires room { length flats.old.items + 2 ≤ 16 }
    ensures ok { OnOk result (IsDone limit G.allocates
        (LowersInto (list_type (closed_type table.now element)) (list_value (values_of (map value_of items.now)))
        flats.old.items flats.new.items)
        (G.memory guest.old) (G.memory guest.new)) }
    ensures fault { IfErr result (λ k. HasEnded limit G.allocates
        (LowersBy (list_type (closed_type table.now element)) (list_value (values_of (map value_of items.now))))
        (G.memory guest.old) k (G.memory guest.new)) }
{
    let start = ask_elements(table, limit, element, items.len(), guest)?;
    store_items(table, limit, element, items, guest, start)?;
    push_header(flats, start, items.len());
    Ok(())
}

/// Lowers the members of a record, one behind the other.
#[cycle(lower)]
pub(crate) fn lower_fields<G: Guest>(
    table: &Types,
    limit: u32,
    members: &Members,
    values: &[Val],
    guest: &mut G,
    flats: &mut Flats,
) -> Result<(), TrapKind>
    requires inside { AreInside table.now members.now }
    requires standard { AreStandardFields (members_fields table.now members.now) }
    requires typed { HaveTypes (map value_of values.now) (members_fields table.now members.now) }
    requires room { length flats.old.items + length (field_kinds (members_fields table.now members.now)) ≤ 16 }
    ensures ok { OnOk result (IsDone limit G.allocates
        (FieldsLowerInto (members_fields table.now members.now) (map value_of values.now) flats.old.items
        flats.new.items)
        (G.memory guest.old) (G.memory guest.new)) }
    ensures fault { IfErr result (λ k. HasEnded limit G.allocates
        (FieldsLowerBy (members_fields table.now members.now) (map value_of values.now))
        (G.memory guest.old) k (G.memory guest.new)) }
{
    for index in 0..values.len() {
        let Some(member) = table.member_type(members, index) else {
            unreachable!()
        };
        let value = &values[index];
        lower_at(table, limit, member, value, guest, flats)?;
    }
    Ok(())
}

/// Lowers the number of a case, and then its payload in the joined kinds of all payloads.
#[cycle(lower)]
fn lower_variant<G: Guest>(
    table: &Types,
    limit: u32,
    ty: ValType,
    chosen: &Chosen<'_>,
    guest: &mut G,
    flats: &mut Flats,
) -> Result<(), TrapKind>
    requires inside { IsInside table.now ty }
    requires variant { variant_type (variant_cases (closed_type table.now ty)) ≡ closed_type table.now ty }
    requires standard { IsStandard (closed_type table.now ty) }
    requires typed { HasType (variant_value chosen.now.case chosen.now.payload.now) (closed_type table.now ty) }
    requires room { length flats.old.items + length (flat_kinds (closed_type table.now ty)) ≤ 16 }
    ensures ok { OnOk result (IsDone limit G.allocates
        (LowersInto (closed_type table.now ty) (variant_value chosen.now.case chosen.now.payload.now) flats.old.items
        flats.new.items)
        (G.memory guest.old) (G.memory guest.new)) }
    ensures fault { IfErr result (λ k. HasEnded limit G.allocates
        (LowersBy (closed_type table.now ty) (variant_value chosen.now.case chosen.now.payload.now))
        (G.memory guest.old) k (G.memory guest.new)) }
{
    let kinds = table.kinds_of(ty);
    flats.push(Flat::I32(chosen.case));
    let Some(value) = chosen.payload else {
        push_joined(&kinds.as_slice()[1..], &[], flats);
        return Ok(());
    };
    let Some(known) = table.case_payload(ty, chosen.case as usize) else {
        unreachable!()
    };
    let Some(member) = known else { unreachable!() };
    let mut carried = Flats::new();
    lower_at(table, limit, member, value, guest, &mut carried)?;
    push_joined(&kinds.as_slice()[1..], carried.as_slice(), flats);
    Ok(())
}

/// Puts core values down where others of the joined kinds are wanted.
pub fn push_joined(kinds: &[CoreKind], carried: &[Flat], flats: &mut Flats)
    requires { length flats.old.items + length kinds.now ≤ 16 }
    ensures { flats.new.items ≡ flats.old.items ++ joined_flats kinds.now carried.now }
{
    for index in 0..kinds.len() {
        flats.push(joined_at(kinds, carried, index));
    }
}

/// The core value in this place of the joined kinds: zero where none is carried.
fn joined_at(kinds: &[CoreKind], carried: &[Flat], index: usize) -> Flat
    requires { index < length kinds.now }
    ensures { joined_flats (drop index kinds.now) (drop index carried.now)
        ≡ result ∷ joined_flats (drop (index + 1) kinds.now) (drop (index + 1) carried.now) }
{
    if index < carried.len() {
        widened(kinds[index], carried[index])
    } else {
        zero_of(kinds[index])
    }
}

/// A core value where one of a joined kind is wanted: extended by zeros.
fn widened(kind: CoreKind, flat: Flat) -> Flat
    ensures { result ≡ widened kind flat }
{
    match (kind, flat) {
        (CoreKind::I64, Flat::I32(number)) => Flat::I64(u64::from(number)),
        _ => flat,
    }
}

fn zero_of(kind: CoreKind) -> Flat
    ensures { result ≡ zero_of kind }
{
    match kind {
        CoreKind::I32 => Flat::I32(0),
        CoreKind::I64 => Flat::I64(0),
    }
}
