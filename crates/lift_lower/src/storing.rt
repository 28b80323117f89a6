//! Storing: values put into a memory at an address.
//!
//! The walk goes down the value as its type does, whose depth is bounded; long lists are loops. Blocks are
//! asked for and bytes are written in the order of the nodes, and the first request that fails ends it.
ghost use Rattle.std.specs.Prelude.{◌≡◌, ◌+◌, ◌*◌, ◌^◌, ◌<◌, ◌≤◌, length, map, IfOk, IfErr, OnOk};
ghost use Rattle.std.specs.List.{AllByRecursion};
ghost use Rattle.canonical_abi.specs.Types.{IsStandard, AreStandardFields, string_type, list_type, record_fields};
ghost use Rattle.canonical_abi.specs.Values.{HasType, HaveTypes, string_value, list_value, values_of};
ghost use Rattle.canonical_abi.specs.Layout.{size, align, end_from, field_extents};
ghost use Rattle.canonical_abi.specs.Storing.{Stores, EachStores, FieldsStore};
ghost use Rattle.canonical_abi.specs.declared.trap.Step.TheVariants.{Place};
ghost use Rattle.layout.specs.Layout.{layouts_of};
ghost use Rattle.tables.specs.Standard.{IsTypeOf};
ghost use Rattle.tables.specs.Closed.{closed_type};
ghost use Rattle.lift_lower.specs.Crossing.{IsStoredAt, StoreFails};
ghost use Rattle.values.specs.Members.{AreInside, members_fields};
ghost use Rattle.lift_lower.specs.Scripts.{IsDone, HasEnded, GrantsBlock, AsksBlock};
ghost use Rattle.values.specs.Types.{IsInside};
ghost use Rattle.values.specs.Val.{value_of, variant_value, IsCompound};

use crate::guest_blocks::{
    aligned, ask_block, put_scalar_at, put_text, write_header, write_number,
};
use crate::record_fields::field_at;
use crate::scalar_lists::store_scalars;
use canonical_abi::{Fault, Guest, Step, Trap, TrapKind};
use layout::{Layouts, Shape};
use tables::{Resolve, ValType};
use values::bytes::{discriminant_bytes, flags_bytes, test_block};
use values::{Members, Scalar, Types, Val};

/// The most bytes that a text or a list of typed values may need.
pub(crate) const MAX_BLOCK: u32 = 16_777_216;

/// The case of a variant that a value is of.
#[derive(Clone, Copy)]
pub(crate) struct Chosen<'a> {
    pub case: u32,
    pub payload: &'a Option<Box<Val>>,
}

/// Stores a value at an address of a guest's memory. A trap is in step `place`: the address's own fault,
/// `Align` or `Bounds`, with nothing changed, or the first request that fails. Takes no memory of the host.
pub fn store<G: Guest>(
    resolve: &Resolve,
    layouts: &Layouts,
    ty: ValType,
    value: &Val,
    guest: &mut G,
    at: u32,
) -> Result<(), Fault>
    requires laid_out { layouts.now ≡ layouts_of resolve.now }
    requires known { IsTypeOf resolve.now ty }
    requires typed { HasType (value_of value.now) (closed_type resolve.now ty) }
    ensures stored { OnOk result (IsStoredAt G.allocates (closed_type resolve.now ty) at (value_of value.now)
        (G.memory guest.old) (G.memory guest.new)) }
    ensures fault { IfErr result (λ fault. StoreFails G.allocates (closed_type resolve.now ty) at (value_of value.now)
        (G.memory guest.old) fault (G.memory guest.new)) }
{
    let table = &Types::new(resolve, layouts);
    let place = at as usize;
    let align = table.align_of(ty);
    let size = table.size_of(ty);
    if let Err(kind) = test_block(guest.len() as usize, place, align, size) {
        return Err(place_fault(kind));
    }
    match store_at(table, MAX_BLOCK, ty, value, guest, place) {
        Ok(()) => Ok(()),
        Err(kind) => Err(place_fault(kind)),
    }
}

/// A trap in step `place`.
pub(crate) fn place_fault(kind: TrapKind) -> Fault
    ensures { result ≡ Fault.Trap (record { kind = kind; step = Place }) }
{
    Fault::Trap(Trap {
        kind,
        step: Step::Place,
    })
}

/// Stores a value at a place that lies inside the memory.
#[cycle(store)]
#[inline(always)]
pub(crate) fn store_at<G: Guest>(
    table: &Types,
    limit: u32,
    ty: ValType,
    value: &Val,
    guest: &mut G,
    at: usize,
) -> Result<(), TrapKind>
    requires inside { IsInside table.now ty }
    requires standard { IsStandard (closed_type table.now ty) }
    requires typed { HasType (value_of value.now) (closed_type table.now ty) }
    requires room { at + size (closed_type table.now ty) ≤ length (G.memory guest.old).bytes }
    requires small { at + size (closed_type table.now ty) < 2 ^ 32 }
    ensures ok { OnOk result (IsDone limit G.allocates (Stores (closed_type table.now ty) at (value_of value.now))
        (G.memory guest.old) (G.memory guest.new)) }
    ensures fault { IfErr result (λ k. HasEnded limit G.allocates
        (Stores (closed_type table.now ty) at (value_of value.now))
        (G.memory guest.old) k (G.memory guest.new)) }
{
    match Scalar::of(value) {
        Some(scalar) => {
            put_scalar_at(guest, at, scalar);
            Ok(())
        }
        None => store_compound(table, limit, ty, value, guest, at),
    }
}

/// Stores a text, a list, a record, a variant or flags.
#[cycle(store)]
fn store_compound<G: Guest>(
    table: &Types,
    limit: u32,
    ty: ValType,
    value: &Val,
    guest: &mut G,
    at: usize,
) -> Result<(), TrapKind>
    requires compound { IsCompound value.now }
    requires inside { IsInside table.now ty }
    requires standard { IsStandard (closed_type table.now ty) }
    requires typed { HasType (value_of value.now) (closed_type table.now ty) }
    requires room { at + size (closed_type table.now ty) ≤ length (G.memory guest.old).bytes }
    requires small { at + size (closed_type table.now ty) < 2 ^ 32 }
    ensures ok { OnOk result (IsDone limit G.allocates (Stores (closed_type table.now ty) at (value_of value.now))
        (G.memory guest.old) (G.memory guest.new)) }
    ensures fault { IfErr result (λ k. HasEnded limit G.allocates
        (Stores (closed_type table.now ty) at (value_of value.now))
        (G.memory guest.old) k (G.memory guest.new)) }
{
    match value {
        Val::String(text) => store_text(limit, text.as_str(), guest, at),
        Val::List(items) => {
            let Shape::List(element) = table.shape_of(ty) else {
                unreachable!()
            };
            let items = items.as_slice();
            store_list(table, limit, element, items, guest, at)
        }
        Val::Record(fields) => {
            let fields = fields.as_slice();
            store_record(table, limit, ty, fields, guest, at)
        }
        Val::Variant(case, payload) => {
            let chosen = Chosen {
                case: *case,
                payload,
            };
            store_variant(table, limit, ty, &chosen, guest, at)
        }
        Val::Flags(bits) => {
            let Shape::Flags(labels) = table.shape_of(ty) else {
                unreachable!()
            };
            write_number(guest, at, flags_bytes(labels), *bits);
            Ok(())
        }
        _ => unreachable!(),
    }
}

fn store_text<G: Guest>(limit: u32, text: &str, guest: &mut G, at: usize) -> Result<(), TrapKind>
    requires room { at + 8 ≤ length (G.memory guest.old).bytes }
    requires small { at + 8 < 2 ^ 32 }
    ensures ok { OnOk result (IsDone limit G.allocates (Stores string_type at (string_value text.now))
        (G.memory guest.old) (G.memory guest.new)) }
    ensures fault { IfErr result (λ k. HasEnded limit G.allocates (Stores string_type at (string_value text.now))
        (G.memory guest.old) k (G.memory guest.new)) }
{
    let start = put_text(guest, limit, text)?;
    write_header(guest, at, start, text.len());
    Ok(())
}

/// Stores the header of a list, and its elements in a block of their own.
#[cycle(store)]
fn store_list<G: Guest>(
    table: &Types,
    limit: u32,
    element: ValType,
    items: &[Val],
    guest: &mut G,
    at: usize,
) -> Result<(), TrapKind>
    requires inside { IsInside table.now element }
    requires standard { IsStandard (closed_type table.now element) }
    requires typed { AllByRecursion (λ w. HasType w (closed_type table.now element)) (map value_of items.now) }
    requires room { at + 8 ≤ length (G.memory guest.old).bytes }
    requires small { at + 8 < 2 ^ 32 }
    ensures ok { OnOk result (IsDone limit G.allocates
        (Stores (list_type (closed_type table.now element)) at (list_value (values_of (map value_of items.now))))
        (G.memory guest.old) (G.memory guest.new)) }
    ensures fault { IfErr result (λ k. HasEnded limit G.allocates
        (Stores (list_type (closed_type table.now element)) at (list_value (values_of (map value_of items.now))))
        (G.memory guest.old) k (G.memory guest.new)) }
{
    let start = ask_elements(table, limit, element, items.len(), guest)?;
    write_header(guest, at, start, items.len());
    store_items(table, limit, element, items, guest, start)
}

/// Asks for the block of a list's elements.
pub(crate) fn ask_elements<G: Guest>(
    table: &Types,
    limit: u32,
    element: ValType,
    count: usize,
    guest: &mut G,
) -> Result<usize, TrapKind>
    requires inside { IsInside table.now element }
    requires standard { IsStandard (closed_type table.now element) }
    ensures ok { let t = closed_type table.now element in
        IfOk result (λ at. IsDone limit G.allocates (GrantsBlock (align t) (count * size t) at) (G.memory guest.old)
        (G.memory guest.new)) }
    ensures fault { let t = closed_type table.now element in
        IfErr result (λ k. HasEnded limit G.allocates (AsksBlock (align t) (count * size t)) (G.memory guest.old) k
        (G.memory guest.new)) }
    ensures inside { IfOk result (λ at. at + count * size (closed_type table.now element)
        ≤ length (G.memory guest.new).bytes) }
    ensures small { IfOk result (λ at. at + count * size (closed_type table.now element) < 2 ^ 32) }
    ensures few { IfOk result (λ at. count < 2 ^ 32) }
{
    let align = table.align_of(element);
    let step = table.size_of(element);
    ask_block(guest, limit, align, count.saturating_mul(step))
}

/// The text that a value of its type is.
#[inline(always)]
fn text_of(value: &Val) -> &str
    requires { HasType (value_of value.now) string_type }
    ensures { string_value result.now ≡ value_of value.now }
{
    let None = Scalar::of(value) else {
        unreachable!()
    };
    let Val::String(text) = value else {
        unreachable!()
    };
    text.as_str()
}

/// Stores texts one after another.
fn store_texts<G: Guest>(
    limit: u32,
    items: &[Val],
    guest: &mut G,
    start: usize,
) -> Result<(), TrapKind>
    requires typed { AllByRecursion (λ w. HasType w string_type) (map value_of items.now) }
    requires room { start + length items.now * 8 ≤ length (G.memory guest.old).bytes }
    requires small { start + length items.now * 8 < 2 ^ 32 }
    ensures ok { OnOk result (IsDone limit G.allocates (EachStores (Stores string_type) 8 start (map value_of items.now))
        (G.memory guest.old) (G.memory guest.new)) }
    ensures fault { IfErr result (λ k. HasEnded limit G.allocates
        (EachStores (Stores string_type) 8 start (map value_of items.now))
        (G.memory guest.old) k (G.memory guest.new)) }
{
    for index in 0..items.len() {
        let text = text_of(&items[index]);
        store_text(limit, text, guest, start + index * 8)?;
    }
    Ok(())
}

/// Stores the elements of a list one after another.
#[cycle(store)]
pub(crate) fn store_items<G: Guest>(
    table: &Types,
    limit: u32,
    element: ValType,
    items: &[Val],
    guest: &mut G,
    start: usize,
) -> Result<(), TrapKind>
    requires inside { IsInside table.now element }
    requires standard { IsStandard (closed_type table.now element) }
    requires typed { AllByRecursion (λ w. HasType w (closed_type table.now element)) (map value_of items.now) }
    requires room { start + length items.now * size (closed_type table.now element)
        ≤ length (G.memory guest.old).bytes }
    requires small { start + length items.now * size (closed_type table.now element) < 2 ^ 32 }
    ensures ok { let t = closed_type table.now element in
        OnOk result (IsDone limit G.allocates (EachStores (Stores t) (size t) start (map value_of items.now))
        (G.memory guest.old) (G.memory guest.new)) }
    ensures fault { let t = closed_type table.now element in
        IfErr result (λ k. HasEnded limit G.allocates (EachStores (Stores t) (size t) start (map value_of items.now))
        (G.memory guest.old) k (G.memory guest.new)) }
{
    match element {
        ValType::Primitive(primitive) => {
            store_scalars(primitive, items, guest, start);
            return Ok(());
        }
        ValType::String => return store_texts(limit, items, guest, start),
        ValType::Id(_) => (),
    }
    let step = table.size_of(element);
    for index in 0..items.len() {
        let place = start + index * step;
        store_at(table, limit, element, &items[index], guest, place)?;
    }
    Ok(())
}

/// Stores the members of a record, each at the next multiple of its alignment.
pub(crate) fn store_fields<G: Guest>(
    table: &Types,
    limit: u32,
    members: &Members,
    values: &[Val],
    guest: &mut G,
    at: usize,
) -> Result<(), TrapKind>
    requires inside { AreInside table.now members.now }
    requires standard { AreStandardFields (members_fields table.now members.now) }
    requires typed { HaveTypes (map value_of values.now) (members_fields table.now members.now) }
    requires room { at + end_from 0 (field_extents (members_fields table.now members.now))
        ≤ length (G.memory guest.old).bytes }
    requires small { at + end_from 0 (field_extents (members_fields table.now members.now)) < 2 ^ 32 }
    ensures ok { OnOk result (IsDone limit G.allocates
        (FieldsStore (members_fields table.now members.now) at 0 (map value_of values.now))
        (G.memory guest.old) (G.memory guest.new)) }
    ensures fault { IfErr result (λ k. HasEnded limit G.allocates
        (FieldsStore (members_fields table.now members.now) at 0 (map value_of values.now))
        (G.memory guest.old) k (G.memory guest.new)) }
{
    if let Members::Of(ty) = members {
        return store_record(table, limit, *ty, values, guest, at);
    }
    let mut end: usize = 0;
    for index in 0..values.len() {
        let Some(member) = table.member_type(members, index) else {
            unreachable!()
        };
        let place = aligned(end, table.align_of(member));
        let value = &values[index];
        store_at(table, limit, member, value, guest, at + place)?;
        end = place + table.size_of(member);
    }
    Ok(())
}

/// Stores the fields of a record, each at the place that the layout table tells.
#[cycle(store)]
fn store_record<G: Guest>(
    table: &Types,
    limit: u32,
    ty: ValType,
    values: &[Val],
    guest: &mut G,
    at: usize,
) -> Result<(), TrapKind>
    requires inside { IsInside table.now ty }
    requires standard { AreStandardFields (record_fields (closed_type table.now ty)) }
    requires typed { HaveTypes (map value_of values.now) (record_fields (closed_type table.now ty)) }
    requires room { at + end_from 0 (field_extents (record_fields (closed_type table.now ty)))
        ≤ length (G.memory guest.old).bytes }
    requires small { at + end_from 0 (field_extents (record_fields (closed_type table.now ty))) < 2 ^ 32 }
    ensures ok { OnOk result (IsDone limit G.allocates
        (FieldsStore (record_fields (closed_type table.now ty)) at 0 (map value_of values.now))
        (G.memory guest.old) (G.memory guest.new)) }
    ensures fault { IfErr result (λ k. HasEnded limit G.allocates
        (FieldsStore (record_fields (closed_type table.now ty)) at 0 (map value_of values.now))
        (G.memory guest.old) k (G.memory guest.new)) }
{
    for index in 0..values.len() {
        let Some(field) = field_at(table, ty, index) else {
            unreachable!()
        };
        let place = at + field.offset as usize;
        store_at(table, limit, field.ty, &values[index], guest, place)?;
    }
    Ok(())
}

/// Stores the number of a case, and then its payload.
#[cycle(store)]
fn store_variant<G: Guest>(
    table: &Types,
    limit: u32,
    ty: ValType,
    chosen: &Chosen<'_>,
    guest: &mut G,
    at: usize,
) -> Result<(), TrapKind>
    requires inside { IsInside table.now ty }
    requires standard { IsStandard (closed_type table.now ty) }
    requires typed { HasType (variant_value chosen.now.case chosen.now.payload.now) (closed_type table.now ty) }
    requires room { at + size (closed_type table.now ty) ≤ length (G.memory guest.old).bytes }
    requires small { at + size (closed_type table.now ty) < 2 ^ 32 }
    ensures ok { OnOk result (IsDone limit G.allocates
        (Stores (closed_type table.now ty) at (variant_value chosen.now.case chosen.now.payload.now))
        (G.memory guest.old) (G.memory guest.new)) }
    ensures fault { IfErr result (λ k. HasEnded limit G.allocates
        (Stores (closed_type table.now ty) at (variant_value chosen.now.case chosen.now.payload.now))
        (G.memory guest.old) k (G.memory guest.new)) }
{
    let Shape::Variant(count) = table.shape_of(ty) else {
        unreachable!()
    };
    write_number(guest, at, discriminant_bytes(count), chosen.case);
    let Some(value) = chosen.payload else {
        return Ok(());
    };
    let Some(known) = table.case_payload(ty, chosen.case as usize) else {
        unreachable!()
    };
    let Some(member) = known else { unreachable!() };
    // A payload stands at the variant's alignment.
    let place = at + table.align_of(ty);
    store_at(table, limit, member, value, guest, place)
}
