//! The walk over values that a memory holds.
ghost use Rattle.std.specs.Prelude.{◌≡◌, ◌+◌, ◌-◌, ◌^◌, ◌<◌, ◌≤◌, ℕ, [], ◌∷◌, length, min, IsTrue};
ghost use Rattle.canonical_abi.specs.Types.{prim_type, string_type, list_type, record_type, record_fields};
ghost use Rattle.canonical_abi.specs.Types.{variant_type, variant_cases, field_count, case_count, depth, fields_depth};
ghost use Rattle.canonical_abi.specs.Types.{cases_depth, IsStandard, AreStandardFields, AreStandardCases};
ghost use Rattle.canonical_abi.specs.Layout.{size, align, payload_place, end_from, field_extents, fields_size};
ghost use Rattle.canonical_abi.specs.Reading.{reading, text_at, list_at, reading_fields, reading_case, case_number};
ghost use Rattle.canonical_abi.specs.Requests.{request, requests, fields_requests};
ghost use Rattle.values.specs.Members.{AreInside, members_fields};
ghost use Rattle.values.specs.Types.{IsInside};
ghost use Rattle.tables.specs.Closed.{prim_of, closed_type};
ghost use Rattle.adapter.specs.Ahead.{asked_at, list_asked, fields_asked, case_asked, TellsLimit};
ghost use Rattle.adapter.specs.Asking.{Asks, AsksNothing, IsFew};

use crate::asking::request::{Request, Untold, tell, visit};
use canonical_abi::TrapKind;
use layout::Shape;
use lift_lower::Types;
use lift_lower::nodes::{Members, discriminant_bytes, number_of_size, test_block, text_in, u32_at};
use tables::{Primitive, ValType};

/// What requests are listed from: the types of values, and the bytes of the memory that holds them.
#[derive(Clone, Copy)]
pub struct Walk<'a> {
    pub types: &'a Types<'a>,
    pub source: &'a [u8],
}

/// Tests a primitive other than string, which asks for nothing.
fn ask_primitive(
    primitive: Primitive,
    source: &[u8],
    at: usize,
    slots: &mut [Request],
    count: &mut usize,
    left: &mut u64,
) -> Result<(), Untold>
    requires fits { at + size (prim_type (prim_of primitive)) ≤ length source.now }
    ensures asks { let t = prim_type (prim_of primitive) in
        Asks (reading t source.now at) (requests t) slots.old count.old left.old result slots.new count.new left.new }
    ensures limit { TellsLimit [] left.old result }
    ensures left { left.new ≡ left.old }
    ensures count { count.new ≡ count.old }
{
    let Primitive::Char = primitive else {
        return Ok(());
    };
    match char::from_u32(u32_at(source, at)) {
        Some(_) => Ok(()),
        None => Err(Untold::Fault(TrapKind::Char)),
    }
}

/// Whether all bytes denote values of a type, which ask for nothing: numbers, bools, flags, and records
/// of these. It looks at `most` types at most, and then answers no.
#[cycle(nothing)]
fn asks_nothing(table: &Types, ty: ValType, most: &mut usize) -> bool
    requires { IsInside table.now ty }
    ensures { IsTrue result → AsksNothing (closed_type table.now ty) }
{
    if *most == 0 {
        return false;
    }
    *most -= 1;
    match table.shape_of(ty) {
        Shape::Primitive(primitive) => is_plain(primitive),
        Shape::Flags(_) => true,
        Shape::Record(fields) => fields_ask_nothing(table, ty, fields, most),
        _ => false,
    }
}

/// The same of the fields of a record.
#[cycle(nothing)]
fn fields_ask_nothing(table: &Types, ty: ValType, fields: usize, most: &mut usize) -> bool
    requires inside { IsInside table.now ty }
    requires record { record_type (record_fields (closed_type table.now ty)) ≡ closed_type table.now ty }
    requires counted { field_count (record_fields (closed_type table.now ty)) ≡ fields }
    ensures { IsTrue result → AsksNothing (closed_type table.now ty) }
{
    let members = Members::Of(ty);
    for index in 0..fields {
        let Some(member) = table.member_type(&members, index) else {
            unreachable!()
        };
        if !asks_nothing(table, member, most) {
            return false;
        }
    }
    true
}

/// Whether a primitive is a number or a bool.
fn is_plain(primitive: Primitive) -> bool
    ensures { IsTrue result → AsksNothing (prim_type (prim_of primitive)) }
{
    let Primitive::Char = primitive else {
        return true;
    };
    false
}

/// Lists the block of a text of so many bytes, after it is tested.
pub(crate) fn ask_text(
    source: &[u8],
    start: usize,
    len: usize,
    slots: &mut [Request],
    count: &mut usize,
    left: &mut u64,
) -> Result<(), Untold>
    requires start { start < 2 ^ 32 }
    requires len { len < 2 ^ 32 }
    ensures asks { Asks (text_at source.now start len) (requests string_type) slots.old count.old left.old result
        slots.new count.new left.new }
    ensures limit { TellsLimit (request 1 len ∷ []) left.old result }
    ensures spent { (s : ℕ) × (left.old ≡ left.new + s) }
    ensures each { (n : ℕ) → min (count.old + 1) (2 ^ 64 - 1) ≤ n → count.old ≤ n → count.new ≤ n }
{
    // Before its bytes are tested, so that no more than the limit are.
    if *left < len as u64 {
        return Err(Untold::AboveLimit);
    }
    let text = match text_in(source, start, len) {
        Ok(text) => text,
        Err(kind) => return Err(Untold::Fault(kind)),
    };
    tell(slots, count, left, 1, text.len());
    Ok(())
}

impl Walk<'_> {
    /// Lists what the value at an address asks for.
    #[cycle(ask)]
    fn ask_at(
        &self,
        ty: ValType,
        at: usize,
        slots: &mut [Request],
        count: &mut usize,
        left: &mut u64,
        nodes: &mut u64,
    ) -> Result<(), Untold>
        requires inside { IsInside self.now.types.now ty }
        requires short { length self.now.source.now < 2 ^ 32 }
        requires fits { at + size (closed_type self.now.types.now ty) ≤ length self.now.source.now }
        ensures asks { let t = closed_type self.now.types.now ty in
            Asks (reading t self.now.source.now at) (requests t) slots.old count.old left.old result slots.new count.new
            left.new }
        ensures limit { TellsLimit (asked_at (closed_type self.now.types.now ty) self.now.source.now at) left.old
            result }
        ensures few { let t = closed_type self.now.types.now ty in
            (d : ℕ) → IsStandard t → depth t ≤ d → IsFew d (size t) left.old left.new nodes.old nodes.new }
        ensures each { (e : ℕ) → count.old ≤ nodes.old + e → count.new ≤ nodes.new + e }
    {
        visit(nodes);
        match self.types.shape_of(ty) {
            Shape::Primitive(primitive) => ask_primitive(
                primitive,
                self.source,
                at,
                slots,
                count,
                left,
            ),
            Shape::String => {
                let start = u32_at(self.source, at) as usize;
                let len = u32_at(self.source, at + 4) as usize;
                ask_text(self.source, start, len, slots, count, left)
            }
            Shape::List(element) => {
                let start = u32_at(self.source, at) as usize;
                let len = u32_at(self.source, at + 4) as usize;
                self.ask_list(element, start, len, slots, count, left, nodes)
            }
            Shape::Record(fields) => {
                let members = Members::Of(ty);
                self.ask_fields(&members, fields, at, slots, count, left, nodes)
            }
            Shape::Variant(cases) => self.ask_variant(ty, cases, at, slots, count, left, nodes),
            Shape::Flags(_) => Ok(()),
        }
    }

    /// Lists the block of a list, after it is tested, and what its elements ask for.
    #[cycle(ask)]
    pub(crate) fn ask_list(
        &self,
        element: ValType,
        start: usize,
        len: usize,
        slots: &mut [Request],
        count: &mut usize,
        left: &mut u64,
        nodes: &mut u64,
    ) -> Result<(), Untold>
        requires inside { IsInside self.now.types.now element }
        requires short { length self.now.source.now < 2 ^ 32 }
        requires start { start < 2 ^ 32 }
        requires len { len < 2 ^ 32 }
        ensures asks { let t = closed_type self.now.types.now element in
            Asks (list_at (reading t self.now.source.now) self.now.source.now (align t) (size t) start len)
            (requests (list_type t))
            slots.old count.old left.old result slots.new count.new left.new }
        ensures limit { let t = closed_type self.now.types.now element in
            let m = self.now.source.now in
            TellsLimit (list_asked (reading t m) (asked_at t m) m (align t) (size t) start len) left.old result }
        ensures few { let t = closed_type self.now.types.now element in
            (d : ℕ) → IsStandard t → depth t ≤ d → IsFew d 0 left.old left.new nodes.old nodes.new }
        ensures each { (e : ℕ) → min (count.old + 1) (2 ^ 64 - 1) ≤ nodes.old + e → count.old ≤ nodes.old + e
            → count.new ≤ nodes.new + e }
    {
        let step = self.types.size_of(element);
        let align = self.types.align_of(element);
        let size = len * step;
        match test_block(self.source.len(), start, align, size) {
            Ok(()) => (),
            Err(kind) => return Err(Untold::Fault(kind)),
        }
        if *left < size as u64 {
            return Err(Untold::AboveLimit);
        }
        tell(slots, count, left, align, size);
        // No more types than elements, so that this takes no longer than they would.
        let mut most = len;
        if asks_nothing(self.types, element, &mut most) {
            return Ok(());
        }
        for index in 0..len {
            self.ask_at(element, start + index * step, slots, count, left, nodes)?;
        }
        Ok(())
    }

    /// Lists what the members of a record ask for, whose first begins at `at`, each at the next multiple of its
    /// alignment.
    #[cycle(ask)]
    pub(crate) fn ask_fields(
        &self,
        members: &Members,
        fields: usize,
        at: usize,
        slots: &mut [Request],
        count: &mut usize,
        left: &mut u64,
        nodes: &mut u64,
    ) -> Result<(), Untold>
        requires inside { AreInside self.now.types.now members.now }
        requires short { length self.now.source.now < 2 ^ 32 }
        requires counted { field_count (members_fields self.now.types.now members.now) ≡ fields }
        requires fits { at + end_from 0 (field_extents (members_fields self.now.types.now members.now))
            ≤ length self.now.source.now }
        ensures asks { let fs = members_fields self.now.types.now members.now in
            Asks (reading_fields fs self.now.source.now at 0) (fields_requests fs) slots.old count.old left.old result
            slots.new count.new left.new }
        ensures limit { TellsLimit (fields_asked (members_fields self.now.types.now members.now) self.now.source.now at
            0) left.old result }
        ensures few { let fs = members_fields self.now.types.now members.now in
            (d : ℕ) → AreStandardFields fs → fields_depth fs ≤ d
            → IsFew d (fields_size fs) left.old left.new nodes.old nodes.new }
        ensures each { (e : ℕ) → count.old ≤ nodes.old + e → count.new ≤ nodes.new + e }
    {
        let mut end: usize = 0;
        for index in 0..fields {
            let Some(member) = self.types.member_type(members, index) else {
                unreachable!()
            };
            let place = end.next_multiple_of(self.types.align_of(member));
            self.ask_at(member, at + place, slots, count, left, nodes)?;
            end = place + self.types.size_of(member);
        }
        Ok(())
    }

    /// Lists what the payload of the case that the discriminant names asks for.
    #[cycle(ask)]
    fn ask_variant(
        &self,
        ty: ValType,
        cases: usize,
        at: usize,
        slots: &mut [Request],
        count: &mut usize,
        left: &mut u64,
        nodes: &mut u64,
    ) -> Result<(), Untold>
        requires inside { IsInside self.now.types.now ty }
        requires short { length self.now.source.now < 2 ^ 32 }
        requires variant { variant_type (variant_cases (closed_type self.now.types.now ty))
            ≡ closed_type self.now.types.now ty }
        requires counted { case_count (variant_cases (closed_type self.now.types.now ty)) ≡ cases }
        requires fits { at + size (closed_type self.now.types.now ty) ≤ length self.now.source.now }
        ensures asks { let cs = variant_cases (closed_type self.now.types.now ty) in
            let i = case_number cs self.now.source.now at in
            Asks (reading_case cs self.now.source.now (at + payload_place cs) i i) (requests (variant_type cs))
            slots.old count.old left.old result slots.new count.new left.new }
        ensures limit { let cs = variant_cases (closed_type self.now.types.now ty) in
            TellsLimit (case_asked cs self.now.source.now (at + payload_place cs)
            (case_number cs self.now.source.now at)) left.old result }
        ensures few { let cs = variant_cases (closed_type self.now.types.now ty) in
            (d : ℕ) → AreStandardCases cs → cases_depth cs ≤ d
            → IsFew d (size (variant_type cs)) left.old left.new nodes.old nodes.new }
        ensures each { (e : ℕ) → count.old ≤ nodes.old + e → count.new ≤ nodes.new + e }
    {
        let case = number_of_size(self.source, at, discriminant_bytes(cases));
        let Some(payload) = self.types.case_payload(ty, case as usize) else {
            return Err(Untold::Fault(TrapKind::Case));
        };
        let Some(member) = payload else {
            return Ok(());
        };
        // The offset of a payload is the variant's alignment.
        let place = self.types.align_of(ty);
        self.ask_at(member, at + place, slots, count, left, nodes)
    }
}
