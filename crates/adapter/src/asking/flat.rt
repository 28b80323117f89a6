//! The walk over flat values; texts and lists are in memory.
ghost use Rattle.std.specs.Prelude.{◌≡◌, ◌+◌, ◌^◌, ◌<◌, ◌≤◌, ℕ, List, [], length, map, drop};
ghost use Rattle.canonical_abi.specs.Types.{prim_type, variant_type, variant_cases, field_count, depth, fields_depth};
ghost use Rattle.canonical_abi.specs.Types.{cases_depth, IsStandard, AreStandardFields, AreStandardCases};
ghost use Rattle.canonical_abi.specs.Layout.{flat_kinds, field_kinds, payload_kinds};
ghost use Rattle.canonical_abi.specs.Reading.{number_of, low_bits, lifting, lifting_fields, lifting_case};
ghost use Rattle.canonical_abi.specs.Requests.{requests, fields_requests};
ghost use Rattle.values.specs.Members.{AreInside, members_fields};
ghost use Rattle.values.specs.Types.{IsInside};
ghost use Rattle.tables.specs.Closed.{prim_of, closed_type};
ghost use Rattle.adapter.specs.Ahead.{asked_in, flat_fields_asked, flat_case_asked, TellsLimit};
ghost use Rattle.adapter.specs.Asking.{Asks, IsFew};

use crate::asking::request::{Request, Untold, visit};
use crate::asking::walk::{Walk, ask_text};
use canonical_abi::{Flat, TrapKind};
use layout::Shape;
use lift_lower::nodes::Members;
use lift_lower::{lift_scalar, low_word};
use tables::{Primitive, ValType};

/// Tests a primitive other than string, which asks for nothing.
#[tactic(auto, unfolding(canonical_abi::specs::Reading::low_bits))]
fn ask_flat_primitive(
    primitive: Primitive,
    flats: &[Flat],
    slots: &mut [Request],
    count: &mut usize,
    left: &mut u64,
) -> Result<(), Untold>
    requires { 0 < length flats.now }
    ensures asks { let t = prim_type (prim_of primitive) in
        (m : List ℕ) → Asks (lifting t m (map number_of flats.now)) (requests t) slots.old count.old left.old result
        slots.new count.new left.new }
    ensures limit { TellsLimit [] left.old result }
    ensures left { left.new ≡ left.old }
    ensures count { count.new ≡ count.old }
{
    match lift_scalar(primitive, flats[0]) {
        Ok(_) => Ok(()),
        Err(kind) => Err(Untold::Fault(kind)),
    }
}

impl Walk<'_> {
    /// Lists what the value in the first of these flat values asks for.
    #[cycle(flat)]
    fn ask_flat(
        &self,
        ty: ValType,
        flats: &[Flat],
        slots: &mut [Request],
        count: &mut usize,
        left: &mut u64,
        nodes: &mut u64,
    ) -> Result<(), Untold>
        requires inside { IsInside self.now.types.now ty }
        requires short { length self.now.source.now < 2 ^ 32 }
        requires carried { length (flat_kinds (closed_type self.now.types.now ty)) ≤ length flats.now }
        requires few { length flats.now ≤ 16 }
        ensures asks { let t = closed_type self.now.types.now ty in
            Asks (lifting t self.now.source.now (map number_of flats.now)) (requests t) slots.old count.old left.old
            result slots.new count.new left.new }
        ensures limit { TellsLimit (asked_in (closed_type self.now.types.now ty) self.now.source.now
            (map number_of flats.now)) left.old result }
        ensures few { let t = closed_type self.now.types.now ty in
            (d : ℕ) → IsStandard t → depth t ≤ d
            → IsFew d (length (flat_kinds t)) left.old left.new nodes.old nodes.new }
        ensures each { (e : ℕ) → count.old ≤ nodes.old + e → count.new ≤ nodes.new + e }
    {
        visit(nodes);
        match self.types.shape_of(ty) {
            Shape::Primitive(primitive) => ask_flat_primitive(primitive, flats, slots, count, left),
            Shape::String => {
                let start = low_word(flats, 0) as usize;
                let len = low_word(flats, 1) as usize;
                ask_text(self.source, start, len, slots, count, left)
            }
            Shape::List(element) => {
                let start = low_word(flats, 0) as usize;
                let len = low_word(flats, 1) as usize;
                self.ask_list(element, start, len, slots, count, left, nodes)
            }
            Shape::Record(fields) => {
                let members = Members::Of(ty);
                self.ask_flat_fields(&members, fields, flats, slots, count, left, nodes)
            }
            Shape::Variant(_) => self.ask_flat_variant(ty, flats, slots, count, left, nodes),
            Shape::Flags(_) => Ok(()),
        }
    }

    /// Lists what the members of a record ask for, each in the flat values after those of the member before it.
    #[cycle(flat)]
    pub(crate) fn ask_flat_fields(
        &self,
        members: &Members,
        fields: usize,
        flats: &[Flat],
        slots: &mut [Request],
        count: &mut usize,
        left: &mut u64,
        nodes: &mut u64,
    ) -> Result<(), Untold>
        requires inside { AreInside self.now.types.now members.now }
        requires short { length self.now.source.now < 2 ^ 32 }
        requires counted { field_count (members_fields self.now.types.now members.now) ≡ fields }
        requires carried { length (field_kinds (members_fields self.now.types.now members.now)) ≤ length flats.now }
        requires few { length flats.now ≤ 16 }
        ensures asks { let fs = members_fields self.now.types.now members.now in
            Asks (lifting_fields fs self.now.source.now (map number_of flats.now)) (fields_requests fs) slots.old
            count.old left.old result slots.new count.new left.new }
        ensures limit { TellsLimit (flat_fields_asked (members_fields self.now.types.now members.now)
            self.now.source.now (map number_of flats.now)) left.old result }
        ensures few { let fs = members_fields self.now.types.now members.now in
            (d : ℕ) → AreStandardFields fs → fields_depth fs ≤ d
            → IsFew d (length (field_kinds fs)) left.old left.new nodes.old nodes.new }
        ensures each { (e : ℕ) → count.old ≤ nodes.old + e → count.new ≤ nodes.new + e }
    {
        let mut used: usize = 0;
        for index in 0..fields {
            let Some(member) = self.types.member_type(members, index) else {
                unreachable!()
            };
            let rest = &flats[used..];
            self.ask_flat(member, rest, slots, count, left, nodes)?;
            used += self.types.kind_count(member);
        }
        Ok(())
    }

    /// Lists what the payload of the case that the first flat value names asks for.
    #[cycle(flat)]
    fn ask_flat_variant(
        &self,
        ty: ValType,
        flats: &[Flat],
        slots: &mut [Request],
        count: &mut usize,
        left: &mut u64,
        nodes: &mut u64,
    ) -> Result<(), Untold>
        requires inside { IsInside self.now.types.now ty }
        requires short { length self.now.source.now < 2 ^ 32 }
        requires variant { variant_type (variant_cases (closed_type self.now.types.now ty))
            ≡ closed_type self.now.types.now ty }
        requires carried { length (payload_kinds (variant_cases (closed_type self.now.types.now ty)))
            < length flats.now }
        requires few { length flats.now ≤ 16 }
        ensures asks { let cs = variant_cases (closed_type self.now.types.now ty) in
            let ns = map number_of flats.now in
            Asks (lifting_case cs self.now.source.now (drop 1 ns) (low_bits ns 0 32) (low_bits ns 0 32))
            (requests (variant_type cs)) slots.old count.old left.old result slots.new count.new left.new }
        ensures limit { let ns = map number_of flats.now in
            TellsLimit (flat_case_asked (variant_cases (closed_type self.now.types.now ty)) self.now.source.now
            (drop 1 ns) (low_bits ns 0 32)) left.old result }
        ensures few { let cs = variant_cases (closed_type self.now.types.now ty) in
            (d : ℕ) → AreStandardCases cs → cases_depth cs ≤ d
            → IsFew d (length (payload_kinds cs)) left.old left.new nodes.old nodes.new }
        ensures each { (e : ℕ) → count.old ≤ nodes.old + e → count.new ≤ nodes.new + e }
    {
        let case = low_word(flats, 0);
        let Some(payload) = self.types.case_payload(ty, case as usize) else {
            return Err(Untold::Fault(TrapKind::Case));
        };
        let Some(member) = payload else {
            return Ok(());
        };
        let rest = &flats[1..];
        self.ask_flat(member, rest, slots, count, left, nodes)
    }
}
