//! The walk over flat values: core values of one component are carried on by core values for another.
ghost use Rattle.std.specs.Prelude.{◌≡◌, ◌+◌, ◌^◌, ◌<◌, ◌≤◌, ◌∷◌, ℕ, List, [], length, map, None, Some, OnOk, IfErr};
ghost use Rattle.canonical_abi.specs.Types.{prim_type, string_type, list_type, variant_type, variant_cases};
ghost use Rattle.canonical_abi.specs.Types.{field_count};
ghost use Rattle.canonical_abi.specs.Layout.{flat_kinds, field_kinds, payload_kinds};
ghost use Rattle.canonical_abi.specs.Reading.{number_of};
ghost use Rattle.canonical_abi.specs.Trace.{node};
ghost use Rattle.canonical_abi.specs.declared.trap.TrapKind.{TrapKind};
ghost use Rattle.crossing.specs.Outcome.{FlatWalks, FieldsFlatWalk, FlatBehind, FlatEnds};
ghost use Rattle.values.specs.Members.{AreInside, AreAllInside, members_fields, fields_of_types};
ghost use Rattle.values.specs.Types.{IsInside};
ghost use Rattle.tables.specs.Closed.{closed_type, prim_of};

use crate::core_values::{push_header, push_joined};
use crate::stopped::Stopped;
use crate::walk::{Fields, Walk, are_bytes};
use arrayvec::ArrayVec;
use canonical_abi::{Flat, Guest, TrapKind};
use layout::Shape;
use lift_lower::nodes::{
    Members, ask_block, flags_in, scalar_in, test_block, text_in, write_bytes,
};
use lift_lower::{low_word, lower_scalar};
use ranges::Elements;
use tables::{Parameter, Primitive, ValType};

/// Carries on a primitive other than string.
fn carry_primitive<const N: usize>(
    primitive: Primitive,
    flats: &[Flat],
    out: &mut ArrayVec<Flat, N>,
) -> Result<(), Stopped>
    requires some { 0 < length flats.now }
    requires capacity { N ≤ 17 }
    requires room { length out.old.items < N }
    ensures ok { OnOk result ((m : List ℕ)
        → FlatWalks (prim_type (prim_of primitive)) m (map number_of flats.now) out.old.items out.new.items None
        (node ∷ [])) }
    ensures fault { IfErr result (λ s. (k : TrapKind) × (s ≡ Stopped.Source k)
        × ((m : List ℕ) → FlatWalks (prim_type (prim_of primitive)) m (map number_of flats.now) out.old.items []
        (Some k) (node ∷ []))) }
{
    match scalar_in(primitive, flats) {
        Ok(scalar) => {
            out.push(lower_scalar(scalar));
            Ok(())
        }
        Err(kind) => Err(Stopped::Source(kind)),
    }
}

/// Carries on a text: it is tested, and put into a block of its own.
fn carry_text<G: Guest, const N: usize>(
    source: &[u8],
    flats: &[Flat],
    guest: &mut G,
    out: &mut ArrayVec<Flat, N>,
) -> Result<(), Stopped>
    requires some { 1 < length flats.now }
    requires capacity { N ≤ 17 }
    requires room { length out.old.items + 2 ≤ N }
    ensures { (n : ℕ) → FlatEnds G.allocates
        (FlatBehind (FlatWalks string_type source.now (map number_of flats.now) out.old.items))
        (G.memory guest.old) n result (G.memory guest.new) n out.new.items }
{
    let start = low_word(flats, 0) as usize;
    let len = low_word(flats, 1) as usize;
    let text = match text_in(source, start, len) {
        Ok(text) => text,
        Err(kind) => return Err(Stopped::Source(kind)),
    };
    let place = match ask_block(guest, u32::MAX, 1, text.len()) {
        Ok(place) => place,
        Err(kind) => return Err(Stopped::Target(kind)),
    };
    write_bytes(guest, place, text.as_bytes());
    push_header(out, place, text.len());
    Ok(())
}

impl Walk<'_> {
    /// Carries on the value in the first of these flat values.
    #[cycle(flat)]
    fn cross_flat<G: Guest, const N: usize>(
        &self,
        ty: ValType,
        flats: &[Flat],
        guest: &mut G,
        out: &mut ArrayVec<Flat, N>,
        nodes: &mut u64,
    ) -> Result<(), Stopped>
        requires inside { IsInside self.now.types.now ty }
        requires short { length self.now.source.now < 2 ^ 32 }
        requires carried { length (flat_kinds (closed_type self.now.types.now ty)) ≤ length flats.now }
        requires few { length flats.now ≤ 16 }
        requires capacity { N ≤ 17 }
        requires room { length out.old.items + length (flat_kinds (closed_type self.now.types.now ty)) ≤ N }
        ensures { FlatEnds G.allocates (FlatWalks (closed_type self.now.types.now ty) self.now.source.now
            (map number_of flats.now) out.old.items)
            (G.memory guest.old) nodes.old result (G.memory guest.new) nodes.new out.new.items }
    {
        *nodes = nodes.saturating_add(1);
        match self.types.shape_of(ty) {
            Shape::Primitive(primitive) => carry_primitive(primitive, flats, out),
            Shape::String => carry_text(self.source, flats, guest, out),
            Shape::List(element) => self.carry_list(element, flats, guest, out, nodes),
            Shape::Record(count) => {
                let fields = Fields {
                    members: Members::Of(ty),
                    count,
                };
                self.carry_fields(&fields, flats, guest, out, nodes)
            }
            Shape::Variant(_) => self.carry_variant(ty, flats, guest, out, nodes),
            Shape::Flags(labels) => {
                out.push(Flat::I32(flags_in(flats, labels)));
                Ok(())
            }
        }
    }

    /// Carries on one member, which is a primitive or a text most often.
    #[inline(always)]
    #[cycle(flat)]
    fn carry_member<G: Guest, const N: usize>(
        &self,
        ty: ValType,
        flats: &[Flat],
        guest: &mut G,
        out: &mut ArrayVec<Flat, N>,
        nodes: &mut u64,
    ) -> Result<(), Stopped>
        requires inside { IsInside self.now.types.now ty }
        requires short { length self.now.source.now < 2 ^ 32 }
        requires carried { length (flat_kinds (closed_type self.now.types.now ty)) ≤ length flats.now }
        requires few { length flats.now ≤ 16 }
        requires capacity { N ≤ 17 }
        requires room { length out.old.items + length (flat_kinds (closed_type self.now.types.now ty)) ≤ N }
        ensures { FlatEnds G.allocates (FlatWalks (closed_type self.now.types.now ty) self.now.source.now
            (map number_of flats.now) out.old.items)
            (G.memory guest.old) nodes.old result (G.memory guest.new) nodes.new out.new.items }
    {
        match ty {
            ValType::Primitive(primitive) => {
                *nodes = nodes.saturating_add(1);
                carry_primitive(primitive, flats, out)
            }
            ValType::String => {
                *nodes = nodes.saturating_add(1);
                carry_text(self.source, flats, guest, out)
            }
            ValType::Id(_) => self.cross_flat(ty, flats, guest, out, nodes),
        }
    }

    /// Carries on a list: its block is tested, one of the same size is asked for, and its elements cross into that.
    fn carry_list<G: Guest, const N: usize>(
        &self,
        element: ValType,
        flats: &[Flat],
        guest: &mut G,
        out: &mut ArrayVec<Flat, N>,
        nodes: &mut u64,
    ) -> Result<(), Stopped>
        requires inside { IsInside self.now.types.now element }
        requires short { length self.now.source.now < 2 ^ 32 }
        requires some { 1 < length flats.now }
        requires capacity { N ≤ 17 }
        requires room { length out.old.items + 2 ≤ N }
        ensures { FlatEnds G.allocates (FlatBehind
            (FlatWalks (list_type (closed_type self.now.types.now element)) self.now.source.now
            (map number_of flats.now) out.old.items))
            (G.memory guest.old) nodes.old result (G.memory guest.new) nodes.new out.new.items }
    {
        canonical_abi::laws::reads_exactly();
        are_bytes(self.source);
        let start = low_word(flats, 0) as usize;
        let count = low_word(flats, 1) as usize;
        let align = self.types.align_of(element);
        let size = count * self.types.size_of(element);
        if let Err(kind) = test_block(self.source.len(), start, align, size) {
            return Err(Stopped::Source(kind));
        }
        let place = match ask_block(guest, u32::MAX, align, size) {
            Ok(place) => place,
            Err(kind) => return Err(Stopped::Target(kind)),
        };
        let elements = Elements {
            from: start,
            to: place,
            count,
        };
        self.cross_elements(element, elements, guest, nodes)?;
        push_header(out, place, count);
        Ok(())
    }

    /// Carries on the members of a record, each in the flat values after those of the member before it: `out` grows by
    /// the flat values that carry them, and `nodes` by the nodes that were visited, as far as 64 bits count. If it
    /// ends early, what was added to `out` says nothing. CanonicalABI.md, "Flat Lifting" and "Flat Lowering".
    #[cycle(flat)]
    pub fn carry_fields<G: Guest, const N: usize>(
        &self,
        fields: &Fields,
        flats: &[Flat],
        guest: &mut G,
        out: &mut ArrayVec<Flat, N>,
        nodes: &mut u64,
    ) -> Result<(), Stopped>
        requires inside { AreInside self.now.types.now fields.now.members }
        requires short { length self.now.source.now < 2 ^ 32 }
        requires counted { field_count (members_fields self.now.types.now fields.now.members) ≡ fields.now.count }
        requires carried { length (field_kinds (members_fields self.now.types.now fields.now.members))
            ≤ length flats.now }
        requires few { length flats.now ≤ 16 }
        requires capacity { N ≤ 17 }
        requires room { length out.old.items
            + length (field_kinds (members_fields self.now.types.now fields.now.members)) ≤ N }
        ensures { FlatEnds G.allocates (FieldsFlatWalk (members_fields self.now.types.now fields.now.members)
            self.now.source.now (map number_of flats.now) out.old.items)
            (G.memory guest.old) nodes.old result (G.memory guest.new) nodes.new out.new.items }
    {
        are_bytes(self.source);
        let before = out.len();
        let mut used: usize = 0;
        for index in 0..fields.count {
            let Some(member) = self.types.member_type(&fields.members, index) else {
                unreachable!()
            };
            let rest = &flats[used..];
            self.carry_member(member, rest, guest, out, nodes)?;
            // Each core value is carried by one.
            used = out.len() - before;
        }
        Ok(())
    }

    /// Carries on the values of a function's parameters, each in the flat values after those of the one before it:
    /// as `carry_fields` those of their record, into a list that was empty.
    pub(crate) fn carry_parameters<G: Guest, const N: usize>(
        &self,
        params: &[Parameter],
        flats: &[Flat],
        guest: &mut G,
        out: &mut ArrayVec<Flat, N>,
        nodes: &mut u64,
    ) -> Result<(), Stopped>
        requires inside { AreAllInside self.now.types.now (map (λ p. p.ty) params.now) }
        requires short { length self.now.source.now < 2 ^ 32 }
        requires carried { length (field_kinds (fields_of_types self.now.types.now (map (λ p. p.ty) params.now)))
            ≤ length flats.now }
        requires few { length flats.now ≤ 16 }
        requires capacity { N ≤ 17 }
        requires room { length (field_kinds (fields_of_types self.now.types.now (map (λ p. p.ty) params.now))) ≤ N }
        requires empty { out.old.items ≡ [] }
        ensures { FlatEnds G.allocates (FieldsFlatWalk
            (fields_of_types self.now.types.now (map (λ p. p.ty) params.now))
            self.now.source.now (map number_of flats.now) [])
            (G.memory guest.old) nodes.old result (G.memory guest.new) nodes.new out.new.items }
    {
        are_bytes(self.source);
        for index in 0..params.len() {
            // Each core value is carried by one.
            let rest = &flats[out.len()..];
            self.carry_member(params[index].ty, rest, guest, out, nodes)?;
        }
        Ok(())
    }

    /// Carries on the number of a case, and then its payload in the joined kinds of all payloads.
    #[cycle(flat)]
    fn carry_variant<G: Guest, const N: usize>(
        &self,
        ty: ValType,
        flats: &[Flat],
        guest: &mut G,
        out: &mut ArrayVec<Flat, N>,
        nodes: &mut u64,
    ) -> Result<(), Stopped>
        requires inside { IsInside self.now.types.now ty }
        requires variant { variant_type (variant_cases (closed_type self.now.types.now ty))
            ≡ closed_type self.now.types.now ty }
        requires short { length self.now.source.now < 2 ^ 32 }
        requires carried { length (payload_kinds (variant_cases (closed_type self.now.types.now ty)))
            < length flats.now }
        requires few { length flats.now ≤ 16 }
        requires capacity { N ≤ 17 }
        requires room { length out.old.items + length (flat_kinds (closed_type self.now.types.now ty)) ≤ N }
        ensures { FlatEnds G.allocates (FlatBehind
            (FlatWalks (variant_type (variant_cases (closed_type self.now.types.now ty))) self.now.source.now
            (map number_of flats.now) out.old.items))
            (G.memory guest.old) nodes.old result (G.memory guest.new) nodes.new out.new.items }
    {
        let case = low_word(flats, 0);
        let Some(known) = self.types.case_payload(ty, case as usize) else {
            return Err(Stopped::Source(TrapKind::Case));
        };
        let kinds = self.types.kinds_of(ty);
        out.push(Flat::I32(case));
        let Some(member) = known else {
            push_joined(&kinds.as_slice()[1..], &[], out);
            return Ok(());
        };
        let mut carried = ArrayVec::<Flat, N>::new();
        self.carry_member(member, &flats[1..], guest, &mut carried, nodes)?;
        push_joined(&kinds.as_slice()[1..], carried.as_slice(), out);
        Ok(())
    }
}
