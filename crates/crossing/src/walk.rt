//! The walk down a type: records, variants and lists.
ghost use Rattle.std.specs.Prelude.{◌≡◌, ◌+◌, ◌*◌, ◌^◌, ◌<◌, ◌≤◌, length};
ghost use Rattle.std.specs.Int.{next_multiple_of};
ghost use Rattle.canonical_abi.specs.Guest.{IsAlignment};
ghost use Rattle.canonical_abi.specs.Types.{list_type, variant_type, variant_cases, case_count, field_count};
ghost use Rattle.canonical_abi.specs.Layout.{size, end_from, field_extents};
ghost use Rattle.values.specs.Bytes.{AreBytes};
ghost use Rattle.values.specs.Members.{AreInside, members_fields};
ghost use Rattle.values.specs.Types.{IsInside};
ghost use Rattle.tables.specs.Closed.{closed_type};
ghost use Rattle.crossing.specs.Outcome.{Walks, FieldsWalk, EachWalks, Behind, Ends};

use crate::addresses::Addresses;
use crate::fronts::LONG;
use crate::leaves::{cross_flags, cross_primitive, cross_text};
use crate::lists::{cross_lists, listed_number};
use crate::stopped::Stopped;
use crate::texts::cross_texts;
use canonical_abi::{Guest, TrapKind};
use layout::Shape;
use lift_lower::Types;
use lift_lower::nodes::{
    Members, ask_block, discriminant_bytes, number_of_size, test_block, u32_at, write_header,
    write_number,
};
use ranges::Elements;
use tables::ValType;

/// What values cross from: their types, and the bytes of the memory that holds them.
#[derive(Clone, Copy)]
pub struct Walk<'a> {
    pub types: &'a Types<'a>,
    pub source: &'a [u8],
}

/// The members of a record, and how many they are.
#[derive(Clone, Copy)]
pub struct Fields<'a> {
    pub members: Members<'a>,
    pub count: usize,
}

/// The next multiple of an alignment. Each has a constant divisor here, so that nothing is divided.
#[inline(always)]
pub(crate) fn aligned(place: usize, align: usize) -> usize
    requires alignment { IsAlignment align }
    requires fits { next_multiple_of place align < 2 ^ 64 }
    ensures { result ≡ next_multiple_of place align }
{
    match align {
        1 => place,
        2 => place.next_multiple_of(2),
        4 => place.next_multiple_of(4),
        _ => place.next_multiple_of(8),
    }
}

/// Each byte is a number below 256.
pub(crate) fn are_bytes(source: &[u8])
    ensures { AreBytes source.now }
{}

impl Walk<'_> {
    /// Crosses the value at the address `at.from` of the source to the address `at.to` of the target.
    /// Each node is tested in the source, its block is asked for, and it is written before the next is read; bytes that
    /// belong to no node, as padding, are not written. `nodes` grows by the nodes that were visited, as far as 64 bits
    /// count. CanonicalABI.md, "Loading" and "Storing".
    #[inline(always)]
    #[cycle(cross)]
    pub fn cross_at<G: Guest>(
        &self,
        ty: ValType,
        at: Addresses,
        guest: &mut G,
        nodes: &mut u64,
    ) -> Result<(), Stopped>
        requires inside { IsInside self.now.types.now ty }
        requires short { length self.now.source.now < 2 ^ 32 }
        requires fits { at.from + size (closed_type self.now.types.now ty) ≤ length self.now.source.now }
        requires room { at.to + size (closed_type self.now.types.now ty) ≤ length (G.memory guest.old).bytes }
        requires small { at.to + size (closed_type self.now.types.now ty) < 2 ^ 32 }
        ensures { Ends G.allocates (Walks (closed_type self.now.types.now ty) self.now.source.now at.from at.to)
            (G.memory guest.old) nodes.old result (G.memory guest.new) nodes.new }
    {
        *nodes = nodes.saturating_add(1);
        match self.types.shape_of(ty) {
            Shape::Primitive(primitive) => cross_primitive(primitive, self.source, at, guest),
            Shape::String => cross_text(self.source, at, guest),
            Shape::List(element) => self.cross_list(element, at, guest, nodes),
            Shape::Record(count) => {
                let fields = Fields {
                    members: Members::Of(ty),
                    count,
                };
                self.cross_fields(&fields, at, guest, nodes)
            }
            Shape::Variant(count) => self.cross_variant(ty, count, at, guest, nodes),
            Shape::Flags(labels) => cross_flags(labels, self.source, at, guest),
        }
    }

    /// Crosses a list: its block is tested, one of the same size is asked for, and then its header and its elements are
    /// written.
    #[cycle(cross)]
    fn cross_list<G: Guest>(
        &self,
        element: ValType,
        at: Addresses,
        guest: &mut G,
        nodes: &mut u64,
    ) -> Result<(), Stopped>
        requires inside { IsInside self.now.types.now element }
        requires short { length self.now.source.now < 2 ^ 32 }
        requires fits { at.from + 8 ≤ length self.now.source.now }
        requires room { at.to + 8 ≤ length (G.memory guest.old).bytes }
        requires small { at.to + 8 < 2 ^ 32 }
        ensures { Ends G.allocates (Behind
            (Walks (list_type (closed_type self.now.types.now element)) self.now.source.now at.from at.to))
            (G.memory guest.old) nodes.old result (G.memory guest.new) nodes.new }
    {
        canonical_abi::laws::reads_exactly();
        are_bytes(self.source);
        let start = u32_at(self.source, at.from) as usize;
        let count = u32_at(self.source, at.from + 4) as usize;
        let align = self.types.align_of(element);
        let step = self.types.size_of(element);
        let size = count * step;
        if let Err(kind) = test_block(self.source.len(), start, align, size) {
            return Err(Stopped::Source(kind));
        }
        let place = match ask_block(guest, u32::MAX, align, size) {
            Ok(place) => place,
            Err(kind) => return Err(Stopped::Target(kind)),
        };
        write_header(guest, at.to, place, count);
        let elements = Elements {
            from: start,
            to: place,
            count,
        };
        self.cross_elements(element, elements, guest, nodes)
    }

    /// Crosses so many elements one after another: records with texts or lists by their steps, of others those of the
    /// front many at a time, and what is left node by node.
    #[cycle(cross)]
    pub(crate) fn cross_elements<G: Guest>(
        &self,
        element: ValType,
        elements: Elements,
        guest: &mut G,
        nodes: &mut u64,
    ) -> Result<(), Stopped>
        requires inside { IsInside self.now.types.now element }
        requires short { length self.now.source.now < 2 ^ 32 }
        requires fits { elements.from + elements.count * size (closed_type self.now.types.now element)
            ≤ length self.now.source.now }
        requires room { elements.to + elements.count * size (closed_type self.now.types.now element)
            ≤ length (G.memory guest.old).bytes }
        requires small { elements.to + elements.count * size (closed_type self.now.types.now element) < 2 ^ 32 }
        ensures { Ends G.allocates (EachWalks (closed_type self.now.types.now element) self.now.source.now elements.from
            elements.to elements.count)
            (G.memory guest.old) nodes.old result (G.memory guest.new) nodes.new }
    {
        canonical_abi::laws::reads_exactly();
        are_bytes(self.source);
        if let Shape::String = self.types.shape_of(element) {
            return cross_texts(self.source, elements, guest, nodes);
        }
        if let Some(primitive) = listed_number(self.types, element) {
            return cross_lists(primitive, self.source, elements, guest, nodes);
        }
        if elements.count >= LONG {
            if let Some(steps) = self.steps_of(element) {
                return self.cross_by_steps(&steps, elements, guest, nodes);
            }
        }
        let step = self.types.size_of(element);
        let crossed = self.cross_front(element, elements, guest, nodes);
        for index in crossed..elements.count {
            let ahead = index * step;
            let at = Addresses {
                from: elements.from + ahead,
                to: elements.to + ahead,
            };
            self.cross_at(element, at, guest, nodes)?;
        }
        Ok(())
    }

    /// Crosses the members of a record whose first begins at `at.from`, each at the next multiple of its alignment.
    #[cycle(cross)]
    pub fn cross_fields<G: Guest>(
        &self,
        fields: &Fields,
        at: Addresses,
        guest: &mut G,
        nodes: &mut u64,
    ) -> Result<(), Stopped>
        requires inside { AreInside self.now.types.now fields.now.members }
        requires short { length self.now.source.now < 2 ^ 32 }
        requires counted { field_count (members_fields self.now.types.now fields.now.members) ≡ fields.now.count }
        requires fits { at.from + end_from 0 (field_extents (members_fields self.now.types.now fields.now.members))
            ≤ length self.now.source.now }
        requires room { at.to + end_from 0 (field_extents (members_fields self.now.types.now fields.now.members))
            ≤ length (G.memory guest.old).bytes }
        requires small { at.to + end_from 0 (field_extents (members_fields self.now.types.now fields.now.members))
            < 2 ^ 32 }
        ensures { Ends G.allocates (FieldsWalk (members_fields self.now.types.now fields.now.members)
            self.now.source.now at.from at.to 0)
            (G.memory guest.old) nodes.old result (G.memory guest.new) nodes.new }
    {
        canonical_abi::laws::reads_exactly();
        are_bytes(self.source);
        let mut end: usize = 0;
        for index in 0..fields.count {
            let Some(member) = self.types.member_type(&fields.members, index) else {
                unreachable!()
            };
            let place = aligned(end, self.types.align_of(member));
            let behind = Addresses {
                from: at.from + place,
                to: at.to + place,
            };
            self.cross_at(member, behind, guest, nodes)?;
            end = place + self.types.size_of(member);
        }
        Ok(())
    }

    /// Crosses the number of a case, and then its payload.
    #[cycle(cross)]
    fn cross_variant<G: Guest>(
        &self,
        ty: ValType,
        count: usize,
        at: Addresses,
        guest: &mut G,
        nodes: &mut u64,
    ) -> Result<(), Stopped>
        requires inside { IsInside self.now.types.now ty }
        requires short { length self.now.source.now < 2 ^ 32 }
        requires variant { variant_type (variant_cases (closed_type self.now.types.now ty))
            ≡ closed_type self.now.types.now ty }
        requires counted { case_count (variant_cases (closed_type self.now.types.now ty)) ≡ count }
        requires fits { at.from + size (closed_type self.now.types.now ty) ≤ length self.now.source.now }
        requires room { at.to + size (closed_type self.now.types.now ty) ≤ length (G.memory guest.old).bytes }
        requires small { at.to + size (closed_type self.now.types.now ty) < 2 ^ 32 }
        ensures { Ends G.allocates (Behind
            (Walks (variant_type (variant_cases (closed_type self.now.types.now ty))) self.now.source.now at.from
            at.to))
            (G.memory guest.old) nodes.old result (G.memory guest.new) nodes.new }
    {
        let width = discriminant_bytes(count);
        let case = number_of_size(self.source, at.from, width);
        let Some(known) = self.types.case_payload(ty, case as usize) else {
            return Err(Stopped::Source(TrapKind::Case));
        };
        write_number(guest, at.to, width, case);
        let Some(member) = known else {
            return Ok(());
        };
        // The offset of a payload is the variant's alignment.
        let place = self.types.align_of(ty);
        let behind = Addresses {
            from: at.from + place,
            to: at.to + place,
        };
        self.cross_at(member, behind, guest, nodes)
    }
}
