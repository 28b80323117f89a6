//! The front of a list: elements that cross many at a time, before the others cross node by node.
//!
//! A front never looks for a fault. It crosses elements as long as they pass their tests, and may stop before any of
//! them: who goes on after it finds the first fault, and the nodes up to it.
ghost use Rattle.std.specs.Prelude.{◌≡◌, ◌+◌, ◌*◌, ◌^◌, ◌<◌, ◌≤◌, length};
ghost use Rattle.canonical_abi.specs.Layout.{size, flags_size};
ghost use Rattle.canonical_abi.specs.Types.{prim_type, boolean, scalar_value, flags_type};
ghost use Rattle.crossing.specs.Outcome.{EachWalks, IsCrossed};
ghost use Rattle.values.specs.Types.{IsInside};
ghost use Rattle.tables.specs.Closed.{closed_type, prim_of};

use crate::walk::Walk;
use canonical_abi::Guest;
use layout::Shape;
use ranges::{
    Elements, cross_bools, cross_chars, cross_flags, cross_numbers, cross_planned, number_width,
    plan_of,
};
use tables::{Primitive, ValType};

/// Shorter lists cross node by node.
pub(crate) const LONG: usize = 8;

impl Walk<'_> {
    /// Crosses the first elements of a list, if they are many and their type has a way for that, and answers how
    /// many.
    pub(crate) fn cross_front<G: Guest>(
        &self,
        element: ValType,
        elements: Elements,
        guest: &mut G,
        nodes: &mut u64,
    ) -> usize
        requires inside { IsInside self.now.types.now element }
        requires fits { elements.from + elements.count * size (closed_type self.now.types.now element)
            ≤ length self.now.source.now }
        requires room { elements.to + elements.count * size (closed_type self.now.types.now element)
            ≤ length (G.memory guest.old).bytes }
        requires small { elements.to + elements.count * size (closed_type self.now.types.now element) < 2 ^ 32 }
        ensures few { result ≤ elements.count }
        ensures crossed { IsCrossed G.allocates
            (EachWalks (closed_type self.now.types.now element) self.now.source.now elements.from elements.to result)
            (G.memory guest.old) nodes.old (G.memory guest.new) nodes.new }
    {
        if elements.count < LONG {
            return 0;
        }
        match self.types.shape_of(element) {
            Shape::Primitive(Primitive::Char) => {
                front_of_chars(self.source, elements, guest, nodes)
            }
            Shape::Primitive(Primitive::Bool) => {
                front_of_bools(self.source, elements, guest, nodes)
            }
            Shape::Primitive(primitive) => {
                front_of_numbers(primitive, self.source, elements, guest, nodes)
            }
            Shape::Record(_) | Shape::Variant(_) | Shape::Flags(8 | 16 | 32) => {
                self.front_of_plan(element, elements, guest, nodes)
            }
            Shape::Flags(labels) => front_of_flags(labels, self.source, elements, guest, nodes),
            Shape::String | Shape::List(_) => 0,
        }
    }

    /// Crosses elements of a type that has a plan, up to a fault at most, and answers how many. Apart, so that its
    /// frame, which holds the plan, is not one of those of lists within each other.
    #[inline(never)]
    fn front_of_plan<G: Guest>(
        &self,
        element: ValType,
        elements: Elements,
        guest: &mut G,
        nodes: &mut u64,
    ) -> usize
        requires inside { IsInside self.now.types.now element }
        requires fits { elements.from + elements.count * size (closed_type self.now.types.now element)
            ≤ length self.now.source.now }
        requires room { elements.to + elements.count * size (closed_type self.now.types.now element)
            ≤ length (G.memory guest.old).bytes }
        requires small { elements.to + elements.count * size (closed_type self.now.types.now element) < 2 ^ 32 }
        ensures few { result ≤ elements.count }
        ensures crossed { IsCrossed G.allocates
            (EachWalks (closed_type self.now.types.now element) self.now.source.now elements.from elements.to result)
            (G.memory guest.old) nodes.old (G.memory guest.new) nodes.new }
    {
        let Some(plan) = plan_of(self.types, element) else {
            return 0;
        };
        cross_planned(&plan, self.source, elements, guest, nodes)
    }
}

/// Crosses characters up to a fault at most, and answers how many.
fn front_of_chars<G: Guest>(
    source: &[u8],
    elements: Elements,
    guest: &mut G,
    nodes: &mut u64,
) -> usize
    requires fits { elements.from + elements.count * 4 ≤ length source.now }
    requires room { elements.to + elements.count * 4 ≤ length (G.memory guest.old).bytes }
    requires small { elements.to + elements.count * 4 < 2 ^ 32 }
    ensures few { result ≤ elements.count }
    ensures crossed { IsCrossed G.allocates
        (EachWalks (prim_type scalar_value) source.now elements.from elements.to result)
        (G.memory guest.old) nodes.old (G.memory guest.new) nodes.new }
{
    let crossed = cross_chars(source, elements, guest);
    *nodes = nodes.saturating_add(crossed as u64);
    crossed
}

/// Crosses bools, and answers how many: all.
fn front_of_bools<G: Guest>(
    source: &[u8],
    elements: Elements,
    guest: &mut G,
    nodes: &mut u64,
) -> usize
    requires fits { elements.from + elements.count ≤ length source.now }
    requires room { elements.to + elements.count ≤ length (G.memory guest.old).bytes }
    requires small { elements.to + elements.count < 2 ^ 32 }
    ensures few { result ≤ elements.count }
    ensures crossed { IsCrossed G.allocates (EachWalks (prim_type boolean) source.now elements.from elements.to result)
        (G.memory guest.old) nodes.old (G.memory guest.new) nodes.new }
{
    cross_bools(source, elements, guest);
    *nodes = nodes.saturating_add(elements.count as u64);
    elements.count
}

/// Crosses flags up to one with a bit above its labels at most, and answers how many.
fn front_of_flags<G: Guest>(
    labels: usize,
    source: &[u8],
    elements: Elements,
    guest: &mut G,
    nodes: &mut u64,
) -> usize
    requires fits { elements.from + elements.count * flags_size labels ≤ length source.now }
    requires room { elements.to + elements.count * flags_size labels ≤ length (G.memory guest.old).bytes }
    requires small { elements.to + elements.count * flags_size labels < 2 ^ 32 }
    ensures few { result ≤ elements.count }
    ensures crossed { IsCrossed G.allocates (EachWalks (flags_type labels) source.now elements.from elements.to result)
        (G.memory guest.old) nodes.old (G.memory guest.new) nodes.new }
{
    let crossed = cross_flags(labels, source, elements, guest);
    *nodes = nodes.saturating_add(crossed as u64);
    crossed
}

/// Crosses numbers, and answers how many: all, or none if the primitive is no number.
fn front_of_numbers<G: Guest>(
    primitive: Primitive,
    source: &[u8],
    elements: Elements,
    guest: &mut G,
    nodes: &mut u64,
) -> usize
    requires fits { elements.from + elements.count * size (prim_type (prim_of primitive)) ≤ length source.now }
    requires room { elements.to + elements.count * size (prim_type (prim_of primitive))
        ≤ length (G.memory guest.old).bytes }
    requires small { elements.to + elements.count * size (prim_type (prim_of primitive)) < 2 ^ 32 }
    ensures few { result ≤ elements.count }
    ensures crossed { IsCrossed G.allocates
        (EachWalks (prim_type (prim_of primitive)) source.now elements.from elements.to result)
        (G.memory guest.old) nodes.old (G.memory guest.new) nodes.new }
{
    let Some(width) = number_width(primitive) else {
        return 0;
    };
    cross_numbers(width, source, elements, guest);
    *nodes = nodes.saturating_add(elements.count as u64);
    elements.count
}
