//! Lists of numbers in a list, one after another.
ghost use Rattle.std.specs.Prelude.{◌≡◌, ◌+◌, ◌*◌, ◌^◌, ◌<◌, ◌≤◌, length, IfSome};
ghost use Rattle.canonical_abi.specs.Types.{prim_type, list_type};
ghost use Rattle.canonical_abi.specs.Layout.{size};
ghost use Rattle.crossing.specs.Outcome.{Walks, EachWalks, Behind, Ends};
ghost use Rattle.values.specs.Types.{IsInside};
ghost use Rattle.ranges.specs.Bytewise.{IsNumber};
ghost use Rattle.tables.specs.Closed.{closed_type, prim_of};

use crate::addresses::Addresses;
use crate::stopped::Stopped;
use canonical_abi::Guest;
use layout::Shape;
use lift_lower::Types;
use lift_lower::nodes::{ask_block, test_block, u32_at, write_header};
use ranges::{Elements, cross_numbers, number_width};
use tables::{Primitive, ValType};

/// The number that a type is a list of.
pub(crate) fn listed_number(table: &Types, ty: ValType) -> Option<Primitive>
    requires { IsInside table.now ty }
    ensures number { IfSome result (λ p. IsNumber (prim_of p)) }
    ensures list { IfSome result (λ p. closed_type table.now ty ≡ list_type (prim_type (prim_of p))) }
{
    let Shape::List(element) = table.shape_of(ty) else {
        return None;
    };
    let Shape::Primitive(primitive) = table.shape_of(element) else {
        return None;
    };
    number_width(primitive)?;
    Some(primitive)
}

/// Crosses a list of numbers of so many bytes each: its block is tested, one of the same size is asked for, and then
/// its header and its numbers are written, these as one range.
#[inline(always)]
fn cross_listed<G: Guest>(
    primitive: Primitive,
    width: usize,
    source: &[u8],
    at: Addresses,
    guest: &mut G,
    nodes: &mut u64,
) -> Result<(), Stopped>
    requires number { IsNumber (prim_of primitive) }
    requires width { width ≡ size (prim_type (prim_of primitive)) }
    requires short { length source.now < 2 ^ 32 }
    requires fits { at.from + 8 ≤ length source.now }
    requires room { at.to + 8 ≤ length (G.memory guest.old).bytes }
    requires small { at.to + 8 < 2 ^ 32 }
    ensures { Ends G.allocates (Behind (Walks (list_type (prim_type (prim_of primitive))) source.now at.from at.to))
        (G.memory guest.old) nodes.old result (G.memory guest.new) nodes.new }
{
    canonical_abi::laws::reads_exactly();
    let start = u32_at(source, at.from) as usize;
    let count = u32_at(source, at.from + 4) as usize;
    let size = count * width;
    if let Err(kind) = test_block(source.len(), start, width, size) {
        return Err(Stopped::Source(kind));
    }
    let place = match ask_block(guest, u32::MAX, width, size) {
        Ok(place) => place,
        Err(kind) => return Err(Stopped::Target(kind)),
    };
    write_header(guest, at.to, place, count);
    let numbers = Elements {
        from: start,
        to: place,
        count,
    };
    cross_numbers(width, source, numbers, guest);
    *nodes = nodes.saturating_add(count as u64);
    Ok(())
}

/// Crosses a list of numbers, with the width as a constant, so that nothing is divided to test an alignment.
#[inline(always)]
pub(crate) fn cross_list<G: Guest>(
    primitive: Primitive,
    source: &[u8],
    at: Addresses,
    guest: &mut G,
    nodes: &mut u64,
) -> Result<(), Stopped>
    requires number { IsNumber (prim_of primitive) }
    requires short { length source.now < 2 ^ 32 }
    requires fits { at.from + 8 ≤ length source.now }
    requires room { at.to + 8 ≤ length (G.memory guest.old).bytes }
    requires small { at.to + 8 < 2 ^ 32 }
    ensures { Ends G.allocates (Behind (Walks (list_type (prim_type (prim_of primitive))) source.now at.from at.to))
        (G.memory guest.old) nodes.old result (G.memory guest.new) nodes.new }
{
    let Some(width) = number_width(primitive) else {
        unreachable!()
    };
    match width {
        1 => cross_listed(primitive, 1, source, at, guest, nodes),
        2 => cross_listed(primitive, 2, source, at, guest, nodes),
        4 => cross_listed(primitive, 4, source, at, guest, nodes),
        8 => cross_listed(primitive, 8, source, at, guest, nodes),
        _ => cross_listed(primitive, width, source, at, guest, nodes),
    }
}

/// Crosses so many lists of numbers one after another: a loop by itself, with no look at their type for each.
#[inline(always)]
fn cross_each_list<G: Guest>(
    primitive: Primitive,
    width: usize,
    source: &[u8],
    elements: Elements,
    guest: &mut G,
    nodes: &mut u64,
) -> Result<(), Stopped>
    requires number { IsNumber (prim_of primitive) }
    requires width { width ≡ size (prim_type (prim_of primitive)) }
    requires short { length source.now < 2 ^ 32 }
    requires fits { elements.from + elements.count * 8 ≤ length source.now }
    requires room { elements.to + elements.count * 8 ≤ length (G.memory guest.old).bytes }
    requires small { elements.to + elements.count * 8 < 2 ^ 32 }
    ensures { Ends G.allocates (EachWalks (list_type (prim_type (prim_of primitive))) source.now elements.from
        elements.to elements.count)
        (G.memory guest.old) nodes.old result (G.memory guest.new) nodes.new }
{
    canonical_abi::laws::reads_exactly();
    for index in 0..elements.count {
        let ahead = index * 8;
        let at = Addresses {
            from: elements.from + ahead,
            to: elements.to + ahead,
        };
        *nodes = nodes.saturating_add(1);
        cross_listed(primitive, width, source, at, guest, nodes)?;
    }
    Ok(())
}

/// Crosses so many lists of numbers, with the width as a constant. The nodes are counted in a variable of their own,
/// which can be a register.
pub(crate) fn cross_lists<G: Guest>(
    primitive: Primitive,
    source: &[u8],
    elements: Elements,
    guest: &mut G,
    nodes: &mut u64,
) -> Result<(), Stopped>
    requires number { IsNumber (prim_of primitive) }
    requires short { length source.now < 2 ^ 32 }
    requires fits { elements.from + elements.count * 8 ≤ length source.now }
    requires room { elements.to + elements.count * 8 ≤ length (G.memory guest.old).bytes }
    requires small { elements.to + elements.count * 8 < 2 ^ 32 }
    ensures { Ends G.allocates (EachWalks (list_type (prim_type (prim_of primitive))) source.now elements.from
        elements.to elements.count)
        (G.memory guest.old) nodes.old result (G.memory guest.new) nodes.new }
{
    let Some(width) = number_width(primitive) else {
        unreachable!()
    };
    let mut seen = *nodes;
    let done = match width {
        1 => cross_each_list(primitive, 1, source, elements, guest, &mut seen),
        2 => cross_each_list(primitive, 2, source, elements, guest, &mut seen),
        4 => cross_each_list(primitive, 4, source, elements, guest, &mut seen),
        8 => cross_each_list(primitive, 8, source, elements, guest, &mut seen),
        _ => cross_each_list(primitive, width, source, elements, guest, &mut seen),
    };
    *nodes = seen;
    done
}
