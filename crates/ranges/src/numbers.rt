//! Numbers, which cross as they are.
ghost use Rattle.std.specs.Prelude.{◌≡◌, ◌+◌, ◌*◌, ◌^◌, ◌<◌, ◌≤◌, length, MatchOption};
ghost use Rattle.canonical_abi.specs.Types.{Prim, prim_type};
ghost use Rattle.canonical_abi.specs.Layout.{size};
ghost use Rattle.ranges.specs.Bytewise.{IsNumber, Crosses};
ghost use Rattle.tables.specs.Closed.{prim_of};

use crate::elements::Elements;
use canonical_abi::Guest;
use tables::Primitive;

/// The bytes of a number: none of a bool or a char, whose bits are tested or made anew.
pub fn number_width(primitive: Primitive) -> Option<usize>
    ensures { MatchOption result (¬ IsNumber (prim_of primitive))
        (λ width. IsNumber (prim_of primitive) × (width ≡ size (prim_type (prim_of primitive)))) }
{
    match primitive {
        Primitive::S8 | Primitive::U8 => Some(1),
        Primitive::S16 | Primitive::U16 => Some(2),
        Primitive::S32 | Primitive::U32 => Some(4),
        Primitive::S64 | Primitive::U64 => Some(8),
        Primitive::Bool | Primitive::Char => None,
    }
}

/// Crosses numbers of so many bytes each, as one range.
pub fn cross_numbers<G: Guest>(width: usize, source: &[u8], elements: Elements, guest: &mut G)
    requires inside { elements.from + elements.count * width ≤ length source.now }
    requires room { elements.to + elements.count * width ≤ length (G.memory guest.old).bytes }
    requires small { elements.to + elements.count * width < 2 ^ 32 }
    ensures crosses { (p : Prim) → IsNumber p → width ≡ size (prim_type p)
        → Crosses (prim_type p) source.now elements.from elements.count G.allocates (G.memory guest.old) elements.to
        (G.memory guest.new) }
    ensures same_length { length (G.memory guest.new).bytes ≡ length (G.memory guest.old).bytes }
{
    let total = elements.count * width;
    guest.write(
        elements.to as u32,
        &source[elements.from..elements.from + total],
    );
}
