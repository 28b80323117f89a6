//! Bools, which cross as they are where they are 0 and 1 alone.
ghost use Rattle.std.specs.Prelude.{◌≡◌, ℕ, ◌+◌, ◌^◌, ◌<◌, ◌≤◌, length, get_or};
ghost use Rattle.canonical_abi.specs.Types.{prim_type, boolean};
ghost use Rattle.ranges.specs.Bytewise.{Crosses};

use crate::blend::{Caps, cross_bytewise};
use crate::elements::Elements;
use canonical_abi::Guest;
use values::bytes::largest_byte;

/// Bools in lists of more than this many are read from memory, and not from a cache.
const CACHED: usize = 524_288;

/// The most bools that are tested before they are written: as many as stay in a first-level cache, or, where the list
/// is read from memory, so few that the processor begins to read the next ones while it writes these.
fn part_of(count: usize) -> usize
    ensures { 0 < result }
{
    if count > CACHED { 1024 } else { 16_384 }
}

/// Crosses bools that are 0 and 1 alone, as one range.
fn cross_plain<G: Guest>(source: &[u8], elements: Elements, guest: &mut G)
    requires inside { elements.from + elements.count ≤ length source.now }
    requires room { elements.to + elements.count ≤ length (G.memory guest.old).bytes }
    requires small { elements.to + elements.count < 2 ^ 32 }
    requires plain { (i : ℕ) → i < elements.count → get_or source.now (elements.from + i) 0 ≤ 1 }
    ensures crosses { Crosses (prim_type boolean) source.now elements.from elements.count G.allocates
        (G.memory guest.old) elements.to (G.memory guest.new) }
    ensures same_length { length (G.memory guest.new).bytes ≡ length (G.memory guest.old).bytes }
{
    guest.write(
        elements.to as u32,
        &source[elements.from..elements.from + elements.count],
    );
}

/// Crosses the bools of a chunk.
fn cross_part<G: Guest>(source: &[u8], elements: Elements, guest: &mut G)
    requires inside { elements.from + elements.count ≤ length source.now }
    requires room { elements.to + elements.count ≤ length (G.memory guest.old).bytes }
    requires small { elements.to + elements.count < 2 ^ 32 }
    ensures crosses { Crosses (prim_type boolean) source.now elements.from elements.count G.allocates
        (G.memory guest.old) elements.to (G.memory guest.new) }
    ensures same_length { length (G.memory guest.new).bytes ≡ length (G.memory guest.old).bytes }
{
    if largest_byte(&source[elements.from..elements.from + elements.count]) <= 1 {
        cross_plain(source, elements, guest);
        return;
    }
    let bool = Caps {
        size: 1,
        nodes: 1,
        bytes: [1; 256],
    };
    cross_bytewise(&bool, source, elements, guest);
}

/// Crosses bools.
pub fn cross_bools<G: Guest>(source: &[u8], elements: Elements, guest: &mut G)
    requires inside { elements.from + elements.count ≤ length source.now }
    requires room { elements.to + elements.count ≤ length (G.memory guest.old).bytes }
    requires small { elements.to + elements.count < 2 ^ 32 }
    ensures crosses { Crosses (prim_type boolean) source.now elements.from elements.count G.allocates
        (G.memory guest.old) elements.to (G.memory guest.new) }
    ensures same_length { length (G.memory guest.new).bytes ≡ length (G.memory guest.old).bytes }
{
    let most = part_of(elements.count);
    let mut done = 0;
    while done < elements.count {
        let part = most.min(elements.count - done);
        let chunk = Elements {
            from: elements.from + done,
            to: elements.to + done,
            count: part,
        };
        cross_part(source, chunk, guest);
        done += part;
    }
}
