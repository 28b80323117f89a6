//! Elements from the front of a list, as far as they pass their tests a chunk at a time. What is left is for
//! who takes elements one by one: there the first fault is found.
ghost use Rattle.std.specs.Prelude.{◌≡◌, ℕ, ◌+◌, ◌*◌, ◌^◌, ◌<◌, ◌≤◌, length, IsTrue, true};
ghost use Rattle.std.specs.Int.{w32};
ghost use Rattle.canonical_abi.specs.Reading.{number_at};
ghost use Rattle.canonical_abi.specs.Types.{prim_type, scalar_value};
ghost use Rattle.canonical_abi.specs.Values.{is_scalar};
ghost use Rattle.ranges.specs.Bytewise.{Crosses};

use crate::blend::{Caps, cross_range};
use crate::elements::Elements;
use canonical_abi::Guest;

/// The most characters that are tested before they are written.
const CHARS: usize = 1024;

/// The number at a place, taken at one go, so that a loop over many is fast.
#[tactic(auto, unfolding(canonical_abi::specs::Reading::number_at))]
#[inline(always)]
fn u32_at(memory: &[u8], at: usize) -> u32
    requires { at + 4 ≤ length memory.now }
    ensures { result ≡ number_at memory.now at w32 }
{
    let mut bytes = [0; 4];
    bytes.copy_from_slice(&memory[at..at + 4]);
    u32::from_le_bytes(bytes)
}

#[inline(always)]
fn is_char(code: u32) -> bool
    ensures { result ≡ is_scalar code }
{
    code < 0xd800 || (0xdfff < code && code < 0x11_0000)
}

/// Whether all numbers are characters. By itself, over a slice of its own, this loop is made into vector code; within
/// another function it is not.
#[inline(never)]
fn all_chars(part: &[u8], count: usize) -> bool
    requires few { count < 2 ^ 32 }
    requires inside { 4 * count ≤ length part.now }
    ensures { IsTrue result → (i : ℕ) → i < count → is_scalar (number_at part.now (i * 4) w32) ≡ true }
{
    let mut bad: u32 = 0;
    for i in 0..count {
        bad += u32::from(!is_char(u32_at(part, i * 4)));
    }
    bad == 0
}

/// Whether so many characters stand one after another.
#[inline(always)]
fn are_chars(memory: &[u8], from: usize, count: usize) -> bool
    requires few { count < 2 ^ 32 }
    requires inside { from + 4 * count ≤ length memory.now }
    ensures { IsTrue result → (i : ℕ) → i < count → is_scalar (number_at memory.now (from + i * 4) w32) ≡ true }
{
    all_chars(&memory[from..from + 4 * count], count)
}

/// Crosses characters up to the chunk with the first that is none. Answers how many crossed.
pub fn cross_chars<G: Guest>(source: &[u8], elements: Elements, guest: &mut G) -> usize
    requires inside { elements.from + elements.count * 4 ≤ length source.now }
    requires room { elements.to + elements.count * 4 ≤ length (G.memory guest.old).bytes }
    requires small { elements.to + elements.count * 4 < 2 ^ 32 }
    ensures within { result ≤ elements.count }
    ensures crosses { Crosses (prim_type scalar_value) source.now elements.from result G.allocates (G.memory guest.old)
        elements.to (G.memory guest.new) }
    ensures same_length { length (G.memory guest.new).bytes ≡ length (G.memory guest.old).bytes }
{
    let char = Caps {
        size: 4,
        nodes: 1,
        bytes: [255; 256],
    };
    let mut done = 0;
    while done < elements.count {
        let part = CHARS.min(elements.count - done);
        let start = elements.from + done * 4;
        if !are_chars(source, start, part) {
            return done;
        }
        let chunk = Elements {
            from: start,
            to: elements.to + done * 4,
            count: part,
        };
        cross_range(&char, source, chunk, guest);
        done += part;
    }
    done
}
