//! Flags, which cross as they are where no bit stands behind their labels.
ghost use Rattle.std.specs.Prelude.{◌≡◌, ◌⊎◌, ℕ, ◌+◌, ◌*◌, ◌^◌, ◌<◌, ◌≤◌, length, IsTrue};
ghost use Rattle.std.specs.Int.{w8, w16, w32};
ghost use Rattle.canonical_abi.specs.Layout.{flags_size};
ghost use Rattle.canonical_abi.specs.Reading.{number_at, byte_width};
ghost use Rattle.canonical_abi.specs.Types.{flags_type};
ghost use Rattle.ranges.specs.Bytewise.{Crosses};

use crate::blend::{Caps, cross_range};
use crate::elements::Elements;
use canonical_abi::Guest;
use values::bytes::{flags_bytes, low_flags, u8_at, u16_at, u32_at};

/// The most flags that are tested before they are written.
const FLAGS: usize = 4096;

/// Whether bytes are at most this number. By itself, over a slice of its own, each of these loops is made into vector
/// code of its own width.
#[inline(never)]
fn are_bytes_at_most(part: &[u8], count: usize, most: u32) -> bool
    requires few { count < 2 ^ 32 }
    requires inside { count * 1 ≤ length part.now }
    ensures { IsTrue result → (i : ℕ) → i < count → number_at part.now (i * 1) w8 ≤ most }
{
    let mut largest: u8 = 0;
    for i in 0..count {
        largest = largest.max(u8_at(part, i));
    }
    u32::from(largest) <= most
}

/// The same of numbers of two bytes.
#[inline(never)]
fn are_pairs_at_most(part: &[u8], count: usize, most: u32) -> bool
    requires few { count < 2 ^ 32 }
    requires inside { count * 2 ≤ length part.now }
    ensures { IsTrue result → (i : ℕ) → i < count → number_at part.now (i * 2) w16 ≤ most }
{
    let mut largest: u16 = 0;
    for i in 0..count {
        largest = largest.max(u16_at(part, i * 2));
    }
    u32::from(largest) <= most
}

/// The same of numbers of four bytes.
#[inline(never)]
fn are_words_at_most(part: &[u8], count: usize, most: u32) -> bool
    requires few { count < 2 ^ 32 }
    requires inside { count * 4 ≤ length part.now }
    ensures { IsTrue result → (i : ℕ) → i < count → number_at part.now (i * 4) w32 ≤ most }
{
    let mut largest: u32 = 0;
    for i in 0..count {
        largest = largest.max(u32_at(part, i * 4));
    }
    largest <= most
}

/// Whether numbers of so many bytes are at most this one.
#[inline(always)]
fn are_all_at_most(part: &[u8], width: usize, count: usize, most: u32) -> bool
    requires known { (width ≡ 1) ⊎ ((width ≡ 2) ⊎ (width ≡ 4)) }
    requires few { count < 2 ^ 32 }
    requires inside { count * width ≤ length part.now }
    ensures { IsTrue result → (i : ℕ) → i < count → number_at part.now (i * width) (byte_width width) ≤ most }
{
    match width {
        1 => are_bytes_at_most(part, count, most),
        2 => are_pairs_at_most(part, count, most),
        _ => are_words_at_most(part, count, most),
    }
}

/// Whether so many flags stand one after another, with no bit behind their labels.
#[inline(always)]
fn are_flags(labels: usize, memory: &[u8], from: usize, count: usize) -> bool
    requires few { count < 2 ^ 32 }
    requires inside { from + count * flags_size labels ≤ length memory.now }
    ensures { IsTrue result → (i : ℕ) → i < count
        → number_at memory.now (from + i * flags_size labels) (byte_width (flags_size labels)) < 2 ^ labels }
{
    let width = flags_bytes(labels);
    let most = low_flags(u32::MAX, labels);
    let part = &memory[from..from + count * width];
    are_all_at_most(part, width, count, most)
}

/// Crosses flags up to the chunk with the first that has a bit behind its labels. Answers how many crossed.
pub fn cross_flags<G: Guest>(
    labels: usize,
    source: &[u8],
    elements: Elements,
    guest: &mut G,
) -> usize
    requires inside { elements.from + elements.count * flags_size labels ≤ length source.now }
    requires room { elements.to + elements.count * flags_size labels ≤ length (G.memory guest.old).bytes }
    requires small { elements.to + elements.count * flags_size labels < 2 ^ 32 }
    ensures within { result ≤ elements.count }
    ensures crosses { Crosses (flags_type labels) source.now elements.from result G.allocates (G.memory guest.old)
        elements.to (G.memory guest.new) }
    ensures same_length { length (G.memory guest.new).bytes ≡ length (G.memory guest.old).bytes }
{
    let step = flags_bytes(labels);
    let flags = Caps {
        size: step,
        nodes: 1,
        bytes: [255; 256],
    };
    let mut done = 0;
    while done < elements.count {
        let part = FLAGS.min(elements.count - done);
        let start = elements.from + done * step;
        if !are_flags(labels, source, start, part) {
            return done;
        }
        let chunk = Elements {
            from: start,
            to: elements.to + done * step,
            count: part,
        };
        cross_range(&flags, source, chunk, guest);
        done += part;
    }
    done
}
