//! Elements that cross byte by byte, each byte under its cap.
ghost use Rattle.std.specs.Prelude.{◌≡◌, ℕ, ◌+◌, ◌*◌, ◌%◌, ◌^◌, ◌<◌, ◌≤◌, length, get_or, IsTrue};
ghost use Rattle.canonical_abi.specs.Types.{ClosedType};
ghost use Rattle.canonical_abi.specs.Layout.{size};
ghost use Rattle.ranges.specs.Bytewise.{capped_byte, IsBytewise, IsTested, HasCaps, Crosses, each_cap};

use crate::elements::Elements;
use canonical_abi::Guest;

/// The bytes that are blended at one go.
const CHUNK: usize = 2048;

/// How an element's bytes cross: the caps of its bytes, 0 for padding, 1 for a bool, 255 for all others, and its nodes.
#[derive(Clone, Copy)]
pub struct Caps {
    pub size: usize,
    pub nodes: u8,
    pub bytes: [u8; 256],
}

/// The caps of one element after another, for so many bytes.
pub(crate) fn repeat(caps: &mut [u8; 2048], pattern: &[u8; 256], size: usize, len: usize)
    requires some { 0 < size }
    requires small { size ≤ 64 }
    requires few { len ≤ 2048 }
    ensures { (i : ℕ) → i < len → get_or caps.new i 0 ≡ get_or pattern.now (i % size) 0 }
{
    for i in 0..size {
        caps[i] = pattern[i];
    }
    for i in size..len {
        caps[i] = caps[i - size];
    }
}

/// New bytes over old ones, each under its cap.
#[inline(always)]
fn blend(buffer: &mut [u8; 2048], caps: &[u8; 2048], old: &[u8], new: &[u8])
    requires same { length old.now ≡ length new.now }
    requires room { length new.now ≤ 2048 }
    ensures { (i : ℕ) → i < length new.now
        → get_or buffer.new i 0 ≡ capped_byte (get_or caps.now i 0) (get_or old.now i 0) (get_or new.now i 0) }
{
    for i in 0..new.len() {
        let cap = caps[i];
        let kept = old[i];
        let taken = if new[i] < cap { new[i] } else { cap };
        buffer[i] = if cap == 0 { kept } else { taken };
    }
}

/// Crosses the elements of one chunk, whose tests all stand, under the caps of its bytes, which are counted.
#[inline(always)]
pub(crate) fn blend_chunk<G: Guest>(
    caps: &[u8; 2048],
    buffer: &mut [u8; 2048],
    source: &[u8],
    bytes: Elements,
    guest: &mut G,
)
    requires few { bytes.count ≤ 2048 }
    requires inside { bytes.from + bytes.count ≤ length source.now }
    requires room { bytes.to + bytes.count ≤ length (G.memory guest.old).bytes }
    requires small { bytes.to + bytes.count < 2 ^ 32 }
    ensures crosses { (t : ClosedType) (n : ℕ) → IsBytewise t → n * size t ≡ bytes.count
        → ((i : ℕ) → i < bytes.count → get_or caps.now i 0 ≡ each_cap t source.now bytes.from n i)
        → ((i : ℕ) → i < n → IsTested t source.now (bytes.from + i * size t))
        → Crosses t source.now bytes.from n G.allocates (G.memory guest.old) bytes.to (G.memory guest.new) }
    ensures same_length { length (G.memory guest.new).bytes ≡ length (G.memory guest.old).bytes }
{
    let new = &source[bytes.from..bytes.from + bytes.count];
    let old = &guest.bytes()[bytes.to..bytes.to + bytes.count];
    blend(buffer, caps, old, new);
    guest.write(bytes.to as u32, &buffer[..bytes.count]);
}

/// Crosses elements of a type that crosses byte by byte, whose tests all stand.
pub(crate) fn cross_bytewise<G: Guest>(
    element: &Caps,
    source: &[u8],
    elements: Elements,
    guest: &mut G,
)
    requires some { 0 < element.now.size }
    requires few { element.now.size ≤ 64 }
    requires inside { elements.from + elements.count * element.now.size ≤ length source.now }
    requires room { elements.to + elements.count * element.now.size ≤ length (G.memory guest.old).bytes }
    requires small { elements.to + elements.count * element.now.size < 2 ^ 32 }
    ensures crosses { (t : ClosedType) → IsBytewise t → HasCaps t element.now.size element.now.bytes
        → ((i : ℕ) → i < elements.count → IsTested t source.now (elements.from + i * size t))
        → Crosses t source.now elements.from elements.count G.allocates (G.memory guest.old) elements.to
        (G.memory guest.new) }
    ensures same_length { length (G.memory guest.new).bytes ≡ length (G.memory guest.old).bytes }
{
    let step = element.size;
    let mut caps = [0; 2048];
    let mut buffer = [0; 2048];
    let whole = CHUNK / step;
    repeat(
        &mut caps,
        &element.bytes,
        step,
        whole.min(elements.count) * step,
    );
    let mut done = 0;
    while done < elements.count {
        let part = whole.min(elements.count - done);
        let bytes = Elements {
            from: elements.from + done * step,
            to: elements.to + done * step,
            count: part * step,
        };
        blend_chunk(&caps, &mut buffer, source, bytes, guest);
        done += part;
    }
}

/// Crosses elements all of whose bytes cross as they are, and whose tests all stand, as one range.
pub(crate) fn cross_range<G: Guest>(
    element: &Caps,
    source: &[u8],
    elements: Elements,
    guest: &mut G,
)
    requires some { 0 < element.now.size }
    requires whole { (i : ℕ) → i < element.now.size → get_or element.now.bytes i 0 ≡ 255 }
    requires inside { elements.from + elements.count * element.now.size ≤ length source.now }
    requires room { elements.to + elements.count * element.now.size ≤ length (G.memory guest.old).bytes }
    requires small { elements.to + elements.count * element.now.size < 2 ^ 32 }
    ensures crosses { (t : ClosedType) → IsBytewise t → HasCaps t element.now.size element.now.bytes
        → ((i : ℕ) → i < elements.count → IsTested t source.now (elements.from + i * size t))
        → Crosses t source.now elements.from elements.count G.allocates (G.memory guest.old) elements.to
        (G.memory guest.new) }
    ensures same_length { length (G.memory guest.new).bytes ≡ length (G.memory guest.old).bytes }
{
    let total = elements.count * element.size;
    guest.write(
        elements.to as u32,
        &source[elements.from..elements.from + total],
    );
}

/// Whether all bytes of an element cross as they are.
fn is_whole(element: &Caps) -> bool
    requires { element.now.size ≤ 64 }
    ensures { IsTrue result → (i : ℕ) → i < element.now.size → get_or element.now.bytes i 0 ≡ 255 }
{
    for i in 0..element.size {
        if element.bytes[i] != 255 {
            return false;
        }
    }
    true
}

/// Crosses elements of a type that crosses byte by byte, whose tests all stand.
pub(crate) fn cross_capped<G: Guest>(
    element: &Caps,
    source: &[u8],
    elements: Elements,
    guest: &mut G,
)
    requires some { 0 < element.now.size }
    requires few { element.now.size ≤ 64 }
    requires inside { elements.from + elements.count * element.now.size ≤ length source.now }
    requires room { elements.to + elements.count * element.now.size ≤ length (G.memory guest.old).bytes }
    requires small { elements.to + elements.count * element.now.size < 2 ^ 32 }
    ensures crosses { (t : ClosedType) → IsBytewise t → HasCaps t element.now.size element.now.bytes
        → ((i : ℕ) → i < elements.count → IsTested t source.now (elements.from + i * size t))
        → Crosses t source.now elements.from elements.count G.allocates (G.memory guest.old) elements.to
        (G.memory guest.new) }
    ensures same_length { length (G.memory guest.new).bytes ≡ length (G.memory guest.old).bytes }
{
    if is_whole(element) {
        cross_range(element, source, elements, guest);
    } else {
        cross_bytewise(element, source, elements, guest);
    }
}
