//! Copies of bytes, of which those of a few bytes call nothing.
ghost use Rattle.std.specs.Prelude.{◌≡◌, ◌+◌, ◌*◌, ◌<◌, ◌≤◌, length, take, drop};
ghost use Rattle.canonical_abi.specs.Guest.{overwrite};

/// The most bytes that are copied without a call.
const FEW: usize = 16;

/// Writes bytes over others from a place on.
#[inline(always)]
pub fn write_over(bytes: &mut [u8], at: usize, part: &[u8])
    requires { at + length part.now ≤ length bytes.old }
    ensures { bytes.new ≡ overwrite bytes.old at part.now }
{
    copy(&mut bytes[at..at + part.len()], part);
}

/// Copies bytes. A call would take longer than the moves of a few.
#[inline(always)]
fn copy(target: &mut [u8], source: &[u8])
    requires { length target.old ≡ length source.now }
    ensures { target.new ≡ source.now }
{
    let len = source.len();
    if len > FEW {
        target.copy_from_slice(source);
    } else if len >= 8 {
        copy_eights(target, source);
    } else if len >= 4 {
        copy_fours(target, source);
    } else if len > 0 {
        copy_bytes(target, source);
    }
}

/// Eight bytes at a place.
#[inline(always)]
fn eight_at(source: &[u8], at: usize) -> [u8; 8]
    requires { at + 8 ≤ length source.now }
    ensures { result ≡ take 8 (drop at source.now) }
{
    let mut bytes = [0; 8];
    bytes.copy_from_slice(&source[at..at + 8]);
    bytes
}

/// Four bytes at a place.
#[inline(always)]
pub(crate) fn four_at(source: &[u8], at: usize) -> [u8; 4]
    requires { at + 4 ≤ length source.now }
    ensures { result ≡ take 4 (drop at source.now) }
{
    let mut bytes = [0; 4];
    bytes.copy_from_slice(&source[at..at + 4]);
    bytes
}

/// Copies the first eight bytes and the last eight, which are all, and may overlap. Each stand in an array between: two
/// slices could be in one block, and their addresses would be compared first.
#[inline(always)]
fn copy_eights(target: &mut [u8], source: &[u8])
    requires same { length target.old ≡ length source.now }
    requires some { 8 ≤ length source.now }
    requires few { length source.now ≤ 16 }
    ensures { target.new ≡ source.now }
{
    let end = source.len() - 8;
    let first = eight_at(source, 0);
    let last = eight_at(source, end);
    target[..8].copy_from_slice(&first);
    target[end..end + 8].copy_from_slice(&last);
}

/// The same of four.
#[inline(always)]
fn copy_fours(target: &mut [u8], source: &[u8])
    requires same { length target.old ≡ length source.now }
    requires some { 4 ≤ length source.now }
    requires few { length source.now ≤ 8 }
    ensures { target.new ≡ source.now }
{
    let end = source.len() - 4;
    let first = four_at(source, 0);
    let last = four_at(source, end);
    target[..4].copy_from_slice(&first);
    target[end..end + 4].copy_from_slice(&last);
}

/// Copies one to three bytes: the first, the middle one and the last.
#[inline(always)]
fn copy_bytes(target: &mut [u8], source: &[u8])
    requires same { length target.old ≡ length source.now }
    requires some { 0 < length source.now }
    requires few { length source.now < 4 }
    ensures { target.new ≡ source.now }
{
    let middle = source.len() / 2;
    let last = source.len() - 1;
    target[0] = source[0];
    target[middle] = source[middle];
    target[last] = source[last];
}
