//! Words of lower-case letters and digits, by sixteen bytes at a time.
ghost use Rattle.std.specs.Prelude.{◌≡◌, ◌+◌, ◌<◌, length};
ghost use Rattle.wit_tokens.specs.LowerWords.{first_set, GoOn};

use std::simd::prelude::*;

pub(crate) const LANES: usize = 16;

/// The place of the lowest bit that is set, or 16 where none is.
#[inline(always)]
fn first_set(mask: u64) -> usize
    ensures { result ≡ first_set mask }
{
    if mask == 0 {
        LANES
    } else {
        mask.trailing_zeros() as usize
    }
}

/// How many of the 16 bytes behind a place go on a word, each behind the byte before it.
#[inline(always)]
pub(crate) fn lanes_on(text: &[u8], at: usize) -> usize
    requires { at + LANES < length text.now }
    ensures { GoOn text.now at result }
{
    let before = u8x16::from_slice(&text[at..]);
    let here = u8x16::from_slice(&text[at + 1..]);
    let no_letter = here.simd_lt(u8x16::splat(b'a')) | here.simd_gt(u8x16::splat(b'z'));
    let no_digit = here.simd_lt(u8x16::splat(b'0')) | here.simd_gt(u8x16::splat(b'9'));
    let no_joint = no_digit & here.simd_ne(u8x16::splat(b'-'));
    let stops = no_letter & (no_joint | before.simd_eq(u8x16::splat(b'-')));
    first_set(stops.to_bitmask())
}
