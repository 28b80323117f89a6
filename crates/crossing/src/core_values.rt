//! Core values that are put into a list with room for so many: a block's address and length, and the joined kinds of a
//! variant.
ghost use Rattle.std.specs.Prelude.{◌≡◌, ◌+◌, ◌<◌, ◌≤◌, ◌^◌, ◌∷◌, [], ◌++◌, length, drop};
ghost use Rattle.canonical_abi.specs.Lowering.{zero_of, widened, joined_flats};

use arrayvec::ArrayVec;
use canonical_abi::{CoreKind, Flat};

/// Puts down the address and the length of a text's or a list's block.
pub(crate) fn push_header<const N: usize>(out: &mut ArrayVec<Flat, N>, start: usize, count: usize)
    requires capacity { N ≤ 17 }
    requires room { length out.old.items + 2 ≤ N }
    requires start { start < 2 ^ 32 }
    requires count { count < 2 ^ 32 }
    ensures { out.new.items ≡ out.old.items ++ (Flat.I32 start ∷ Flat.I32 count ∷ []) }
{
    out.push(Flat::I32(start as u32));
    out.push(Flat::I32(count as u32));
}

/// Puts core values down where others of the joined kinds are wanted.
pub(crate) fn push_joined<const N: usize>(
    kinds: &[CoreKind],
    carried: &[Flat],
    out: &mut ArrayVec<Flat, N>,
)
    requires capacity { N ≤ 17 }
    requires room { length out.old.items + length kinds.now ≤ N }
    ensures { out.new.items ≡ out.old.items ++ joined_flats kinds.now carried.now }
{
    for index in 0..kinds.len() {
        out.push(joined_at(kinds, carried, index));
    }
}

/// The core value in this place of the joined kinds: zero where none is carried.
fn joined_at(kinds: &[CoreKind], carried: &[Flat], index: usize) -> Flat
    requires { index < length kinds.now }
    ensures { joined_flats (drop index kinds.now) (drop index carried.now)
        ≡ result ∷ joined_flats (drop (index + 1) kinds.now) (drop (index + 1) carried.now) }
{
    if index < carried.len() {
        widened(kinds[index], carried[index])
    } else {
        zero_of(kinds[index])
    }
}

/// A core value where one of a joined kind is wanted: extended by zeros.
fn widened(kind: CoreKind, flat: Flat) -> Flat
    ensures { result ≡ widened kind flat }
{
    match (kind, flat) {
        (CoreKind::I64, Flat::I32(number)) => Flat::I64(u64::from(number)),
        _ => flat,
    }
}

fn zero_of(kind: CoreKind) -> Flat
    ensures { result ≡ zero_of kind }
{
    match kind {
        CoreKind::I32 => Flat::I32(0),
        CoreKind::I64 => Flat::I64(0),
    }
}
