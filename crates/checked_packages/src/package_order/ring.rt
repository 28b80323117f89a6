//! A ring of packages that depend on each other.
ghost use Rattle.std.specs.Prelude.{◌≡◌, ◌==◌, ◌<◌, ◌≤◌, true, false, IfOk, IfSome, IfNone, All, length, drop};
ghost use Rattle.std.specs.Prelude.{slice_index};
ghost use Rattle.std.specs.List.{list_any};
ghost use Rattle.placement.specs.Order.{IsCycle};
ghost use Rattle.checked_packages.specs.Arranged.{Uses, IsRing, is_left};

use crate::package_order::order::is_marked;
use std::alloc::{AllocError, Global};
use tables::Sequence;

/// The first package that this one depends on and that is left.
fn next_left(uses: &[Sequence<usize>], placed: &[bool], place: usize) -> usize
    requires within { All (λ used. All (λ u. u < length uses.now) used) uses.now }
    requires cycle { IsCycle uses.now (is_left placed.now) }
    requires place { place < length uses.now }
    requires left { is_left placed.now place ≡ true }
    ensures used { Uses uses.now place result }
    ensures within { result < length uses.now }
    ensures left { is_left placed.now result ≡ true }
{
    let used = uses[place].as_slice();
    for other in used {
        if !is_marked(placed, *other) {
            return *other;
        }
    }
    unreachable!()
}

/// The first package that is left.
fn first_left(uses: &[Sequence<usize>], placed: &[bool]) -> usize
    requires { IsCycle uses.now (is_left placed.now) }
    ensures within { result < length uses.now }
    ensures left { is_left placed.now result ≡ true }
{
    for place in 0..uses.len() {
        if !is_marked(placed, place) {
            return place;
        }
    }
    unreachable!()
}

/// Where a package stands in a walk.
fn place_in(path: &[usize], wanted: usize) -> Option<usize>
    ensures some { IfSome result (λ k. (k < length path.now) × (slice_index path.now k ≡ wanted)) }
    ensures none { IfNone result (list_any (λ place. wanted == place) path.now ≡ false) }
{
    for (index, place) in path.iter().enumerate() {
        if *place == wanted {
            return Some(index);
        }
    }
    None
}

/// A walk from a place of it on.
fn rest(alloc: Global, path: &[usize], start: usize) -> Result<Sequence<usize>, AllocError>
    requires { start ≤ length path.now }
    ensures { IfOk result (λ v. v ≡ drop start path.now) }
{
    Ok(Sequence::new(path[start..].to_vec(alloc)?))
}

/// Goes from a package that is left to one that it depends on, and so on, to one where it was: the ring of these.
pub(crate) fn ring_of(
    alloc: Global,
    uses: &[Sequence<usize>],
    placed: &[bool],
) -> Result<Sequence<usize>, AllocError>
    requires within { All (λ used. All (λ u. u < length uses.now) used) uses.now }
    requires cycle { IsCycle uses.now (is_left placed.now) }
    ensures { IfOk result (IsRing uses.now) }
{
    let mut path = Vec::new(alloc);
    let mut place = first_left(uses, placed);
    while path.len() < uses.len() {
        path.push(place)?;
        place = next_left(uses, placed, place);
        if let Some(start) = place_in(path.as_slice(), place) {
            return rest(alloc, path.as_slice(), start);
        }
    }
    unreachable!()
}
