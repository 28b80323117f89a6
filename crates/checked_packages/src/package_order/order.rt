//! Packages in order.
ghost use Rattle.std.specs.Prelude.{◌≡◌, ◌<◌, ℕ, false, length, All, IfOk, IfSome, IfNone};
ghost use Rattle.std.specs.List.{list_all};
ghost use Rattle.placement.specs.Order.{is_ready, IsNext};
ghost use Rattle.checked_packages.specs.Arranged.{IsArranged, is_marked_package};

use crate::package_order::ring::ring_of;
use std::alloc::{AllocError, Global};
use tables::Sequence;

/// Packages in order, or packages that depend on each other. A package goes by its place.
#[derive(Drop)]
pub enum Arrangement {
    /// All of them, each after those that it depends on.
    Order(Sequence<usize>),
    /// At least one, each of which depends on the next, and the last on the first.
    Cycle(Sequence<usize>),
}

/// Whether a package is marked. None is that isn't there.
pub(crate) fn is_marked(marks: &[bool], place: usize) -> bool
    ensures { result ≡ is_marked_package marks.now place }
{
    marks.get(place).copied().unwrap_or(false)
}

fn all_marked(marks: &[bool], places: &[usize]) -> bool
    ensures { result ≡ list_all (is_marked_package marks.now) places.now }
{
    places.iter().all(|place| is_marked(marks, *place))
}

/// Whether a package isn't placed yet, and all that it depends on are.
fn is_ready(uses: &[Sequence<usize>], placed: &[bool], place: usize) -> bool
    requires { place < length uses.now }
    ensures { result ≡ is_ready uses.now (is_marked_package placed.now) place }
{
    let used = uses[place].as_slice();
    !is_marked(placed, place) && all_marked(placed, used)
}

/// The first package that is ready.
fn next_ready(uses: &[Sequence<usize>], placed: &[bool]) -> Option<usize>
    ensures some { IfSome result (IsNext uses.now (is_marked_package placed.now)) }
    ensures none { IfNone result ((i : ℕ) → i < length uses.now
        → is_ready uses.now (is_marked_package placed.now) i ≡ false) }
{
    for place in 0..uses.len() {
        if is_ready(uses, placed, place) {
            return Some(place);
        }
    }
    None
}

/// Puts packages in order, given those that each depends on: again and again the first that is ready. A ring if none
/// is.
pub fn arranged(alloc: Global, uses: &[Sequence<usize>]) -> Result<Arrangement, AllocError>
    requires { All (λ used. All (λ u. u < length uses.now) used) uses.now }
    ensures { IfOk result (IsArranged uses.now) }
{
    let mut placed = vec![in alloc; false; uses.len()]?;
    let mut order = Vec::new(alloc);
    let mut left = uses.len();
    while left > 0 {
        let Some(place) = next_ready(uses, &placed) else {
            return Ok(Arrangement::Cycle(ring_of(alloc, uses, &placed)?));
        };
        placed[place] = true;
        order.push(place)?;
        left -= 1;
    }
    Ok(Arrangement::Order(Sequence::new(order)))
}
