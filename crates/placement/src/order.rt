//! The order in which things that use each other are placed: each after those that it uses.
ghost use Rattle.std.specs.Prelude.{◌≡◌, ◌<◌, nat_lt, ℕ, Bool, length, All, IfOk, Err};
ghost use Rattle.std.specs.List.{list_all};
ghost use Rattle.placement.specs.Order.{IsPlacement, IsCycle};
ghost use Rattle.placement.specs.Straight.{looks_back, upto};

use crate::queue::Queue;
use std::alloc::{AllocError, AllocFailed, Global};
use tables::Sequence;

/// Why things could not be placed.
#[derive(Drop)]
pub enum OrderError {
    /// A group of them use each other.
    Cycle,
    NoMemory,
}

impl From<AllocError> for OrderError {
    ghost use Rattle.std.specs.Prelude.{◌≡◌};
    ghost use Rattle.placement.specs.declared.order.OrderError.TheVariants.{NoMemory};

    ghost from_gives = { λ _ e. e ≡ NoMemory };

    fn from(_error: AllocError) -> Self {
        OrderError::NoMemory
    }
}

impl<T: Drop> From<AllocFailed<T>> for OrderError {
    ghost use Rattle.std.specs.Prelude.{◌≡◌};
    ghost use Rattle.placement.specs.declared.order.OrderError.TheVariants.{NoMemory};

    ghost from_gives = { λ _ e. e ≡ NoMemory };

    fn from(_error: AllocFailed<T>) -> Self {
        OrderError::NoMemory
    }
}

/// Whether all of these stand before a place.
fn are_before(used: &[usize], place: usize) -> bool
    ensures { result ≡ list_all (λ u. nat_lt u place) used.now }
{
    used.iter().all(|node| *node < place)
}

/// Whether each node uses only nodes before it.
fn looks_back(uses: &[Sequence<usize>]) -> bool
    ensures { result ≡ looks_back 0 uses.now }
{
    for (place, used) in uses.iter().enumerate() {
        if !are_before(used.as_slice(), place) {
            return false;
        }
    }
    true
}

/// The numbers below this one, from 0 on.
fn numbers(alloc: Global, count: usize) -> Result<Vec<usize>, AllocError>
    ensures { IfOk result (λ ns. ns.items ≡ upto count) }
{
    let mut numbers = Vec::with_capacity(alloc, count)?;
    for number in 0..count {
        numbers.push(number)?;
    }
    Ok(numbers)
}

/// The order in which the nodes are placed: again and again the first that isn't placed yet and whose uses all are.
pub fn placement(alloc: Global, uses: &[Sequence<usize>]) -> Result<Sequence<usize>, OrderError>
    requires { All (λ used. All (λ u. u < length uses.now) used) uses.now }
    ensures ok { IfOk result (IsPlacement uses.now) }
    ensures cycle { result ≡ Err OrderError.Cycle → (group : ℕ → Bool) × IsCycle uses.now group }
{
    if looks_back(uses) {
        return Ok(Sequence::new(numbers(alloc, uses.len())?));
    }
    let mut queue = Queue::new(alloc, uses)?;
    let mut order = Vec::new(alloc);
    let mut left = uses.len();
    while left > 0 {
        let Some((node, waiting)) = queue.place_next(alloc) else {
            return Err(OrderError::Cycle);
        };
        queue.settle_all(waiting.as_slice())?;
        order.push(node)?;
        left -= 1;
    }
    Ok(Sequence::new(order))
}
