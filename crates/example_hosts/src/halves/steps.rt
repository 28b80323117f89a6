//! The two halves of a call.
ghost use Rattle.std.specs.Prelude.{◌≡◌, ◌<◌, length};
ghost use Rattle.layout.specs.Layout.{AreWithin};
ghost use Rattle.tables.specs.Closed.{IsFunction, function_type};
ghost use Rattle.example_hosts.specs.Promise.{LeavesCall, EntersCall};

use crate::halves::grants::{grant, lendable};
use crate::halves::requests::{request_answer, request_arguments};
use adapter::{Invocation, Request};
use canonical_abi::Flat;
use host_calls::{Half, HalfError, NOWHERE, return_area};
use lift_lower::{Flats, Types};
use std::alloc::Global;

/// The most blocks that a half asks for here.
const MOST: usize = 8;

const NOTHING: Request = Request { align: 1, size: 0 };

/// The first half: the callee's allocator grants what the arguments need, and they are put there. Answers the flat
/// values that the core function is to be run on.
pub fn enter(
    alloc: Global,
    types: &Types,
    invocation: &Invocation<'_>,
    caller: &mut [u8],
    callee: &mut [u8],
) -> Result<Flats, HalfError>
    requires within { ∥ AreWithin types.now ∥₁ }
    requires function { IsFunction types.now invocation.now.func }
    requires short { length caller.old < 4294967296 }
    requires limited { length callee.old < 4294967296 }
    ensures entered { EntersCall (function_type types.now invocation.now.func) invocation.now.flats.now caller.old
        callee.old result callee.new }
    ensures same_caller { caller.new ≡ caller.old }
{
    let mut slots = [NOTHING; MOST];
    // The callee can't grant more than it has. After a fault nothing is granted: the half finds it again.
    let limit = callee.len() as u64;
    let count = request_arguments(types, invocation, caller, &mut slots, limit).unwrap_or(0);
    let granted = grant(alloc, callee, &slots[..count.min(MOST)]);
    let blocks = lendable(alloc, callee.len(), &NOWHERE, granted.as_slice());
    let half = Half {
        alloc,
        types,
        func: invocation.func,
        blocks,
    };
    let mut handed = Flats::new();
    half.enter_flats(invocation.flats, caller, callee, &mut handed)?;
    Ok(handed)
}

/// The second half: the caller's allocator grants what the core function's answer needs, and the answer is put there,
/// and into the return area. Answers the flat values that the caller is given.
pub fn leave(
    alloc: Global,
    types: &Types,
    invocation: &Invocation<'_>,
    answer: &[Flat],
    callee: &mut [u8],
    caller: &mut [u8],
) -> Result<Flats, HalfError>
    requires within { ∥ AreWithin types.now ∥₁ }
    requires function { IsFunction types.now invocation.now.func }
    requires short { length callee.old < 4294967296 }
    requires limited { length caller.old < 4294967296 }
    ensures left { LeavesCall (function_type types.now invocation.now.func) invocation.now.flats.now callee.old
        answer.now caller.old result caller.new }
    ensures same_callee { callee.new ≡ callee.old }
{
    let mut slots = [NOTHING; MOST];
    let limit = caller.len() as u64;
    let func = invocation.func;
    let count = request_answer(types, func, answer, callee, &mut slots, limit).unwrap_or(0);
    let granted = grant(alloc, caller, &slots[..count.min(MOST)]);
    let area = return_area(types, invocation.func, invocation.flats);
    let blocks = lendable(alloc, caller.len(), &area, granted.as_slice());
    let half = Half {
        alloc,
        types,
        func: invocation.func,
        blocks,
    };
    let mut given = Flats::new();
    half.leave_flats(invocation.flats, answer, callee, caller, &mut given)?;
    Ok(given)
}
