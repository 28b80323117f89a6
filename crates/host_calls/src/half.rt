//! A half of a call between memories that a host lends.
ghost use Rattle.std.specs.Prelude.{◌≡◌, ◌≢◌, ◌<◌, ℕ, Err, OnOk, IfErr, IsTrue, length};
ghost use Rattle.canonical_abi.specs.Call.{KindsFit};
ghost use Rattle.layout.specs.Layout.{AreWithin};
ghost use Rattle.memory.specs.Blocks.{are_good};
ghost use Rattle.tables.specs.Closed.{IsFunction, function_type};
ghost use Rattle.host_calls.specs.Halves.{EntersLent, EntryOfLentFails, ReturnsLent, ReturnOfLentFails};

use crate::half_error::{HalfError, broken_off};
use adapter::{Invocation, Link};
use canonical_abi::{Fault, Flat};
use lift_lower::{Flats, Types};
use memory::{Block, Lent};
use std::alloc::Global;
use tables::FunctionId;

/// No place at all, where nothing is lent beside the blocks.
pub const NOWHERE: Block = Block {
    align: 1,
    size: 0,
    at: 0,
};

/// What a half of a call is of.
#[derive(Drop)]
pub struct Half<'a> {
    /// The host's allocator, which tests blocks that don't rise.
    pub alloc: Global,
    pub types: &'a Types<'a>,
    pub func: FunctionId,
    /// The blocks that were granted for this half before.
    pub blocks: &'a [Block],
}

impl Half<'_> {
    /// The first half of a call (`Link::enter`): puts the arguments into the callee's blocks, and the flat values for
    /// its core function into `handed`, whatever that held; it says nothing after an error. The caller is only read. A
    /// block of another size or alignment than the one that is asked for is told by its index, and the blocks before it
    /// were written to; where there are too few blocks, this is K6.
    pub fn enter_flats(
        &self,
        flats: &[Flat],
        caller: &mut [u8],
        callee: &mut [u8],
        handed: &mut Flats,
    ) -> Result<(), HalfError>
        requires within { ∥ AreWithin self.now.types.now ∥₁ }
        requires function { IsFunction self.now.types.now self.now.func }
        requires short { length caller.old < 4294967296 }
        requires limited { length callee.old < 4294967296 }
        requires good { IsTrue (are_good (length callee.old) self.now.blocks.now) }
        ensures entered { OnOk result ((name : ℕ)
            × EntersLent name (function_type self.now.types.now self.now.func) flats.now caller.old
            callee.old self.now.blocks.now handed.new.items callee.new) }
        ensures error { IfErr result (λ error. (name : ℕ)
            × EntryOfLentFails name (function_type self.now.types.now self.now.func) flats.now caller.old
            callee.old self.now.blocks.now error callee.new) }
        ensures no_memory { result ≢ Err (HalfError.Fault Fault.NoMemory) }
        ensures same_caller { caller.new ≡ caller.old }
    {
        let source = Lent::new(caller, &[]);
        let mut target = Lent::new(callee, self.blocks);
        let (resolve, layouts) = (self.types.resolve(), self.types.layouts());
        let mut link = Link::new(resolve, layouts);
        let call = &Invocation {
            func: self.func,
            flats,
        };
        let done = link.enter(call, &source, &mut target, handed);
        let left = target.left().len();
        match done {
            Ok(()) => Ok(()),
            Err(fault) => Err(broken_off(fault, self.blocks.len(), left)),
        }
    }

    /// The second half (`Link::leave`): puts what the core function answered into the caller's blocks and its return
    /// area, and the flat values for the caller into `back`, whatever that held; it says nothing after an error. The
    /// callee is only read. The kinds of `flats` are tested first, as by `Link::leave`. `can_lend` tests with the
    /// return area as its place that no block meets it. A block of another size or alignment is told as by
    /// `enter_flats`.
    pub fn leave_flats(
        &self,
        flats: &[Flat],
        answer: &[Flat],
        callee: &mut [u8],
        caller: &mut [u8],
        back: &mut Flats,
    ) -> Result<(), HalfError>
        requires within { ∥ AreWithin self.now.types.now ∥₁ }
        requires function { IsFunction self.now.types.now self.now.func }
        requires short { length callee.old < 4294967296 }
        requires limited { length caller.old < 4294967296 }
        requires good { IsTrue (are_good (length caller.old) self.now.blocks.now) }
        ensures returned { OnOk result ((name : ℕ)
            × ReturnsLent name (function_type self.now.types.now self.now.func) flats.now callee.old answer.now
            caller.old self.now.blocks.now back.new.items caller.new) }
        ensures kinds { OnOk result (KindsFit (function_type self.now.types.now self.now.func) flats.now) }
        ensures error { IfErr result (λ error. (name : ℕ)
            × ReturnOfLentFails name (function_type self.now.types.now self.now.func) flats.now callee.old answer.now
            caller.old self.now.blocks.now error caller.new) }
        ensures no_memory { result ≢ Err (HalfError.Fault Fault.NoMemory) }
        ensures same_callee { callee.new ≡ callee.old }
    {
        let source = Lent::new(callee, &[]);
        let mut target = Lent::new(caller, self.blocks);
        let (resolve, layouts) = (self.types.resolve(), self.types.layouts());
        let mut link = Link::new(resolve, layouts);
        let call = &Invocation {
            func: self.func,
            flats,
        };
        let done = link.leave(call, answer, &mut target, &source, back);
        let left = target.left().len();
        match done {
            Ok(()) => Ok(()),
            Err(fault) => Err(broken_off(fault, self.blocks.len(), left)),
        }
    }
}
