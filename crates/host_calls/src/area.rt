//! The return area that a caller gives.
ghost use Rattle.std.specs.Prelude.{◌≡◌, false, map, IfOk, IfErr};
ghost use Rattle.canonical_abi.specs.Headline.{area_size};
ghost use Rattle.canonical_abi.specs.Reading.{low_bits, number_of};
ghost use Rattle.layout.specs.Layout.{AreWithin};
ghost use Rattle.tables.specs.Closed.{IsFunction, function_type};
ghost use Rattle.memory.specs.Blocks.{can_lend, rise};
ghost use Rattle.host_calls.specs.Calling.{area_block};

use crate::half::{Half, NOWHERE};
use canonical_abi::Flat;
use lift_lower::{Types, low_word};
use memory::{Block, can_lend};
use std::alloc::AllocError;
use tables::FunctionId;

/// The flat value behind those of the arguments as an address, 0 where there is none.
#[tactic(auto, unfolding(canonical_abi::specs::Reading::low_bits))]
fn address_behind(flats: &[Flat], count: usize) -> u32
    ensures { result ≡ low_bits (map number_of flats.now) count 32 }
{
    if count < flats.len() {
        low_word(flats, count)
    } else {
        0
    }
}

/// How many bytes the return area of a function has: 0 where its result goes flat.
fn area_len(types: &Types, func: FunctionId) -> u32
    requires within { ∥ AreWithin types.now ∥₁ }
    requires function { IsFunction types.now func }
    ensures { result ≡ area_size (function_type types.now func) }
{
    let result = types.resolve().signature(func).result.as_slice();
    match types.kinds_within(result, 1) {
        Some(_) => 0,
        None => types.record_extent(result).0 as u32,
    }
}

/// The return area of a call, as a block that others may meet: the address behind the flat values of the arguments,
/// with the bytes of the result, of which there are none where it goes flat.
pub fn return_area(types: &Types, func: FunctionId, flats: &[Flat]) -> Block
    requires within { ∥ AreWithin types.now ∥₁ }
    requires function { IsFunction types.now func }
    ensures { result ≡ area_block (function_type types.now func) flats.now }
{
    let count = types.layouts().lifted_count(func);
    Block {
        align: 1,
        size: area_len(types, func),
        at: address_behind(flats, count),
    }
}

impl Half<'_> {
    /// Whether the blocks can be handed out of a caller of `len` bytes, beside the return area.
    pub(crate) fn can_return(&self, flats: &[Flat], len: usize) -> Result<bool, AllocError>
        requires within { ∥ AreWithin self.now.types.now ∥₁ }
        requires function { IsFunction self.now.types.now self.now.func }
        ensures can { IfOk result (λ can. can
            ≡ can_lend len (area_block (function_type self.now.types.now self.now.func) flats.now)
            self.now.blocks.now) }
        ensures memory { IfErr result (λ _. rise 0 self.now.blocks.now ≡ false) }
    {
        if self.blocks.is_empty() {
            // There is none that could meet it.
            return can_lend(self.alloc, len, &NOWHERE, self.blocks);
        }
        let area = return_area(self.types, self.func, flats);
        can_lend(self.alloc, len, &area, self.blocks)
    }
}
