//! Values put into a memory that a host keeps.
ghost use Rattle.std.specs.Prelude.{◌≡◌, ◌<◌, ◌≤◌, ℕ, map, length, IfOk, IfErr, IsTrue};
ghost use Rattle.canonical_abi.specs.Layout.{size};
ghost use Rattle.canonical_abi.specs.Types.{record_type};
ghost use Rattle.canonical_abi.specs.Values.{HaveTypes};
ghost use Rattle.layout.specs.Layout.{AreWithin};
ghost use Rattle.memory.specs.Blocks.{are_good};
ghost use Rattle.tables.specs.Closed.{IsFunction, function_type};
ghost use Rattle.values.specs.Members.{fields_of_types, AreTypesOf};
ghost use Rattle.values.specs.Val.{value_of};
ghost use Rattle.host_values.specs.Filling.{FillsLent, FillOfLentFails, FillDone};

use adapter::parameter_types;
use host_calls::{CallError, Half, HalfError, NOWHERE, Value, broken_off, of_half, room_in, tell};
use lift_lower::{Flats, Val, lower};
use memory::{Lent, can_lend};
use tables::ValType;

/// Puts values of these types into the blocks of a memory, and answers the core values that carry them. A block of
/// another size or alignment than the one that is asked for is told by its index, and the blocks before it were written
/// to; where there are too few, this is K6.
fn fill_flats(
    half: &Half,
    types: &[ValType],
    values: &[Val],
    memory: &mut [u8],
) -> Result<Flats, HalfError>
    requires known { AreTypesOf half.now.types.now types.now }
    requires small { size (record_type (fields_of_types half.now.types.now types.now)) ≤ 16777216 }
    requires typed { HaveTypes (map value_of values.now) (fields_of_types half.now.types.now types.now) }
    requires limited { length memory.old < 4294967296 }
    requires good { IsTrue (are_good (length memory.old) half.now.blocks.now) }
    ensures filled { IfOk result (λ flats. (name : ℕ)
        × FillsLent name (fields_of_types half.now.types.now types.now) (map value_of values.now)
        memory.old half.now.blocks.now flats.items memory.new) }
    ensures error { IfErr result (λ error. (name : ℕ)
        × FillOfLentFails name (fields_of_types half.now.types.now types.now) (map value_of values.now)
        memory.old half.now.blocks.now error memory.new) }
{
    let mut target = Lent::new(memory, half.blocks);
    let (resolve, layouts) = (half.types.resolve(), half.types.layouts());
    let done = lower(resolve, layouts, types, values, &mut target);
    let left = target.left().len();
    match done {
        Ok(flats) => Ok(flats),
        Err(fault) => Err(broken_off(fault, half.blocks.len(), left)),
    }
}

/// Puts the arguments of a function into the blocks of a memory that the host keeps, and tells the core values that
/// carry them at the front of `handed`, which has room for 17 whatever the function. Answers how many they are. The
/// blocks are those that `argument_requests` tells. 71 if there is no room; 72 if the blocks can't be handed out; 66 if
/// no memory is left to test them; 73 if a block has another size or alignment than was asked for, and the blocks
/// before it were written to; K6 in `place` if there are too few.
pub fn fill_arguments(
    half: &Half,
    values: &[Val],
    memory: &mut [u8],
    handed: &mut [Value],
) -> Result<usize, CallError>
    requires within { ∥ AreWithin half.now.types.now ∥₁ }
    requires function { IsFunction half.now.types.now half.now.func }
    requires typed { HaveTypes (map value_of values.now) (function_type half.now.types.now half.now.func).params }
    ensures done { FillDone (function_type half.now.types.now half.now.func).params (map value_of values.now) memory.old
        half.now.blocks.now
        handed.old result memory.new handed.new }
{
    room_in(handed)?;
    let types = parameter_types(half.alloc, half.types, half.func)?;
    if !can_lend(half.alloc, memory.len(), &NOWHERE, half.blocks)? {
        return Err(CallError::BadBlock);
    }
    match fill_flats(half, types.as_slice(), values, memory) {
        Ok(flats) => {
            let count = flats.len();
            tell(flats.as_slice(), handed);
            Ok(count)
        }
        Err(error) => Err(of_half(error)),
    }
}
