//! How a function's parameters and its result lie in memory, as C is told it.
ghost use Rattle.std.specs.Prelude.{◌≡◌, ◌<◌, Some, length, slice_get};
ghost use Rattle.canonical_abi.specs.Types.{record_fields, result_fields};
ghost use Rattle.canonical_abi.specs.Layout.{field_extents, field_places};
ghost use Rattle.values.specs.Types.{IsInside};
ghost use Rattle.tables.specs.Closed.{IsFunction, closed_type, function_type};
ghost use Rattle.host_calls.specs.Parts.{extent_of_part, PartsDone};

use crate::error::CallError;
use lift_lower::Types;
use tables::{FunctionId, TypeId, ValType};

/// A parameter or a result in memory, in bytes. `offset` is its place in the record of all parameters; 0 for a result.
#[repr(C)]
#[derive(Clone, Copy, Debug)]
pub struct Part {
    pub size: u32,
    pub align: u32,
    pub offset: u32,
}

/// A field of a record, which has one at this place.
fn part_at(types: &Types, row: ValType, place: usize) -> Part
    requires inside { IsInside types.now row }
    requires place { place < length (field_extents (record_fields (closed_type types.now row))) }
    ensures extent { slice_get (field_extents (record_fields (closed_type types.now row))) place
        ≡ Some (extent_of_part result) }
    ensures offset { slice_get (field_places (record_fields (closed_type types.now row))) place ≡ Some result.offset }
{
    let layouts = types.layouts();
    match layouts.field(row, place) {
        Some(field) => Part {
            size: layouts.size(field.ty),
            align: layouts.align(field.ty),
            offset: field.offset,
        },
        None => unreachable!(),
    }
}

/// Tells how the parameters lie side by side, as the fields of a record, and answers their number: 71 where there is no
/// room for them.
pub fn parameter_parts(
    types: &Types,
    func: FunctionId,
    out: &mut [Part],
) -> Result<usize, CallError>
    requires function { IsFunction types.now func }
    ensures { PartsDone (function_type types.now func).params out.old result out.new }
{
    let count = types.resolve().signature(func).params.len();
    if out.len() < count {
        return Err(CallError::NoRoom(count));
    }
    // A function's row is the record of its parameters.
    let row = ValType::Id(TypeId(func.0));
    for place in 0..count {
        out[place] = part_at(types, row, place);
    }
    Ok(count)
}

/// Tells how the result lies in memory, if there is one, and answers how many there are.
pub fn result_part(types: &Types, func: FunctionId, out: &mut [Part]) -> Result<usize, CallError>
    requires function { IsFunction types.now func }
    ensures { PartsDone (result_fields (function_type types.now func).result) out.old result out.new }
{
    let Some(ty) = types.resolve().signature(func).result else {
        return Ok(0);
    };
    if out.is_empty() {
        return Err(CallError::NoRoom(1));
    }
    let layouts = types.layouts();
    out[0] = Part {
        size: layouts.size(ty),
        align: layouts.align(ty),
        offset: 0,
    };
    Ok(1)
}
