//! What is put into the caller: the arguments of a call and its return area, and values that stay.

ghost use Rattle.std.specs.Prelude.{◌≡◌, map, IfOk, IfErr};
ghost use Rattle.canonical_abi.specs.Guest.{IsLimited};
ghost use Rattle.canonical_abi.specs.Session.{PlacesValue};
ghost use Rattle.canonical_abi.specs.Types.{result_fields};
ghost use Rattle.canonical_abi.specs.Values.{HasType, HaveTypes};
ghost use Rattle.tables.specs.Closed.{IsFunction, closed_type, function_type};
ghost use Rattle.tables.specs.Standard.{IsTypeOf};
ghost use Rattle.lift_lower.specs.Placing.{IsAreaIn};
ghost use Rattle.values.specs.Val.{value_of};
ghost use Rattle.witcall.specs.Session.{IsReady, IsNotReady};
ghost use Rattle.witcall.specs.Steps.{placed_answer};

use crate::steps::Held;
use canonical_abi::{Fault, Flat, Guest, Step, Trap, TrapKind};
use lift_lower::{Flats, Types, Val, ask_area, lower_arguments, store};
use opening::Package;
use tables::{FunctionId, ValType};

/// Lowers the arguments into the caller, and then asks for the return area if the result does not go flat: its address
/// is the last of the core values, which replace those that the list had. Takes no memory of the host.
pub(crate) fn place_call<C: Guest>(
    table: &Types,
    func: FunctionId,
    arguments: &[Val],
    caller: &mut C,
    flats: &mut Flats,
) -> Result<Option<u32>, Fault>
    requires function { IsFunction table.now func }
    requires typed { HaveTypes (map value_of arguments.now) (function_type table.now func).params }
    ensures placed { IfOk result (λ area. IsReady C.allocates (function_type table.now func)
        (map value_of arguments.now)
        (C.memory caller.old) flats.new.items area (C.memory caller.new)) }
    ensures small { IfOk result (λ _. IsLimited (C.memory caller.new)) }
    ensures area { IfOk result (IsAreaIn (result_fields (function_type table.now func).result)
        (C.memory caller.new).bytes) }
    ensures fault { IfErr result (λ fault. IsNotReady C.allocates (function_type table.now func)
        (map value_of arguments.now)
        (C.memory caller.old) fault (C.memory caller.new)) }
{
    lower_arguments(table, func, arguments, caller, flats)?;
    let area = ask_area(table, table.resolve().signature(func).result, caller)?;
    // A memory's length is a number of 32 bits.
    let _len = caller.len();
    let Some(at) = area else {
        return Ok(area);
    };
    flats.push(Flat::I32(at));
    Ok(area)
}

/// Stores a value in a block of its own, which is asked for first. A trap is in step `place`: the first request that
/// fails. Takes no memory of the host.
pub(crate) fn place_value<C: Guest>(
    package: &Package,
    ty: ValType,
    value: &Val,
    caller: &mut C,
) -> Result<Held, Fault>
    requires known { IsTypeOf «package».now.resolve ty }
    requires typed { HasType (value_of value.now) (closed_type «package».now.resolve ty) }
    ensures placed { PlacesValue C.allocates (closed_type «package».now.resolve ty) (value_of value.now)
        (C.memory caller.old)
        (placed_answer «package».now.resolve result) (C.memory caller.new) }
    ensures known { IfOk result (λ held. IsTypeOf «package».now.resolve held.ty) }
    ensures same_type { IfOk result (λ held. held.ty ≡ ty) }
{
    let layouts = package.layouts();
    let Ok(at) = caller.alloc(layouts.align(ty), layouts.size(ty)) else {
        return Err(Fault::Trap(Trap {
            kind: TrapKind::Full,
            step: Step::Place,
        }));
    };
    match store(package.resolve(), layouts, ty, value, caller, at) {
        Ok(()) => Ok(Held { ty, at }),
        Err(fault) => Err(fault),
    }
}
