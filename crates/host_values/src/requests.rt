//! What whole ways of a call ask for: its arguments, and its result.
ghost use Rattle.std.specs.Prelude.{◌≡◌, map};
ghost use Rattle.canonical_abi.specs.Layout.{max_flat_params};
ghost use Rattle.canonical_abi.specs.Requests.{fields_requests, params_requests};
ghost use Rattle.canonical_abi.specs.Types.{record_type, record_fields, result_fields};
ghost use Rattle.canonical_abi.specs.Values.{HaveTypes};
ghost use Rattle.tables.specs.Closed.{IsFunction, closed_type, function_type};
ghost use Rattle.values.specs.Val.{value_of};
ghost use Rattle.values.specs.Types.{IsInside};
ghost use Rattle.host_values.specs.Requests.{AreTold, Tells};

use crate::telling::{Teller, tell};
use adapter::Request;
use canonical_abi::Fault;
use std::alloc::Global;
use tables::{FunctionId, TypeId, ValType};
use values::{Members, Types, Val};

impl Teller<'_> {
    /// Tells what parameters ask for, given as the record of them: where they spill, the block of their record first.
    fn tell_params(
        &self,
        params: ValType,
        values: &[Val],
        told: &mut Vec<Request>,
    ) -> Result<(), Fault>
        requires inside { IsInside self.now.types.now params }
        requires is_record { closed_type self.now.types.now params
            ≡ record_type (record_fields (closed_type self.now.types.now params)) }
        requires typed { HaveTypes (map value_of values.now) (record_fields (closed_type self.now.types.now params)) }
        ensures { Tells (params_requests max_flat_params (record_fields (closed_type self.now.types.now params))
            (map value_of values.now))
            told.old.items result told.new.items }
    {
        let members = Members::Of(params);
        let Some(_) = self.types.count_within(&[params], 16) else {
            let align = self.types.align_of(params);
            let size = self.types.size_of(params);
            tell(align, size, told)?;
            return self.tell_fields(&members, values, told);
        };
        self.tell_fields(&members, values, told)
    }
}

/// The blocks that a function's arguments ask for, in their order: where they spill, that of their record first. K4 in
/// `place` where a text or a list needs more than 16,777,216 bytes.
pub fn argument_requests(
    alloc: Global,
    types: &Types,
    func: FunctionId,
    values: &[Val],
) -> Result<Vec<Request>, Fault>
    requires function { IsFunction types.now func }
    requires typed { HaveTypes (map value_of values.now) (function_type types.now func).params }
    ensures { AreTold (params_requests max_flat_params (function_type types.now func).params (map value_of values.now))
        result }
{
    // A function's row is the record of its parameters.
    let params = ValType::Id(TypeId(func.0));
    let teller = Teller { types };
    let mut told = Vec::new(alloc);
    teller.tell_params(params, values, &mut told)?;
    Ok(told)
}

/// The blocks that a function's result asks for, which goes flat or into the return area, in their order. There is one
/// value, or none where the function has no result.
pub fn result_requests(
    alloc: Global,
    types: &Types,
    func: FunctionId,
    values: &[Val],
) -> Result<Vec<Request>, Fault>
    requires function { IsFunction types.now func }
    requires typed { HaveTypes (map value_of values.now) (result_fields (function_type types.now func).result) }
    ensures { AreTold (fields_requests (result_fields (function_type types.now func).result) (map value_of values.now))
        result }
{
    let result = types.resolve().signature(func).result.as_slice();
    let teller = Teller { types };
    let mut told = Vec::new(alloc);
    let members = Members::Listed(result);
    teller.tell_fields(&members, values, &mut told)?;
    Ok(told)
}
