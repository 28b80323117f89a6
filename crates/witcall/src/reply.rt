//! The program's own body: it answers one value.

ghost use Rattle.std.specs.Prelude.{◌≡◌, List, map, option_to_list, IfOk, OnOk, OnErr};
ghost use Rattle.canonical_abi.specs.Flat.{Denotes};
ghost use Rattle.canonical_abi.specs.Layout.{max_flat_params};
ghost use Rattle.canonical_abi.specs.Types.{result_fields};
ghost use Rattle.canonical_abi.specs.Values.{HaveTypes, Value};
ghost use Rattle.values.specs.Val.{value_of};
ghost use Rattle.memory.specs.SpaceView.{space_memory};
ghost use Rattle.tables.specs.Closed.{IsFunction, function_at, function_type};
ghost use Rattle.adapter.specs.Signature.{function_signature};

use crate::refused::Refused;
use crate::signature::function_named;
use crate::typing::have_types;
use adapter::{Export, Stopped, parameter_types, result_type};
use canonical_abi::Flat;
use lift_lower::{FlatResults, Val, lift_params, lift_scalars, lower_answer};
use memory::Space;
use opening::Package;
use package_values::values_from_json;
use std::alloc::Global;
use tables::{FunctionId, ValType};

/// A body that lifts its arguments and then answers one value, whatever they are. Any fault of its own is
/// `Stopped`, and its post-return does nothing. For a scalar function it takes no memory of the host.
#[derive(Drop)]
pub struct Reply {
    alloc: Global,
    package: Package,
    func: FunctionId,
    /// The types of the parameters.
    params: Vec<ValType>,
    /// The value of the result, if it has one.
    value: Option<Val>,
    ghost function: { IsFunction «package».resolve func },
    ghost named: { params.items ≡ (function_signature (function_at «package».resolve func)).params },
    ghost typed: { ∥ HaveTypes (map value_of (option_to_list value))
        (result_fields (function_type «package».resolve func).result) ∥₁ },
}

impl Reply {
    ghost use Rattle.std.specs.Prelude.{IfOk, IfErr};
    ghost use Rattle.witcall.specs.Replying.{IsReplyOf, ReplyRefuses, DenotesNoArguments, RepliesWith, HasNoRoom};

    /// The body of a function of the package: 63 if it has no function of that name, 61 and 62
    /// if `reply` is no JSON array of the one value of its result, or of none if it has no result.
    pub fn of(
        alloc: Global,
        package: &Package,
        iface: &str,
        func: &str,
        reply: &str,
    ) -> Result<Reply, Refused>
        ensures ok { IfOk result (IsReplyOf «package».now.resolve iface.now func.now reply.now) }
        ensures err { IfErr result (ReplyRefuses «package».now.resolve iface.now func.now reply.now) }
    {
        let func = function_named(package, iface, func)?;
        let ty = result_type(package.resolve(), func);
        let mut values = values_from_json(alloc, package, ty.as_slice(), reply)?;
        let package = package.copy(alloc)?;
        let params = parameter_types(alloc, &package.types(), func)?;
        Ok(Reply {
            alloc,
            package,
            func,
            params,
            value: values.pop(),
        })
    }

    /// Lifts the arguments that it was given.
    fn lift_arguments(&self, memory: &Space, arguments: &[Flat]) -> Result<(), Stopped>
        ensures ok { OnOk result ((vs : List Value) × Denotes max_flat_params
            (function_type self.now.«package».resolve self.now.func).params (space_memory memory.now).bytes
            arguments.now vs) }
        ensures err { OnErr result (DenotesNoArguments self.now.«package».resolve self.now.func
            (space_memory memory.now).bytes arguments.now) }
    {
        let table = self.package.types();
        let types = self.params.as_slice();
        if table.resolve().is_scalar(self.func) {
            return match lift_scalars(types, arguments) {
                Ok(_values) => Ok(()),
                Err(_kind) => Err(Stopped),
            };
        }
        match lift_params(self.alloc, &table, types, arguments, memory) {
            Ok(_values) => Ok(()),
            Err(_fault) => Err(Stopped),
        }
    }

    /// Lowers its value as the answer.
    fn lower_value(&self, memory: &mut Space) -> Result<FlatResults, Stopped>
        ensures ok { IfOk result (λ flats. RepliesWith (function_type self.now.«package».resolve self.now.func)
            (map value_of (option_to_list self.now.value)) (space_memory memory.old) flats.items
            (space_memory memory.new)) }
        ensures err { OnErr result (HasNoRoom (function_type self.now.«package».resolve self.now.func)
            (map value_of (option_to_list self.now.value)) (space_memory memory.old) (space_memory memory.new)) }
    {
        let table = self.package.types();
        let ty = result_type(table.resolve(), self.func);
        let types = ty.as_slice();
        let values = self.value.as_slice();
        // Its value has its type, which `lower_answer` requires.
        if !have_types(table.resolve(), table.layouts(), types, values) {
            unreachable!()
        }
        match lower_answer(&table, types, values, memory) {
            Ok(answer) => Ok(answer),
            Err(_kind) => Err(Stopped),
        }
    }
}

impl Export for Reply {
    ghost use Rattle.std.specs.Prelude.{◌≡◌, ◌⊎◌, [], Some};
    ghost use Rattle.witcall.specs.Replying.{Replies, WantsMemory};

    ghost state = { λ _. [] };

    // It was given its function's arguments and answers its value, or stops for a cause.
    ghost runs = { λ reply s m given s' m' answer. (s' ≡ s)
        × (Replies (function_type reply.«package».resolve reply.func)
        (map value_of (option_to_list reply.value)) m given answer m'
        ⊎ WantsMemory reply.«package».resolve reply.func m answer m') };

    // Its post-return changes nothing.
    ghost posts = { λ _ s m _ s' m' done. (s' ≡ s) × (m' ≡ m) × (done ≡ Some tt) };

    fn call(&mut self, memory: &mut Space, arguments: &[Flat]) -> Result<FlatResults, Stopped> {
        match self.lift_arguments(memory, arguments) {
            Ok(()) => self.lower_value(memory),
            Err(stopped) => Err(stopped),
        }
    }

    fn post_return(&mut self, _memory: &mut Space, _answer: &[Flat]) -> Result<(), Stopped> {
        Ok(())
    }
}
