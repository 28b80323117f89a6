//! Functions of a package by their names, and why their calls ended.

ghost use Rattle.std.specs.Prelude.{◌≡◌, IfOk};
ghost use Rattle.tables.specs.Closed.{IsFunction};

use crate::vector_sides::text;
use canonical_abi::Fault;
use serde_json::Value;
use tables::{FunctionId, Resolve, ValType};
use text_builder::TextBuilder;

/// What is told of a function that is not there, as `witcall` says it.
pub(crate) const NO_FUNCTION: &str = "error 63 no function";

/// A function of an interface.
pub fn function(resolve: &Resolve, interface: &str, name: &str) -> anyhow::Result<FunctionId>
    ensures { IfOk result (IsFunction resolve.now) }
{
    match resolve.function(interface, name) {
        Some(f) => Ok(f),
        None => Err(anyhow::anyhow!("{NO_FUNCTION}")),
    }
}

/// The type of the first parameter of a function.
pub fn parameter(resolve: &Resolve, f: FunctionId) -> anyhow::Result<ValType>
    requires { IsFunction resolve.now f }
{
    match resolve.signature(f).params.as_slice().first() {
        Some(parameter) => Ok(parameter.ty),
        None => Err(anyhow::anyhow!("no parameter")),
    }
}

/// The type of the first parameter of the function that a row names.
pub(crate) fn parameter_of_row(resolve: &Resolve, row: &Value) -> anyhow::Result<ValType> {
    let f = function(resolve, "a:b/c", text(row.get("func"))?)?;
    parameter(resolve, f)
}

/// Writes why something ended.
pub fn push_fault(text: &mut TextBuilder, fault: Fault) {
    match fault {
        Fault::NoMemory => text.refuse(),
        Fault::Trap(trap) => {
            text.push("{\"trap\":\"");
            text.push_made(trap.to_string(text.alloc()));
            text.push("\"}");
        }
    }
}
