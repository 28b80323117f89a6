//! The functions of a package by their names.

ghost use Rattle.std.specs.Prelude.{◌≡◌, IfOk, IfErr, OnErr};
ghost use Rattle.tables.specs.Closed.{IsFunction};
ghost use Rattle.tables.specs.Names.{IsNamed, IsMissing};

use crate::refused::Refused;
use opening::Package;
use tables::FunctionId;

/// The function of a name: 63 if there is none.
pub fn function_named(package: &Package, iface: &str, func: &str) -> Result<FunctionId, Refused>
    ensures function { IfOk result (IsFunction «package».now.resolve) }
    ensures named { IfOk result (IsNamed «package».now.resolve iface.now func.now) }
    ensures err { IfErr result (λ e. e ≡ Refused.NoFunction) }
    ensures none { OnErr result (IsMissing «package».now.resolve iface.now func.now) }
{
    match package.resolve().function(iface, func) {
        Some(found) => Ok(found),
        None => Err(Refused::NoFunction),
    }
}
