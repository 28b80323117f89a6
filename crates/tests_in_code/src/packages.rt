//! What the tests ask of a package.

ghost use Rattle.std.specs.Prelude.{IfOk};
ghost use Rattle.tables.specs.Closed.{IsFunction};

use std::test::Fail;
use tables::FunctionId;
use witcall::Package;

/// The function `f` of the interface `a:b/c`.
pub fn function(package: &Package) -> Result<FunctionId, Fail>
    ensures { IfOk result (IsFunction «package».now.resolve) }
{
    match package.resolve().function("a:b/c", "f") {
        Some(f) => Ok(f),
        None => Err(Fail::from("no function")),
    }
}

/// Its number.
pub fn number(package: &Package) -> u32 {
    match package.resolve().function("a:b/c", "f") {
        Some(f) => f.0,
        None => u32::MAX,
    }
}
