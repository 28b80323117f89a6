//! The functions of a package by their numbers.
ghost use Rattle.std.specs.Prelude.{IfOk, IfErr};
ghost use Rattle.std.specs.Option.{option_map};
ghost use Rattle.c_border.specs.Functions.{HasFunction, HasNoFunction};

use host_calls::{CallError, function_of};
use opening::Package;
use tables::FunctionId;

/// The function of this number, with its package: 70 where no package is open, 63 where no function has this number.
pub fn function(package: Option<&Package>, number: u32) -> Result<(&Package, FunctionId), CallError>
    ensures ok { IfOk result (λ x. HasFunction (option_map (λ p. p.now) «package».entry) number x.0.now x.1) }
    ensures err { IfErr result (HasNoFunction (option_map (λ p. p.now) «package».entry) number) }
{
    let Some(package) = package else {
        return Err(CallError::NotOpen);
    };
    match function_of(&package.types(), number) {
        Ok(func) => Ok((package, func)),
        Err(error) => Err(error),
    }
}
