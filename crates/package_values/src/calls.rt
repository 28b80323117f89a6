//! Arguments and results of a function as texts of JSON, in memories that a host keeps.
ghost use Rattle.std.specs.Prelude.{◌≡◌};
ghost use Rattle.tables.specs.Closed.{IsFunction, function_at, function_type};
ghost use Rattle.package_values.specs.Calls.{of_json, TextAsks, TextFilled};
ghost use Rattle.adapter.specs.Signature.{function_signature};

use crate::json::{JsonError, arguments_from_json};
use adapter::Request;
use host_calls::{CallError, Half, Value};
use host_values::{argument_requests, fill_arguments};
use memory::Block;
use opening::Package;
use std::alloc::Global;
use tables::FunctionId;

impl From<JsonError> for CallError {
    ghost use Rattle.std.specs.Prelude.{◌≡◌};
    ghost use Rattle.package_values.specs.Calls.{of_json};

    ghost from_gives = { λ error e. e ≡ of_json error };

    fn from(error: JsonError) -> CallError {
        match error {
            JsonError::BadJson => CallError::BadJson,
            JsonError::NotThisType => CallError::NotThisType,
            JsonError::NoMemory => CallError::NoMemory,
        }
    }
}

/// A function of a package, with the host's allocator.
#[derive(Clone, Copy)]
pub struct Called<'a> {
    pub alloc: Global,
    pub package: &'a Package,
    pub func: FunctionId,
}

impl Called<'_> {
    /// The blocks that the arguments ask for that a text of JSON says, an array of one value for each parameter: in the
    /// order in which `fill` asks for them. 61 or 62 if the text says no arguments; K4 in `place` if a text or a list
    /// needs more than 16,777,216 bytes; or 66.
    pub fn requests(&self, text: &str) -> Result<Vec<Request>, CallError>
        requires { IsFunction self.now.«package».now.resolve self.now.func }
        ensures { let r = self.now.«package».now.resolve in
            TextAsks r (function_signature (function_at r self.now.func)).params (function_type r self.now.func)
            text.now result }
    {
        let values = arguments_from_json(self.alloc, self.package, self.func, text)?;
        match argument_requests(
            self.alloc,
            &self.package.types(),
            self.func,
            values.as_slice(),
        ) {
            Ok(told) => Ok(told),
            Err(fault) => Err(CallError::Fault(fault)),
        }
    }

    /// Puts the arguments that a text of JSON says into the blocks of a memory, and tells the core values that carry
    /// them at the front of `handed`, which has room for 17. Answers how many they are. 61 or 62 if the text says no
    /// arguments; otherwise as `fill_arguments`.
    pub fn fill(
        &self,
        text: &str,
        blocks: &[Block],
        memory: &mut [u8],
        handed: &mut [Value],
    ) -> Result<usize, CallError>
        requires { IsFunction self.now.«package».now.resolve self.now.func }
        ensures { let r = self.now.«package».now.resolve in
            TextFilled r (function_signature (function_at r self.now.func)).params (function_type r self.now.func)
            text.now memory.old blocks.now
            handed.old result memory.new handed.new }
    {
        let values = arguments_from_json(self.alloc, self.package, self.func, text)?;
        let types = self.package.types();
        let half = Half {
            alloc: self.alloc,
            types: &types,
            func: self.func,
            blocks,
        };
        fill_arguments(&half, values.as_slice(), memory, handed)
    }
}
