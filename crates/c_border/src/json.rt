//! Arguments and results as texts of JSON, in memories and arrays of a host's own.
ghost use Rattle.std.specs.Prelude.{◌≡◌, option_to_list, string_bytes, IfOk};
ghost use Rattle.std.specs.Option.{option_map};
ghost use Rattle.canonical_abi.specs.Types.{result_fields};
ghost use Rattle.canonical_abi.specs.Values.{HaveTypes};
ghost use Rattle.adapter.specs.Signature.{function_signature};
ghost use Rattle.tables.specs.Closed.{IsFunction, function_at, function_type};
ghost use Rattle.values.specs.Val.{value_of};
ghost use Rattle.c_border.specs.Json.{IsResultText, JsonAsks, JsonFills, JsonReads};

use crate::functions::function;
use crate::telling::tell_requests;
use adapter::{Request, result_type};
use canonical_abi::Fault;
use host_calls::host_lists::tell_bytes;
use host_calls::{CallError, Value};
use host_values::Reading;
use lift_lower::Val;
use memory::Block;
use opening::Package;
use package_values::{Called, to_json};
use std::alloc::{AllocError, Global};
use tables::FunctionId;

/// A function by its number, of a package if one is open, whose values are texts of JSON. Each call with it fails with
/// 70 if none is open, and with 63 if no function has this number.
#[derive(Clone, Copy)]
pub struct JsonCall<'a> {
    pub alloc: Global,
    pub package: Option<&'a Package>,
    pub number: u32,
}

impl JsonCall<'_> {
    /// Tells the blocks that the arguments ask for that a text says, an array of one value for each parameter: how many
    /// they are, and at the front of `requests` as many as there is room for. 61 or 62 if the text says no arguments;
    /// K4 in `place` if a text or a list needs more than 16,777,216 bytes; 76 if the blocks have together more bytes
    /// than the limit; or 66.
    pub fn requests(
        &self,
        text: &[u8],
        requests: &mut [Request],
        limit: u64,
    ) -> Result<usize, CallError>
        ensures { JsonAsks (option_map (λ p. p.now) self.now.«package») self.now.number text.now limit
            requests.old result requests.new }
    {
        let (package, func) = function(self.package, self.number)?;
        let Ok(text) = str::from_utf8(text) else {
            return Err(CallError::BadJson);
        };
        let called = Called {
            alloc: self.alloc,
            package,
            func,
        };
        let asked = called.requests(text)?;
        tell_requests(asked.as_slice(), requests, limit)
    }

    /// Puts the arguments that a text says into the blocks of a memory, and tells the core values that carry them at
    /// the front of `handed`, which has room for 17. Answers how many they are. 61 or 62 if the text says no arguments,
    /// and then 71, 72, 66, 73 or K6 as `fill_arguments`.
    pub fn fill(
        &self,
        text: &[u8],
        memory: &mut [u8],
        blocks: &[Block],
        handed: &mut [Value],
    ) -> Result<usize, CallError>
        ensures { JsonFills (option_map (λ p. p.now) self.now.«package») self.now.number text.now memory.old blocks.now
            handed.old result memory.new handed.new }
    {
        let (package, func) = function(self.package, self.number)?;
        let Ok(text) = str::from_utf8(text) else {
            return Err(CallError::BadJson);
        };
        let called = Called {
            alloc: self.alloc,
            package,
            func,
        };
        called.fill(text, blocks, memory, handed)
    }

    /// Tells the text of the result that the core values of an answer say, in the memory of the component that
    /// answered, and how many bytes it has: 0 if the function has no result. The memory is only read. Fails as
    /// `Reading::result`, and with 71 if there is no room.
    pub fn read(
        &self,
        answer: &[Value],
        memory: &mut [u8],
        out: &mut [u8],
        limit: u64,
    ) -> Result<usize, CallError>
        ensures done { JsonReads (option_map (λ p. p.now) self.now.«package») self.now.number answer.now memory.old
            limit out.old result out.new }
        ensures same_memory { memory.new ≡ memory.old }
    {
        let (package, func) = function(self.package, self.number)?;
        let reading = Reading {
            alloc: self.alloc,
            types: &package.types(),
            func,
            limit,
        };
        let value = reading.result(answer, memory)?;
        match result_text(self.alloc, package, func, value) {
            Ok(text) => tell_bytes(text.as_str().as_bytes(), out),
            Err(_) => Err(CallError::Fault(Fault::NoMemory)),
        }
    }
}

/// The text of a function's result; no bytes if it has none.
fn result_text(
    alloc: Global,
    package: &Package,
    func: FunctionId,
    value: Option<Val>,
) -> Result<String, AllocError>
    requires function { IsFunction «package».now.resolve func }
    requires typed { HaveTypes (option_to_list (option_map value_of value))
        (result_fields (function_type «package».now.resolve func).result) }
    ensures { IfOk result (λ text. IsResultText «package».now.resolve
        (function_signature (function_at «package».now.resolve func)).result
        (option_to_list (option_map value_of value)) (string_bytes text)) }
{
    let ty = result_type(package.resolve(), func);
    let (Some(value), Some(ty)) = (value, ty) else {
        return Ok(String::new(alloc));
    };
    to_json(alloc, package, ty, &value)
}
