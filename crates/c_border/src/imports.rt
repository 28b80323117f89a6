//! A guest's call of a function that a host serves, with values as texts of JSON.
ghost use Rattle.std.specs.Prelude.{◌≡◌};
ghost use Rattle.std.specs.Option.{option_map};
ghost use Rattle.tables.specs.Closed.{IsFunction};
ghost use Rattle.c_border.specs.Imports.{AsksOfResult, JsonAnswers, JsonAsksOfResult, JsonReadsArguments};

use crate::argument_texts::arguments_text;
use crate::functions::function;
use crate::json::JsonCall;
use crate::result_texts::result_from_json;
use crate::telling::tell_requests;
use adapter::Request;
use canonical_abi::Fault;
use host_calls::host_lists::tell_bytes;
use host_calls::{CallError, Value};
use host_values::{ImportCall, result_requests};
use memory::Block;
use opening::Package;
use package_values::Called;
use std::alloc::Global;

/// A guest's call of a function by its number, of a package if one is open, whose values are texts of JSON. Each call
/// with it fails with 70 if none is open, and with 63 if no function has this number.
#[derive(Clone, Copy)]
pub struct JsonImport<'a, 'b> {
    pub alloc: Global,
    pub package: Option<&'a Package>,
    pub number: u32,
    /// The core values that the guest passed to its import, the return area's address behind the arguments.
    pub flats: &'b [Value],
}

impl JsonImport<'_, '_> {
    /// Tells the text of the arguments that the guest passed, an array of one value for each parameter, and how many
    /// bytes it has. The memory is the guest's, and is only read. Fails as `ImportCall::arguments`, and with 71 if
    /// there is no room.
    pub fn read(&self, memory: &mut [u8], out: &mut [u8], limit: u64) -> Result<usize, CallError>
        ensures done { JsonReadsArguments (option_map (λ p. p.now) self.now.«package») self.now.number
            self.now.flats.now memory.old limit out.old result out.new }
        ensures same_memory { memory.new ≡ memory.old }
    {
        let (package, func) = function(self.package, self.number)?;
        let call = ImportCall {
            alloc: self.alloc,
            types: &package.types(),
            func,
            flats: self.flats,
        };
        let values = call.arguments(memory, limit)?;
        match arguments_text(self.alloc, package, func, values.as_slice()) {
            Ok(text) => tell_bytes(text.as_str().as_bytes(), out),
            Err(_) => Err(CallError::Fault(Fault::NoMemory)),
        }
    }

    /// Puts the result that a text says into the blocks and the return area of the guest's memory, and tells the core
    /// values that carry it at the front of `back`, which has room for 17. Answers how many they are: one at most. The
    /// text has no bytes if the function has no result. 61 or 62 if the text says no result, and then as
    /// `ImportCall::answer`.
    pub fn answer(
        &self,
        text: &[u8],
        blocks: &[Block],
        memory: &mut [u8],
        back: &mut [Value],
    ) -> Result<usize, CallError>
        ensures { JsonAnswers (option_map (λ p. p.now) self.now.«package») self.now.number self.now.flats.now text.now
            memory.old blocks.now back.old result memory.new back.new }
    {
        let (package, func) = function(self.package, self.number)?;
        let Ok(text) = str::from_utf8(text) else {
            return Err(CallError::BadJson);
        };
        let value = result_from_json(self.alloc, package, func, text)?;
        let call = ImportCall {
            alloc: self.alloc,
            types: &package.types(),
            func,
            flats: self.flats,
        };
        call.answer(value.as_slice(), blocks, memory, back)
    }
}

impl JsonCall<'_> {
    /// Tells the blocks that the result asks for that a text says, in the memory of the guest that called: how many
    /// they are, and at the front of `requests` as many as there is room for. The return area is none of them. The text
    /// has no bytes if the function has no result. 61 or 62 if it says no result; K4 in `place` if a text or a list
    /// needs more than 16,777,216 bytes; 76 if the blocks have together more bytes than the limit; or 66.
    pub fn result_requests(
        &self,
        text: &[u8],
        requests: &mut [Request],
        limit: u64,
    ) -> Result<usize, CallError>
        ensures { JsonAsksOfResult (option_map (λ p. p.now) self.now.«package») self.now.number text.now limit
            requests.old result requests.new }
    {
        let (package, func) = function(self.package, self.number)?;
        let Ok(text) = str::from_utf8(text) else {
            return Err(CallError::BadJson);
        };
        let called = Called {
            alloc: self.alloc,
            package,
            func,
        };
        tell_result(&called, text, requests, limit)
    }
}

/// Tells the blocks that the result of a text asks for.
fn tell_result(
    called: &Called<'_>,
    text: &str,
    requests: &mut [Request],
    limit: u64,
) -> Result<usize, CallError>
    requires { IsFunction called.now.«package».now.resolve called.now.func }
    ensures { AsksOfResult called.now.«package».now.resolve called.now.func text.now limit requests.old result
        requests.new }
{
    let value = result_from_json(called.alloc, called.package, called.func, text)?;
    match result_requests(
        called.alloc,
        &called.package.types(),
        called.func,
        value.as_slice(),
    ) {
        Ok(asked) => tell_requests(asked.as_slice(), requests, limit),
        Err(fault) => Err(CallError::Fault(fault)),
    }
}
