//! Where a text of JSON is none of a function's arguments.
ghost use Rattle.std.specs.Prelude.{◌≡◌};
ghost use Rattle.std.specs.Option.{option_map};
ghost use Rattle.c_border.specs.Json.{JsonFaults, TellsFault};
ghost use Rattle.tables.specs.Closed.{IsFunction};

use crate::functions::function;
use crate::json::JsonCall;
use adapter::parameter_types;
use host_calls::CallError;
use host_calls::host_lists::tell_bytes;
use json_faults::first_fault;
use package_values::{Called, JsonError, arguments_from_json};
use serde_json::Value as Json;
use std::alloc::AllocError;

impl JsonCall<'_> {
    /// Tells what is wrong in a text that is none of the arguments, as a line: the first place, as
    /// `[0].lines[2].count`, what has to stand there, and what does. It has no place if the text is no array of as many
    /// values. No line, of 0 bytes, if the text says arguments. 61 if it is no JSON, or 66.
    pub fn fault(&self, text: &[u8], out: &mut [u8]) -> Result<usize, CallError>
        ensures { JsonFaults (option_map (λ p. p.now) self.now.«package») self.now.number text.now out.old result
            out.new }
    {
        let (package, func) = function(self.package, self.number)?;
        let Ok(text) = str::from_utf8(text) else {
            return Err(CallError::BadJson);
        };
        let called = Called {
            alloc: self.alloc,
            package,
            func,
        };
        tell_fault(&called, text, out)
    }
}

/// Tells what is wrong in a text.
fn tell_fault(called: &Called<'_>, text: &str, out: &mut [u8]) -> Result<usize, CallError>
    requires { IsFunction called.now.«package».now.resolve called.now.func }
    ensures { TellsFault called.now.«package».now.resolve called.now.func text.now out.old result out.new }
{
    match arguments_from_json(called.alloc, called.package, called.func, text) {
        Ok(_values) => Ok(0),
        Err(JsonError::BadJson) => Err(CallError::BadJson),
        Err(JsonError::NoMemory) => Err(CallError::NoMemory),
        Err(JsonError::NotThisType) => match fault_line(called, text) {
            Ok(line) => tell_bytes(line.as_str().as_bytes(), out),
            Err(_) => Err(CallError::NoMemory),
        },
    }
}

/// The line of a text that is JSON, and none of the arguments.
fn fault_line(called: &Called<'_>, text: &str) -> Result<String, AllocError>
    requires { IsFunction called.now.«package».now.resolve called.now.func }
{
    let alloc = called.alloc;
    let types = parameter_types(alloc, &called.package.types(), called.func)?;
    let Ok(json) = Json::from_str(alloc, text) else {
        return Err(AllocError);
    };
    match first_fault(alloc, called.package.resolve(), types.as_slice(), &json)? {
        Some(fault) => format!(in alloc; "{}: {}", fault.path.as_str(), fault.words.as_str()),
        None => format!(in alloc;
            "the arguments are an array of one value for each parameter, {} in all, each of its type",
            types.len()
        ),
    }
}
