//! The steps of a row that are taken by typed values.

ghost use Rattle.std.specs.Prelude.{◌≡◌, map, IfOk};
ghost use Rattle.canonical_abi.specs.Types.{result_fields};
ghost use Rattle.canonical_abi.specs.Values.{HaveTypes};
ghost use Rattle.layout.specs.Layout.{AreWithin};
ghost use Rattle.tables.specs.Closed.{IsFunction, function_type};
ghost use Rattle.value_json.specs.Apart.{HasApartLabels};
ghost use Rattle.values.specs.Val.{value_of};

use crate::asking::{push_asks, push_error};
use crate::filling::Filling;
use adapter::{Request, parameter_types, result_type};
use host_calls::{CallError, Half, Value};
use host_values::{Reading, argument_requests, fill_arguments, result_requests};
use lift_lower::{Types, Val, has_type};
use serde_json::Value as Json;
use std::alloc::Global;
use tables::FunctionId;
use text_builder::TextBuilder;
use value_json::{JsonError, json_of_value, values_of_json};
use vector_calls::vector_sides::{flats, list, text};

/// The function of a row, and the bytes of the memory that each of its steps begins with.
#[derive(Drop)]
pub struct Host<'a> {
    pub alloc: Global,
    pub types: &'a Types<'a>,
    pub func: FunctionId,
    pub memory: &'a [u8],
    pub ghost within: { ∥ AreWithin types.now ∥₁ },
    pub ghost function: { IsFunction types.now func },
}

/// Why JSON says no values, as the error of a call.
fn of_json(error: JsonError) -> CallError {
    match error {
        JsonError::NotThisType => CallError::NotThisType,
        JsonError::NoMemory => CallError::NoMemory,
    }
}

/// The JSON of a step.
fn json_of(words: &[Json]) -> anyhow::Result<&Json> {
    match words.get(1) {
        Some(json) => Ok(json),
        None => Err(anyhow::anyhow!("no values")),
    }
}

/// The limit of a step, if it has one.
fn limit_of(words: &[Json]) -> u64 {
    match words.get(2) {
        Some(limit) => limit.as_u64().unwrap_or(u64::MAX),
        None => u64::MAX,
    }
}

/// The core values of an answer.
fn answer_of(alloc: Global, words: &[Json]) -> anyhow::Result<Vec<Value>> {
    let mut answer = Vec::new(alloc);
    for flat in flats(alloc, list(words.get(1)))?.as_slice() {
        answer.push(Value::of(*flat))?;
    }
    Ok(answer)
}

impl Host<'_> {
    /// The arguments that JSON says.
    fn arguments(&self, json: &Json) -> Result<Vec<Val>, CallError>
        requires { HasApartLabels self.now.types.now }
        ensures { IfOk result (λ vs. HaveTypes (map value_of vs.items)
            (function_type self.now.types.now self.now.func).params) }
    {
        let types = parameter_types(self.alloc, self.types, self.func)?;
        match values_of_json(self.alloc, self.types.resolve(), types.as_slice(), json) {
            Ok(values) => Ok(values),
            Err(error) => Err(of_json(error)),
        }
    }

    /// The values of the result that JSON says.
    fn results(&self, json: &Json) -> Result<Vec<Val>, CallError>
        requires { HasApartLabels self.now.types.now }
        ensures { IfOk result (λ vs. HaveTypes (map value_of vs.items)
            (result_fields (function_type self.now.types.now self.now.func).result)) }
    {
        let ty = result_type(self.types.resolve(), self.func);
        match values_of_json(self.alloc, self.types.resolve(), ty.as_slice(), json) {
            Ok(values) => Ok(values),
            Err(error) => Err(of_json(error)),
        }
    }

    /// The blocks that arguments ask for.
    fn asked(&self, json: &Json) -> Result<Vec<Request>, CallError>
        requires { HasApartLabels self.now.types.now }
    {
        let values = self.arguments(json)?;
        match argument_requests(self.alloc, self.types, self.func, values.as_slice()) {
            Ok(told) => Ok(told),
            Err(fault) => Err(CallError::Fault(fault)),
        }
    }

    fn push_asks(&self, text: &mut TextBuilder, json: &Json)
        requires { HasApartLabels self.now.types.now }
    {
        let asked = self.asked(json);
        push_asks(text, &asked);
    }

    /// The blocks that a result asks for.
    fn asked_by_result(&self, json: &Json) -> Result<Vec<Request>, CallError>
        requires { HasApartLabels self.now.types.now }
    {
        let values = self.results(json)?;
        match result_requests(self.alloc, self.types, self.func, values.as_slice()) {
            Ok(told) => Ok(told),
            Err(fault) => Err(CallError::Fault(fault)),
        }
    }

    fn push_answer_asks(&self, text: &mut TextBuilder, json: &Json)
        requires { HasApartLabels self.now.types.now }
    {
        let asked = self.asked_by_result(json);
        push_asks(text, &asked);
    }

    /// Puts arguments into the blocks of a step.
    fn fill(&self, json: &Json, filling: &mut Filling) -> Result<usize, CallError>
        requires { HasApartLabels self.now.types.now }
    {
        let values = self.arguments(json)?;
        let half = Half {
            alloc: self.alloc,
            types: self.types,
            func: self.func,
            blocks: filling.blocks.as_slice(),
        };
        fill_arguments(
            &half,
            values.as_slice(),
            filling.memory.as_mut_slice(),
            filling.handed.as_mut_slice(),
        )
    }

    fn push_fills(&self, text: &mut TextBuilder, words: &[Json]) -> anyhow::Result<()>
        requires { HasApartLabels self.now.types.now }
    {
        let mut filling = Filling::of(self.alloc, words, self.memory)?;
        let done = self.fill(json_of(words)?, &mut filling);
        filling.push(text, &done);
        Ok(())
    }

    /// Writes a value of the result.
    fn push_value(&self, text: &mut TextBuilder, value: &Val) -> anyhow::Result<()>
        requires { HasApartLabels self.now.types.now }
    {
        let resolve = self.types.resolve();
        match result_type(resolve, self.func) {
            Some(ty) if has_type(resolve, self.types.layouts(), ty, value) => {
                let json = json_of_value(self.alloc, resolve, ty, value)?;
                text.push("{\"read\":");
                text.push_made(json.to_string(self.alloc));
                text.push("}");
                Ok(())
            }
            _ => Err(anyhow::anyhow!("no value of its type")),
        }
    }

    /// Writes the values that an answer says.
    fn push_result(
        &self,
        text: &mut TextBuilder,
        read: &Result<Option<Val>, CallError>,
    ) -> anyhow::Result<()>
        requires { HasApartLabels self.now.types.now }
    {
        match read {
            Ok(Some(value)) => self.push_value(text, value)?,
            Ok(None) => text.push("\"nothing\""),
            Err(error) => {
                text.push("{");
                push_error(text, *error);
                text.push("}");
            }
        }
        Ok(())
    }

    /// Writes what the core values of an answer say, which are read over this memory up to the limit of a step.
    fn push_read(
        &self,
        text: &mut TextBuilder,
        words: &[Json],
        memory: &mut [u8],
    ) -> anyhow::Result<()>
        requires { HasApartLabels self.now.types.now }
    {
        let answer = answer_of(self.alloc, words)?;
        let reading = Reading {
            alloc: self.alloc,
            types: self.types,
            func: self.func,
            limit: limit_of(words),
        };
        let read = reading.result(answer.as_slice(), memory);
        self.push_result(text, &read)
    }

    fn push_reads(&self, text: &mut TextBuilder, words: &[Json]) -> anyhow::Result<()>
        requires { HasApartLabels self.now.types.now }
    {
        let mut memory = self.memory.to_vec(self.alloc)?;
        self.push_read(text, words, memory.as_mut_slice())?;
        if memory.as_slice() != self.memory {
            return Err(anyhow::anyhow!("the memory was written to"));
        }
        Ok(())
    }

    /// Writes what is told of a step.
    pub fn push(&self, told: &mut TextBuilder, words: &[Json]) -> anyhow::Result<()>
        requires { HasApartLabels self.now.types.now }
    {
        match text(words.first())? {
            "asks" => self.push_asks(told, json_of(words)?),
            "fills" => self.push_fills(told, words)?,
            "answer asks" => self.push_answer_asks(told, json_of(words)?),
            "reads" => self.push_reads(told, words)?,
            word => return Err(anyhow::anyhow!("no step: {word}")),
        }
        Ok(())
    }
}
