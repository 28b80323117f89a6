//! What a row of JSON says: numbers, texts, core values, memories, and what the body does.

use crate::vector_sides::acting::{Act, Acting, Stop, answered};
use crate::vector_sides::backing::Backing;
use crate::vector_sides::logged::Logged;
use canonical_abi::{Flat, Full, Guest};
use lift_lower::FlatResults;
use memory::{Bump, FirstFit, Headers, Scripted, Space};
use serde_json::Value;
use std::alloc::Global;
use std::slice;

/// What a key has, unless that is null.
pub fn field<'a>(row: &'a Value, key: &str) -> Option<&'a Value> {
    match row.get(key) {
        Some(Value::Null) => None,
        value => value,
    }
}

/// The values of a list, if it is one.
pub fn list(value: Option<&Value>) -> &[Value] {
    match value {
        Some(Value::Array(values)) => values.as_slice(),
        _ => &[],
    }
}

pub fn text(value: Option<&Value>) -> anyhow::Result<&str> {
    match value {
        Some(Value::String(text)) => Ok(text.as_str()),
        _ => Err(anyhow::anyhow!("no text")),
    }
}

/// The text of a value, if it is one.
fn word(value: Option<&Value>) -> Option<&str> {
    match value {
        Some(value) => value.as_str(),
        None => None,
    }
}

/// The number of a value, if it is one.
fn whole(value: Option<&Value>) -> Option<u64> {
    match value {
        Some(value) => value.as_u64(),
        None => None,
    }
}

pub fn number(value: Option<&Value>) -> anyhow::Result<u32> {
    match whole(value) {
        Some(number) => Ok(u32::try_from(number)?),
        None => Err(anyhow::anyhow!("no number")),
    }
}

/// The value of one side, 0 or 1, in the pair of a key.
fn of_pair<'a>(row: &'a Value, key: &str, side: usize) -> Option<&'a Value> {
    match list(row.get(key)).get(side) {
        Some(Value::Null) => None,
        value => value,
    }
}

/// A core value, `["i32", n]` or `["i64", n]`.
fn flat(value: &Value) -> anyhow::Result<Flat> {
    let Some(number) = whole(value.get(1usize)) else {
        return Err(anyhow::anyhow!("no core value"));
    };
    match word(list(Some(value)).first()) {
        Some("i64") => Ok(Flat::I64(number)),
        Some("i32") => Ok(Flat::I32(u32::try_from(number)?)),
        _ => Err(anyhow::anyhow!("no core value")),
    }
}

pub fn flats(alloc: Global, values: &[Value]) -> anyhow::Result<Vec<Flat>> {
    let mut flats = Vec::new(alloc);
    for value in values {
        flats.push(flat(value)?)?;
    }
    Ok(flats)
}

/// The bytes of the package, text or binary.
pub fn package_bytes(alloc: Global, row: &Value) -> anyhow::Result<Vec<u8>> {
    if let Some(text) = word(row.get("text")) {
        return Ok(text.as_bytes().to_vec(alloc)?);
    }
    Ok(hex::decode(alloc, text(row.get("binary"))?)?)
}

/// A memory of zeros of an honest kind, which grows if it has a most length.
fn space(alloc: Global, kind: Option<&str>, len: u32, most: Option<u32>) -> anyhow::Result<Space> {
    Ok(match (kind, most) {
        (Some("first-fit"), None) => Space::FirstFit(FirstFit::new(alloc, len)?),
        (Some("first-fit"), Some(most)) => Space::FirstFit(FirstFit::growing(alloc, len, most)?),
        (_, None) => Space::Bump(Bump::new(alloc, len)?),
        (_, Some(most)) => Space::Bump(Bump::growing(alloc, len, most)?),
    })
}

/// The answers of an allocator: addresses, and refusals.
fn answers(alloc: Global, values: &[Value]) -> anyhow::Result<Vec<Result<u32, Full>>> {
    let mut answers = Vec::new(alloc);
    for value in values {
        answers.push(match value {
            Value::Null => Err(Full),
            _ => Ok(number(Some(value))?),
        })?;
    }
    Ok(answers)
}

/// A memory of zeros with the allocator that a row says for a side.
fn backing(alloc: Global, row: &Value, side: usize, len: u32) -> anyhow::Result<Backing> {
    if let Some(script) = of_pair(row, "script", side) {
        let answers = answers(alloc, list(Some(script)))?;
        return Ok(Backing::Scripted(Scripted::new(alloc, len, answers)?));
    }
    let most = match of_pair(row, "max", side) {
        None => None,
        most => Some(number(most)?),
    };
    match word(of_pair(row, "kinds", side)) {
        Some("headers") => Ok(Backing::Headers(Headers::growing(alloc, len, most.unwrap_or(len))?)),
        kind => Ok(Backing::Space(space(alloc, kind, len, most)?)),
    }
}

/// Makes what is live before the call, and writes the bytes.
fn fill(memory: &mut Backing, top: u32, bytes: &[u8]) -> anyhow::Result<()> {
    if let Backing::Space(space) = memory {
        if top > 0 && space.alloc(1, top).is_err() {
            return Err(anyhow::anyhow!("a top is above its memory"));
        }
    }
    if bytes.len() <= memory.len() as usize {
        memory.write(0, bytes);
    }
    Ok(())
}

/// A number, or what stands for it if there is none.
fn number_or(value: Option<&Value>, otherwise: u32) -> anyhow::Result<u32> {
    match value {
        None => Ok(otherwise),
        value => number(value),
    }
}

/// The memory of a side, with these bytes and zeros up to its length.
fn filled(alloc: Global, row: &Value, side: usize, bytes: &[u8]) -> anyhow::Result<Backing> {
    let length = number_or(of_pair(row, "lens", side), u32::try_from(bytes.len())?)?;
    let mut memory = backing(alloc, row, side, length)?;
    fill(
        &mut memory,
        number_or(of_pair(row, "tops", side), 0)?,
        bytes,
    )?;
    Ok(memory)
}

/// The memory of a side: its bytes and zeros up to its length, what is live of it, and what its allocator answers.
pub fn guest(alloc: Global, row: &Value, side: usize) -> anyhow::Result<Logged> {
    let key = if side == 0 { "caller" } else { "callee" };
    let bytes = hex::decode(alloc, text(row.get(key))?)?;
    let memory = filled(alloc, row, side, bytes.as_slice())?;
    Ok(Logged::new(memory, Vec::new(alloc)))
}

/// The memories of both sides of a row.
#[derive(Drop)]
pub struct Memories {
    pub caller: Logged,
    pub callee: Logged,
}

/// The memories that a row says.
pub fn memories_of(alloc: Global, row: &Value) -> anyhow::Result<Memories> {
    let caller = guest(alloc, row, 0)?;
    let callee = guest(alloc, row, 1)?;
    Ok(Memories { caller, callee })
}

/// Alignments and sizes of blocks.
fn asks(alloc: Global, values: &[Value]) -> anyhow::Result<Vec<(u32, u32)>> {
    let mut asks = Vec::new(alloc);
    for value in values {
        asks.push((number(value.get(0usize))?, number(value.get(1usize))?))?;
    }
    Ok(asks)
}

/// The bytes that a run writes, behind their address.
fn written(alloc: Global, writes: &[Value]) -> anyhow::Result<Vec<u8>> {
    if writes.is_empty() {
        return Ok(Vec::new(alloc));
    }
    Ok(hex::decode(alloc, text(writes.get(1))?)?)
}

/// What one run of the body does.
fn act(alloc: Global, value: &Value) -> anyhow::Result<Act> {
    let writes = list(value.get("writes"));
    let at = number_or(writes.first(), 0)?;
    Ok(Act {
        at,
        writes: written(alloc, writes)?,
        fills: number_or(field(value, "fills"), 0)?,
        asks: asks(alloc, list(value.get("asks")))?,
        answer: answer(alloc, value)?,
        stop: stop(value),
    })
}

/// The core values that a run answers, for which there is room for four.
fn answer(alloc: Global, value: &Value) -> anyhow::Result<FlatResults> {
    let flats = flats(alloc, list(value.get("answer")))?;
    if flats.len() > 4 {
        return Err(anyhow::anyhow!("a body answers at most 4 values"));
    }
    Ok(answered(flats.as_slice()))
}

fn stop(value: &Value) -> Stop {
    match word(value.get("stop")) {
        Some("body") => Stop::Body,
        Some("post") => Stop::Post,
        _ => Stop::No,
    }
}

/// What the runs of the body do in turn, or what the row itself says of the first.
fn acts_of(alloc: Global, row: &Value) -> anyhow::Result<Vec<Act>> {
    let values = match list(row.get("body")) {
        [] => slice::from_ref(row),
        values => values,
    };
    let mut acts = Vec::new(alloc);
    for value in values {
        acts.push(act(alloc, value)?)?;
    }
    Ok(acts)
}

/// The body, which echoes or does what the row says.
pub fn body(alloc: Global, row: &Value) -> anyhow::Result<Acting> {
    if word(row.get("body")) == Some("echo") {
        return Ok(Acting::new(None, Vec::new(alloc), Vec::new(alloc)));
    }
    let acts = acts_of(alloc, row)?;
    Ok(Acting::new(Some(acts), Vec::new(alloc), Vec::new(alloc)))
}
