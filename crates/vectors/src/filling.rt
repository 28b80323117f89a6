//! What arguments are put into, and what is told of it.

use crate::asking::push_error;
use canonical_abi::Flat;
use host_calls::{CallError, MAX_VALUES, Value};
use memory::Block;
use serde_json::Value as Json;
use std::alloc::{AllocError, Global};
use text_builder::TextBuilder;
use vector_calls::vector_sides::{list, number, push_digits, push_flats};

/// What a place for a core value has before one is put there.
const UNSET: Value = Value {
    kind: 1,
    bits: u64::MAX,
};

/// The blocks of a step, and a host's memory and places for core values, which a call changes.
#[derive(Drop)]
pub struct Filling {
    pub blocks: Vec<Block>,
    pub memory: Vec<u8>,
    pub handed: Vec<Value>,
}

/// A block, `[align, size, at]`.
fn block(json: &Json) -> anyhow::Result<Block> {
    Ok(Block {
        align: number(json.get(0usize))?,
        size: number(json.get(1usize))?,
        at: number(json.get(2usize))?,
    })
}

fn blocks(alloc: Global, values: &[Json]) -> anyhow::Result<Vec<Block>> {
    let mut blocks = Vec::new(alloc);
    for value in values {
        blocks.push(block(value)?)?;
    }
    Ok(blocks)
}

/// So many places for core values.
fn places(alloc: Global, count: usize) -> anyhow::Result<Vec<Value>> {
    let mut places = Vec::new(alloc);
    for _place in 0..count {
        places.push(UNSET)?;
    }
    Ok(places)
}

/// For how many core values a step has room.
fn room_of(words: &[Json]) -> anyhow::Result<usize> {
    match words.get(3) {
        None => Ok(MAX_VALUES),
        room => Ok(number(room)? as usize),
    }
}

fn is_unset(flat: Flat) -> bool {
    matches!(flat, Flat::I64(u64::MAX))
}

/// How many core values there are up to the last that was put.
fn count_of(flats: &[Flat]) -> usize {
    let mut count = 0;
    for (place, flat) in flats.iter().enumerate() {
        if !is_unset(*flat) {
            count = place.saturating_add(1);
        }
    }
    count
}

/// The core values that places have.
fn flats_of(alloc: Global, handed: &[Value]) -> Result<Vec<Flat>, AllocError> {
    let mut flats = Vec::new(alloc);
    for value in handed {
        flats.push(value.flat())?;
    }
    Ok(flats)
}

/// Writes the core values up to the last that was put.
fn push_handed(text: &mut TextBuilder, flats: &[Flat]) {
    push_flats(text, flats.get(..count_of(flats)).unwrap_or(&[]));
}

/// Writes how many core values were put, or why none were, as a member.
fn push_done(text: &mut TextBuilder, done: &Result<usize, CallError>) {
    match done {
        Ok(count) => {
            text.push("\"filled\":");
            text.push_number(*count);
        }
        Err(error) => push_error(text, *error),
    }
}

impl Filling {
    /// What a step says, `["fills", VALUES, BLOCKS, ROOM]`, over a copy of this memory.
    pub fn of(alloc: Global, words: &[Json], memory: &[u8]) -> anyhow::Result<Filling> {
        Ok(Filling {
            blocks: blocks(alloc, list(words.get(2)))?,
            memory: memory.to_vec(alloc)?,
            handed: places(alloc, room_of(words)?)?,
        })
    }

    /// Writes what is told of a call that was given these.
    pub fn push(&self, text: &mut TextBuilder, done: &Result<usize, CallError>) {
        text.push("{");
        push_done(text, done);
        text.push(",\"handed\":");
        match flats_of(text.alloc(), self.handed.as_slice()) {
            Ok(flats) => push_handed(text, flats.as_slice()),
            Err(_) => text.refuse(),
        }
        text.push(",\"memory\":\"");
        push_digits(text, self.memory.as_slice(), true);
        text.push("\"}");
    }
}
