//! Memories, and what is asked of them in turn.

use memory::{
    Block, Bump, FirstFit, Full, Guest, Headers, Lent, MemoryError, Scripted, Space, can_lend,
};
use row_inputs::parted;
use std::alloc::Global;
use text_builder::TextBuilder;

pub fn number(word: &str) -> Option<u32> {
    word.parse().ok()
}

pub fn pair(words: &str) -> Option<(u32, u32)> {
    let (first, second) = words.split_once(' ')?;
    match (number(first), number(second)) {
        (Some(first), Some(second)) => Some((first, second)),
        _ => None,
    }
}

/// Writes the address of the block of an alignment and a size that a memory grants, or that it is full.
fn push_granted<G: Guest>(
    text: &mut TextBuilder,
    memory: &mut G,
    words: &str,
    (align, size): (u32, u32),
) -> anyhow::Result<()> {
    if !matches!(align, 1 | 2 | 4 | 8) {
        return Err(anyhow::anyhow!("no alignment: {words}"));
    }
    match memory.alloc(align, size) {
        Ok(at) => text.push_number(at as usize),
        Err(_) => text.push("full"),
    }
    Ok(())
}

/// The word for whether a memory takes the block at an address, of a size, back.
fn taken<G: Guest>(memory: &mut G, at: u32, size: u32) -> &'static str {
    match memory.free(at, size) {
        Ok(()) => "taken",
        Err(_) => "not taken",
    }
}

/// The word for whether each byte is 0.
fn zeros(bytes: &[u8]) -> &'static str {
    if bytes.iter().all(|byte| *byte == 0) {
        "zeros"
    } else {
        "not zeros"
    }
}

/// Writes what a memory answers to what is asked about a block.
fn push_of_block<G: Guest>(
    text: &mut TextBuilder,
    memory: &mut G,
    words: &str,
) -> anyhow::Result<()> {
    let (word, rest) = words.split_once(' ').unwrap_or((words, ""));
    match (word, pair(rest)) {
        ("alloc", Some(block)) => push_granted(text, memory, words, block),
        ("free", Some((at, size))) => {
            text.push(taken(memory, at, size));
            Ok(())
        }
        _ => Err(anyhow::anyhow!("no request: {words}")),
    }
}

/// Writes what a memory answers to a request.
fn push_answer<G: Guest>(
    text: &mut TextBuilder,
    memory: &mut G,
    words: &str,
) -> anyhow::Result<()> {
    match words {
        "length" => text.push_number(memory.len() as usize),
        "zeros" => text.push(zeros(memory.bytes())),
        _ => return push_of_block(text, memory, words),
    }
    Ok(())
}

/// Writes what a memory answers to requests in turn.
fn push_answers<G: Guest>(
    text: &mut TextBuilder,
    memory: &mut G,
    requests: &str,
) -> anyhow::Result<()> {
    for (index, words) in requests.split(", ").enumerate() {
        text.separate(index, ", ");
        push_answer(text, memory, words)?;
    }
    Ok(())
}

/// The kind of a memory.
#[derive(Clone, Copy)]
pub enum Kind {
    Bump,
    FirstFit,
}

fn fixed(alloc: Global, kind: Kind, length: u32) -> Result<Space, MemoryError> {
    Ok(match kind {
        Kind::Bump => Space::Bump(Bump::new(alloc, length)?),
        Kind::FirstFit => Space::FirstFit(FirstFit::new(alloc, length)?),
    })
}

fn growing(alloc: Global, kind: Kind, length: u32, most: u32) -> Result<Space, MemoryError> {
    Ok(match kind {
        Kind::Bump => Space::Bump(Bump::growing(alloc, length, most)?),
        Kind::FirstFit => Space::FirstFit(FirstFit::growing(alloc, length, most)?),
    })
}

/// A memory of a length, which grows if it has a most length.
fn space(alloc: Global, kind: Kind, lengths: &str) -> anyhow::Result<Space> {
    match (pair(lengths), number(lengths)) {
        (Some((length, most)), _) => Ok(growing(alloc, kind, length, most)?),
        (_, Some(length)) => Ok(fixed(alloc, kind, length)?),
        _ => Err(anyhow::anyhow!("no length: {lengths}")),
    }
}

/// Writes what a memory of a kind answers to requests.
pub fn push_asked(text: &mut TextBuilder, kind: Kind, line: &str) -> anyhow::Result<()> {
    let (lengths, requests) = parted(line, "; ")?;
    let mut memory = space(text.alloc(), kind, lengths)?;
    push_answers(text, &mut memory, requests)
}

/// Writes what a memory that keeps notes in itself answers to requests.
pub fn push_headers(text: &mut TextBuilder, line: &str) -> anyhow::Result<()> {
    let (lengths, requests) = parted(line, "; ")?;
    let Some((length, most)) = pair(lengths) else {
        return Err(anyhow::anyhow!("no lengths: {lengths}"));
    };
    let mut memory = Headers::growing(text.alloc(), length, most)?;
    push_answers(text, &mut memory, requests)
}

/// The block of an alignment, a size and an address.
fn block(words: &str) -> Option<Block> {
    let (align, rest) = words.split_once(' ')?;
    match (number(align), pair(rest)) {
        (Some(align), Some((size, at))) => Some(Block { align, size, at }),
        _ => None,
    }
}

fn push_blocks(text: &mut TextBuilder, blocks: &mut Vec<Block>, words: &str) -> anyhow::Result<()> {
    for words in words.split(", ") {
        match block(words) {
            Some(block) => text.add(blocks, block),
            None => return Err(anyhow::anyhow!("no block: {words}")),
        }
    }
    Ok(())
}

/// The blocks that words say. A text notes whether an allocation was refused.
fn blocks(text: &mut TextBuilder, words: &str) -> anyhow::Result<Vec<Block>> {
    let mut blocks = Vec::new(text.alloc());
    push_blocks(text, &mut blocks, words)?;
    Ok(blocks)
}

/// Writes whether the blocks behind the first can be lent beside it.
fn push_can_lend(text: &mut TextBuilder, length: usize, blocks: &[Block]) -> anyhow::Result<()> {
    let [place, blocks @ ..] = blocks else {
        return Err(anyhow::anyhow!("no place"));
    };
    let can_lend = can_lend(text.alloc(), length, place, blocks)?;
    text.push(if can_lend { "true" } else { "false" });
    Ok(())
}

/// Writes whether blocks of a memory of a length can be lent, beside the place that stands before them.
pub fn push_lendable(text: &mut TextBuilder, line: &str) -> anyhow::Result<()> {
    let (length, rest) = parted(line, ", ")?;
    let length = length.parse::<usize>()?;
    let blocks = blocks(text, rest)?;
    push_can_lend(text, length, blocks.as_slice())
}

/// A place that no block meets.
const NOWHERE: Block = Block {
    align: 1,
    size: 0,
    at: 0,
};

/// Writes what an array with blocks that are lent answers to requests.
fn push_lent_answers(
    text: &mut TextBuilder,
    bytes: &mut [u8],
    blocks: &[Block],
    requests: &str,
) -> anyhow::Result<()> {
    if !can_lend(text.alloc(), bytes.len(), &NOWHERE, blocks)? {
        return Err(anyhow::anyhow!("blocks that can't be lent"));
    }
    push_answers(text, &mut Lent::new(bytes, blocks), requests)
}

/// Writes what an array of so many bytes, with blocks that are lent, answers to requests.
pub fn push_lent(text: &mut TextBuilder, line: &str) -> anyhow::Result<()> {
    let (memory, requests) = parted(line, "; ")?;
    let (length, rest) = parted(memory, ", ")?;
    let mut bytes = vec![in text.alloc(); 0; length.parse::<usize>()?]?;
    let blocks = blocks(text, rest)?;
    push_lent_answers(text, bytes.as_mut_slice(), blocks.as_slice(), requests)
}

/// The answers of an allocator: addresses, and `full` for a refusal.
fn script(text: &mut TextBuilder, words: &str) -> Vec<Result<u32, Full>> {
    let mut script = Vec::new(text.alloc());
    for word in words.split(' ') {
        text.add(&mut script, number(word).ok_or(Full));
    }
    script
}

/// Writes what a memory of zeros, whose allocator gives these answers in turn, answers to requests.
pub fn push_scripted(text: &mut TextBuilder, line: &str) -> anyhow::Result<()> {
    let (memory, requests) = parted(line, "; ")?;
    let (length, words) = parted(memory, ", ")?;
    let script = script(text, words);
    let mut memory = Scripted::new(text.alloc(), length.parse::<u32>()?, script)?;
    push_answers(text, &mut memory, requests)
}
