//! What is told, as JSON.

use crate::vector_sides::acting::Acting;
use crate::vector_sides::logged::{Logged, Request};
use crate::vector_sides::row::Memories;
use canonical_abi::{Flat, Guest};
use lift_lower::Flats;
use text_builder::TextBuilder;

/// Writes a core value, `["i32", n]` or `["i64", n]`.
fn push_flat(text: &mut TextBuilder, flat: Flat) {
    match flat {
        Flat::I32(number) => {
            text.push("[\"i32\",");
            text.push_number(number as usize);
        }
        Flat::I64(number) => {
            text.push("[\"i64\",");
            text.push_number(number as usize);
        }
    }
    text.push("]");
}

/// Writes core values.
pub fn push_flats(text: &mut TextBuilder, flats: &[Flat]) {
    text.push("[");
    for (index, flat) in flats.iter().enumerate() {
        text.separate(index, ",");
        push_flat(text, *flat);
    }
    text.push("]");
}

/// Writes what the first run was given, or null.
fn push_first(text: &mut TextBuilder, given: &[Flats]) {
    match given.first() {
        Some(flats) => push_flats(text, flats.as_slice()),
        None => text.push("null"),
    }
}

/// Writes what each of some runs was given.
fn push_runs(text: &mut TextBuilder, given: &[Flats]) {
    text.push("[");
    for (index, flats) in given.iter().enumerate() {
        text.separate(index, ",");
        push_flats(text, flats.as_slice());
    }
    text.push("]");
}

/// Writes a request: alignment, size, and the address or null.
fn push_request(text: &mut TextBuilder, request: &Request) {
    text.push("[");
    text.push_number(request.align as usize);
    text.push(",");
    text.push_number(request.size as usize);
    text.push(",");
    match request.at {
        Some(at) => text.push_number(at as usize),
        None => text.push("null"),
    }
    text.push("]");
}

/// Writes requests in turn.
fn push_requests(text: &mut TextBuilder, requests: &[Request]) {
    text.push("[");
    for (index, request) in requests.iter().enumerate() {
        text.separate(index, ",");
        push_request(text, request);
    }
    text.push("]");
}

/// How many bytes there are up to the last that is not 0.
fn front_length(bytes: &[u8]) -> usize {
    let mut length = 0;
    for (place, byte) in bytes.iter().enumerate() {
        if *byte != 0 {
            length = place.saturating_add(1);
        }
    }
    length
}

/// Writes bytes in hexadecimal digits, all or up to the last that is not 0.
pub fn push_digits(text: &mut TextBuilder, bytes: &[u8], are_cut: bool) {
    let length = if are_cut {
        front_length(bytes)
    } else {
        bytes.len()
    };
    let front = bytes.get(..length).unwrap_or(&[]);
    text.push_made(hex::encode(text.alloc(), front));
}

/// Writes the bytes of a memory, as a member.
fn push_after(text: &mut TextBuilder, key: &str, guest: &Logged, are_cut: bool) {
    text.push_three("\"", key, "\":\"");
    push_digits(text, guest.bytes(), are_cut);
    text.push("\",");
}

/// Writes the requests to a memory's allocator, as a member.
fn push_log(text: &mut TextBuilder, key: &str, guest: &Logged) {
    text.push_three("\"", key, "\":");
    match guest.requests() {
        Some(requests) => push_requests(text, requests),
        None => text.refuse(),
    }
}

/// Writes the bytes of both memories, and the requests to their allocators. Of lengths that the row says, the zeros at
/// the end are left out.
pub fn push_memories(text: &mut TextBuilder, caller: &Logged, callee: &Logged, are_cut: bool) {
    push_after(text, "caller_after", caller, are_cut);
    push_after(text, "callee_after", callee, are_cut);
    push_log(text, "caller_log", caller);
    text.push(",");
    push_log(text, "callee_log", callee);
}

/// Writes what comes before the one answer of a row.
pub(crate) fn begin_answer(text: &mut TextBuilder) {
    text.push("{\"answers\":[");
}

/// Writes what comes after it: the memories.
pub(crate) fn end_answer(text: &mut TextBuilder, memories: &Memories) {
    text.push("],");
    push_memories(text, &memories.caller, &memories.callee, true);
    text.push("}");
}

/// Writes what the first run and the first post-return were given.
pub fn push_first_given(text: &mut TextBuilder, body: &Acting) {
    let Some((runs, posts)) = body.given() else {
        text.refuse();
        return;
    };
    text.push("\"body_got\":");
    push_first(text, runs);
    text.push(",\"post_got\":");
    push_first(text, posts);
}

/// Writes what all runs and post-returns were given.
pub fn push_all_given(text: &mut TextBuilder, body: &Acting) {
    let Some((runs, posts)) = body.given() else {
        text.refuse();
        return;
    };
    text.push("\"bodies_got\":");
    push_runs(text, runs);
    text.push(",\"posts_got\":");
    push_runs(text, posts);
}
