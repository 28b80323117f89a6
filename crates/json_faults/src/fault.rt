//! The first place that is wrong.

use crate::parts::{Part, Step, push_members, push_parts};
use crate::wanted::push_wanted;
use serde_json::Value as Json;
use std::alloc::{AllocError, Global};
use tables::{Resolve, ValType};
use text_builder::TextBuilder;

/// How deep a value is followed: a text of JSON nests at most 127 deep.
const MOST_DEPTH: usize = 128;

/// A place in a JSON value, and what has to stand there.
#[derive(Drop)]
pub struct Fault {
    /// The place, as `[0].lines[2].count`.
    pub path: String,
    /// What has to stand there, and what does.
    pub words: String,
}

/// Appends a step to a path.
fn push_step(path: &mut TextBuilder, step: Step<'_>) {
    match step {
        Step::Item(place) => {
            path.push("[");
            path.push_number(place);
            path.push("]");
        }
        Step::Key(key) => {
            path.push(".");
            path.push(key);
        }
    }
}

/// The path of these steps, of which the last one comes first.
fn path_of(alloc: Global, steps: &[Step<'_>]) -> Result<String, AllocError> {
    let mut path = TextBuilder::new(alloc);
    for step in steps.iter().rev() {
        push_step(&mut path, *step);
    }
    path.finish()
}

/// What has to be in place of a part, in words.
fn words_of(alloc: Global, resolve: &Resolve, part: Part<'_>) -> Result<String, AllocError> {
    let mut words = TextBuilder::new(alloc);
    push_wanted(&mut words, alloc, resolve, part);
    words.finish()
}

/// The fault that a part is, to which these steps lead.
fn fault_at(
    alloc: Global,
    resolve: &Resolve,
    part: Part<'_>,
    steps: &[Step<'_>],
) -> Result<Fault, AllocError> {
    let path = path_of(alloc, steps)?;
    let words = words_of(alloc, resolve, part)?;
    Ok(Fault { path, words })
}

/// The first part that is wrong of these and of theirs, and the steps to it, of which the last one comes first. None if
/// there is none within so many levels.
fn wrong_in<'a>(
    alloc: Global,
    resolve: &'a Resolve,
    parts: &[Part<'a>],
    steps: &mut Vec<Step<'a>>,
    levels: usize,
) -> Result<Option<Part<'a>>, AllocError> {
    let Some(rest) = levels.checked_sub(1) else {
        return Ok(None);
    };
    for part in parts {
        let mut inner = Vec::new(alloc);
        let found = if push_parts(&mut inner, resolve, *part)? {
            wrong_in(alloc, resolve, inner.as_slice(), steps, rest)?
        } else {
            Some(*part)
        };
        if found.is_some() {
            steps.push(part.step)?;
            return Ok(found);
        }
    }
    Ok(None)
}

/// The fault in the first of these parts that has one.
fn fault_in(
    alloc: Global,
    resolve: &Resolve,
    parts: &[Part<'_>],
) -> Result<Option<Fault>, AllocError> {
    let mut steps = Vec::new(alloc);
    match wrong_in(alloc, resolve, parts, &mut steps, MOST_DEPTH)? {
        Some(part) => Ok(Some(fault_at(alloc, resolve, part, steps.as_slice())?)),
        None => Ok(None),
    }
}

/// The first of an array's values that is none of its type, and what is wrong in it: none if all are. Nothing either if
/// the value is no array of as many.
pub fn first_fault(
    alloc: Global,
    resolve: &Resolve,
    types: &[ValType],
    json: &Json,
) -> Result<Option<Fault>, AllocError> {
    let mut parts = Vec::new(alloc);
    if push_members(&mut parts, types, json)? {
        return fault_in(alloc, resolve, parts.as_slice());
    }
    Ok(None)
}
