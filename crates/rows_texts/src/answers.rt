//! What a row is answered.

use crate::calls::{job_of, push_called, push_short_call, push_streamed};
use crate::finding::push_found;
use crate::json;
use crate::opened::{package, push_bytes, push_refused};
use atoms::Watched;
use row_inputs::row_layouts::push_laid_out;
use row_inputs::row_sets::changes::{is_opened_alone, push_changes, push_cuts, push_fronts};
use row_inputs::row_sets::{Wanted, push_parsed, push_told};
use row_inputs::{Inputs, Set, inputs_in};
use std::alloc::Global;
use text_builder::TextBuilder;
use witcall::{Refused, run, run_set};
use words::asked::Job;

/// Writes what is wanted of the package of a set, or the line of its refusal.
fn push_of_package(text: &mut TextBuilder, wanted: Wanted, set: &Set) {
    match package(text.alloc(), set) {
        Ok(package) => push_told(text, wanted, &package),
        Err(refused) => push_refused(text, &refused),
    }
}

/// Writes whether a set is opened. One of one input has to be answered as that input alone.
fn push_opened(text: &mut TextBuilder, set: &Set) -> anyhow::Result<()> {
    push_of_package(text, Wanted::Opened, set);
    if set.earlier.is_empty() && !is_opened_alone(text, set.last.as_slice()) {
        return Err(anyhow::anyhow!("alone something else than {}", text.as_str()));
    }
    Ok(())
}

/// What a job makes of a set. A set of one input is given to `run`.
fn made(alloc: Global, job: Job, set: &Set) -> Result<Vec<u8>, Refused> {
    let mut output = Watched::new(Vec::new(alloc));
    let mut input = Watched::new(set.last.as_slice());
    match set.earlier.as_slice() {
        [] => run(alloc, job, &mut input, &mut output)?,
        earlier => run_set(alloc, job, earlier, &mut input, &mut output)?,
    }
    Ok(output.into_inner())
}

/// Writes the binary of a set, in hexadecimal digits.
fn push_binary(text: &mut TextBuilder, set: &Set) {
    match made(text.alloc(), Job::Bin, set) {
        Ok(bytes) => text.push_made(hex::encode(text.alloc(), bytes.as_slice())),
        Err(refused) => push_refused(text, &refused),
    }
}

/// Puts what a job makes of a set in place of its last input.
fn replace(alloc: Global, by: Job, set: &mut Set) -> Result<(), Refused> {
    set.last = made(alloc, by, set)?;
    Ok(())
}

/// Whether a job makes the same of the set once its last input is what another made of it.
fn is_kept(alloc: Global, job: Job, by: Job, set: &mut Set) -> Result<bool, Refused> {
    let before = made(alloc, job, set)?;
    replace(alloc, by, set)?;
    Ok(made(alloc, job, set)? == before)
}

/// Puts the set's text and its binary in turn in place of its last input, and compares what each job makes.
fn is_kept_by_all(alloc: Global, set: &mut Set) -> Result<bool, Refused> {
    for job in [Job::Show, Job::Bin, Job::Text, Job::Layout] {
        for by in [Job::Text, Job::Bin] {
            if !is_kept(alloc, job, by, set)? {
                return Ok(false);
            }
        }
    }
    Ok(true)
}

fn push_repeated(text: &mut TextBuilder, set: &mut Set) {
    match is_kept_by_all(text.alloc(), set) {
        Ok(true) => text.push("the same"),
        Ok(false) => text.push("something else"),
        Err(refused) => push_refused(text, &refused),
    }
}

/// Writes what a job makes of a set, or the line of its refusal.
fn push_job(text: &mut TextBuilder, job: Job, set: &Set) -> anyhow::Result<()> {
    match made(text.alloc(), job, set) {
        Ok(bytes) => return push_bytes(text, bytes.as_slice()),
        Err(refused) => push_refused(text, &refused),
    }
    Ok(())
}

/// Writes the answer to a row whose set was made.
fn push_of_set(text: &mut TextBuilder, word: &str, set: &mut Set) -> anyhow::Result<()> {
    match word {
        "parse" => return push_parsed(text, set),
        "open" => return push_opened(text, set),
        "copy" => push_of_package(text, Wanted::Copy, set),
        "work" => push_of_package(text, Wanted::Work, set),
        "bin" => push_binary(text, set),
        "again" => push_repeated(text, set),
        "changes" => return push_changes(text, set),
        "cuts" => push_cuts(text, set),
        "fronts" => push_fronts(text, set),
        _ => return push_job(text, job_of(word)?, set),
    }
    Ok(())
}

/// Whether a command is about a set of inputs.
fn is_of_set(word: &str) -> bool {
    matches!(
        word,
        "parse" | "open" | "copy" | "work" | "bin" | "again" | "changes" | "cuts" | "fronts"
    ) || job_of(word).is_ok()
}

/// Writes the answer to a row. Inputs are of those that were kept.
pub fn push_answer(text: &mut TextBuilder, kept: &Inputs<'_>, asked: &str) -> anyhow::Result<()> {
    let (word, rest) = asked.split_once(' ').unwrap_or((asked, ""));
    if is_of_set(word) {
        let mut set = inputs_in(text, kept, rest)?;
        return push_of_set(text, word, &mut set);
    }
    match word {
        "call" => push_called(text, kept, rest),
        "find" => push_found(text, kept, rest),
        "short-call" => push_short_call(text, kept, rest),
        "streamed" => push_streamed(text, kept, rest),
        "json" => json::push_answer(text, false, rest),
        "json-call" => json::push_answer(text, true, rest),
        "layouts" => push_laid_out(text, rest, false),
        "last" => push_laid_out(text, rest, true),
        _ => row_bytes::push_answer(text, word, rest),
    }
}
