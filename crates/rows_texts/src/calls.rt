//! Calls whose function answers what a row says, and outputs and inputs that fail.

ghost use Rattle.std.specs.Prelude.{◌≡◌, false};

use crate::opened::{package, push_refused};
use atoms::{Sink, Watched};
use row_inputs::{Drip, Inputs, Set, Short, first_word, inputs_in, numbered};
use std::alloc::Global;
use text_builder::TextBuilder;
use witcall::{Package, Refused, Reply, run, run_call, run_set};
use words::asked::Job;

/// The words of a call.
#[derive(Clone, Copy)]
pub struct Call<'a> {
    pub interface: &'a str,
    pub function: &'a str,
    pub arguments: &'a str,
    pub reply: &'a str,
}

/// The body of a call.
fn body(alloc: Global, package: &Package, call: &Call<'_>) -> Result<Box<Reply>, Refused> {
    let body = Reply::of(alloc, package, call.interface, call.function, call.reply)?;
    Box::new(alloc, body).map_err(|_| Refused::NoMemory)
}

/// Writes what a call of a package's function answers.
fn write_answer<W: Sink>(
    alloc: Global,
    call: &Call<'_>,
    package: &Package,
    output: &mut W,
) -> Result<(), Refused>
    requires { W.has_failed output.old ≡ false }
{
    let body = body(alloc, package, call)?;
    run_call(
        alloc,
        package,
        call.interface,
        call.function,
        call.arguments,
        body,
        output,
    )
}

/// Writes what a call answers.
fn write_call<W: Sink>(
    alloc: Global,
    call: &Call<'_>,
    set: &Set,
    output: &mut W,
) -> Result<(), Refused>
    requires { W.has_failed output.old ≡ false }
{
    let package = package(alloc, set)?;
    write_answer(alloc, call, &package, output)
}

/// What a call writes.
pub fn written(alloc: Global, call: &Call<'_>, set: &Set) -> Result<Vec<u8>, Refused> {
    let mut output = Watched::new(Vec::new(alloc));
    write_call(alloc, call, set, &mut output)?;
    Ok(output.into_inner())
}

/// The words of a call, and what its set is made of.
fn call_of(words: &str) -> anyhow::Result<(Call<'_>, &str)> {
    let (interface, words) = first_word(words)?;
    let (function, words) = first_word(words)?;
    let (arguments, words) = first_word(words)?;
    let (reply, inputs) = first_word(words)?;
    let call = Call {
        interface,
        function,
        arguments,
        reply,
    };
    Ok((call, inputs))
}

/// Writes what a call prints, without the end of its line, or the line of its refusal.
fn push_call(text: &mut TextBuilder, call: &Call<'_>, set: &Set) -> anyhow::Result<()> {
    match written(text.alloc(), call, set) {
        Ok(bytes) => text.push(std::str::from_utf8(bytes.as_slice())?.trim_end()),
        Err(refused) => push_refused(text, &refused),
    }
    Ok(())
}

/// Writes what the call of a row prints.
pub fn push_called(text: &mut TextBuilder, kept: &Inputs<'_>, words: &str) -> anyhow::Result<()> {
    let (call, inputs) = call_of(words)?;
    let set = inputs_in(text, kept, inputs)?;
    push_call(text, &call, &set)
}

/// Writes what an output took, in hexadecimal digits, and how the writing ended.
fn push_taken(text: &mut TextBuilder, output: &Short, ended: &Result<(), Refused>) {
    text.push_made(hex::encode(text.alloc(), output.taken.as_slice()));
    text.push(", ");
    match ended {
        Ok(()) => text.push("done"),
        Err(refused) => push_refused(text, refused),
    }
}

/// Writes what a call writes to an output of so much room.
fn push_short(text: &mut TextBuilder, room: usize, call: &Call<'_>, set: &Set) {
    let mut output = Short::new(Vec::new(text.alloc()), room);
    let ended = write_call(text.alloc(), call, set, &mut output);
    push_taken(text, &output, &ended);
}

/// Writes what the call of a row writes to an output of so much room.
pub fn push_short_call(
    text: &mut TextBuilder,
    kept: &Inputs<'_>,
    words: &str,
) -> anyhow::Result<()> {
    let (room, words) = numbered(words)?;
    let (call, inputs) = call_of(words)?;
    let set = inputs_in(text, kept, inputs)?;
    push_short(text, room, &call, &set);
    Ok(())
}

pub fn job_of(word: &str) -> anyhow::Result<Job> {
    match word {
        "show" => Ok(Job::Show),
        "bin" => Ok(Job::Bin),
        "text" => Ok(Job::Text),
        "layout" => Ok(Job::Layout),
        _ => Err(anyhow::anyhow!("no job: {word}")),
    }
}

/// Writes what a job writes to an output of so much room, of an input that fails after so many bytes.
fn push_job(text: &mut TextBuilder, job: Job, set: &Set, (fails_at, room): (usize, usize)) {
    let mut output = Short::new(Vec::new(text.alloc()), room);
    let mut input = Drip::new(set.last.as_slice(), fails_at);
    let ended = match set.earlier.as_slice() {
        [] => run(text.alloc(), job, &mut input, &mut output),
        earlier => run_set(text.alloc(), job, earlier, &mut input, &mut output),
    };
    push_taken(text, &output, &ended);
}

/// Writes what the job of a row writes to an output of so much room, of an input that fails after so many bytes.
pub fn push_streamed(text: &mut TextBuilder, kept: &Inputs<'_>, words: &str) -> anyhow::Result<()> {
    let (fails_at, words) = numbered(words)?;
    let (room, words) = numbered(words)?;
    let (word, inputs) = first_word(words)?;
    let set = inputs_in(text, kept, inputs)?;
    push_job(text, job_of(word)?, &set, (fails_at, room));
    Ok(())
}
