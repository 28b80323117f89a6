//! Steps of a session: typed calls, and values that are placed, read and released.

ghost use Rattle.std.specs.Prelude.{◌≡◌, IfOk};
ghost use Rattle.std.specs.List.{All};
ghost use Rattle.tables.specs.Closed.{IsFunction};
ghost use Rattle.witcall.specs.Steps.{IsStep};

use crate::alone::{Rows, taken_alone};
use crate::opened;
use canonical_abi::Fault;
use lift_lower::Val;
use serde_json::Value;
use std::alloc::Global;
use tables::{FunctionId, ValType};
use text_builder::TextBuilder;
use vector_calls::vector_sides::{body, field, guest, list, number, push_memories, text};
use vector_calls::{function, parameter, push_fault};
use witcall::{Answer, Held, Package, Session, Step, from_json, takes_steps, to_json};

/// The value of a type that a row says.
fn value_of(alloc: Global, package: &Package, ty: ValType, json: &Value) -> anyhow::Result<Val> {
    if !package.is_type(ty) {
        return Err(anyhow::anyhow!("no type"));
    }
    let text = json.to_string(alloc)?;
    Ok(from_json(alloc, package, ty, text.as_str())?)
}

/// Writes a value as an object with this key.
fn push_value(
    text: &mut TextBuilder,
    key: &str,
    package: &Package,
    ty: ValType,
    value: &Val,
) -> anyhow::Result<()> {
    if !package.is_type(ty) || !package.is_of(ty, value) {
        return Err(anyhow::anyhow!("no value of its type"));
    }
    text.push_three("{\"", key, "\":");
    text.push_made(to_json(text.alloc(), package, ty, value));
    text.push("}");
    Ok(())
}

/// The arguments of a function.
fn arguments(
    alloc: Global,
    package: &Package,
    f: FunctionId,
    values: &[Value],
) -> anyhow::Result<Vec<Val>>
    requires { IsFunction «package».now.resolve f }
{
    let mut arguments = Vec::new(alloc);
    let signature = package.resolve().signature(f);
    for (parameter, json) in signature.params.as_slice().iter().zip(values) {
        arguments.push(value_of(alloc, package, parameter.ty, json)?)?;
    }
    Ok(arguments)
}

/// A call of a function, or a value of its parameter to be placed.
fn step_of_function(
    alloc: Global,
    package: &Package,
    words: &[Value],
    is_call: bool,
) -> anyhow::Result<Step> {
    let f = function(package.resolve(), "a:b/c", text(words.get(1))?)?;
    if is_call {
        let given = arguments(alloc, package, f, list(words.get(2)))?;
        return Ok(Step::Call(f, given));
    }
    let ty = parameter(package.resolve(), f)?;
    match words.get(2) {
        Some(json) => Ok(Step::Place(ty, value_of(alloc, package, ty, json)?)),
        None => Err(anyhow::anyhow!("no value")),
    }
}

/// The step that a row says, in a list of steps behind so many others.
fn step_of(
    alloc: Global,
    package: &Package,
    words: &[Value],
    before: usize,
) -> anyhow::Result<Step> {
    match text(words.first())? {
        "call" => step_of_function(alloc, package, words, true),
        "place" => step_of_function(alloc, package, words, false),
        "read" => Ok(Step::Read(before.saturating_add(number(words.get(1))? as usize))),
        "release" => Ok(Step::Release(number(words.get(1))?, number(words.get(2))?)),
        word => Err(anyhow::anyhow!("no step: {word}")),
    }
}

/// Adds the steps that values say, behind those that are there.
fn push_steps(
    alloc: Global,
    steps: &mut Vec<Step>,
    package: &Package,
    values: &[Value],
) -> anyhow::Result<()> {
    let before = steps.len();
    for value in values {
        steps.push(step_of(alloc, package, list(Some(value)), before)?)?;
    }
    Ok(())
}

/// The steps of a row, so many times.
fn steps_of(
    alloc: Global,
    row: &Value,
    package: &Package,
    times: u32,
) -> anyhow::Result<Vec<Step>> {
    let mut steps = Vec::new(alloc);
    for _time in 0..times {
        push_steps(alloc, &mut steps, package, list(row.get("steps")))?;
    }
    Ok(steps)
}

/// Writes what a call of a function answered.
fn push_called(
    text: &mut TextBuilder,
    package: &Package,
    step: &Step,
    called: &Result<Option<Val>, Fault>,
) -> anyhow::Result<()> {
    match (step, called) {
        (_, Err(fault)) => push_fault(text, *fault),
        (Step::Call(f, _), Ok(Some(value))) if package.is_function(*f) => {
            let Some(ty) = package.resolve().signature(*f).result else {
                return Err(anyhow::anyhow!("an answer of a function without result"));
            };
            push_value(text, "answered", package, ty, value)?;
        }
        _ => text.push("\"done\""),
    }
    Ok(())
}

/// Writes what was read of what a step placed.
fn push_read(
    text: &mut TextBuilder,
    package: &Package,
    placed: Option<&Answer>,
    read: &Result<Val, Fault>,
) -> anyhow::Result<()> {
    match (placed, read) {
        (_, Err(fault)) => push_fault(text, *fault),
        (Some(Answer::Placed(Ok(held))), Ok(value)) => {
            push_value(text, "read", package, held.ty, value)?;
        }
        _ => return Err(anyhow::anyhow!("read where nothing was placed")),
    }
    Ok(())
}

/// Writes what placing a value answered.
fn push_placed(text: &mut TextBuilder, placed: &Result<Held, Fault>) {
    match placed {
        Ok(held) => {
            text.push("{\"placed\":");
            text.push_number(held.at as usize);
            text.push("}");
        }
        Err(fault) => push_fault(text, *fault),
    }
}

/// Writes what a step answered, among the answers of its list.
fn push_answer(
    text: &mut TextBuilder,
    package: &Package,
    step: &Step,
    answer: &Answer,
    answers: &[Answer],
) -> anyhow::Result<()> {
    match (step, answer) {
        (_, Answer::Called(called)) => push_called(text, package, step, called)?,
        (Step::Read(number), Answer::Read(read)) => {
            push_read(text, package, answers.get(*number), read)?;
        }
        (_, Answer::Placed(placed)) => push_placed(text, placed),
        (_, Answer::Released(Ok(()))) => text.push("\"released\""),
        (_, Answer::Released(Err(_))) => text.push("\"not released\""),
        _ => text.push("\"missing\""),
    }
    Ok(())
}

/// Writes what the steps of a list answered, as a member of this key.
fn push_answers(
    text: &mut TextBuilder,
    key: &str,
    package: &Package,
    steps: &[Step],
    answers: &[Answer],
) -> anyhow::Result<()> {
    text.push_three("\"", key, "\":[");
    for (index, (step, answer)) in steps.iter().zip(answers).enumerate() {
        text.separate(index, ",");
        push_answer(text, package, step, answer, answers)?;
    }
    text.push("],");
    Ok(())
}

/// Writes what the steps answered, and again behind so many answers.
fn push_taken(
    text: &mut TextBuilder,
    package: &Package,
    steps: &[Step],
    answers: &[Answer],
) -> anyhow::Result<()> {
    let (front, behind) = answers.split_at(steps.len().min(answers.len()));
    text.push("{");
    push_answers(text, "answers", package, steps, front)?;
    push_answers(text, "then", package, steps, behind)
}

/// A session over the memories and the body of a row.
fn session_of<'a>(alloc: Global, row: &Value, package: &'a Package) -> anyhow::Result<Rows<'a>>
    ensures { IfOk result (λ s. s.package.now ≡ «package».now) }
{
    let (caller, callee) = (guest(alloc, row, 0)?, guest(alloc, row, 1)?);
    Ok(Session::new(package, caller, callee, body(alloc, row)?))
}

/// Takes the steps as a list, and once more behind these answers if that is wanted.
fn run(
    alloc: Global,
    session: &mut Rows<'_>,
    steps: &[Step],
    is_twice: bool,
) -> anyhow::Result<Vec<Answer>>
    requires { All (IsStep session.old.package.now.resolve) steps.now }
{
    let mut answers = Vec::new(alloc);
    session.run(alloc, steps, &mut answers)?;
    if is_twice {
        session.run(alloc, steps, &mut answers)?;
    }
    Ok(answers)
}

/// Writes what is told of steps that are taken, and of the memories.
fn push_steps_taken(
    text: &mut TextBuilder,
    row: &Value,
    package: &Package,
    steps: &[Step],
) -> anyhow::Result<()> {
    if !takes_steps(package, steps) {
        return Err(anyhow::anyhow!("no steps of the package"));
    }
    let alloc = text.alloc();
    let mut session = session_of(alloc, row, package)?;
    let answers = if row.get("alone").is_some() {
        taken_alone(alloc, package, &mut session, steps)?
    } else {
        run(alloc, &mut session, steps, row.get("twice").is_some())?
    };
    push_taken(text, package, steps, answers.as_slice())?;
    push_memories(text, session.caller(), session.callee(), true);
    text.push("}");
    Ok(())
}

/// How often the steps of a row are taken.
fn times_of(row: &Value) -> anyhow::Result<u32> {
    match field(row, "times") {
        None => Ok(1),
        times => number(times),
    }
}

/// Writes what is told of the steps of a row.
pub fn push_row(text: &mut TextBuilder, row: &Value) -> anyhow::Result<()> {
    let package = opened(text.alloc(), row)?;
    let steps = steps_of(text.alloc(), row, &package, times_of(row)?)?;
    push_steps_taken(text, row, &package, steps.as_slice())
}

/// The type of the first parameter of the row's function.
fn type_of(package: &Package, row: &Value) -> anyhow::Result<ValType> {
    let f = function(package.resolve(), "a:b/c", text(row.get("func"))?)?;
    parameter(package.resolve(), f)
}

/// Writes what a session reads at an address, whatever is there.
fn push_held(
    text: &mut TextBuilder,
    package: &Package,
    session: &Rows<'_>,
    held: Held,
) -> anyhow::Result<()>
    requires { session.now.package.now ≡ «package».now }
{
    if !package.is_type(held.ty) {
        return Err(anyhow::anyhow!("no type"));
    }
    match session.read(text.alloc(), &held) {
        Ok(value) => push_value(text, "read", package, held.ty, &value)?,
        Err(fault) => push_fault(text, fault),
    }
    Ok(())
}

/// Writes what is told of a value that is read where none was placed.
pub fn push_held_row(text: &mut TextBuilder, row: &Value) -> anyhow::Result<()> {
    let package = opened(text.alloc(), row)?;
    let ty = type_of(&package, row)?;
    let at = number(row.get("held"))?;
    let session = session_of(text.alloc(), row, &package)?;
    text.push("{\"answers\":[");
    push_held(text, &package, &session, Held { ty, at })?;
    text.push("],");
    push_memories(text, session.caller(), session.callee(), true);
    text.push("}");
    Ok(())
}
