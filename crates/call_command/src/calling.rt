//! Calls of functions of packages.
ghost use Rattle.std.specs.Prelude.{IfSome};
ghost use Rattle.tables.specs.Closed.{IsFunction};

use crate::missing::report_missing;
use call_picture::{Call, Form, JsonError, Picture};
use checked_packages::{Checked, is_in_form};
use function_index::world_function;
use json_faults::{Fault, first_fault};
use serde_json::{Error as ReadError, Value as Json};
use std::alloc::{AllocError, Global};
use tables::{Definition, Direction, Function, FunctionId, Resolve, ValType};
use text_builder::TextBuilder;
use wit_faults::{Lexed, Report};
use wit_text::Span;

/// The words of a call.
#[derive(Clone, Copy)]
pub struct CallWords<'a> {
    /// The full name of an interface, or of a world.
    pub interface: &'a str,
    pub function: &'a str,
    /// A JSON array of the arguments.
    pub arguments: &'a str,
    /// A JSON array of the result, or of nothing.
    pub answer: &'a str,
    /// How the call is shown.
    pub form: Form,
}

/// A text of JSON among the words of a call.
#[derive(Clone, Copy, PartialEq, Eq)]
enum Side {
    Arguments,
    Answer,
}

impl Side {
    /// What the usage calls it.
    fn name(self) -> &'static str {
        match self {
            Side::Arguments => "ARGUMENTS",
            Side::Answer => "ANSWER",
        }
    }

    fn text<'a>(self, words: &CallWords<'a>) -> &'a str {
        match self {
            Side::Arguments => words.arguments,
            Side::Answer => words.answer,
        }
    }

    /// What it is an array of.
    fn items(self) -> &'static str {
        match self {
            Side::Arguments => "an array of one value for each parameter, each of its type",
            Side::Answer =>
                "an array of the value that the function returns, or `[]` if it returns none",
        }
    }

    /// The types of the values that the text has to say.
    fn types_of(self, alloc: Global, function: &Function) -> Result<Vec<ValType>, AllocError> {
        match self {
            Side::Arguments => function
                .params
                .as_slice()
                .iter()
                .map(|it| it.ty)
                .collect(alloc),
            Side::Answer => function.result.iter().copied().collect(alloc),
        }
    }
}

/// Makes a call, if both texts of JSON say values of the function's types. The side that does not is told.
fn picture_of(call: &Call<'_>, words: &CallWords<'_>) -> Result<Result<Picture, Side>, AllocError> {
    let arguments = match call.arguments(words.arguments) {
        Ok(arguments) => arguments,
        Err(JsonError::NoMemory) => return Err(AllocError),
        Err(_) => return Ok(Err(Side::Arguments)),
    };
    let answer = match call.answer(words.answer) {
        Ok(answer) => answer,
        Err(JsonError::NoMemory) => return Err(AllocError),
        Err(_) => return Ok(Err(Side::Answer)),
    };
    let title = (words.interface, words.form);
    let picture = call.picture(title, arguments.as_slice(), answer.as_slice())?;
    Ok(Ok(picture))
}

/// The function of a table.
fn function_of(tables: &Resolve, func: FunctionId) -> Option<&Function> {
    match tables.definitions.as_slice().get(func.0 as usize) {
        Some(Definition::Function(function)) => Some(function),
        _ => None,
    }
}

/// The first place in JSON that is of another type than a function has, if it is in one of its values.
fn fault_in(
    alloc: Global,
    function: (&Resolve, FunctionId),
    side: Side,
    json: &Json,
) -> Result<Option<Fault>, AllocError> {
    let (tables, func) = function;
    let Some(function) = function_of(tables, func) else {
        return Ok(None);
    };
    let types = side.types_of(alloc, function)?;
    first_fault(alloc, tables, types.as_slice(), json)
}

/// The byte at which a line of a text begins. Lines count from 1.
fn start_of_line(text: &str, line: usize) -> usize {
    let mut start: usize = 0;
    for before in text.split('\n').take(line.saturating_sub(1)) {
        start = start.saturating_add(before.len()).saturating_add(1);
    }
    start
}

/// Where a text stops to be JSON.
fn place_of(text: &str, error: &ReadError) -> Span {
    let start = if error.is_eof() {
        text.len()
    } else {
        start_of_line(text, error.line()).saturating_add(error.column().saturating_sub(1))
    };
    Span {
        start,
        end: start.saturating_add(1),
    }
}

/// What to do about a text that is no JSON.
fn hint_of(text: &str, error: &ReadError) -> &'static str {
    if error.is_eof() {
        "the JSON isn't ended"
    } else if !text.contains('"') {
        "put single quotes around the whole word: a shell takes the double ones away"
    } else {
        "JSON doesn't go on so, or it nests deeper than 127"
    }
}

/// Reports a text that is no JSON, with the place.
fn report_bad_json(alloc: Global, report: &mut Report, side: Side, place: (&str, &ReadError)) {
    let (text, error) = place;
    let lexed = Lexed {
        path: side.name(),
        text,
        tokens: Vec::new(alloc),
    };
    let hint = hint_of(text, error);
    report.add_at(
        alloc,
        &lexed,
        Some(place_of(text, error)),
        "error 61 bad JSON",
        hint,
    );
}

/// Writes what is wrong in the values of a text: the first place that is, if it is in one of them.
fn push_fault(hint: &mut TextBuilder, side: Side, fault: Option<&Fault>) {
    match fault {
        Some(fault) => {
            hint.push_three("at `", fault.path.as_str(), "`: ");
            hint.push(fault.words.as_str());
        }
        None => {
            hint.push("it is ");
            hint.push(side.items());
        }
    }
}

/// Reports a text that says other values than those of its types.
fn report_other_values(alloc: Global, report: &mut Report, side: Side, fault: Option<&Fault>) {
    let mut hint = TextBuilder::new(alloc);
    push_fault(&mut hint, side, fault);
    let hint = report.text.kept(hint.finish());
    let lexed = Lexed {
        path: side.name(),
        text: "",
        tokens: Vec::new(alloc),
    };
    report.add_at(alloc, &lexed, None, "error 62 not this type", hint.as_str());
}

/// Reports why a call of a function was not made.
fn report_refused(
    alloc: Global,
    report: &mut Report,
    function: (&Resolve, FunctionId),
    refused: (Side, &str),
) -> Result<(), AllocError> {
    let (side, text) = refused;
    match &Json::from_str(alloc, text) {
        Ok(json) => {
            let fault = fault_in(alloc, function, side, json)?;
            report_other_values(alloc, report, side, fault.as_ref());
        }
        Err(error) if error.is_memory() => return Err(AllocError),
        Err(error) => report_bad_json(alloc, report, side, (text, error)),
    }
    Ok(())
}

/// Makes a call of a function of a package, and returns what it did. Reports why it was not made.
fn report_picture(
    alloc: Global,
    report: &mut Report,
    package: &Checked,
    func: FunctionId,
    words: &CallWords<'_>,
) -> Result<Option<String>, AllocError>
    requires { IsFunction «package».now.tables func }
{
    is_in_form(&package.tables);
    let call = Call::new(alloc, &package.tables, &package.layouts, func)?;
    match picture_of(&call, words)? {
        Ok(picture) => {
            if !picture.is_answered {
                report.status = 1;
            }
            Ok(Some(picture.text))
        }
        Err(side) => {
            report_refused(
                alloc,
                report,
                (&package.tables, func),
                (side, side.text(words)),
            )?;
            Ok(None)
        }
    }
}

/// The function that the words of a call name: one of an interface, or one that a world exports or imports itself.
fn named(tables: &Resolve, words: &CallWords<'_>) -> Option<FunctionId>
    ensures { IfSome result (IsFunction tables.now) }
{
    let (owner, name) = (words.interface, words.function);
    if let Some(func) = tables.function(owner, name) {
        return Some(func);
    }
    match world_function(tables, owner, Direction::Export, name) {
        Some(func) => Some(func),
        None => world_function(tables, owner, Direction::Import, name),
    }
}

/// Calls the function of the first package that has it, and returns what the call did. If there is none, or if a text
/// of JSON says no values of its types, it reports that, and there is nothing to return. The status is 1 then, and also
/// if there is a trap.
pub fn report_call(
    alloc: Global,
    report: &mut Report,
    packages: &[Checked],
    words: &CallWords<'_>,
) -> Option<String> {
    for package in packages {
        if let Some(func) = named(&package.tables, words) {
            let picture = report_picture(alloc, report, package, func, words);
            if picture.is_err() {
                report.text.refuse();
            }
            return picture.unwrap_or(None);
        }
    }
    report.status = 1;
    let missing = report_missing(alloc, report, packages, (words.interface, words.function));
    report.text.note(missing);
    None
}
