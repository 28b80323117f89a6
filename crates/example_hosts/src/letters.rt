//! A host of one package: it calls `upper` over two memories, and prints what is answered. The function's code is a body
//! of the host, `Upper`.

mod body;

use crate::letters::body::Upper;
use crate::{memory, print};
use std::alloc::Global;
use witcall::{JsonError, Package, Refused, Session, Val, ValType, from_json, open};

const TEXT: &str = "package demo:text; interface letters { upper: func(s: string) -> string; }";

/// Arguments as JSON: one that is answered, one at which the body stops, and one that is no string.
const ARGUMENTS: [&str; 3] = ["\"two memories\"", "\"zwei Speicher, \u{e4}\"", "[7]"];

/// Prints a line for each argument: what the call answered, or why there is no answer.
pub fn print_answers(rt: &HostRuntime) -> Result<(), Refused> {
    let package = open(rt.alloc(), TEXT.as_bytes())?;
    for argument in ARGUMENTS {
        print_answer(rt, &package, argument)?;
    }
    Ok(())
}

fn print_answer(rt: &HostRuntime, package: &Package, argument: &str) -> Result<(), Refused> {
    match upper(rt.alloc(), package, argument) {
        Ok(text) => print(rt, text.as_str()),
        Err(refused) => println!(rt; "{refused}").map_err(|_error| Refused::Write),
    }
}

/// Calls `upper` with an argument that is given as JSON.
fn upper(alloc: Global, package: &Package, argument: &str) -> Result<String, Refused> {
    let Some(func) = package.resolve().function("demo:text/letters", "upper") else {
        return Err(Refused::NoFunction);
    };
    let arguments = [from_json(alloc, package, ValType::String, argument)?];
    if !package.takes(func, &arguments) {
        return Err(Refused::Json(JsonError::NotThisType));
    }
    let mut session = Session::new(package, memory(alloc)?, memory(alloc)?, Upper::new(alloc));
    match session.call(alloc, func, &arguments)? {
        Some(Val::String(text)) => Ok(text),
        _ => Err(Refused::Json(JsonError::NotThisType)),
    }
}
