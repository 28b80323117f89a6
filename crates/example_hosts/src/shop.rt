//! A host of a set of packages: it writes an earlier package, calls a function that a world exports, tells where its
//! parameters stand in memory, and prints the numbers of errors.

mod count;
mod told;

use crate::shop::count::Count;
use crate::shop::told::{places, refusal};
use crate::{memory, print};
use std::alloc::Global;
use witcall::{
    Direction, JsonError, Package, PackageId, Refused, Session, Val, arguments_from_json, open_set,
};

/// A package, and one that uses it. The world of the second exports a function without an interface.
const SHELF: &str =
    "package demo:shelf@1.0.0; interface books { record book { title: string, pages: u16 } }";

const SHOP: &str =
    "package demo:shop; interface sales { use demo:shelf/books@1.0.0.{book}; sold: func(b: book); } \
     world till { export count: func(titles: list<string>, more: u32) -> u32; }";

/// Texts that are no packages.
const REFUSED: [&str; 2] = [SHOP, "package a:b; interface c { f: func(x: size); }"];

/// Prints what the packages have, what the call answered, and why texts are no packages.
pub fn print_answers(rt: &HostRuntime) -> Result<(), Refused> {
    print_set(rt)?;
    for text in REFUSED {
        print(rt, refusal(rt.alloc(), text)?.as_str())?;
    }
    Ok(())
}

fn print_set(rt: &HostRuntime) -> Result<(), Refused> {
    let package = open_set(rt.alloc(), &[SHELF.as_bytes(), SHOP.as_bytes()])?;
    print_earlier(rt, &package, 0)?;
    print_count(rt, &package)?;
    print(rt, places(rt.alloc(), &package)?.as_str())
}

/// Prints the text of a package of the set.
fn print_earlier(rt: &HostRuntime, package: &Package, number: u32) -> Result<(), Refused> {
    let mut text = String::new(rt.alloc());
    let id = PackageId(number);
    if package.is_package(id) {
        package.print(rt.alloc(), id, &mut text)?;
    }
    print(rt, text.as_str())
}

/// Prints what the function of the world answers.
fn print_count(rt: &HostRuntime, package: &Package) -> Result<(), Refused> {
    let count = counted(rt.alloc(), package)?;
    println!(rt; "count {count}").map_err(|_error| Refused::Write)
}

/// What the function of the world answers, over two memories.
fn counted(alloc: Global, package: &Package) -> Result<u32, Refused> {
    let Some(func) = package.world_function("demo:shop/till", Direction::Export, "count") else {
        return Err(Refused::NoFunction);
    };
    let arguments = arguments_from_json(alloc, package, func, r#"[["one", "two"], 40]"#)?;
    if !package.takes(func, &arguments) {
        return Err(Refused::Json(JsonError::NotThisType));
    }
    let mut session = Session::new(package, memory(alloc)?, memory(alloc)?, Count);
    let answer = session.call(alloc, func, &arguments)?;
    let (_caller, _callee, _body) = session.into_parts();
    match answer {
        Some(Val::U32(count)) => Ok(count),
        _ => Err(Refused::Json(JsonError::NotThisType)),
    }
}
