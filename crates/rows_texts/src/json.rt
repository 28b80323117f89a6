//! Values as JSON, and calls with JSON, of a package of one interface.

ghost use Rattle.std.specs.Prelude.{IfOk};
ghost use Rattle.tables.specs.Standard.{IsTypeOf};

use crate::calls::{Call, written};
use row_inputs::{Set, expanded, parted};
use std::alloc::Global;
use tables::ValType;
use text_builder::TextBuilder;
use witcall::{Package, from_json, open, to_json};

/// The type of the parameter of `the-type-t`, which was added to the interface.
fn type_of(package: &Package) -> anyhow::Result<ValType>
    ensures { IfOk result (IsTypeOf «package».now.resolve) }
{
    let resolve = package.resolve();
    let Some(f) = resolve.function("a:b/the-type-t", "f") else {
        return Err(anyhow::anyhow!("no type t"));
    };
    match resolve.signature(f).params.as_slice().first() {
        Some(parameter) if package.is_type(parameter.ty) => Ok(parameter.ty),
        _ => Err(anyhow::anyhow!("no type t")),
    }
}

/// Writes the value of the type `t` that JSON says as JSON again.
fn push_value(text: &mut TextBuilder, package: &Package, json: &str) -> anyhow::Result<()> {
    let ty = type_of(package)?;
    let value = from_json(text.alloc(), package, ty, json)?;
    text.push_made(to_json(text.alloc(), package, ty, &value));
    Ok(())
}

/// The package of an interface with these items, of which `the-type-t` uses the type `t`.
fn opened(alloc: Global, items: &str) -> anyhow::Result<Package> {
    let wit = format!(in alloc;
        "package a:b; interface c {{ {items} }} interface the-type-t {{ use c.{{t}}; f: func(x: t); }}"
    )?;
    Ok(open(alloc, wit.as_bytes())?)
}

/// The set of the package whose interface has these items.
fn set_of(text: &mut TextBuilder, items: &str) -> Set {
    let mut set = Set::new(text.alloc());
    set.add(text, b"package a:b; interface c { ");
    set.add(text, items.as_bytes());
    set.add(text, b" }");
    set
}

/// Writes what a call of the package whose interface has these items prints, without the end of its line.
fn push_call(text: &mut TextBuilder, items: &str, call: &Call<'_>) -> anyhow::Result<()> {
    let set = set_of(text, items);
    let printed = written(text.alloc(), call, &set)?;
    let printed = std::str::from_utf8(printed.as_slice())?;
    text.push(printed.strip_suffix("\n").unwrap_or("nothing"));
    Ok(())
}

/// Writes what is asked of a value or of a call, whose parts stand between bars.
fn push_told(text: &mut TextBuilder, is_call: bool, arguments: &str) -> anyhow::Result<()> {
    let (items, rest) = parted(arguments, " | ")?;
    if !is_call {
        return push_value(text, &opened(text.alloc(), items)?, rest);
    }
    let (arguments, reply) = parted(rest, " | ")?;
    let call = Call {
        interface: "a:b/c",
        function: "f",
        arguments,
        reply,
    };
    push_call(text, items, &call)
}

/// Writes a value or a result, or the line of a refusal or of a trap.
pub fn push_answer(text: &mut TextBuilder, is_call: bool, arguments: &str) -> anyhow::Result<()> {
    let arguments = expanded(text.alloc(), arguments)?;
    push_told(text, is_call, arguments.as_str())
}
