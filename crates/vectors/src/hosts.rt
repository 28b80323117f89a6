//! Steps over a memory that a host keeps, each by typed values and by a text of JSON.

ghost use Rattle.tables.specs.Closed.{IsFunction};
ghost use Rattle.value_json.specs.Apart.{HasApartLabels};

use crate::{Filling, Host, opened, push_asks};
use canonical_abi::Guest;
use package_values::Called;
use serde_json::Value;
use text_builder::TextBuilder;
use vector_calls::function;
use vector_calls::vector_sides::{guest, list, text};
use witcall::Package;
use witcall::laws::has_labels_apart;

/// Writes what is told of a step that is taken by a text of JSON.
fn push_by_text(
    told: &mut TextBuilder,
    called: &Called<'_>,
    words: &[Value],
    given: &str,
    memory: &[u8],
) -> anyhow::Result<()>
    requires { IsFunction called.now.«package».now.resolve called.now.func }
{
    if text(words.first())? == "asks" {
        push_asks(told, &called.requests(given));
        return Ok(());
    }
    let mut filling = Filling::of(called.alloc, words, memory)?;
    let done = called.fill(
        given,
        filling.blocks.as_slice(),
        filling.memory.as_mut_slice(),
        filling.handed.as_mut_slice(),
    );
    filling.push(told, &done);
    Ok(())
}

/// Writes what is told of a step by two calls: once if it is the same.
fn push_both(told: &mut TextBuilder, one: &str, other: &str) {
    if one == other {
        told.push(one);
    } else {
        told.push_three("[", one, ",");
        told.push(other);
        told.push("]");
    }
}

/// What is told of a step whose arguments are taken as their text.
fn text_told(
    called: &Called<'_>,
    words: &[Value],
    given: &str,
    memory: &[u8],
) -> anyhow::Result<String>
    requires { IsFunction called.now.«package».now.resolve called.now.func }
{
    let mut told = TextBuilder::new(called.alloc);
    push_by_text(&mut told, called, words, given, memory)?;
    Ok(told.finish()?)
}

/// What is told of a step whose arguments are taken as values.
fn own_told(host: &Host<'_>, words: &[Value]) -> anyhow::Result<String>
    requires { HasApartLabels host.now.types.now }
{
    let mut told = TextBuilder::new(host.alloc);
    host.push(&mut told, words)?;
    Ok(told.finish()?)
}

/// Writes what is told of a step whose arguments are taken as values, and as their text.
fn push_values(
    told: &mut TextBuilder,
    called: &Called<'_>,
    host: &Host<'_>,
    words: &[Value],
    given: &str,
) -> anyhow::Result<()>
    requires function { IsFunction called.now.«package».now.resolve called.now.func }
    requires labels { HasApartLabels host.now.types.now }
{
    let own = own_told(host, words)?;
    let other = text_told(called, words, given, host.memory)?;
    push_both(told, own.as_str(), other.as_str());
    Ok(())
}

/// Writes what is told of a step. Arguments that are no text are taken as values, and as their text.
fn push_step(
    told: &mut TextBuilder,
    called: &Called<'_>,
    host: &Host<'_>,
    words: &[Value],
) -> anyhow::Result<()>
    requires function { IsFunction called.now.«package».now.resolve called.now.func }
    requires labels { HasApartLabels host.now.types.now }
{
    match (text(words.first())?, words.get(1)) {
        ("asks" | "fills", Some(Value::String(given))) => {
            push_by_text(told, called, words, given.as_str(), host.memory)
        }
        ("asks" | "fills", Some(json)) => {
            let given = told.kept(json.to_string(called.alloc));
            push_values(told, called, host, words, given.as_str())
        }
        _ => host.push(told, words),
    }
}

/// Writes what is told of these steps of a row.
fn push_steps(
    told: &mut TextBuilder,
    called: &Called<'_>,
    host: &Host<'_>,
    steps: &[Value],
) -> anyhow::Result<()>
    requires function { IsFunction called.now.«package».now.resolve called.now.func }
    requires labels { HasApartLabels host.now.types.now }
{
    for (index, step) in steps.iter().enumerate() {
        told.separate(index, ",");
        push_step(told, called, host, list(Some(step)))?;
    }
    Ok(())
}

/// Writes what is told of the steps of a row over a memory.
fn push_host(
    told: &mut TextBuilder,
    called: &Called<'_>,
    row: &Value,
    memory: &[u8],
) -> anyhow::Result<()>
    requires { IsFunction called.now.«package».now.resolve called.now.func }
{
    let types = called.package.types();
    has_labels_apart(called.package);
    let host = Host {
        alloc: called.alloc,
        types: &types,
        func: called.func,
        memory,
    };
    push_steps(told, called, &host, list(row.get("host")))
}

/// Writes what is told of the steps of a row, of a package.
fn push_package(told: &mut TextBuilder, row: &Value, package: &Package) -> anyhow::Result<()> {
    let alloc = told.alloc();
    let interface = text(row.get("iface"))?;
    let func = function(package.resolve(), interface, text(row.get("func"))?)?;
    let called = Called {
        alloc,
        package,
        func,
    };
    let memory = guest(alloc, row, 1)?;
    push_host(told, &called, row, memory.bytes())
}

/// Writes what is told of the steps of a row.
pub fn push_row(told: &mut TextBuilder, row: &Value) -> anyhow::Result<()> {
    let package = opened(told.alloc(), row)?;
    told.push("{\"answers\":[");
    push_package(told, row, &package)?;
    told.push("]}");
    Ok(())
}
