//! Calls over a link: one, and another over the same link if the row says one.

ghost use Rattle.std.specs.Prelude.{◌≡◌};
ghost use Rattle.layout.specs.Layout.{AreWithin};
ghost use Rattle.tables.specs.Closed.{IsFunction};

use crate::functions::{NO_FUNCTION, push_fault};
use crate::vector_sides::{
    Acting, Memories, body, field, flats, list, memories_of, push_all_given, push_first_given,
    push_flats, push_memories, text,
};
use adapter::Link;
use canonical_abi::{Fault, Flat};
use lift_lower::{FlatResults, Types};
use serde_json::Value;
use std::alloc::Global;
use tables::FunctionId;
use text_builder::TextBuilder;

/// The caller, the callee and the body of a row.
#[derive(Drop)]
struct Sides {
    memories: Memories,
    body: Acting,
}

/// The names of an interface and of a function, and the core values that the function is given.
#[derive(Drop)]
struct Call<'a> {
    interface: &'a str,
    name: &'a str,
    flats: Vec<Flat>,
}

/// The calls of a row: one, and another if the row says one.
#[derive(Drop)]
struct Asked<'a> {
    first: Call<'a>,
    other: Option<Call<'a>>,
}

/// How the calls ended, and the nodes of both ways of the first.
#[derive(Drop)]
struct Ended {
    first: Result<FlatResults, Fault>,
    nodes: (u64, u64),
    other: Option<Result<FlatResults, Fault>>,
}

/// The calls of a row, and the sides between which they are made.
#[derive(Drop)]
pub struct Calls<'a> {
    sides: Sides,
    asked: Asked<'a>,
    /// Whether zeros at the end of the memories are left out.
    are_cut: bool,
}

/// The memories and the body of a row.
fn sides_of(alloc: Global, row: &Value) -> anyhow::Result<Sides> {
    let memories = memories_of(alloc, row)?;
    let body = body(alloc, row)?;
    Ok(Sides { memories, body })
}

fn call_of<'a>(alloc: Global, row: &'a Value, value: &'a Value) -> anyhow::Result<Call<'a>> {
    Ok(Call {
        interface: text(row.get("iface"))?,
        name: text(value.get("func"))?,
        flats: flats(alloc, list(value.get("flats")))?,
    })
}

/// The second call of a row, if it says one.
fn other_of<'a>(alloc: Global, row: &'a Value) -> anyhow::Result<Option<Call<'a>>> {
    match field(row, "next") {
        Some(value) => Ok(Some(call_of(alloc, row, value)?)),
        None => Ok(None),
    }
}

fn asked_of<'a>(alloc: Global, row: &'a Value) -> anyhow::Result<Asked<'a>> {
    Ok(Asked {
        first: call_of(alloc, row, row)?,
        other: other_of(alloc, row)?,
    })
}

/// What a call of a function of the link's package answers.
fn carried(
    link: &mut Link<'_>,
    f: FunctionId,
    flats: &[Flat],
    sides: &mut Sides,
) -> Result<FlatResults, Fault>
    requires { IsFunction link.old.resolve f }
    ensures { link.new.resolve ≡ link.old.resolve }
{
    link.call(
        f,
        flats,
        &mut sides.memories.caller,
        &mut sides.memories.callee,
        &mut sides.body,
    )
}

/// Makes the calls. None if the package lacks a function of theirs.
fn called(types: &Types<'_>, asked: &Asked<'_>, sides: &mut Sides) -> Option<Ended>
    requires { ∥ AreWithin «types».now ∥₁ }
{
    let first = &asked.first;
    let f = types.resolve().function(first.interface, first.name)?;
    let Some(other) = &asked.other else {
        let mut link = Link::new(types.resolve(), types.layouts());
        let answer = carried(&mut link, f, first.flats.as_slice(), sides);
        return Some(Ended {
            first: answer,
            nodes: link.nodes(),
            other: None,
        });
    };
    let g = types.resolve().function(other.interface, other.name)?;
    let mut link = Link::new(types.resolve(), types.layouts());
    let answer = carried(&mut link, f, first.flats.as_slice(), sides);
    let nodes = link.nodes();
    let answer_too = carried(&mut link, g, other.flats.as_slice(), sides);
    Some(Ended {
        first: answer,
        nodes,
        other: Some(answer_too),
    })
}

/// Writes how a call ended. Words are those of the program's lines.
fn push_outcome(text: &mut TextBuilder, ended: &Result<FlatResults, Fault>) {
    match ended {
        Ok(flats) => {
            text.push("{\"ok\":");
            push_flats(text, flats.as_slice());
            text.push("}");
        }
        Err(fault) => push_fault(text, *fault),
    }
}

/// Writes the nodes of both ways, as a member.
fn push_nodes(text: &mut TextBuilder, nodes: (u64, u64)) {
    text.push(",\"nodes\":[");
    text.push_number(nodes.0 as usize);
    text.push(",");
    text.push_number(nodes.1 as usize);
    text.push("],");
}

impl<'a> Calls<'a> {
    /// The calls that a row says.
    pub fn of(alloc: Global, row: &'a Value) -> anyhow::Result<Calls<'a>> {
        let sides = sides_of(alloc, row)?;
        let asked = asked_of(alloc, row)?;
        let are_cut = field(row, "lens").is_some();
        Ok(Calls {
            sides,
            asked,
            are_cut,
        })
    }

    /// Makes the calls, and writes what they did.
    pub fn push(&mut self, text: &mut TextBuilder, types: &Types<'_>)
        requires { ∥ AreWithin «types».now ∥₁ }
    {
        match called(types, &self.asked, &mut self.sides) {
            Some(ended) => self.push_ended(text, &ended),
            None => self.push_refused(text, NO_FUNCTION),
        }
    }

    /// Writes that no call was made, for this reason.
    pub fn push_refused(&self, text: &mut TextBuilder, reason: &str) {
        text.push_three("{\"outcome\":{\"refused\":\"", reason, "\"},");
        push_first_given(text, &self.sides.body);
        push_nodes(text, (0, 0));
        self.push_memories(text);
        text.push("}");
    }

    /// Writes what the calls did.
    fn push_ended(&self, text: &mut TextBuilder, ended: &Ended) {
        text.push("{\"outcome\":");
        push_outcome(text, &ended.first);
        text.push(",");
        if ended.other.is_some() {
            push_all_given(text, &self.sides.body);
        } else {
            push_first_given(text, &self.sides.body);
        }
        push_nodes(text, ended.nodes);
        self.push_memories(text);
        if let Some(other) = &ended.other {
            text.push(",\"next\":");
            push_outcome(text, other);
        }
        text.push("}");
    }

    /// Writes what both memories hold, and what their allocators were asked for.
    fn push_memories(&self, text: &mut TextBuilder) {
        let memories = &self.sides.memories;
        push_memories(text, &memories.caller, &memories.callee, self.are_cut);
    }
}
