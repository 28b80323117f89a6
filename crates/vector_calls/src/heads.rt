//! Heads of nodes that are read from the caller's memory or from core values, and written into the callee's memory.

ghost use Rattle.std.specs.Prelude.{◌≡◌, ◌+◌, ◌≤◌, IfOk, OnOk};
ghost use Rattle.canonical_abi.specs.Layout.{size};
ghost use Rattle.lift_lower.specs.Heads.{IsHeadOf, head_flats};
ghost use Rattle.tables.specs.Closed.{closed_type};
ghost use Rattle.values.specs.Types.{IsInside};

use crate::functions::{parameter_of_row, push_fault};
use crate::vector_sides::{
    Logged, Memories, begin_answer, end_answer, field, flats, list, memories_of, number,
};
use canonical_abi::{Fault, Flat, Guest, Step, Trap, TrapKind};
use layout::Shape;
use lift_lower::{Head, Types, head_at, head_of, put_head};
use serde_json::Value;
use std::alloc::{AllocError, Global};
use tables::ValType;
use text_builder::TextBuilder;
use values::Scalar;
use values::bytes::test_block;

/// The type of the first parameter of the row's function.
#[tactic(auto, using(crate::proofs::HeadsAreOfTheirTypes::inside))]
fn type_of(types: &Types<'_>, row: &Value) -> anyhow::Result<ValType>
    ensures { IfOk result (IsInside «types».now) }
{
    let resolve = types.resolve();
    let ty = parameter_of_row(resolve, row)?;
    if resolve.is_type(ty) {
        return Ok(ty);
    }
    Err(anyhow::anyhow!("no type"))
}

/// Tests that a memory has the bytes of a value of a type at an address.
fn test_value(types: &Types<'_>, ty: ValType, length: u32, at: u32) -> Result<(), TrapKind>
    requires { IsInside «types».now ty }
    ensures { OnOk result (at + size (closed_type «types».now ty) ≤ length) }
{
    test_block(
        length as usize,
        at as usize,
        types.align_of(ty),
        types.size_of(ty),
    )
}

/// The head of the value at an address of a memory.
#[tactic(auto, using(crate::proofs::HeadsAreOfTheirTypes::stored_head))]
fn stored_head(types: &Types<'_>, ty: ValType, memory: &Logged, at: u32) -> Result<Head, TrapKind>
    requires { IsInside «types».now ty }
    ensures { IfOk result (IsHeadOf (closed_type «types».now ty)) }
{
    test_value(types, ty, memory.len(), at)?;
    head_at(types, ty, memory.bytes(), at as usize)
}

/// How many core values the head of a value takes.
fn count_of_flats(types: &Types<'_>, ty: ValType) -> usize
    requires { IsInside «types».now ty }
    ensures { result ≡ head_flats (closed_type «types».now ty) }
{
    match types.shape_of(ty) {
        Shape::Record(_) => 0,
        Shape::String | Shape::List(_) => 2,
        Shape::Primitive(_) | Shape::Variant(_) | Shape::Flags(_) => 1,
    }
}

/// The head of the value that core values begin with.
#[tactic(auto, using(crate::proofs::HeadsAreOfTheirTypes::flat_head))]
fn flat_head(
    types: &Types<'_>,
    ty: ValType,
    memory: &Logged,
    flats: &[Flat],
) -> Result<Head, TrapKind>
    requires { IsInside «types».now ty }
    ensures { IfOk result (IsHeadOf (closed_type «types».now ty)) }
{
    if flats.len() < count_of_flats(types, ty) {
        return Err(TrapKind::CoreSignature);
    }
    head_of(types, ty, memory.bytes(), flats)
}

/// Writes a head at an address that has the bytes of a value of its type.
fn put(
    types: &Types<'_>,
    ty: ValType,
    head: Head,
    target: (&mut Logged, u32),
) -> Result<(), TrapKind>
    requires inside { IsInside «types».now ty }
    requires known { IsHeadOf (closed_type «types».now ty) head }
{
    let (memory, at) = target;
    test_value(types, ty, memory.len(), at)?;
    put_head(types, ty, head, memory, at as usize);
    Ok(())
}

/// A scalar as JSON: a char is its number.
fn scalar_told(alloc: Global, scalar: Scalar) -> Result<String, AllocError> {
    match scalar {
        Scalar::Bool(value) => value.to_string(alloc),
        Scalar::S8(number) => number.to_string(alloc),
        Scalar::U8(number) => number.to_string(alloc),
        Scalar::S16(number) => number.to_string(alloc),
        Scalar::U16(number) => number.to_string(alloc),
        Scalar::S32(number) => number.to_string(alloc),
        Scalar::U32(number) => number.to_string(alloc),
        Scalar::S64(number) => number.to_string(alloc),
        Scalar::U64(number) => number.to_string(alloc),
        Scalar::Char(c) => u32::from(c).to_string(alloc),
    }
}

/// Writes a head as JSON.
fn push_head(text: &mut TextBuilder, head: Head) {
    match head {
        Head::Scalar(scalar) => {
            text.push("{\"scalar\":");
            text.push_made(scalar_told(text.alloc(), scalar));
            text.push("}");
        }
        Head::Block(at, count) => {
            text.push("{\"block\":[");
            text.push_number(at as usize);
            text.push(",");
            text.push_number(count as usize);
            text.push("]}");
        }
        Head::Case(number) => {
            text.push("{\"case\":");
            text.push_number(number as usize);
            text.push("}");
        }
        Head::Flags(bits) => {
            text.push("{\"flags\":");
            text.push_number(bits as usize);
            text.push("}");
        }
        Head::Nothing => text.push("\"nothing\""),
    }
}

/// The head that a row asks for: at an address, or of core values.
fn asked_head(
    alloc: Global,
    row: &Value,
    types: &Types<'_>,
    memory: &Logged,
) -> anyhow::Result<(ValType, Result<Head, TrapKind>)>
    ensures inside { IfOk result (λ r. IsInside «types».now r.0) }
    ensures known { IfOk result (λ r. IfOk r.1 (IsHeadOf (closed_type «types».now r.0))) }
{
    let ty = type_of(types, row)?;
    let head = match field(row, "head_of") {
        None => stored_head(types, ty, memory, number(row.get("head_at"))?),
        values => {
            let flats = flats(alloc, list(values))?;
            flat_head(types, ty, memory, flats.as_slice())
        }
    };
    Ok((ty, head))
}

/// The head that a row asks for, which is written at an address of the other memory if the row has one. Or why there is
/// none.
fn head_asked(
    alloc: Global,
    row: &Value,
    types: &Types<'_>,
    memories: &mut Memories,
) -> anyhow::Result<Result<Head, Trap>> {
    let (ty, head) = asked_head(alloc, row, types, &memories.caller)?;
    let head = match head {
        Ok(head) => head,
        Err(kind) => return Ok(Err(Trap {
            kind,
            step: Step::Take,
        })),
    };
    if let Some(at) = field(row, "put_at") {
        let at = number(Some(at))?;
        if let Err(kind) = put(types, ty, head, (&mut memories.callee, at)) {
            return Ok(Err(Trap {
                kind,
                step: Step::Place,
            }));
        }
    }
    Ok(Ok(head))
}

/// Writes a head that was asked for, or why there is none.
fn push_asked(text: &mut TextBuilder, asked: Result<Head, Trap>) {
    match asked {
        Ok(head) => {
            text.push("{\"head\":");
            push_head(text, head);
            text.push("}");
        }
        Err(trap) => push_fault(text, Fault::Trap(trap)),
    }
}

/// Writes what is told of a row that asks for a head, and of the memories.
pub fn push_head_row(text: &mut TextBuilder, row: &Value, types: &Types<'_>) -> anyhow::Result<()> {
    let mut memories = memories_of(text.alloc(), row)?;
    let asked = head_asked(text.alloc(), row, types, &mut memories)?;
    begin_answer(text);
    push_asked(text, asked);
    end_answer(text, &memories);
    Ok(())
}
