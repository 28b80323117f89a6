//! One level of a value: whether it is of its type's form, and its parts.

use crate::wanted::is_scalar;
use atoms::Label;
use serde_json::Value as Json;
use std::alloc::AllocError;
use tables::{Case, Definition, Field, Resolve, TypeDefKind, ValType};

/// A step from a value to a part of it.
#[derive(Clone, Copy)]
pub enum Step<'a> {
    Item(usize),
    Key(&'a str),
}

/// A part of a value, with the type that it has to be of.
#[derive(Clone, Copy)]
pub struct Part<'a> {
    pub step: Step<'a>,
    pub ty: ValType,
    pub value: &'a Json,
}

/// What the definition of a type is. None if the type has none.
pub fn defined(resolve: &Resolve, ty: ValType) -> Option<&TypeDefKind> {
    let ValType::Id(id) = ty else {
        return None;
    };
    match resolve.definitions.as_slice().get(id.0 as usize) {
        Some(Definition::Type(definition)) => Some(&definition.kind),
        _ => None,
    }
}

/// The type that a name stands for. None if the type is no such name.
fn target_of(resolve: &Resolve, ty: ValType) -> Option<ValType> {
    match defined(resolve, ty)? {
        TypeDefKind::Use(target) => Some(ValType::Id(*target)),
        TypeDefKind::Alias(target) => Some(*target),
        _ => None,
    }
}

/// The type that a type stands for, by as many names as there can be.
pub fn unnamed(resolve: &Resolve, ty: ValType) -> ValType {
    let mut named = ty;
    for _ in 0..resolve.definitions.len() {
        let Some(target) = target_of(resolve, named) else {
            return named;
        };
        named = target;
    }
    named
}

/// Adds the items of an array, all of one type. False if the value is no array.
fn push_items<'a>(
    parts: &mut Vec<Part<'a>>,
    ty: ValType,
    value: &'a Json,
) -> Result<bool, AllocError> {
    let Some(items) = value.as_array() else {
        return Ok(false);
    };
    for (place, value) in items.iter().enumerate() {
        let step = Step::Item(place);
        parts.push(Part { step, ty, value })?;
    }
    Ok(true)
}

/// Adds the items of an array of as many as these types. False if the value is none.
pub fn push_members<'a>(
    parts: &mut Vec<Part<'a>>,
    types: &[ValType],
    value: &'a Json,
) -> Result<bool, AllocError> {
    let Some(items) = value.as_array() else {
        return Ok(false);
    };
    if items.len() != types.len() {
        return Ok(false);
    }
    for (place, ty) in types.iter().enumerate() {
        if let Some(value) = items.get(place) {
            let (step, ty) = (Step::Item(place), *ty);
            parts.push(Part { step, ty, value })?;
        }
    }
    Ok(true)
}

/// Whether a value is an object of so many members.
fn has_members(value: &Json, count: usize) -> bool {
    match value.as_object() {
        Some(object) => object.len() == count,
        None => false,
    }
}

/// Adds the members of an object with just the keys of these fields. False if the value is none.
fn push_fields<'a>(
    parts: &mut Vec<Part<'a>>,
    fields: &'a [Field],
    value: &'a Json,
) -> Result<bool, AllocError> {
    if !has_members(value, fields.len()) {
        return Ok(false);
    }
    for field in fields {
        let key = field.name.as_str();
        let Some(value) = value.get(key) else {
            return Ok(false);
        };
        let (step, ty) = (Step::Key(key), field.ty);
        parts.push(Part { step, ty, value })?;
    }
    Ok(true)
}

/// Adds the payload of a case of this label. False if the value is another case.
fn push_payload<'a>(
    parts: &mut Vec<Part<'a>>,
    label: &'a str,
    payload: Option<ValType>,
    value: &'a Json,
) -> Result<bool, AllocError> {
    let Some(ty) = payload else {
        return Ok(value.as_str() == Some(label));
    };
    if !has_members(value, 1) {
        return Ok(false);
    }
    let Some(value) = value.get(label) else {
        return Ok(false);
    };
    let step = Step::Key(label);
    parts.push(Part { step, ty, value })?;
    Ok(true)
}

/// Adds the payload of the one of these cases that a value is. False if it is none of them.
fn push_cases<'a>(
    parts: &mut Vec<Part<'a>>,
    cases: &'a [Case],
    value: &'a Json,
) -> Result<bool, AllocError> {
    for case in cases {
        if push_payload(parts, case.name.as_str(), case.ty, value)? {
            return Ok(true);
        }
    }
    Ok(false)
}

/// Adds the payload of the one of two cases that a value is. False if it is neither.
fn push_either<'a>(
    parts: &mut Vec<Part<'a>>,
    first: (&'a str, Option<ValType>),
    second: (&'a str, Option<ValType>),
    value: &'a Json,
) -> Result<bool, AllocError> {
    if push_payload(parts, first.0, first.1, value)? {
        return Ok(true);
    }
    push_payload(parts, second.0, second.1, value)
}

/// The first of these labels from a place on that a value is.
fn label_from(labels: &[Label], from: usize, value: &Json) -> Option<usize> {
    for (place, label) in labels.iter().enumerate() {
        if from <= place && value.as_str() == Some(label.as_str()) {
            return Some(place);
        }
    }
    None
}

/// Whether an array has some of these labels in their order, each once.
fn are_flags(labels: &[Label], value: &Json) -> bool {
    let Some(items) = value.as_array() else {
        return false;
    };
    let mut from = 0;
    for item in items {
        match label_from(labels, from, item) {
            Some(place) => from = place.saturating_add(1),
            None => return false,
        }
    }
    true
}

/// Adds the parts of a value of a type that is no scalar. False if it is not of the type's form.
fn push_parts_of<'a>(
    parts: &mut Vec<Part<'a>>,
    kind: &'a TypeDefKind,
    value: &'a Json,
) -> Result<bool, AllocError> {
    match kind {
        TypeDefKind::List(ty) => push_items(parts, *ty, value),
        TypeDefKind::Tuple(types) => push_members(parts, types.as_slice(), value),
        TypeDefKind::Record(fields) => push_fields(parts, fields.as_slice(), value),
        TypeDefKind::Variant(cases) => push_cases(parts, cases.as_slice(), value),
        TypeDefKind::Option(ty) => push_either(parts, ("none", None), ("some", Some(*ty)), value),
        TypeDefKind::Result(ok, error) => push_either(parts, ("ok", *ok), ("error", *error), value),
        TypeDefKind::Enum(labels) => Ok(label_from(labels.as_slice(), 0, value).is_some()),
        TypeDefKind::Flags(labels) => Ok(are_flags(labels.as_slice(), value)),
        TypeDefKind::Use(_) | TypeDefKind::Alias(_) => Ok(true),
    }
}

/// Looks at a value on its own level, and adds its parts. False if it is not of its type's form.
pub fn push_parts<'a>(
    parts: &mut Vec<Part<'a>>,
    resolve: &'a Resolve,
    part: Part<'a>,
) -> Result<bool, AllocError> {
    let ty = unnamed(resolve, part.ty);
    match defined(resolve, ty) {
        Some(kind) => push_parts_of(parts, kind, part.value),
        None => Ok(is_scalar(ty, part.value)),
    }
}
