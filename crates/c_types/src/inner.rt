//! Types without a name: lists, options, results and tuples. Those that are alike are one type in C.

use crate::c_names::short_key;
use crate::types::{Form, Part, Types};
use std::alloc::{AllocError, Global};
use tables::{Definition, Resolve, TypeDef, TypeDefKind, ValType};
use text_builder::TextBuilder;

/// A type without a name.
#[derive(Drop)]
pub struct Inner {
    pub word: &'static str,
    /// What it is made of. A result has two, which it may lack.
    pub parts: Vec<Option<ValType>>,
}

fn of_two(
    alloc: Global,
    word: &'static str,
    parts: [Option<ValType>; 2],
) -> Result<Inner, AllocError> {
    Ok(Inner {
        word,
        parts: Vec::from_array(alloc, parts)?,
    })
}

fn of_one(alloc: Global, word: &'static str, part: ValType) -> Result<Inner, AllocError> {
    Ok(Inner {
        word,
        parts: Vec::from_array(alloc, [Some(part)])?,
    })
}

fn of_tuple(alloc: Global, types: &[ValType]) -> Result<Inner, AllocError> {
    let mut parts = Vec::new(alloc);
    for ty in types {
        parts.push(Some(*ty))?;
    }
    Ok(Inner {
        word: "tuple",
        parts,
    })
}

/// The type without a name that this is, if it is one.
pub fn inner_of(alloc: Global, kind: &TypeDefKind) -> Result<Option<Inner>, AllocError> {
    let inner = match kind {
        TypeDefKind::List(element) => of_one(alloc, "list", *element)?,
        TypeDefKind::Option(payload) => of_one(alloc, "option", *payload)?,
        TypeDefKind::Result(ok, error) => of_two(alloc, "result", [*ok, *error])?,
        TypeDefKind::Tuple(types) => of_tuple(alloc, types.as_slice())?,
        _ => return Ok(None),
    };
    Ok(Some(inner))
}

impl Inner {
    /// How many parts are spelled: those up to the last that there is.
    fn spelled_count(&self) -> usize {
        let mut count = 0;
        for (index, part) in self.parts.iter().enumerate() {
            if part.is_some() {
                count = index.saturating_add(1);
            }
        }
        count
    }
}

impl<'a> Types<'a> {
    /// Appends the key of a type without a name, however long it is.
    fn push_key(&self, key: &mut TextBuilder, inner: &Inner) {
        key.push(inner.word);
        if inner.word == "tuple" {
            key.push_number(inner.parts.len());
        }
        for part in &inner.parts {
            key.push("_");
            key.push(self.key(*part));
        }
    }

    /// The key of a type without a name: its word and the keys of its parts.
    pub fn key_of(&self, inner: &Inner) -> Result<String, AllocError> {
        let mut key = TextBuilder::new(self.alloc);
        self.push_key(&mut key, inner);
        short_key(self.alloc, inner.word, key.finish()?)
    }

    /// A type without a name as WIT spells it.
    pub fn spelled(&self, inner: &Inner) -> Result<String, AllocError> {
        let mut text = TextBuilder::new(self.alloc);
        text.push(inner.word);
        let count = inner.spelled_count();
        for (index, part) in inner.parts.iter().take(count).enumerate() {
            let mark = if index == 0 { "<" } else { ", " };
            text.push(mark);
            text.push(self.spelling(*part));
        }
        text.push(if count > 0 { ">" } else { "" });
        text.finish()
    }
}

/// Adds a field or a case, by its label and its constant.
fn push_part(
    alloc: Global,
    parts: &mut Vec<Part>,
    names: [&str; 2],
    ty: Option<ValType>,
) -> Result<(), AllocError> {
    let [label, constant] = names;
    parts.push(Part {
        label: String::from_str(alloc, label)?,
        ty,
        constant: String::from_str(alloc, constant)?,
    })?;
    Ok(())
}

/// Adds the fields of a tuple, by their numbers.
fn push_fields(
    alloc: Global,
    parts: &mut Vec<Part>,
    types: &[Option<ValType>],
) -> Result<(), AllocError> {
    for (index, ty) in types.iter().enumerate() {
        let label = format!(in alloc; "f{index}")?;
        push_part(alloc, parts, [label.as_str(), ""], *ty)?;
    }
    Ok(())
}

/// Adds the cases of an option or of a result.
fn push_cases(
    alloc: Global,
    parts: &mut Vec<Part>,
    types: &[Option<ValType>],
) -> Result<(), AllocError> {
    match types {
        [some] => {
            push_part(alloc, parts, ["none", "WIT_NONE"], None)?;
            push_part(alloc, parts, ["some", "WIT_SOME"], *some)
        }
        [ok, error] => {
            push_part(alloc, parts, ["ok", "WIT_OK"], *ok)?;
            push_part(alloc, parts, ["error", "WIT_ERROR"], *error)
        }
        _ => Ok(()),
    }
}

/// Adds the parts of a type without a name. What it is in C.
fn push_parts(alloc: Global, parts: &mut Vec<Part>, inner: &Inner) -> Result<Form, AllocError> {
    let types = inner.parts.as_slice();
    match inner.word {
        "list" => Ok(Form::Pair),
        "tuple" => {
            push_fields(alloc, parts, types)?;
            Ok(Form::Record)
        }
        _ => {
            push_cases(alloc, parts, types)?;
            Ok(Form::Variant)
        }
    }
}

/// What a type without a name is in C.
pub fn made_of(alloc: Global, inner: &Inner) -> Result<(Form, Vec<Part>), AllocError> {
    let mut parts = Vec::new(alloc);
    let form = push_parts(alloc, &mut parts, inner)?;
    Ok((form, parts))
}

/// Whether a row is a type without a name.
fn is_unnamed(resolve: &Resolve, place: u32) -> bool {
    matches!(
        resolve.definitions.as_slice().get(place as usize),
        Some(Definition::Type(TypeDef { name: None, .. }))
    )
}

/// The first of the types without a name right before a row.
pub fn first_inner(resolve: &Resolve, place: u32) -> u32 {
    let mut first = place;
    for before in (0..place).rev() {
        if !is_unnamed(resolve, before) {
            return first;
        }
        first = before;
    }
    first
}
