//! Which values have parts elsewhere in a memory: texts, lists, and what has one of them.

use std::alloc::{AllocError, Global};
use tables::{Case, Definition, Field, Parameter, Resolve, TypeDefKind, ValType};

/// Whether a value of a type has such parts, if that is known of the rows that it may name.
pub fn has_blocks(known: &[bool], ty: ValType) -> bool {
    match ty {
        ValType::Primitive(_) => false,
        ValType::String => true,
        ValType::Id(id) => known.get(id.0 as usize).copied().unwrap_or(false),
    }
}

fn may_have_blocks(known: &[bool], ty: Option<ValType>) -> bool {
    match ty {
        Some(ty) => has_blocks(known, ty),
        None => false,
    }
}

fn have_fields_blocks(known: &[bool], fields: &[Field]) -> bool {
    fields.iter().any(|field| has_blocks(known, field.ty))
}

fn have_cases_blocks(known: &[bool], cases: &[Case]) -> bool {
    cases.iter().any(|case| may_have_blocks(known, case.ty))
}

fn have_blocks(known: &[bool], types: &[ValType]) -> bool {
    types.iter().any(|ty| has_blocks(known, *ty))
}

fn have_parameters_blocks(known: &[bool], params: &[Parameter]) -> bool {
    params.iter().any(|param| has_blocks(known, param.ty))
}

fn kind_has_blocks(known: &[bool], kind: &TypeDefKind) -> bool {
    match kind {
        TypeDefKind::Use(id) => has_blocks(known, ValType::Id(*id)),
        TypeDefKind::Alias(ty) | TypeDefKind::Option(ty) => has_blocks(known, *ty),
        TypeDefKind::List(_) => true,
        TypeDefKind::Result(ok, error) => {
            may_have_blocks(known, *ok) || may_have_blocks(known, *error)
        }
        TypeDefKind::Tuple(types) => have_blocks(known, types.as_slice()),
        TypeDefKind::Record(fields) => have_fields_blocks(known, fields.as_slice()),
        TypeDefKind::Variant(cases) => have_cases_blocks(known, cases.as_slice()),
        TypeDefKind::Enum(_) | TypeDefKind::Flags(_) => false,
    }
}

/// Of each row of a table, whether its values have such parts; of a function, whether its parameters have.
pub fn rows_with_blocks(alloc: Global, tables: &Resolve) -> Result<Vec<bool>, AllocError> {
    let mut known = Vec::new(alloc);
    for definition in tables.definitions.as_slice() {
        let has_blocks = match definition {
            Definition::Type(definition) => kind_has_blocks(known.as_slice(), &definition.kind),
            Definition::Function(function) => {
                have_parameters_blocks(known.as_slice(), function.params.as_slice())
            }
        };
        known.push(has_blocks)?;
    }
    Ok(known)
}
