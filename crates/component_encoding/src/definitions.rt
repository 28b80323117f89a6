//! The definitions of types and functions. (Binary.md, "Type Definitions")

use crate::scope::Scope;
use crate::spelling::{put_count, put_name, put_s33};
use atoms::Label;
use std::alloc::AllocError;
use tables::{Case, Field, Function, Parameter, Primitive, TypeDefKind, ValType};

/// The first byte of a function's type.
const FUNCTION: u8 = 0x40;

/// A string, which is a primitive in this format.
const STRING: u8 = 0x73;

fn primitive_byte(primitive: Primitive) -> u8 {
    match primitive {
        Primitive::Bool => 0x7f,
        Primitive::S8 => 0x7e,
        Primitive::U8 => 0x7d,
        Primitive::S16 => 0x7c,
        Primitive::U16 => 0x7b,
        Primitive::S32 => 0x7a,
        Primitive::U32 => 0x79,
        Primitive::S64 => 0x78,
        Primitive::U64 => 0x77,
        Primitive::Char => 0x74,
    }
}

fn put_valtype(scope: &Scope, out: &mut Vec<u8>, ty: ValType) -> Result<(), AllocError> {
    match ty {
        ValType::Primitive(primitive) => Ok(out.push(primitive_byte(primitive))?),
        ValType::String => Ok(out.push(STRING)?),
        ValType::Id(id) => put_s33(out, scope.known(id).unwrap_or(0)),
    }
}

fn put_optional(scope: &Scope, out: &mut Vec<u8>, ty: Option<ValType>) -> Result<(), AllocError> {
    match ty {
        None => Ok(out.push(0)?),
        Some(ty) => {
            out.push(1)?;
            put_valtype(scope, out, ty)
        }
    }
}

fn put_types(scope: &Scope, out: &mut Vec<u8>, types: &[ValType]) -> Result<(), AllocError> {
    put_count(out, types.len())?;
    for ty in types {
        put_valtype(scope, out, *ty)?;
    }
    Ok(())
}

fn put_fields(scope: &Scope, out: &mut Vec<u8>, fields: &[Field]) -> Result<(), AllocError> {
    put_count(out, fields.len())?;
    for field in fields {
        put_name(out, field.name.as_bytes())?;
        put_valtype(scope, out, field.ty)?;
    }
    Ok(())
}

fn put_cases(scope: &Scope, out: &mut Vec<u8>, cases: &[Case]) -> Result<(), AllocError> {
    put_count(out, cases.len())?;
    for case in cases {
        put_name(out, case.name.as_bytes())?;
        put_optional(scope, out, case.ty)?;
        out.push(0)?;
    }
    Ok(())
}

fn put_labels(out: &mut Vec<u8>, labels: &[Label]) -> Result<(), AllocError> {
    put_count(out, labels.len())?;
    for label in labels {
        put_name(out, label.as_bytes())?;
    }
    Ok(())
}

/// The byte that a type of this kind begins with. A type that is another one has none.
fn opcode_of(kind: &TypeDefKind) -> Option<u8> {
    let opcode = match kind {
        TypeDefKind::Use(_) | TypeDefKind::Alias(_) => return None,
        TypeDefKind::List(_) => 0x70,
        TypeDefKind::Option(_) => 0x6b,
        TypeDefKind::Result(_, _) => 0x6a,
        TypeDefKind::Tuple(_) => 0x6f,
        TypeDefKind::Record(_) => 0x72,
        TypeDefKind::Variant(_) => 0x71,
        TypeDefKind::Enum(_) => 0x6d,
        TypeDefKind::Flags(_) => 0x6e,
    };
    Some(opcode)
}

/// Appends what a type of this kind has.
fn put_parts(scope: &Scope, out: &mut Vec<u8>, kind: &TypeDefKind) -> Result<(), AllocError> {
    match kind {
        TypeDefKind::Use(target) => put_valtype(scope, out, ValType::Id(*target)),
        TypeDefKind::Alias(ty) | TypeDefKind::List(ty) | TypeDefKind::Option(ty) => {
            put_valtype(scope, out, *ty)
        }
        TypeDefKind::Result(ok, error) => {
            put_optional(scope, out, *ok)?;
            put_optional(scope, out, *error)
        }
        TypeDefKind::Tuple(types) => put_types(scope, out, types.as_slice()),
        TypeDefKind::Record(fields) => put_fields(scope, out, fields.as_slice()),
        TypeDefKind::Variant(cases) => put_cases(scope, out, cases.as_slice()),
        TypeDefKind::Enum(names) | TypeDefKind::Flags(names) => put_labels(out, names.as_slice()),
    }
}

/// The definition of a type that is neither a used name nor another name of a named type. The types that it is made of
/// have indices in the scope.
pub fn definition_of(scope: &Scope, kind: &TypeDefKind) -> Result<Vec<u8>, AllocError> {
    let mut definition = Vec::new(scope.alloc());
    if let Some(opcode) = opcode_of(kind) {
        definition.push(opcode)?;
    }
    put_parts(scope, &mut definition, kind)?;
    Ok(definition)
}

fn put_parameters(
    scope: &Scope,
    out: &mut Vec<u8>,
    parameters: &[Parameter],
) -> Result<(), AllocError> {
    put_count(out, parameters.len())?;
    for parameter in parameters {
        put_name(out, parameter.name.as_bytes())?;
        put_valtype(scope, out, parameter.ty)?;
    }
    Ok(())
}

/// The definition of a function's type. The types that it is made of have indices in the scope.
pub fn signature_of(scope: &Scope, function: &Function) -> Result<Vec<u8>, AllocError> {
    let mut definition = Vec::new(scope.alloc());
    definition.push(FUNCTION)?;
    put_parameters(scope, &mut definition, function.params.as_slice())?;
    match function.result {
        Some(ty) => {
            definition.push(0)?;
            put_valtype(scope, &mut definition, ty)?;
        }
        None => definition.extend_from_slice(&[1, 0])?,
    }
    Ok(definition)
}
