//! Types of the table as types with indices.
ghost use Rattle.std.specs.Prelude.{◌≡◌, map, slice_index, option_map, IfOk};
ghost use Rattle.wit_component.specs.Rows.{raw_primitive, valtype_of, field_of, parameter_of, case_of};

use atoms::Label;
use ctype_bin::{RawCase, RawField, RawValType};
use std::alloc::{AllocError, Global};
use tables::{Case, Field, Parameter, Primitive, TypeId, ValType};

pub fn raw_primitive(primitive: Primitive) -> ctype_bin::Primitive
    ensures { result ≡ raw_primitive primitive }
{
    match primitive {
        Primitive::Bool => ctype_bin::Primitive::Bool,
        Primitive::S8 => ctype_bin::Primitive::S8,
        Primitive::U8 => ctype_bin::Primitive::U8,
        Primitive::S16 => ctype_bin::Primitive::S16,
        Primitive::U16 => ctype_bin::Primitive::U16,
        Primitive::S32 => ctype_bin::Primitive::S32,
        Primitive::U32 => ctype_bin::Primitive::U32,
        Primitive::S64 => ctype_bin::Primitive::S64,
        Primitive::U64 => ctype_bin::Primitive::U64,
        Primitive::Char => ctype_bin::Primitive::Char,
    }
}

/// The type index of a row; 0 where there is none.
pub fn index_of(indices: &[u32], id: TypeId) -> u32
    ensures { result ≡ slice_index indices.now id.0 }
{
    match indices.get(id.0 as usize) {
        Some(index) => *index,
        None => 0,
    }
}

pub fn valtype_of(indices: &[u32], ty: ValType) -> RawValType
    ensures { result ≡ valtype_of indices.now ty }
{
    match ty {
        ValType::Primitive(primitive) => RawValType::Primitive(raw_primitive(primitive)),
        ValType::String => RawValType::Primitive(ctype_bin::Primitive::String),
        ValType::Id(id) => RawValType::Index(index_of(indices, id)),
    }
}

pub fn optional_of(indices: &[u32], ty: Option<ValType>) -> Option<RawValType>
    ensures { result ≡ option_map (valtype_of indices.now) ty }
{
    match ty {
        Some(ty) => Some(valtype_of(indices, ty)),
        None => None,
    }
}

pub fn members_of(
    alloc: Global,
    indices: &[u32],
    types: &[ValType],
) -> Result<Vec<RawValType>, AllocError>
    ensures { IfOk result (λ v. v.items ≡ map (valtype_of indices.now) types.now) }
{
    let mut members = Vec::with_capacity(alloc, types.len())?;
    for ty in types {
        members.push(valtype_of(indices, *ty))?;
    }
    Ok(members)
}

pub fn fields_of(
    alloc: Global,
    indices: &[u32],
    fields: &[Field],
) -> Result<Vec<RawField>, AllocError>
    ensures { IfOk result (λ v. v.items ≡ map (field_of indices.now) fields.now) }
{
    let mut raw = Vec::with_capacity(alloc, fields.len())?;
    for field in fields {
        raw.push(RawField {
            label: field.name.copy(alloc)?,
            ty: valtype_of(indices, field.ty),
        })?;
    }
    Ok(raw)
}

pub fn parameters_of(
    alloc: Global,
    indices: &[u32],
    params: &[Parameter],
) -> Result<Vec<RawField>, AllocError>
    ensures { IfOk result (λ v. v.items ≡ map (parameter_of indices.now) params.now) }
{
    let mut raw = Vec::with_capacity(alloc, params.len())?;
    for param in params {
        raw.push(RawField {
            label: param.name.copy(alloc)?,
            ty: valtype_of(indices, param.ty),
        })?;
    }
    Ok(raw)
}

pub fn cases_of(alloc: Global, indices: &[u32], cases: &[Case]) -> Result<Vec<RawCase>, AllocError>
    ensures { IfOk result (λ v. v.items ≡ map (case_of indices.now) cases.now) }
{
    let mut raw = Vec::with_capacity(alloc, cases.len())?;
    for case in cases {
        raw.push(RawCase {
            label: case.name.copy(alloc)?,
            payload: optional_of(indices, case.ty),
        })?;
    }
    Ok(raw)
}

pub fn labels_of(alloc: Global, labels: &[Label]) -> Result<Vec<Label>, AllocError>
    ensures { IfOk result (λ v. v.items ≡ labels.now) }
{
    let mut copy = Vec::with_capacity(alloc, labels.len())?;
    for label in labels {
        copy.push(label.copy(alloc)?)?;
    }
    Ok(copy)
}
