//! Types with indices as types of the table.
ghost use Rattle.std.specs.Prelude.{◌≡◌, Some, IfOk};
ghost use Rattle.ctype_format.specs.View.{defined_view};
ghost use Rattle.component_reader.specs.Types.{all_found, primitive_type, row_at, val_type, optional_type, field_read};
ghost use Rattle.component_reader.specs.Types.{parameter_read, case_read, kind_defined, ReadsFound};

use crate::unread::Unread;
use atoms::Label;
use ctype_bin::{RawCase, RawDefinedType, RawField, RawValType};
use std::alloc::{AllocError, Global};
use tables::{Case, Field, Parameter, Primitive, Sequence, TypeDefKind, TypeId, ValType};

fn primitive_type(primitive: ctype_bin::Primitive) -> ValType
    ensures { result ≡ primitive_type primitive }
{
    match primitive {
        ctype_bin::Primitive::Bool => ValType::Primitive(Primitive::Bool),
        ctype_bin::Primitive::S8 => ValType::Primitive(Primitive::S8),
        ctype_bin::Primitive::U8 => ValType::Primitive(Primitive::U8),
        ctype_bin::Primitive::S16 => ValType::Primitive(Primitive::S16),
        ctype_bin::Primitive::U16 => ValType::Primitive(Primitive::U16),
        ctype_bin::Primitive::S32 => ValType::Primitive(Primitive::S32),
        ctype_bin::Primitive::U32 => ValType::Primitive(Primitive::U32),
        ctype_bin::Primitive::S64 => ValType::Primitive(Primitive::S64),
        ctype_bin::Primitive::U64 => ValType::Primitive(Primitive::U64),
        ctype_bin::Primitive::Char => ValType::Primitive(Primitive::Char),
        ctype_bin::Primitive::String => ValType::String,
    }
}

/// The row of a type index, if it has one.
pub fn row_at(rows: &[Option<TypeId>], index: u32) -> Result<TypeId, Unread>
    ensures { ReadsFound (row_at rows.now index) result }
{
    match rows.get(index as usize) {
        Some(Some(id)) => Ok(*id),
        _ => Err(Unread::NotThisShape),
    }
}

fn val_type(rows: &[Option<TypeId>], ty: RawValType) -> Result<ValType, Unread>
    ensures { ReadsFound (val_type rows.now ty) result }
{
    match ty {
        RawValType::Primitive(primitive) => Ok(primitive_type(primitive)),
        RawValType::Index(index) => Ok(ValType::Id(row_at(rows, index)?)),
    }
}

pub fn optional_type(
    rows: &[Option<TypeId>],
    ty: Option<RawValType>,
) -> Result<Option<ValType>, Unread>
    ensures { ReadsFound (optional_type rows.now ty) result }
{
    match ty {
        Some(ty) => Ok(Some(val_type(rows, ty)?)),
        None => Ok(None),
    }
}

fn members(
    alloc: Global,
    rows: &[Option<TypeId>],
    types: &[RawValType],
) -> Result<Sequence<ValType>, Unread>
    ensures { ReadsFound (all_found (val_type rows.now) types.now) result }
{
    let mut members = Vec::with_capacity(alloc, types.len())?;
    for ty in types {
        members.push(val_type(rows, *ty)?)?;
    }
    Ok(Sequence::new(members))
}

fn fields(
    alloc: Global,
    rows: &[Option<TypeId>],
    raw: &[RawField],
) -> Result<Sequence<Field>, Unread>
    ensures { ReadsFound (all_found (field_read rows.now) raw.now) result }
{
    let mut fields = Vec::with_capacity(alloc, raw.len())?;
    for field in raw {
        fields.push(Field {
            name: field.label.copy(alloc)?,
            ty: val_type(rows, field.ty)?,
        })?;
    }
    Ok(Sequence::new(fields))
}

pub fn parameters(
    alloc: Global,
    rows: &[Option<TypeId>],
    raw: &[RawField],
) -> Result<Sequence<Parameter>, Unread>
    ensures { ReadsFound (all_found (parameter_read rows.now) raw.now) result }
{
    let mut params = Vec::with_capacity(alloc, raw.len())?;
    for param in raw {
        params.push(Parameter {
            name: param.label.copy(alloc)?,
            ty: val_type(rows, param.ty)?,
        })?;
    }
    Ok(Sequence::new(params))
}

fn cases(alloc: Global, rows: &[Option<TypeId>], raw: &[RawCase]) -> Result<Sequence<Case>, Unread>
    ensures { ReadsFound (all_found (case_read rows.now) raw.now) result }
{
    let mut cases = Vec::with_capacity(alloc, raw.len())?;
    for case in raw {
        cases.push(Case {
            name: case.label.copy(alloc)?,
            ty: optional_type(rows, case.payload)?,
        })?;
    }
    Ok(Sequence::new(cases))
}

fn labels(alloc: Global, raw: &[Label]) -> Result<Sequence<Label>, AllocError>
    ensures { IfOk result (λ names. names ≡ raw.now) }
{
    let mut labels = Vec::with_capacity(alloc, raw.len())?;
    for label in raw {
        labels.push(label.copy(alloc)?)?;
    }
    Ok(Sequence::new(labels))
}

/// What a definition defines, over the row of each type index.
pub fn kind_of(
    alloc: Global,
    rows: &[Option<TypeId>],
    defined: &RawDefinedType,
) -> Result<TypeDefKind, Unread>
    ensures { ReadsFound (kind_defined rows.now (defined_view defined.now)) result }
{
    match defined {
        RawDefinedType::Primitive(primitive) => Ok(TypeDefKind::Alias(primitive_type(*primitive))),
        RawDefinedType::Record(raw) => Ok(TypeDefKind::Record(fields(alloc, rows, raw)?)),
        RawDefinedType::Variant(raw) => Ok(TypeDefKind::Variant(cases(alloc, rows, raw)?)),
        RawDefinedType::List(element) => Ok(TypeDefKind::List(val_type(rows, *element)?)),
        RawDefinedType::Tuple(types) => Ok(TypeDefKind::Tuple(members(alloc, rows, types)?)),
        RawDefinedType::Flags(raw) => Ok(TypeDefKind::Flags(labels(alloc, raw)?)),
        RawDefinedType::Enum(raw) => Ok(TypeDefKind::Enum(labels(alloc, raw)?)),
        RawDefinedType::Option(payload) => Ok(TypeDefKind::Option(val_type(rows, *payload)?)),
        RawDefinedType::Result { ok, error } => Ok(TypeDefKind::Result(
            optional_type(rows, *ok)?,
            optional_type(rows, *error)?,
        )),
    }
}
