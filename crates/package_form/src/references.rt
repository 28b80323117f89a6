//! The types that a row is made of.
ghost use Rattle.std.specs.Prelude.{◌≡◌, ◌++◌, flat_map, OnOk};
ghost use Rattle.package_form.specs.References.{type_references, references_if, case_references, kind_references};
ghost use Rattle.package_form.specs.References.{row_references};

use std::alloc::AllocError;
use tables::{Case, Definition, Member, TypeDefKind, TypeId, ValType};

fn push_type(ids: &mut Vec<TypeId>, ty: ValType) -> Result<(), AllocError>
    ensures { OnOk result (ids.new.items ≡ ids.old.items ++ type_references ty) }
{
    if let ValType::Id(id) = ty {
        ids.push(id)?;
    }
    Ok(())
}

fn push_optional(ids: &mut Vec<TypeId>, ty: Option<ValType>) -> Result<(), AllocError>
    ensures { OnOk result (ids.new.items ≡ ids.old.items ++ references_if ty) }
{
    match ty {
        Some(ty) => push_type(ids, ty),
        None => Ok(()),
    }
}

fn push_members<M: Member>(ids: &mut Vec<TypeId>, members: &[M]) -> Result<(), AllocError>
    ensures { OnOk result (ids.new.items ≡ ids.old.items ++ flat_map (λ m. type_references (M.type_of m)) members.now) }
{
    for member in members {
        push_type(ids, member.ty())?;
    }
    Ok(())
}

fn push_cases(ids: &mut Vec<TypeId>, cases: &[Case]) -> Result<(), AllocError>
    ensures { OnOk result (ids.new.items ≡ ids.old.items ++ flat_map case_references cases.now) }
{
    for case in cases {
        push_optional(ids, case.ty)?;
    }
    Ok(())
}

/// Appends the rows that a type is made of.
fn push_kind(ids: &mut Vec<TypeId>, kind: &TypeDefKind) -> Result<(), AllocError>
    ensures { OnOk result (ids.new.items ≡ ids.old.items ++ kind_references kind.now) }
{
    match kind {
        TypeDefKind::Use(_) | TypeDefKind::Enum(_) | TypeDefKind::Flags(_) => Ok(()),
        TypeDefKind::Alias(ty) | TypeDefKind::List(ty) | TypeDefKind::Option(ty) => {
            push_type(ids, *ty)
        }
        TypeDefKind::Result(ok, error) => {
            push_optional(ids, *ok)?;
            push_optional(ids, *error)
        }
        TypeDefKind::Tuple(types) => push_members(ids, types.as_slice()),
        TypeDefKind::Record(fields) => push_members(ids, fields.as_slice()),
        TypeDefKind::Variant(cases) => push_cases(ids, cases.as_slice()),
    }
}

/// Appends the rows that a row is made of, from the left.
pub fn push_references(ids: &mut Vec<TypeId>, row: &Definition) -> Result<(), AllocError>
    ensures { OnOk result (ids.new.items ≡ ids.old.items ++ row_references row.now) }
{
    match row {
        Definition::Type(definition) => push_kind(ids, &definition.kind),
        Definition::Function(function) => {
            push_members(ids, function.params.as_slice())?;
            push_optional(ids, function.result)
        }
    }
}
