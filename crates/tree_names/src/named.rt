//! The names of types in a syntax tree.
ghost use Rattle.std.specs.Prelude.{◌≡◌, ◌++◌, map, flat_map, OnOk};
ghost use Rattle.wit_tokens.specs.Syntax.{tys_of};
ghost use Rattle.wit_tokens.specs.View.{ty_view, inner_view, maybe_view, optional_view, field_view, case_view, definition_view};
ghost use Rattle.wit_tokens.specs.View.{function_view};
ghost use Rattle.tree_meaning.specs.Declarations.{named, named_all, named_maybe, named_if, named_member, named_case};
ghost use Rattle.tree_meaning.specs.Declarations.{named_definition, names_in_function};
ghost use Rattle.tree_scopes.specs.Lent.{lent_names};

use atoms::Label;
use std::alloc::AllocError;
use wit_tokens::wit_syntax::{
    Case, Field, FuncType, InnerType, ResultType, TypeDefKind, TypeExpression,
};

/// Appends the names that a type names, from the left.
#[cycle(named)]
fn push_named<'a>(names: &mut Vec<&'a Label>, ty: &'a TypeExpression) -> Result<(), AllocError>
    ensures { OnOk result (lent_names names.new.items ≡ lent_names names.old.items ++ named (ty_view ty.now)) }
{
    match ty {
        TypeExpression::Primitive(_) => Ok(()),
        TypeExpression::Named(name) => Ok(names.push(name)?),
        TypeExpression::List(ty) | TypeExpression::Option(ty) => push_named_inner(names, ty),
        TypeExpression::Tuple(types) => push_named_all(names, types),
        TypeExpression::Result { ok, error } => {
            push_named_maybe(names, ok)?;
            push_named_maybe(names, error)
        }
    }
}

#[cycle(named)]
fn push_named_inner<'a>(names: &mut Vec<&'a Label>, ty: &'a InnerType) -> Result<(), AllocError>
    ensures { OnOk result (lent_names names.new.items ≡ lent_names names.old.items ++ named (inner_view ty.now)) }
{
    match ty {
        InnerType::Plain(_) => Ok(()),
        InnerType::Boxed(ty) => push_named(names, ty),
    }
}

#[cycle(named)]
fn push_named_maybe<'a>(names: &mut Vec<&'a Label>, ty: &'a ResultType) -> Result<(), AllocError>
    ensures { OnOk result (lent_names names.new.items ≡ lent_names names.old.items ++ named_maybe (maybe_view ty.now)) }
{
    match ty {
        ResultType::Absent | ResultType::Simple(_) => Ok(()),
        ResultType::Other(ty) => push_named(names, ty),
    }
}

#[cycle(named)]
fn push_named_all<'a>(
    names: &mut Vec<&'a Label>,
    types: &'a Vec<TypeExpression>,
) -> Result<(), AllocError>
    ensures { OnOk result (lent_names names.new.items ≡ lent_names names.old.items
        ++ named_all (tys_of (map ty_view types.now.items))) }
{
    for ty in types {
        push_named(names, ty)?;
    }
    Ok(())
}

fn push_named_optional<'a>(
    names: &mut Vec<&'a Label>,
    ty: &'a Option<TypeExpression>,
) -> Result<(), AllocError>
    ensures { OnOk result (lent_names names.new.items ≡ lent_names names.old.items ++ named_if (optional_view ty.now)) }
{
    match ty {
        Some(ty) => push_named(names, ty),
        None => Ok(()),
    }
}

fn push_named_fields<'a>(names: &mut Vec<&'a Label>, fields: &'a [Field]) -> Result<(), AllocError>
    ensures { OnOk result (lent_names names.new.items ≡ lent_names names.old.items
        ++ flat_map named_member (map field_view fields.now)) }
{
    for field in fields {
        push_named(names, &field.ty)?;
    }
    Ok(())
}

fn push_named_cases<'a>(names: &mut Vec<&'a Label>, cases: &'a [Case]) -> Result<(), AllocError>
    ensures { OnOk result (lent_names names.new.items ≡ lent_names names.old.items
        ++ flat_map named_case (map case_view cases.now)) }
{
    for case in cases {
        push_named_optional(names, &case.payload)?;
    }
    Ok(())
}

/// Makes a list anew of the names that a definition names, from the left.
pub fn list_definition<'a>(
    names: &mut Vec<&'a Label>,
    kind: &'a TypeDefKind,
) -> Result<(), AllocError>
    ensures { OnOk result (lent_names names.new.items ≡ named_definition (definition_view kind.now)) }
{
    names.clear();
    match kind {
        TypeDefKind::Alias(ty) => push_named(names, ty),
        TypeDefKind::Record(fields) => push_named_fields(names, fields),
        TypeDefKind::Variant(cases) => push_named_cases(names, cases),
        TypeDefKind::Enum(_) | TypeDefKind::Flags(_) => Ok(()),
    }
}

/// Makes a list anew of the names that a function names, from the left.
pub fn list_function<'a>(names: &mut Vec<&'a Label>, ty: &'a FuncType) -> Result<(), AllocError>
    ensures { OnOk result (lent_names names.new.items ≡ names_in_function (function_view ty.now)) }
{
    names.clear();
    push_named_fields(names, &ty.params)?;
    push_named_optional(names, &ty.result)
}
