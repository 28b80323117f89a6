//! Definitions of types, and what functions take and give.
ghost use Rattle.std.specs.Prelude.{◌≡◌, List, map, IfOk, IsTrue, option_map};
ghost use Rattle.std.specs.List.{list_all};
ghost use Rattle.wit_tokens.specs.View.{field_view, case_view, optional_view, definition_view, function_view};
ghost use Rattle.tables.specs.Tables.{option_all, kind_all, function_all, is_type_before};
ghost use Rattle.tables.specs.Package.{read_val, read_kind, read_params};
ghost use Rattle.package_form.specs.Form.{IsInPackageForm};
ghost use Rattle.package_text.specs.Written.{body_of};
ghost use Rattle.package_text.specs.Tree.{own_trees, function_by};
ghost use Rattle.package_text.specs.Pieces.{type_by, member_by, field_by, parameter_by, case_by};

use crate::expression::{expression, inner};
use atoms::Label;
use std::alloc::{AllocError, Global};
use tables::{Case, Field, Function, Parameter, Resolve, TypeDefKind, ValType};
use wit_tokens::wit_syntax::{FuncType, TypeExpression};

/// The expression of a type, if there is one.
fn optional(
    alloc: Global,
    resolve: &Resolve,
    place: usize,
    ty: Option<ValType>,
) -> Result<Option<TypeExpression>, AllocError>
    requires form { IsInPackageForm resolve.now }
    requires earlier { IsTrue (option_all (is_type_before resolve.now.definitions place) ty) }
    ensures { IfOk result (λ t. optional_view t ≡ option_map (type_by (own_trees resolve.now)) ty) }
{
    match ty {
        None => Ok(None),
        Some(ty) => Ok(Some(expression(alloc, resolve, place, ty)?)),
    }
}

/// A name with its type.
fn member(
    alloc: Global,
    resolve: &Resolve,
    place: usize,
    name: &Label,
    ty: ValType,
) -> Result<wit_tokens::wit_syntax::Field, AllocError>
    requires form { IsInPackageForm resolve.now }
    requires earlier { IsTrue (is_type_before resolve.now.definitions place ty) }
    ensures { IfOk result (λ m. field_view m ≡ member_by (own_trees resolve.now) name.now ty) }
{
    Ok(wit_tokens::wit_syntax::Field {
        name: name.copy(alloc)?,
        ty: expression(alloc, resolve, place, ty)?,
    })
}

fn fields(
    alloc: Global,
    resolve: &Resolve,
    place: usize,
    fields: &[Field],
) -> Result<Vec<wit_tokens::wit_syntax::Field>, AllocError>
    requires form { IsInPackageForm resolve.now }
    requires earlier { IsTrue (list_all (λ f. is_type_before resolve.now.definitions place f.ty) fields.now) }
    ensures { IfOk result (λ ms. map field_view ms.items ≡ map (field_by (own_trees resolve.now)) fields.now) }
{
    let mut members = Vec::new(alloc);
    for field in fields {
        members.push(member(alloc, resolve, place, &field.name, field.ty)?)?;
    }
    Ok(members)
}

fn parameters(
    alloc: Global,
    resolve: &Resolve,
    place: usize,
    parameters: &[Parameter],
) -> Result<Vec<wit_tokens::wit_syntax::Field>, AllocError>
    requires form { IsInPackageForm resolve.now }
    requires earlier { IsTrue (list_all (λ p. is_type_before resolve.now.definitions place p.ty) parameters.now) }
    ensures { IfOk result (λ ms. map field_view ms.items ≡ map (parameter_by (own_trees resolve.now)) parameters.now) }
{
    let mut members = Vec::new(alloc);
    for parameter in parameters {
        members.push(member(alloc, resolve, place, &parameter.name, parameter.ty)?)?;
    }
    Ok(members)
}

fn case(
    alloc: Global,
    resolve: &Resolve,
    place: usize,
    case: &Case,
) -> Result<wit_tokens::wit_syntax::Case, AllocError>
    requires form { IsInPackageForm resolve.now }
    requires earlier { IsTrue (option_all (is_type_before resolve.now.definitions place) case.now.ty) }
    ensures { IfOk result (λ c. case_view c ≡ case_by (own_trees resolve.now) case.now) }
{
    Ok(wit_tokens::wit_syntax::Case {
        name: case.name.copy(alloc)?,
        payload: optional(alloc, resolve, place, case.ty)?,
    })
}

fn cases(
    alloc: Global,
    resolve: &Resolve,
    place: usize,
    choices: &[Case],
) -> Result<Vec<wit_tokens::wit_syntax::Case>, AllocError>
    requires form { IsInPackageForm resolve.now }
    requires earlier { IsTrue (list_all (λ c. option_all (is_type_before resolve.now.definitions place) c.ty)
        choices.now) }
    ensures { IfOk result (λ cs. map case_view cs.items ≡ map (case_by (own_trees resolve.now)) choices.now) }
{
    let mut cases = Vec::new(alloc);
    for choice in choices {
        cases.push(case(alloc, resolve, place, choice)?)?;
    }
    Ok(cases)
}

fn labels(alloc: Global, labels: &[Label]) -> Result<Vec<Label>, AllocError>
    ensures { IfOk result (λ ns. ns.items ≡ labels.now) }
{
    let mut copies = Vec::new(alloc);
    for label in labels {
        copies.push(label.copy(alloc)?)?;
    }
    Ok(copies)
}

/// Another name of a type.
fn alias(
    alloc: Global,
    resolve: &Resolve,
    place: usize,
    target: ValType,
) -> Result<wit_tokens::wit_syntax::TypeDefKind, AllocError>
    requires form { IsInPackageForm resolve.now }
    requires earlier { IsTrue (is_type_before resolve.now.definitions place target) }
    ensures { IfOk result (λ d. definition_view d ≡ body_of (read_val (own_trees resolve.now) target)) }
{
    let ty = expression(alloc, resolve, place, target)?;
    Ok(wit_tokens::wit_syntax::TypeDefKind::Alias(ty))
}

/// The definition of the type at this place, which has a name.
pub(crate) fn definition(
    alloc: Global,
    resolve: &Resolve,
    place: usize,
    kind: &TypeDefKind,
) -> Result<wit_tokens::wit_syntax::TypeDefKind, AllocError>
    requires form { IsInPackageForm resolve.now }
    requires earlier { IsTrue (kind_all (is_type_before resolve.now.definitions place) kind.now) }
    ensures { IfOk result (λ d. definition_view d ≡ body_of (read_kind (own_trees resolve.now) kind.now)) }
{
    match kind {
        TypeDefKind::Use(target) => alias(alloc, resolve, place, ValType::Id(*target)),
        TypeDefKind::Alias(target) => alias(alloc, resolve, place, *target),
        TypeDefKind::Record(members) => {
            let members = fields(alloc, resolve, place, members.as_slice())?;
            Ok(wit_tokens::wit_syntax::TypeDefKind::Record(members))
        }
        TypeDefKind::Variant(choices) => {
            let cases = cases(alloc, resolve, place, choices.as_slice())?;
            Ok(wit_tokens::wit_syntax::TypeDefKind::Variant(cases))
        }
        TypeDefKind::Enum(names) => {
            let names = labels(alloc, names.as_slice())?;
            Ok(wit_tokens::wit_syntax::TypeDefKind::Enum(names))
        }
        TypeDefKind::Flags(names) => {
            let names = labels(alloc, names.as_slice())?;
            Ok(wit_tokens::wit_syntax::TypeDefKind::Flags(names))
        }
        TypeDefKind::List(_)
        | TypeDefKind::Option(_)
        | TypeDefKind::Result(_, _)
        | TypeDefKind::Tuple(_) => {
            let ty = inner(alloc, resolve, place, kind)?;
            Ok(wit_tokens::wit_syntax::TypeDefKind::Alias(ty))
        }
    }
}

/// What the function at this place takes and gives.
pub(crate) fn function_type(
    alloc: Global,
    resolve: &Resolve,
    place: usize,
    function: &Function,
) -> Result<FuncType, AllocError>
    requires form { IsInPackageForm resolve.now }
    requires earlier { IsTrue (function_all (is_type_before resolve.now.definitions place) function.now) }
    ensures { IfOk result (λ t. function_view t
        ≡ function_by (read_params (own_trees resolve.now) function.now.params)
        (option_map (read_val (own_trees resolve.now)) function.now.result)) }
{
    Ok(FuncType {
        params: parameters(alloc, resolve, place, function.params.as_slice())?,
        result: optional(alloc, resolve, place, function.result)?,
    })
}
