//! Types as expressions.
ghost use Rattle.std.specs.Prelude.{◌≡◌, List, map, IfOk, IsTrue, slice_get, slice_index_or};
ghost use Rattle.std.specs.List.{list_all};
ghost use Rattle.wit_tokens.specs.View.{ty_view, maybe_view};
ghost use Rattle.tables.specs.Tables.{option_all, kind_all, is_type_id, is_type_before};
ghost use Rattle.tables.specs.Package.{TextTree, read_kind};
ghost use Rattle.package_form.specs.Postfix.{is_inner};
ghost use Rattle.package_form.specs.Form.{IsInPackageForm};
ghost use Rattle.package_text.specs.Written.{keyword_for, ty_of};
ghost use Rattle.package_text.specs.Tree.{own_trees};
ghost use Rattle.package_text.specs.Pieces.{type_by, maybe_by};

use std::alloc::{AllocError, Global};
use tables::{Definition, Primitive, Resolve, TypeDef, TypeDefKind, TypeId, ValType};
use wit_tokens::wit_syntax::{InnerType, ResultType, TypeExpression};

fn keyword(primitive: Primitive) -> wit_tokens::wit_syntax::Primitive
    ensures { result ≡ keyword_for primitive }
{
    match primitive {
        Primitive::Bool => wit_tokens::wit_syntax::Primitive::Bool,
        Primitive::S8 => wit_tokens::wit_syntax::Primitive::S8,
        Primitive::U8 => wit_tokens::wit_syntax::Primitive::U8,
        Primitive::S16 => wit_tokens::wit_syntax::Primitive::S16,
        Primitive::U16 => wit_tokens::wit_syntax::Primitive::U16,
        Primitive::S32 => wit_tokens::wit_syntax::Primitive::S32,
        Primitive::U32 => wit_tokens::wit_syntax::Primitive::U32,
        Primitive::S64 => wit_tokens::wit_syntax::Primitive::S64,
        Primitive::U64 => wit_tokens::wit_syntax::Primitive::U64,
        Primitive::Char => wit_tokens::wit_syntax::Primitive::Char,
    }
}

/// The type at a place of the table.
fn type_at(resolve: &Resolve, id: TypeId) -> &TypeDef
    requires { IsTrue (is_type_id resolve.now.definitions id) }
    ensures { slice_get resolve.now.definitions id.0 ≡ Some (Definition.Type result.now) }
{
    match &resolve.definitions.as_slice()[id.0 as usize] {
        Definition::Type(definition) => definition,
        Definition::Function(_) => unreachable!(),
    }
}

/// The expression of a type that the row at this place names: a named row goes by its name.
#[cycle(expression)]
pub(crate) fn expression(
    alloc: Global,
    resolve: &Resolve,
    _place: usize,
    ty: ValType,
) -> Result<TypeExpression, AllocError>
    requires form { IsInPackageForm resolve.now }
    requires earlier { IsTrue (is_type_before resolve.now.definitions _place ty) }
    ensures { IfOk result (λ t. ty_view t ≡ type_by (own_trees resolve.now) ty) }
{
    match ty {
        ValType::Primitive(primitive) => Ok(TypeExpression::Primitive(keyword(primitive))),
        ValType::String => Ok(TypeExpression::Primitive(wit_tokens::wit_syntax::Primitive::String)),
        ValType::Id(id) => reference(alloc, resolve, id),
    }
}

/// The expression that stands for a row: its name, or that of the type without a name.
#[cycle(expression)]
fn reference(alloc: Global, resolve: &Resolve, id: TypeId) -> Result<TypeExpression, AllocError>
    requires form { IsInPackageForm resolve.now }
    requires placed { IsTrue (is_type_id resolve.now.definitions id) }
    ensures { IfOk result (λ t. ty_view t ≡ ty_of (slice_index_or (own_trees resolve.now) id.0 TextTree)) }
{
    let definition = type_at(resolve, id);
    match &definition.name {
        Some(name) => Ok(TypeExpression::Named(name.name.copy(alloc)?)),
        None => inner(alloc, resolve, id.0 as usize, &definition.kind),
    }
}

/// The expression of a list, an option, a result or a tuple at this place.
#[cycle(expression)]
pub(crate) fn inner(
    alloc: Global,
    resolve: &Resolve,
    place: usize,
    kind: &TypeDefKind,
) -> Result<TypeExpression, AllocError>
    requires form { IsInPackageForm resolve.now }
    requires inner { IsTrue (is_inner kind.now) }
    requires earlier { IsTrue (kind_all (is_type_before resolve.now.definitions place) kind.now) }
    ensures { IfOk result (λ t. ty_view t ≡ ty_of (read_kind (own_trees resolve.now) kind.now)) }
{
    match kind {
        TypeDefKind::List(element) => {
            let element = expression(alloc, resolve, place, *element)?;
            Ok(TypeExpression::List(InnerType::of(alloc, element)?))
        }
        TypeDefKind::Option(payload) => {
            let payload = expression(alloc, resolve, place, *payload)?;
            Ok(TypeExpression::Option(InnerType::of(alloc, payload)?))
        }
        TypeDefKind::Tuple(members) => {
            let members = expressions(alloc, resolve, place, members.as_slice())?;
            Ok(TypeExpression::Tuple(members))
        }
        TypeDefKind::Result(ok, error) => {
            let ok = maybe_expression(alloc, resolve, place, *ok)?;
            let error = maybe_expression(alloc, resolve, place, *error)?;
            Ok(TypeExpression::Result { ok, error })
        }
        _ => unreachable!(),
    }
}

#[cycle(expression)]
fn maybe_expression(
    alloc: Global,
    resolve: &Resolve,
    place: usize,
    ty: Option<ValType>,
) -> Result<ResultType, AllocError>
    requires form { IsInPackageForm resolve.now }
    requires earlier { IsTrue (option_all (is_type_before resolve.now.definitions place) ty) }
    ensures { IfOk result (λ t. maybe_view t ≡ maybe_by (own_trees resolve.now) ty) }
{
    match ty {
        None => Ok(ResultType::Absent),
        Some(ty) => {
            let ty = expression(alloc, resolve, place, ty)?;
            ResultType::of(alloc, ty)
        }
    }
}

#[cycle(expression)]
fn expressions(
    alloc: Global,
    resolve: &Resolve,
    place: usize,
    types: &[ValType],
) -> Result<Vec<TypeExpression>, AllocError>
    requires form { IsInPackageForm resolve.now }
    requires earlier { IsTrue (list_all (is_type_before resolve.now.definitions place) types.now) }
    ensures { IfOk result (λ ts. map ty_view ts.items ≡ map (type_by (own_trees resolve.now)) types.now) }
{
    let mut expressions = Vec::new(alloc);
    for ty in types {
        expressions.push(expression(alloc, resolve, place, *ty)?)?;
    }
    Ok(expressions)
}
