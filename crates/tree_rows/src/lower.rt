//! Types of the syntax as types of the table.
ghost use Rattle.std.specs.Prelude.{◌≡◌, map, IfOk};
ghost use Rattle.wit_tokens.specs.Syntax.{tys_of};
ghost use Rattle.wit_tokens.specs.View.{ty_view, inner_view, maybe_view, optional_view};
ghost use Rattle.tree_meaning.specs.Declarations.{named, named_all, named_maybe, named_if};
ghost use Rattle.tree_meaning.specs.Resolved.{resolved, resolved_all, resolved_maybe, resolved_if, val_of_primitive};
ghost use Rattle.tree_meaning.specs.Building.{LowersInner, LowersIf, LowersAll, LowersType};
ghost use Rattle.tree_scopes.specs.KnownScopes.{IsScope, KnowsNames, scope_name};

use crate::builder::Builder;
use std::alloc::{AllocError, Global};
use tables::{Primitive, Sequence, TypeDefKind, ValType};
use tree_scopes::KnownTypes;
use wit_tokens::wit_syntax::{InnerType, ResultType, TypeExpression};

fn lower_primitive(primitive: wit_tokens::wit_syntax::Primitive) -> ValType
    ensures { result ≡ val_of_primitive primitive }
{
    match primitive {
        wit_tokens::wit_syntax::Primitive::Bool => ValType::Primitive(Primitive::Bool),
        wit_tokens::wit_syntax::Primitive::S8 => ValType::Primitive(Primitive::S8),
        wit_tokens::wit_syntax::Primitive::U8 => ValType::Primitive(Primitive::U8),
        wit_tokens::wit_syntax::Primitive::S16 => ValType::Primitive(Primitive::S16),
        wit_tokens::wit_syntax::Primitive::U16 => ValType::Primitive(Primitive::U16),
        wit_tokens::wit_syntax::Primitive::S32 => ValType::Primitive(Primitive::S32),
        wit_tokens::wit_syntax::Primitive::U32 => ValType::Primitive(Primitive::U32),
        wit_tokens::wit_syntax::Primitive::S64 => ValType::Primitive(Primitive::S64),
        wit_tokens::wit_syntax::Primitive::U64 => ValType::Primitive(Primitive::U64),
        wit_tokens::wit_syntax::Primitive::Char => ValType::Primitive(Primitive::Char),
        wit_tokens::wit_syntax::Primitive::String => ValType::String,
    }
}

/// The type that an expression stands for: a row of its own, but for a name or a primitive.
#[cycle(lower)]
#[tactic(auto, using(crate::proofs::LoweredTypesStay::lowering))]
pub fn lower_type(
    alloc: Global,
    builder: &mut Builder,
    scope: &KnownTypes,
    expression: &TypeExpression,
) -> Result<ValType, AllocError>
    requires known { KnowsNames scope.now (named (ty_view expression.now)) }
    requires scoped { IsScope builder.old scope.now }
    ensures { IfOk result (λ v. LowersType builder.old builder.new v
        (resolved (scope_name builder.old scope.now) (ty_view expression.now))) }
{
    match expression {
        TypeExpression::Primitive(primitive) => Ok(lower_primitive(*primitive)),
        TypeExpression::Named(name) => Ok(ValType::Id(scope.entries.get(name))),
        TypeExpression::List(element) => {
            let element = lower_within(alloc, builder, scope, element)?;
            builder.inner(TypeDefKind::List(element))
        }
        TypeExpression::Option(payload) => {
            let payload = lower_within(alloc, builder, scope, payload)?;
            builder.inner(TypeDefKind::Option(payload))
        }
        TypeExpression::Tuple(members) => {
            let members = lower_all(alloc, builder, scope, members)?;
            builder.inner(TypeDefKind::Tuple(members))
        }
        TypeExpression::Result { ok, error } => {
            let ok = lower_maybe(alloc, builder, scope, ok)?;
            let error = lower_maybe(alloc, builder, scope, error)?;
            builder.inner(TypeDefKind::Result(ok, error))
        }
    }
}

/// The type that an expression within another one stands for.
#[cycle(lower)]
#[tactic(auto, using(crate::proofs::LoweredTypesStay::lowering))]
fn lower_within(
    alloc: Global,
    builder: &mut Builder,
    scope: &KnownTypes,
    expression: &InnerType,
) -> Result<ValType, AllocError>
    requires known { KnowsNames scope.now (named (inner_view expression.now)) }
    requires scoped { IsScope builder.old scope.now }
    ensures { IfOk result (λ v. LowersType builder.old builder.new v
        (resolved (scope_name builder.old scope.now) (inner_view expression.now))) }
{
    match expression {
        InnerType::Plain(primitive) => Ok(lower_primitive(*primitive)),
        InnerType::Boxed(expression) => lower_type(alloc, builder, scope, expression),
    }
}

#[cycle(lower)]
fn lower_maybe(
    alloc: Global,
    builder: &mut Builder,
    scope: &KnownTypes,
    expression: &ResultType,
) -> Result<Option<ValType>, AllocError>
    requires known { KnowsNames scope.now (named_maybe (maybe_view expression.now)) }
    requires scoped { IsScope builder.old scope.now }
    ensures { IfOk result (λ v. LowersIf builder.old builder.new v
        (resolved_maybe (scope_name builder.old scope.now) (maybe_view expression.now))) }
{
    match expression {
        ResultType::Absent => Ok(None),
        ResultType::Simple(primitive) => Ok(Some(lower_primitive(*primitive))),
        ResultType::Other(expression) => {
            let ty = lower_type(alloc, builder, scope, expression)?;
            Ok(Some(ty))
        }
    }
}

#[cycle(lower)]
#[tactic(auto, using(crate::proofs::LoweredTypesStay::lowering))]
fn lower_all(
    alloc: Global,
    builder: &mut Builder,
    scope: &KnownTypes,
    expressions: &Vec<TypeExpression>,
) -> Result<Sequence<ValType>, AllocError>
    requires known { KnowsNames scope.now (named_all (tys_of (map ty_view expressions.now.items))) }
    requires scoped { IsScope builder.old scope.now }
    ensures { IfOk result (λ vs. LowersAll builder.old builder.new vs
        (resolved_all (scope_name builder.old scope.now) (tys_of (map ty_view expressions.now.items)))) }
{
    let mut types = Vec::with_capacity(alloc, expressions.len())?;
    for expression in expressions {
        let ty = lower_type(alloc, builder, scope, expression)?;
        types.push(ty)?;
    }
    Ok(Sequence::new(types))
}

/// What an expression is: types that stand inside it get rows of their own.
pub fn lower_kind(
    alloc: Global,
    builder: &mut Builder,
    scope: &KnownTypes,
    expression: &TypeExpression,
) -> Result<TypeDefKind, AllocError>
    requires known { KnowsNames scope.now (named (ty_view expression.now)) }
    requires scoped { IsScope builder.old scope.now }
    ensures { IfOk result (λ k. LowersInner builder.old builder.new k
        (resolved (scope_name builder.old scope.now) (ty_view expression.now))) }
{
    match expression {
        TypeExpression::Primitive(primitive) => Ok(TypeDefKind::Alias(lower_primitive(*primitive))),
        TypeExpression::Named(name) => Ok(TypeDefKind::Alias(ValType::Id(scope.entries.get(name)))),
        TypeExpression::List(element) => {
            let element = lower_within(alloc, builder, scope, element)?;
            Ok(TypeDefKind::List(element))
        }
        TypeExpression::Option(payload) => {
            let payload = lower_within(alloc, builder, scope, payload)?;
            Ok(TypeDefKind::Option(payload))
        }
        TypeExpression::Tuple(members) => {
            let members = lower_all(alloc, builder, scope, members)?;
            Ok(TypeDefKind::Tuple(members))
        }
        TypeExpression::Result { ok, error } => {
            let ok = lower_maybe(alloc, builder, scope, ok)?;
            let error = lower_maybe(alloc, builder, scope, error)?;
            Ok(TypeDefKind::Result(ok, error))
        }
    }
}

pub fn lower_optional(
    alloc: Global,
    builder: &mut Builder,
    scope: &KnownTypes,
    expression: &Option<TypeExpression>,
) -> Result<Option<ValType>, AllocError>
    requires known { KnowsNames scope.now (named_if (optional_view expression.now)) }
    requires scoped { IsScope builder.old scope.now }
    ensures { IfOk result (λ v. LowersIf builder.old builder.new v
        (resolved_if (scope_name builder.old scope.now) (optional_view expression.now))) }
{
    match expression {
        None => Ok(None),
        Some(expression) => Ok(Some(lower_type(alloc, builder, scope, expression)?)),
    }
}
