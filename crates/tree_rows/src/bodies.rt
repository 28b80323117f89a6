//! Definitions of the syntax as kinds of the table.
ghost use Rattle.std.specs.Prelude.{◌≡◌, map, flat_map, IfOk};
ghost use Rattle.wit_tokens.specs.View.{field_view, case_view, definition_view};
ghost use Rattle.tables.specs.Package.{IsType};
ghost use Rattle.tree_meaning.specs.Declarations.{named_member, named_case, named_definition};
ghost use Rattle.tree_meaning.specs.Resolved.{member_meaning, case_meaning, definition_meaning};
ghost use Rattle.tree_meaning.specs.Building.{LowersFields, LowersParameters, LowersCases, LowersKind};
ghost use Rattle.tree_scopes.specs.KnownScopes.{IsScope, KnowsNames, scope_name};

use crate::builder::Builder;
use crate::lower::{lower_kind, lower_optional, lower_type};
use atoms::Label;
use std::alloc::{AllocError, Global};
use tables::{Case, Field, Parameter, Sequence, TypeDefKind};
use tree_scopes::KnownTypes;

pub fn lower_fields(
    alloc: Global,
    builder: &mut Builder,
    scope: &KnownTypes,
    members: &[wit_tokens::wit_syntax::Field],
) -> Result<Sequence<Field>, AllocError>
    requires known { KnowsNames scope.now (flat_map named_member (map field_view members.now)) }
    requires scoped { IsScope builder.old scope.now }
    ensures { IfOk result (λ fs. LowersFields builder.old builder.new fs
        (map (member_meaning (scope_name builder.old scope.now)) (map field_view members.now))) }
{
    let mut fields = Vec::with_capacity(alloc, members.len())?;
    for member in members {
        let ty = lower_type(alloc, builder, scope, &member.ty)?;
        fields.push(Field {
            name: member.name.copy(alloc)?,
            ty,
        })?;
    }
    Ok(Sequence::new(fields))
}

pub fn lower_parameters(
    alloc: Global,
    builder: &mut Builder,
    scope: &KnownTypes,
    members: &[wit_tokens::wit_syntax::Field],
) -> Result<Sequence<Parameter>, AllocError>
    requires known { KnowsNames scope.now (flat_map named_member (map field_view members.now)) }
    requires scoped { IsScope builder.old scope.now }
    ensures { IfOk result (λ ps. LowersParameters builder.old builder.new ps
        (map (member_meaning (scope_name builder.old scope.now)) (map field_view members.now))) }
{
    let mut parameters = Vec::with_capacity(alloc, members.len())?;
    for member in members {
        let ty = lower_type(alloc, builder, scope, &member.ty)?;
        parameters.push(Parameter {
            name: member.name.copy(alloc)?,
            ty,
        })?;
    }
    Ok(Sequence::new(parameters))
}

fn lower_cases(
    alloc: Global,
    builder: &mut Builder,
    scope: &KnownTypes,
    items: &[wit_tokens::wit_syntax::Case],
) -> Result<Sequence<Case>, AllocError>
    requires known { KnowsNames scope.now (flat_map named_case (map case_view items.now)) }
    requires scoped { IsScope builder.old scope.now }
    ensures { IfOk result (λ cs. LowersCases builder.old builder.new cs
        (map (case_meaning (scope_name builder.old scope.now)) (map case_view items.now))) }
{
    let mut cases = Vec::with_capacity(alloc, items.len())?;
    for item in items {
        let ty = lower_optional(alloc, builder, scope, &item.payload)?;
        cases.push(Case {
            name: item.name.copy(alloc)?,
            ty,
        })?;
    }
    Ok(Sequence::new(cases))
}

fn copy_labels(alloc: Global, labels: &[Label]) -> Result<Sequence<Label>, AllocError>
    ensures { IfOk result (λ ls. ls ≡ labels.now) }
{
    let mut copies = Vec::with_capacity(alloc, labels.len())?;
    for label in labels {
        copies.push(label.copy(alloc)?)?;
    }
    Ok(Sequence::new(copies))
}

pub fn lower_definition(
    alloc: Global,
    builder: &mut Builder,
    scope: &KnownTypes,
    definition: &wit_tokens::wit_syntax::TypeDefKind,
) -> Result<TypeDefKind, AllocError>
    requires known { KnowsNames scope.now (named_definition (definition_view definition.now)) }
    requires scoped { IsScope builder.old scope.now }
    ensures { IfOk result (λ k. LowersKind builder.old builder.new k
        (IsType (definition_meaning (scope_name builder.old scope.now) (definition_view definition.now)))) }
{
    match definition {
        wit_tokens::wit_syntax::TypeDefKind::Alias(target) => lower_kind(
            alloc, builder, scope, target,
        ),
        wit_tokens::wit_syntax::TypeDefKind::Record(fields) => {
            let fields = lower_fields(alloc, builder, scope, fields)?;
            Ok(TypeDefKind::Record(fields))
        }
        wit_tokens::wit_syntax::TypeDefKind::Variant(cases) => {
            let cases = lower_cases(alloc, builder, scope, cases)?;
            Ok(TypeDefKind::Variant(cases))
        }
        wit_tokens::wit_syntax::TypeDefKind::Enum(names) => Ok(TypeDefKind::Enum(copy_labels(
            alloc, names,
        )?)),
        wit_tokens::wit_syntax::TypeDefKind::Flags(labels) => Ok(TypeDefKind::Flags(copy_labels(
            alloc, labels,
        )?)),
    }
}
