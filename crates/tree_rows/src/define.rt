//! The definitions of an interface as rows of the table.
ghost use Rattle.std.specs.Prelude.{◌≡◌, ◌++◌, ◌∷◌, [], map, All, IfOk, OnOk};
ghost use Rattle.tree_meaning.specs.Declarations.{named_definition, names_in_function};
ghost use Rattle.tree_meaning.specs.Resolved.{use_meaning, type_meaning, meaning_of_function, in_order};
ghost use Rattle.tables.specs.Package.{Reference};
ghost use Rattle.placement.specs.Order.{IsPlacement};
ghost use Rattle.tree_meaning.specs.Imports.{interfaces_of};
ghost use Rattle.tree_meaning.specs.Resolves.{type_uses};
ghost use Rattle.tree_scopes.specs.Lent.{used_item_of, type_item, declared_type};
ghost use Rattle.tree_scopes.specs.Sources.{declared_tree, used_key, function_in_tree, declared_function};
ghost use Rattle.tree_meaning.specs.Building.{AddsDefinitions, TreeStands, NamesEarlier, TypesKnown, FunctionsKnown};
ghost use Rattle.tree_meaning.specs.Building.{label_at};
ghost use Rattle.tree_rows.specs.Defining.{Grows, CanUse, DefinesInterface, DefinesNamed};
ghost use Rattle.tree_scopes.specs.KnownScopes.{IsScope, ArePlaced, KnowsNames, scope_name, scope_names};
ghost use Rattle.tables.specs.declared.tables.ValType.TheVariants.{Id};

use crate::bodies::{lower_definition, lower_parameters};
use crate::builder::Builder;
use crate::lower::lower_optional;
use crate::plan::{Own, Plan};
use atoms::Label;
use std::alloc::{AllocError, Global};
use tables::{Definition, Function, Owner, TypeDef, TypeDefKind, TypeId, TypeName};
use tree_scopes::{KnownTypes, TypeIds, UsedType, interface_place};
use wit_tokens::wit_syntax::Func;

/// Puts a type under a name at the end of the table; the scope then knows it.
fn define_named<'a>(
    alloc: Global,
    builder: &mut Builder,
    scope: &mut KnownTypes<'a>,
    name: &'a Label,
    kind: TypeDefKind,
) -> Result<(), AllocError>
    ensures { OnOk result (DefinesNamed builder.old scope.old builder.new scope.new name.now kind) }
{
    let id = builder.define(Definition::Type(TypeDef {
        name: Some(TypeName {
            interface: scope.interface,
            name: name.copy(alloc)?,
        }),
        kind,
    }))?;
    scope.entries.push(name, id)?;
    Ok(())
}

fn define_type<'a>(
    alloc: Global,
    builder: &mut Builder,
    scope: &mut KnownTypes<'a>,
    item: &'a wit_tokens::wit_syntax::TypeDef,
) -> Result<(), AllocError>
    requires known { KnowsNames scope.old (named_definition (type_item item.now).definition) }
    requires scoped { IsScope builder.old scope.old }
    ensures { OnOk result (Grows builder.old scope.old builder.new scope.new
        (type_meaning (scope_name builder.old scope.old) (type_item item.now) ∷ [])) }
{
    let kind = lower_definition(alloc, builder, scope, &item.kind)?;
    define_named(alloc, builder, scope, &item.name, kind)
}

/// Defines a used name: another name of that type of the used interface.
fn define_use<'a>(
    alloc: Global,
    builder: &mut Builder,
    scope: &mut KnownTypes<'a>,
    used: &UsedType<'a>,
    target: TypeId,
) -> Result<(), AllocError>
    requires target { TreeStands builder.old (Id target) (Reference (used_key (used_item_of used.now))) }
    requires scoped { IsScope builder.old scope.old }
    ensures { OnOk result (Grows builder.old scope.old builder.new scope.new
        (use_meaning (scope_name builder.old scope.old) (used_item_of used.now) ∷ [])) }
{
    define_named(alloc, builder, scope, used.local, TypeDefKind::Use(target))
}

fn define_function(
    alloc: Global,
    builder: &mut Builder,
    scope: &KnownTypes,
    item: &Func,
) -> Result<(), AllocError>
    requires known { KnowsNames scope.now (names_in_function (function_in_tree item.now).function) }
    requires scoped { IsScope builder.old scope.now }
    ensures { OnOk result (AddsDefinitions builder.old builder.new
        (meaning_of_function (scope_name builder.old scope.now) (function_in_tree item.now) ∷ [])) }
{
    let params = lower_parameters(alloc, builder, scope, &item.ty.params)?;
    let result = lower_optional(alloc, builder, scope, &item.ty.result)?;
    builder.define(Definition::Function(Function {
        owner: Owner::Interface(scope.interface),
        name: item.name.copy(alloc)?,
        params,
        result,
    }))?;
    Ok(())
}

/// Defines an interface's types in this order.
fn define_types<'a>(
    alloc: Global,
    builder: &mut Builder,
    scope: &mut KnownTypes<'a>,
    types: &[&'a wit_tokens::wit_syntax::TypeDef],
    order: &[usize],
) -> Result<(), AllocError>
    requires earlier { NamesEarlier (scope_names scope.old) (map declared_type types.now) order.now }
    requires scoped { IsScope builder.old scope.old }
    ensures { OnOk result (Grows builder.old scope.old builder.new scope.new
        (in_order (scope_name builder.old scope.old) (map declared_type types.now) order.now)) }
{
    for place in order {
        define_type(alloc, builder, scope, types[*place])?;
        scope.entries.note_declared(*place);
    }
    Ok(())
}

fn define_functions(
    alloc: Global,
    builder: &mut Builder,
    scope: &KnownTypes,
    functions: &[&Func],
) -> Result<(), AllocError>
    requires known { All (λ f. KnowsNames scope.now (names_in_function f.function))
        (map declared_function functions.now) }
    requires scoped { IsScope builder.old scope.now }
    ensures { OnOk result (AddsDefinitions builder.old builder.new
        (map (meaning_of_function (scope_name builder.old scope.now)) (map declared_function functions.now))) }
{
    for function in functions {
        define_function(alloc, builder, scope, function)?;
    }
    Ok(())
}

/// The type that a used name is in the used interface.
fn target(
    plan: &Plan<'_>,
    builder: &Builder,
    scopes: &[KnownTypes],
    used: &UsedType,
) -> Result<TypeId, AllocError>
    requires known { CanUse (interfaces_of plan.now.imports.now) plan.now.names.now builder.now scopes.now
        (used_item_of used.now) }
    requires scoped { All (IsScope builder.now) scopes.now }
    requires placed { ArePlaced scopes.now }
    ensures { IfOk result (λ id. TreeStands builder.now (Id id) (Reference (used_key (used_item_of used.now)))) }
{
    match interface_place(plan.imports, plan.names, used.path)? {
        Some(place) => Ok(scopes[place].entries.get(used.name)),
        None => unreachable!(),
    }
}

/// Defines the names that an interface uses.
fn define_uses<'a>(
    alloc: Global,
    plan: &Plan<'_>,
    builder: &mut Builder,
    scopes: &[KnownTypes],
    scope: &mut KnownTypes<'a>,
    uses: &[UsedType<'a>],
) -> Result<(), AllocError>
    requires known { All (CanUse (interfaces_of plan.now.imports.now) plan.now.names.now builder.old scopes.now)
        (map used_item_of uses.now) }
    requires others { All (IsScope builder.old) scopes.now }
    requires placed { ArePlaced scopes.now }
    requires scoped { IsScope builder.old scope.old }
    ensures { OnOk result (Grows builder.old scope.old builder.new scope.new
        (map (use_meaning (scope_name builder.old scope.old)) (map used_item_of uses.now))) }
{
    for used in uses {
        let target = target(plan, builder, scopes, used)?;
        define_use(alloc, builder, scope, used, target)?;
    }
    Ok(())
}

/// Defines all of an interface; its scope is then complete.
pub fn define_interface<'a>(
    alloc: Global,
    plan: &Plan<'_>,
    builder: &mut Builder,
    scopes: &[KnownTypes],
    own: &Own<'a>,
) -> Result<KnownTypes<'a>, AllocError>
    requires named { label_at builder.old own.now.id.0 ≡ own.now.declared.now.name.now }
    requires others { All (IsScope builder.old) scopes.now }
    requires ids { ArePlaced scopes.now }
    requires uses { All (CanUse (interfaces_of plan.now.imports.now) plan.now.names.now builder.old scopes.now)
        (declared_tree own.now.declared.now).uses }
    requires placed { IsPlacement (type_uses (declared_tree own.now.declared.now)) own.now.types.now }
    requires types { TypesKnown (declared_tree own.now.declared.now) }
    requires functions { FunctionsKnown (declared_tree own.now.declared.now) }
    ensures { IfOk result (λ scope. DefinesInterface builder.old builder.new scope own.now.id
        (declared_tree own.now.declared.now) own.now.types.now) }
{
    let declared = own.declared;
    let entries = TypeIds::of_declared(alloc, declared)?;
    let mut scope = KnownTypes {
        interface: own.id,
        entries,
    };
    define_uses(alloc, plan, builder, scopes, &mut scope, &declared.uses)?;
    define_types(alloc, builder, &mut scope, &declared.types, own.types)?;
    define_functions(alloc, builder, &scope, &declared.functions)?;
    Ok(scope)
}
