//! The worlds of a tree: their functions as rows of the table, and their items.
ghost use Rattle.std.specs.Prelude.{◌≡◌, ◌<◌, ◌++◌, [], map, filter_map, length, All, IfOk, IfErr};
ghost use Rattle.wit_tokens.specs.View.{item_view};
ghost use Rattle.tree_meaning.specs.Declarations.{FunctionOf, world_of, names_in_function};
ghost use Rattle.tree_meaning.specs.Resolved.{direction_meaning, tree_item_meaning, meaning_of_world};
ghost use Rattle.tables.specs.Package.{interface_names as named_imports};
ghost use Rattle.tree_meaning.specs.Imports.{imports_of};
ghost use Rattle.tree_meaning.specs.Resolves.{IsKnownItemOf, IsKnownWorldOf};
ghost use Rattle.tree_scopes.specs.Sources.{function_in_tree, declared_item, declared_world};
ghost use Rattle.tree_meaning.specs.WorldRows.{DefinesItem, DefinesItems, DefinesWorld, DefinesWorlds};
ghost use Rattle.wit_tokens.specs.declared.wit_syntax.ast.Direction.{Direction as Way};
ghost use Rattle.tables.specs.declared.tables.WorldItemKind.TheVariants.{Function as FunctionAt};

use crate::bodies::lower_parameters;
use crate::builder::Builder;
use crate::closed::package_id;
use crate::lower::lower_optional;
use crate::plan::Plan;
use std::alloc::{AllocError, Global};
use tables::{
    Definition, Function, FunctionId, InterfaceId, Owner, Sequence, World, WorldId, WorldItem,
    WorldItemKind,
};
use tree_scopes::{KnownTypes, TypeIds, interface_id, interface_place, side_of};
use wit_tokens::wit_syntax::{Func, Item};

/// Defines a function of a world. It names no type, so no type is known to it.
fn define_function(
    alloc: Global,
    builder: &mut Builder,
    world: WorldId,
    function: &Func,
) -> Result<FunctionId, AllocError>
    requires known { names_in_function (function_in_tree function.now).function ≡ [] }
    ensures { IfOk result (λ id. (way : Way) → DefinesItem builder.old builder.new world.0
        (record { direction = direction_meaning way; kind = FunctionAt id })
        (tree_item_meaning (FunctionOf way (function_in_tree function.now)))) }
{
    let scope = KnownTypes {
        interface: InterfaceId(0),
        entries: TypeIds::new(alloc),
    };
    let params = lower_parameters(alloc, builder, &scope, &function.ty.params)?;
    let result = lower_optional(alloc, builder, &scope, &function.ty.result)?;
    let id = builder.define(Definition::Function(Function {
        owner: Owner::World(world),
        name: function.name.copy(alloc)?,
        params,
        result,
    }))?;
    Ok(FunctionId(id.0))
}

/// Defines an item of a world: an interface, or a function of its own.
fn define_item(
    alloc: Global,
    plan: &Plan<'_>,
    builder: &mut Builder,
    world: WorldId,
    item: &wit_tokens::wit_syntax::WorldItem,
) -> Result<WorldItem, AllocError>
    requires known { IsKnownItemOf (imports_of plan.now.imports.now) plan.now.names.now (declared_item item.now) }
    requires names { builder.old.interfaces ≡ named_imports plan.now.imports.now ++ plan.now.names.now }
    ensures { IfOk result (λ i. DefinesItem builder.old builder.new world.0 i
        (tree_item_meaning (declared_item item.now))) }
{
    let direction = side_of(item.direction);
    match &item.kind {
        wit_tokens::wit_syntax::WorldItemKind::Interface(path) => {
            match interface_place(plan.imports, plan.names, path)? {
                Some(place) => {
                    let kind = WorldItemKind::Interface(interface_id(place)?);
                    Ok(WorldItem { direction, kind })
                }
                None => unreachable!(),
            }
        }
        wit_tokens::wit_syntax::WorldItemKind::Func(function) => {
            let id = define_function(alloc, builder, world, function)?;
            let kind = WorldItemKind::Function(id);
            Ok(WorldItem { direction, kind })
        }
    }
}

fn define_items(
    alloc: Global,
    plan: &Plan<'_>,
    builder: &mut Builder,
    world: WorldId,
    items: &[wit_tokens::wit_syntax::WorldItem],
) -> Result<Vec<WorldItem>, AllocError>
    requires known { All (IsKnownItemOf (imports_of plan.now.imports.now) plan.now.names.now)
        (map declared_item items.now) }
    requires names { builder.old.interfaces ≡ named_imports plan.now.imports.now ++ plan.now.names.now }
    ensures { IfOk result (λ is. DefinesItems builder.old builder.new world.0 is.items
        (map tree_item_meaning (map declared_item items.now))) }
{
    let mut defined = Vec::with_capacity(alloc, items.len())?;
    for item in items {
        let item = define_item(alloc, plan, builder, world, item)?;
        defined.push(item)?;
    }
    Ok(defined)
}

fn define_world(
    alloc: Global,
    plan: &Plan<'_>,
    builder: &mut Builder,
    id: WorldId,
    world: &wit_tokens::wit_syntax::World,
) -> Result<World, AllocError>
    requires known { IsKnownWorldOf (imports_of plan.now.imports.now) plan.now.names.now (declared_world world.now) }
    requires names { builder.old.interfaces ≡ named_imports plan.now.imports.now ++ plan.now.names.now }
    ensures { IfOk result (λ w. DefinesWorld builder.old builder.new (length plan.now.imports.now.packages) id.0 w
        (meaning_of_world (declared_world world.now))) }
{
    let package = package_id(plan.imports)?;
    let items = define_items(alloc, plan, builder, id, &world.items)?;
    Ok(World {
        package,
        name: world.name.copy(alloc)?,
        items: Sequence::new(items),
    })
}

/// The id of the world at this place. No memory where an id can't tell it.
fn world_id(place: usize) -> Result<WorldId, AllocError>
    ensures ok { IfOk result (λ id. id.0 ≡ place) }
    ensures err { IfErr result (λ _. u32.MAX < place) }
{
    match u32::try_from(place) {
        Ok(place) => Ok(WorldId(place)),
        Err(_) => Err(AllocError),
    }
}

/// Defines these worlds of the tree, in source order, their items in source order.
pub fn define_worlds(
    alloc: Global,
    plan: &Plan<'_>,
    builder: &mut Builder,
    items: &[Item],
) -> Result<Vec<World>, AllocError>
    requires known { All (IsKnownWorldOf (imports_of plan.now.imports.now) plan.now.names.now)
        (filter_map world_of (map item_view items.now)) }
    requires names { builder.old.interfaces ≡ named_imports plan.now.imports.now ++ plan.now.names.now }
    ensures { IfOk result (λ ws. DefinesWorlds builder.old builder.new (length plan.now.imports.now.packages) ws.items
        (map meaning_of_world (filter_map world_of (map item_view items.now)))) }
{
    let mut worlds = Vec::new(alloc);
    for item in items {
        if let Item::World(world) = item {
            let id = world_id(worlds.len())?;
            let world = define_world(alloc, plan, builder, id, world)?;
            worlds.push(world)?;
        }
    }
    Ok(worlds)
}
