//! The interfaces of a tree in their order.
ghost use Rattle.std.specs.Prelude.{◌≡◌, ◌<◌, length, map, All, IfOk, OnOk};
ghost use Rattle.tree_meaning.specs.Building.{DefinesPackage, start_table};
ghost use Rattle.tree_meaning.specs.Resolves.{names_in_order};
ghost use Rattle.tree_scopes.specs.KnownScopes.{AreImportScopes};
ghost use Rattle.tree_scopes.specs.Sources.{declared_tree};
ghost use Rattle.tree_rows.specs.Planning.{IsPlan, planned_trees};

use crate::builder::Builder;
use crate::define::define_interface;
use crate::plan::{Own, Plan};
use atoms::{KeyedState, Label};
use std::alloc::{AllocError, Global};
use tree_scopes::{Declarations, KnownTypes, Names, interface_id, place_behind};

/// The names of interfaces in this order.
pub fn ordered_names(
    alloc: Global,
    all: &[Declarations],
    order: &[usize],
) -> Result<Vec<Label>, AllocError>
    requires { All (λ k. k < length all.now) order.now }
    ensures { IfOk result (λ ns. ns.items ≡ names_in_order (map declared_tree all.now) order.now) }
{
    let mut names = Vec::with_capacity(alloc, order.len())?;
    for place in order {
        names.push(all[*place].name.copy(alloc)?)?;
    }
    Ok(names)
}

/// The same names, each found at its place.
pub fn ordered_index<'a>(
    alloc: Global,
    keyed: KeyedState,
    all: &[Declarations<'a>],
    order: &[usize],
) -> Result<Names<'a>, AllocError>
    requires { All (λ k. k < length all.now) order.now }
    ensures { IfOk result (λ ns. ns ≡ names_in_order (map declared_tree all.now) order.now) }
{
    let mut names = Vec::with_capacity(alloc, order.len())?;
    for place in order {
        names.push(all[*place].name)?;
    }
    Names::of(alloc, keyed, names)
}

/// Defines all interfaces in package order, the types of each in their order, behind the imports, whose scopes these
/// are.
pub fn define_package<'a>(
    alloc: Global,
    plan: &Plan<'a>,
    builder: &mut Builder,
    mut scopes: Vec<KnownTypes<'a>>,
) -> Result<(), AllocError>
    requires plan { IsPlan plan.now }
    requires starts { builder.old ≡ start_table plan.now.imports.now plan.now.names.now }
    requires scopes { AreImportScopes plan.now.imports.now scopes.items }
    ensures { OnOk result (DefinesPackage (start_table plan.now.imports.now plan.now.names.now) (planned_trees plan.now)
        plan.now.order.now plan.now.types.now builder.new) }
{
    scopes.reserve_exact(plan.order.len())?;
    for (place, index) in plan.order.iter().enumerate() {
        let id = interface_id(place_behind(plan.imports, place)?)?;
        let types = plan.types[*index].as_slice();
        let own = Own {
            id,
            declared: &plan.all[*index],
            types,
        };
        let scope = define_interface(alloc, plan, builder, &scopes, &own)?;
        scopes.push(scope)?;
    }
    Ok(())
}
