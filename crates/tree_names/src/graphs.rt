//! Which interfaces use each other, which types of an interface name each other, and their orders.
ghost use Rattle.std.specs.Prelude.{◌≡◌, ◌++◌, ◌<◌, ◌⊎◌, ℕ, Bool, [], length, map, filter_map, All, Contains, IfOk};
ghost use Rattle.std.specs.Prelude.{IfErr, OnOk, slice_index_or};
ghost use Rattle.tree_meaning.specs.Declarations.{InterfaceTree, interface_at, own_use, own_types};
ghost use Rattle.placement.specs.Order.{IsPlacement, IsCycle};
ghost use Rattle.tree_meaning.specs.Resolves.{places, interface_uses, type_uses};
ghost use Rattle.tree_scopes.specs.Lent.{lent_names, used_item_of};
ghost use Rattle.tree_scopes.specs.Sources.{declared_tree};

use crate::named::list_definition;
use atoms::{KeyedState, Label};
use placement::{OrderError, placement};
use std::alloc::{AllocError, Global};
use tables::{ResolveError, Sequence};
use tree_scopes::{Declarations, Names, UsedType, interface_names};
use wit_tokens::wit_syntax::Path;

/// The places of these names, without those that don't stand there.
fn places(alloc: Global, names: &Names, wanted: &[&Label]) -> Result<Sequence<usize>, AllocError>
    ensures { IfOk result (λ ps. ps ≡ places names.now (lent_names wanted.now)) }
{
    let mut found = Vec::with_capacity(alloc, wanted.len())?;
    for name in wanted {
        if let Some(place) = names.place_of(name) {
            found.push(place)?;
        }
    }
    Ok(Sequence::new(found))
}

/// The places of these names among an interface's own types, without those that don't stand there.
fn type_places(
    alloc: Global,
    declared: &Declarations,
    wanted: &[&Label],
) -> Result<Sequence<usize>, AllocError>
    ensures { IfOk result (λ ps. ps ≡ places (own_types (declared_tree declared.now)) (lent_names wanted.now)) }
{
    let mut found = Vec::with_capacity(alloc, wanted.len())?;
    for name in wanted {
        if let Some(place) = declared.type_place(name) {
            found.push(place)?;
        }
    }
    Ok(Sequence::new(found))
}

/// Appends the names of the interfaces of the own package that are used.
fn push_interfaces<'a>(names: &mut Vec<&'a Label>, uses: &[UsedType<'a>]) -> Result<(), AllocError>
    ensures { OnOk result (lent_names names.new.items ≡ lent_names names.old.items
        ++ filter_map own_use (map used_item_of uses.now)) }
{
    for used in uses {
        if let Path::Local(interface) = used.path {
            names.push(interface)?;
        }
    }
    Ok(())
}

/// Which interfaces each interface uses.
fn interface_graph(
    alloc: Global,
    keyed: KeyedState,
    all: &[Declarations],
) -> Result<Vec<Sequence<usize>>, AllocError>
    ensures { IfOk result (λ g. g.items ≡ interface_uses (map declared_tree all.now)) }
{
    let names = interface_names(alloc, keyed, all)?;
    let mut graph = Vec::with_capacity(alloc, all.len())?;
    let mut used = Vec::new(alloc);
    for declared in all {
        used.clear();
        push_interfaces(&mut used, &declared.uses)?;
        graph.push(places(alloc, &names, &used)?)?;
    }
    Ok(graph)
}

/// Which types of the interface each of its types names.
fn type_graph(alloc: Global, declared: &Declarations) -> Result<Vec<Sequence<usize>>, AllocError>
    ensures { IfOk result (λ g. g.items ≡ type_uses (declared_tree declared.now)) }
{
    let mut graph = Vec::with_capacity(alloc, declared.types.len())?;
    let mut named = Vec::new(alloc);
    for definition in &declared.types {
        list_definition(&mut named, &definition.kind)?;
        graph.push(type_places(alloc, declared, &named)?)?;
    }
    Ok(graph)
}

fn ordered(alloc: Global, graph: &[Sequence<usize>]) -> Result<Sequence<usize>, ResolveError>
    requires { All (λ used. All (λ u. u < length graph.now) used) graph.now }
    ensures ok { IfOk result (IsPlacement graph.now) }
    ensures err { IfErr result (λ e. (e ≡ ResolveError.NoMemory)
        ⊎ ((e ≡ ResolveError.Cycle) × ((group : ℕ → Bool) × IsCycle graph.now group))) }
{
    match placement(alloc, graph) {
        Ok(order) => Ok(order),
        Err(OrderError::Cycle) => Err(ResolveError::Cycle),
        Err(OrderError::NoMemory) => Err(ResolveError::NoMemory),
    }
}

/// The package order. 42 where interfaces use each other.
pub fn interface_order(
    alloc: Global,
    keyed: KeyedState,
    all: &[Declarations],
) -> Result<Sequence<usize>, ResolveError>
    ensures ok { IfOk result (IsPlacement (interface_uses (map declared_tree all.now))) }
    ensures err { IfErr result (λ e. (e ≡ ResolveError.NoMemory)
        ⊎ ((e ≡ ResolveError.Cycle) × ((group : ℕ → Bool)
        × IsCycle (interface_uses (map declared_tree all.now)) group))) }
{
    let graph = interface_graph(alloc, keyed, all)?;
    ordered(alloc, &graph)
}

/// The order of an interface's types. 42 where they name each other.
fn type_order(alloc: Global, declared: &Declarations) -> Result<Sequence<usize>, ResolveError>
    ensures ok { IfOk result (IsPlacement (type_uses (declared_tree declared.now))) }
    ensures err { IfErr result (λ e. (e ≡ ResolveError.NoMemory)
        ⊎ ((e ≡ ResolveError.Cycle) × ((group : ℕ → Bool) × IsCycle (type_uses (declared_tree declared.now)) group))) }
{
    let graph = type_graph(alloc, declared)?;
    ordered(alloc, &graph)
}

/// The order of each interface's types.
pub fn type_orders(
    alloc: Global,
    all: &[Declarations],
) -> Result<Vec<Sequence<usize>>, ResolveError>
    ensures count { IfOk result (λ os. length os.items ≡ length all.now) }
    ensures ok { IfOk result (λ os. (k : ℕ) → k < length all.now
        → IsPlacement (type_uses (interface_at (map declared_tree all.now) k)) (slice_index_or os.items k [])) }
    ensures err { IfErr result (λ e. (e ≡ ResolveError.NoMemory) ⊎ ((e ≡ ResolveError.Cycle)
        × ((i : InterfaceTree) × Contains (map declared_tree all.now) i
        × ((group : ℕ → Bool) × IsCycle (type_uses i) group)))) }
{
    let mut orders = Vec::with_capacity(alloc, all.len())?;
    for declared in all {
        orders.push(type_order(alloc, declared)?)?;
    }
    Ok(orders)
}
