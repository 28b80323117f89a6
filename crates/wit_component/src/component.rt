//! A package as one component type.
ghost use Rattle.std.specs.Prelude.{◌≡◌, ◌≤◌, ◌<◌, ◌+◌, ◌++◌, ◌∷◌, [], ◌-◌, map, length, IsTrue, IfOk, OnOk};
ghost use Rattle.std.specs.List.{list_all};
ghost use Rattle.atoms.specs.Label.{IsLabel};
ghost use Rattle.ctype_format.specs.View.{decl_view, decls_of};
ghost use Rattle.ctype_format.specs.Raw.{Component, Entry, Export};
ghost use Rattle.ctype_format.specs.declared.raw.RawDescription.TheVariants as described;
ghost use Rattle.tables.specs.Names.{full_name, world_name};
ghost use Rattle.wit_component.specs.Component.{ComponentFront, interface_direction, interface_declarations};
ghost use Rattle.wit_component.specs.Component.{front_after, interfaces_declared, no_front, interfaces_front};
ghost use Rattle.wit_component.specs.Component.{world_declarations, world_front, package_declarations};
ghost use Rattle.wit_component.specs.Worlds.{directed, StandFrom};
ghost use Rattle.package_form.specs.Closed.{own_package};
ghost use Rattle.package_form.specs.Ends.{interfaces_end, world_rows, is_parted};
ghost use Rattle.package_form.specs.Form.{has_full_names, IsInPackageForm};
ghost use Rattle.wit_component.specs.ToComponent.{is_labelled, are_labelled, are_worlds_labelled};

use crate::interfaces::{aliases_of, instance_decl};
use crate::names::full_name;
use crate::rows::{RowPlace, declarations_of, directed};
use crate::worlds::items_declared;
use ctype_bin::{RawDecl, RawDescription, RawType};
use package_form::{end_of, interfaces_end, own_package, world_end};
use std::alloc::{AllocError, Global};
use std::marker::Model;
use tables::{Definition, Direction, Interface, Resolve, World};

/// Where an interface or a world stands.
#[derive(Drop)]
pub struct PartPlace {
    /// The type index of each row of the table before it.
    indices: Vec<u32>,
    /// How many types the component type has before it.
    types: u32,
    /// The type index of the instance type of each interface before it.
    instances: Vec<u32>,
}

impl Model for PartPlace {
    ghost use Rattle.wit_component.specs.Component.{ComponentFront};

    ghost Value = { ComponentFront };

    ghost view = { λ p. record { indices = p.indices.items; types = p.types; instances = p.instances.items } };
}

/// Before the first declaration.
pub fn first_part(alloc: Global) -> PartPlace
    ensures { result ≡ no_front }
{
    PartPlace {
        indices: Vec::new(alloc),
        types: 0,
        instances: Vec::new(alloc),
    }
}

fn interface_direction(own: usize, interface: &Interface) -> Direction
    ensures { result ≡ interface_direction own interface.now }
{
    if interface.package.0 as usize == own {
        Direction::Export
    } else {
        Direction::Import
    }
}

/// The declaration of an interface's instance: an export where it is of the own package, else an import.
fn interface_declared(
    alloc: Global,
    resolve: &Resolve,
    interface: &Interface,
    index: u32,
) -> Result<RawDecl, AllocError>
    requires named { IsTrue (has_full_names resolve.now) }
    requires placed { interface.now.«package».0 < length resolve.now.packages }
    ensures declaration { IfOk result (λ d. decl_view d
        ≡ directed (interface_direction (own_package resolve.now.packages) interface.now)
        (full_name resolve.now interface.now) (described.Instance index)) }
    ensures label { OnOk result (IsLabel interface.now.name) }
{
    let name = full_name(alloc, resolve, interface.package, &interface.name)?;
    let way = interface_direction(own_package(resolve.packages.as_slice()), interface);
    Ok(directed(way, name, RawDescription::Instance(index)))
}

/// The declarations of an interface that has these rows, and the place behind it.
pub fn interface_declarations(
    alloc: Global,
    resolve: &Resolve,
    place: PartPlace,
    rows: &[Definition],
    interface: &Interface,
) -> Result<(Vec<RawDecl>, PartPlace), AllocError>
    requires named { IsTrue (has_full_names resolve.now) }
    requires placed { interface.now.«package».0 < length resolve.now.packages }
    requires types { place.types ≤ 131070 }
    requires rows { length rows.now ≤ 65535 }
    ensures declarations { IfOk result (λ x. map decl_view x.0.items
        ≡ interface_declarations resolve.now.definitions place rows.now
        (interface_direction (own_package resolve.now.packages) interface.now) (full_name resolve.now interface.now)) }
    ensures place { IfOk result (λ x. x.1 ≡ front_after resolve.now.definitions place rows.now) }
    ensures few { IfOk result (λ x. x.1.types ≤ place.types + length rows.now + 1) }
    ensures label { OnOk result (IsLabel interface.now.name) }
    ensures labelled { OnOk result (IsTrue (list_all is_labelled rows.now)) }
{
    let mut decls = aliases_of(alloc, resolve.definitions.as_slice(), rows)?;
    let index = place.types + decls.len() as u32;
    let first = RowPlace::first(place.indices, place.types);
    let (own, last) = declarations_of(alloc, first, rows)?;
    decls.push(instance_decl(own))?;
    decls.push(interface_declared(alloc, resolve, interface, index)?)?;
    let mut instances = place.instances;
    instances.push(index)?;
    let next = PartPlace {
        indices: last.into_indices(),
        types: index + 1,
        instances,
    };
    Ok((decls, next))
}

/// The declarations of a package's interfaces, and the place behind them.
fn interfaces_declared(
    alloc: Global,
    resolve: &Resolve,
) -> Result<(Vec<RawDecl>, PartPlace), AllocError>
    requires named { IsTrue (has_full_names resolve.now) }
    requires parted { IsTrue (is_parted (length resolve.now.definitions) 0 resolve.now.interfaces resolve.now.worlds) }
    requires rows { length resolve.now.definitions ≤ 65535 }
    requires interfaces { length resolve.now.interfaces ≤ 65535 }
    ensures declared { IfOk result (λ x. map decl_view x.0.items
        ≡ interfaces_declared resolve.now no_front 0 resolve.now.interfaces) }
    ensures place { IfOk result (λ x. x.1
        ≡ interfaces_front resolve.now.definitions no_front 0 resolve.now.interfaces) }
    ensures few { IfOk result (λ x. x.1.types ≤ 131070) }
    ensures labelled { OnOk result (IsTrue (are_labelled resolve.now.definitions 0 resolve.now.interfaces)) }
{
    let rows = resolve.definitions.as_slice();
    let mut place = first_part(alloc);
    let mut start = 0;
    let mut decls = Vec::new(alloc);
    for interface in resolve.interfaces.as_slice() {
        let end = end_of(start, interface);
        let own = &rows[start..end];
        let (mut more, next) = interface_declarations(alloc, resolve, place, own, interface)?;
        decls.append(&mut more)?;
        place = next;
        start = end;
    }
    Ok((decls, place))
}

/// The declaration of a component type.
#[tactic(auto, unfolding(ctype_format::specs::View::decl_view), using(ctype_format::proofs::ScopedTypeViews::views))]
fn component_decl(decls: Vec<RawDecl>) -> RawDecl
    ensures { decl_view result ≡ Entry (Component (decls_of (map decl_view decls.items))) }
{
    RawDecl::Type(RawType::Component(decls))
}

/// The declaration of a world's component.
#[tactic(auto, unfolding(ctype_format::specs::View::decl_view))]
fn component_export(
    alloc: Global,
    resolve: &Resolve,
    world: &World,
    index: u32,
) -> Result<RawDecl, AllocError>
    requires named { IsTrue (has_full_names resolve.now) }
    requires placed { world.now.«package».0 < length resolve.now.packages }
    ensures declaration { IfOk result (λ d. decl_view d
        ≡ Export (world_name resolve.now world.now) (described.Component index)) }
    ensures label { OnOk result (IsLabel world.now.name) }
{
    let name = full_name(alloc, resolve, world.package, &world.name)?;
    Ok(RawDecl::Export(name, RawDescription::Component(index)))
}

/// Appends the declarations of a world whose rows begin at `start`, and answers the place behind it.
pub fn push_world(
    alloc: Global,
    resolve: &Resolve,
    decls: &mut Vec<RawDecl>,
    place: PartPlace,
    start: usize,
    world: &World,
) -> Result<PartPlace, AllocError>
    requires named { IsTrue (has_full_names resolve.now) }
    requires placed { world.now.«package».0 < length resolve.now.packages }
    requires rows { length resolve.now.definitions ≤ 65535 }
    requires items { length world.now.items ≤ 131070 }
    requires types { place.types ≤ 196605 }
    requires instances { length place.instances ≡ length resolve.now.interfaces }
    requires start { start ≤ length resolve.now.definitions }
    requires stand { StandFrom (length resolve.now.interfaces) resolve.now.definitions start world.now.items }
    ensures declarations { OnOk result (map decl_view decls.new.items ≡ map decl_view decls.old.items
        ++ world_declarations resolve.now place start world.now) }
    ensures place { IfOk result (λ p. p ≡ world_front resolve.now.definitions place start world.now) }
    ensures label { OnOk result (IsLabel world.now.name) }
    ensures labelled { OnOk result (IsTrue
        (list_all is_labelled (world_rows resolve.now.definitions start world.now))) }
{
    let index = place.types;
    let first = RowPlace::first(place.indices, index);
    let items = world.items.as_slice();
    let (own, last) = items_declared(alloc, resolve, &place.instances, first, start, items)?;
    decls.push(component_decl(own))?;
    decls.push(component_export(alloc, resolve, world, index)?)?;
    Ok(PartPlace {
        indices: last.into_indices(),
        types: index + 1,
        instances: place.instances,
    })
}

/// The declarations of a package's component type.
pub fn declarations(alloc: Global, resolve: &Resolve) -> Result<Vec<RawDecl>, AllocError>
    requires { IsInPackageForm resolve.now }
    ensures declared { IfOk result (λ ds. map decl_view ds.items ≡ package_declarations resolve.now) }
    ensures labelled { OnOk result (IsTrue (are_labelled resolve.now.definitions 0 resolve.now.interfaces)) }
    ensures world_labels { OnOk result (IsTrue
        (are_worlds_labelled resolve.now.definitions (interfaces_end 0 resolve.now.interfaces) resolve.now.worlds)) }
{
    let (mut decls, mut place) = interfaces_declared(alloc, resolve)?;
    let mut start = interfaces_end(resolve.interfaces.as_slice());
    for world in resolve.worlds.as_slice() {
        place = push_world(alloc, resolve, &mut decls, place, start, world)?;
        start = world_end(start, world);
    }
    Ok(decls)
}
