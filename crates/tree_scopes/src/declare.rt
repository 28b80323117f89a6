//! The declarations of an interface of a syntax tree.
ghost use Rattle.std.specs.Prelude.{◌≡◌, ◌↔◌, ◌++◌, map, All, Contains, IsTrue, OnOk, IfOk};
ghost use Rattle.atoms.specs.Label.{IsLabel};
ghost use Rattle.wit_tokens.specs.View.{entry_view, path_view, used_view};
ghost use Rattle.tree_meaning.specs.Declarations.{interface_tree, interface_tree_name, names_of_trees, path_uses};
ghost use Rattle.tree_meaning.specs.Declarations.{local_name, use_local, type_name, type_names, used_names, own_types};
ghost use Rattle.tree_meaning.specs.Knowing.{TellsPlaces};
ghost use Rattle.tree_meaning.specs.Resolves.{place_of};
ghost use Rattle.tree_scopes.specs.Lent.{declared_type, used_item_of, lent_names};
ghost use Rattle.tree_scopes.specs.Sources.{declared_tree};

use crate::declared::{Declarations, UsedType};
use crate::names::{Names, PlacesByName, place_in, places_of};
use atoms::{KeyedState, Label};
use package_names::FEW;
use std::alloc::{AllocError, Global};
use wit_tokens::wit_syntax::{Interface, InterfaceItem, Path, TypeDef, Use, UsedName};

/// The name that a used type gets.
pub fn local_name(used: &UsedName) -> &Label
    ensures { result.now ≡ local_name (used_view used.now) }
{
    match &used.local {
        Some(local) => local,
        None => &used.name,
    }
}

/// Appends names that are used of an interface.
fn push_used<'a>(
    uses: &mut Vec<UsedType<'a>>,
    path: &'a Path,
    names: &'a [UsedName],
) -> Result<(), AllocError>
    ensures { OnOk result (map used_item_of uses.new.items ≡ map used_item_of uses.old.items
        ++ path_uses (path_view path.now) (map used_view names.now)) }
{
    for used in names {
        uses.push(UsedType {
            path,
            name: &used.name,
            local: local_name(used),
        })?;
    }
    Ok(())
}

/// Appends the names of a use.
fn push_use<'a>(uses: &mut Vec<UsedType<'a>>, used: &'a Use) -> Result<(), AllocError>
    ensures { OnOk result (map used_item_of uses.new.items ≡ map used_item_of uses.old.items
        ++ path_uses (path_view used.now.interface) (map used_view used.now.names.items)) }
{
    push_used(uses, &used.interface, &used.names)
}

fn push_locals<'a>(names: &mut Vec<&'a Label>, uses: &[UsedType<'a>]) -> Result<(), AllocError>
    ensures { OnOk result (lent_names names.new.items ≡ lent_names names.old.items
        ++ map use_local (map used_item_of uses.now)) }
{
    for used in uses {
        names.push(used.local)?;
    }
    Ok(())
}

/// Appends the names of types.
fn push_types<'a>(names: &mut Vec<&'a Label>, types: &[&'a TypeDef]) -> Result<(), AllocError>
    ensures { OnOk result (lent_names names.new.items ≡ lent_names names.old.items
        ++ map type_name (map declared_type types.now)) }
{
    for definition in types {
        names.push(&definition.name)?;
    }
    Ok(())
}

/// The table of more than a few names that used names get.
fn places_of_locals<'a>(
    alloc: Global,
    keyed: KeyedState,
    uses: &[UsedType<'a>],
) -> Result<Vec<PlacesByName<'a>>, AllocError>
    ensures { IfOk result (λ ps. All (λ p. TellsPlaces (λ s. s.now) p.entries
        (map use_local (map used_item_of uses.now))) ps.items) }
{
    if uses.len() <= FEW {
        return Ok(Vec::new(alloc));
    }
    let mut names = Vec::with_capacity(alloc, uses.len())?;
    push_locals(&mut names, uses)?;
    places_of(alloc, keyed, &names)
}

/// The table of more than a few names of types.
fn places_of_types<'a>(
    alloc: Global,
    keyed: KeyedState,
    types: &[&'a TypeDef],
) -> Result<Vec<PlacesByName<'a>>, AllocError>
    ensures { IfOk result (λ ps. All (λ p. TellsPlaces (λ s. s.now) p.entries
        (map type_name (map declared_type types.now))) ps.items) }
{
    if types.len() <= FEW {
        return Ok(Vec::new(alloc));
    }
    let mut names = Vec::with_capacity(alloc, types.len())?;
    push_types(&mut names, types)?;
    places_of(alloc, keyed, &names)
}

/// The place of the first of these used names that gets this name.
fn place_among_locals(uses: &[UsedType], name: &Label) -> Option<usize>
    ensures { result ≡ place_of (map (λ u. u.local.now) uses.now) name.now }
{
    for (place, used) in uses.iter().enumerate() {
        if used.local.as_bytes() == name.as_bytes() {
            return Some(place);
        }
    }
    None
}

/// The place of the first of these types that has this name.
fn place_among_types(types: &[&TypeDef], name: &Label) -> Option<usize>
    ensures { result ≡ place_of (map (λ t. t.now.name) types.now) name.now }
{
    for (place, definition) in types.iter().enumerate() {
        if definition.name.as_bytes() == name.as_bytes() {
            return Some(place);
        }
    }
    None
}

/// Appends the names of interfaces.
fn push_names<'a>(names: &mut Vec<&'a Label>, all: &[Declarations<'a>]) -> Result<(), AllocError>
    ensures { OnOk result (lent_names names.new.items ≡ lent_names names.old.items
        ++ map interface_tree_name (map declared_tree all.now)) }
{
    for declared in all {
        names.push(declared.name)?;
    }
    Ok(())
}

/// How many used names, types and functions stand among items.
#[derive(Clone, Copy)]
struct Counts {
    uses: usize,
    types: usize,
    functions: usize,
}

impl Counts {
    fn of(items: &[InterfaceItem]) -> Counts {
        let mut uses: usize = 0;
        let mut types: usize = 0;
        let mut functions: usize = 0;
        for item in items {
            match item {
                InterfaceItem::Use(used) => uses = uses.saturating_add(used.names.len()),
                InterfaceItem::TypeDef(_) => types = types.saturating_add(1),
                InterfaceItem::Func(_) => functions = functions.saturating_add(1),
            }
        }
        Counts {
            uses,
            types,
            functions,
        }
    }
}

/// The names of the interfaces.
pub fn interface_names<'a>(
    alloc: Global,
    keyed: KeyedState,
    all: &[Declarations<'a>],
) -> Result<Names<'a>, AllocError>
    ensures names { IfOk result (λ ns. ns ≡ names_of_trees (map declared_tree all.now)) }
    ensures labels { IfOk result (λ ns. All IsLabel ns) }
{
    let mut names = Vec::with_capacity(alloc, all.len())?;
    push_names(&mut names, all)?;
    Names::of(alloc, keyed, names)
}

impl<'a> Declarations<'a> {
    /// What an interface declares.
    pub fn of(
        alloc: Global,
        keyed: KeyedState,
        interface: &'a Interface,
    ) -> Result<Declarations<'a>, AllocError>
        ensures { IfOk result (λ d. declared_tree d
            ≡ interface_tree interface.now.name (map entry_view interface.now.items.items)) }
    {
        let counts = Counts::of(&interface.items);
        let mut uses = Vec::with_capacity(alloc, counts.uses)?;
        let mut types = Vec::with_capacity(alloc, counts.types)?;
        let mut functions = Vec::with_capacity(alloc, counts.functions)?;
        for item in &interface.items {
            match item {
                InterfaceItem::Use(used) => push_use(&mut uses, used)?,
                InterfaceItem::TypeDef(definition) => types.push(definition)?,
                InterfaceItem::Func(function) => functions.push(function)?,
            }
        }
        let locals = places_of_locals(alloc, keyed, &uses)?;
        let own = places_of_types(alloc, keyed, &types)?;
        Ok(Declarations {
            name: &interface.name,
            uses,
            types,
            functions,
            locals,
            own,
        })
    }

    /// The place of the first of the interface's own types that has this name.
    pub fn type_place(&self, name: &Label) -> Option<usize>
        ensures { result ≡ place_of (own_types (declared_tree self.now)) name.now }
    {
        match self.own.as_slice() {
            [places, ..] => place_in(places, name),
            [] => place_among_types(&self.types, name),
        }
    }

    /// The place of the first used name that gets this name.
    pub(crate) fn local_place(&self, name: &Label) -> Option<usize>
        ensures { result ≡ place_of (used_names (declared_tree self.now)) name.now }
    {
        match self.locals.as_slice() {
            [places, ..] => place_in(places, name),
            [] => place_among_locals(&self.uses, name),
        }
    }

    /// Whether the interface has a type of this name, its own or a used one.
    pub fn has(&self, name: &Label) -> bool
        ensures { IsTrue result ↔ Contains (type_names (declared_tree self.now)) name.now }
    {
        if self.type_place(name).is_some() {
            return true;
        }
        self.local_place(name).is_some()
    }
}
