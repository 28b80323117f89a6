//! The types that an interface's names stand for while its table is made.
ghost use Rattle.std.specs.Prelude.{◌≡◌, ◌↔◌, ◌++◌, ◌∷◌, [], map, Contains, OnOk, IfOk, IsTrue};
ghost use Rattle.std.specs.Prelude.{IfSome, IfNone};
ghost use Rattle.std.specs.Map.{lookup};
ghost use Rattle.std.specs.Str.{bytes_eq};
ghost use Rattle.package_form.specs.Scoped.{mapped_entry};
ghost use Rattle.tree_scopes.specs.Lent.{lent_name};

use crate::declared::Declarations;
use crate::names::{PlacesByName, place_in};
use atoms::{KeyedState, Label};
use indexmap::IndexMap;
use package_names::FEW;
use std::alloc::{AllocError, Global};
use std::marker::Model;
use tables::{InterfaceId, TypeId};

/// Types by their names, in the order in which they were defined. A few are compared one by one. Of more, a table or
/// the declarations of their interface tell where the entry of a name should stand: it is tested, and else all are
/// compared.
#[derive(Drop)]
pub struct TypeIds<'a> {
    entries: Vec<(&'a str, TypeId)>,
    /// A table of the places of more than a few, unless an interface of the tree declares them.
    places: Vec<PlacesByName<'a>>,
    /// What the interface of more than a few declares. Its used names stand first, in their order.
    declared: Option<&'a Declarations<'a>>,
    /// For each type of it how many entries there are up to its own, 0 where it has none.
    behind: Vec<usize>,
}

impl<'a> Model for TypeIds<'a> {
    ghost use Rattle.std.specs.Prelude.{List, map};
    ghost use Rattle.package_form.specs.Scoped.{NameEntry, mapped_entry};
    ghost use Rattle.tree_scopes.specs.Lent.{lent_name};

    ghost Value = { List NameEntry };

    ghost view = { λ t. map (mapped_entry lent_name) t.entries.items };
}

/// The type of a name among these.
fn id_among(entries: &[(&str, TypeId)], name: &Label) -> Option<TypeId>
    ensures { result ≡ lookup (λ s. bytes_eq name.now s.now) entries.now }
{
    for (other, id) in entries {
        if name.as_bytes() == other.as_bytes() {
            return Some(*id);
        }
    }
    None
}

/// The type of a name, if it is that of the entry at this place.
fn id_at(entries: &[(&str, TypeId)], place: usize, name: &Label) -> Option<TypeId>
    ensures { IfSome result (λ id. Contains (map (mapped_entry lent_name) entries.now)
        (record { name = name.now; id = id })) }
{
    let entry = entries.get(place)?;
    if name.as_bytes() == entry.0.as_bytes() {
        Some(entry.1)
    } else {
        None
    }
}

/// Puts the place of a name into the table, if there is one.
fn put_in_table<'a>(
    places: &mut Vec<PlacesByName<'a>>,
    name: &'a str,
    place: usize,
) -> Result<(), AllocError> {
    if let Some(places) = places.first_mut() {
        places.insert(name, place)?;
    }
    Ok(())
}

impl<'a> TypeIds<'a> {
    /// No types.
    pub fn new(alloc: Global) -> Self
        ensures { result ≡ [] }
    {
        TypeIds {
            entries: Vec::new(alloc),
            places: Vec::new(alloc),
            declared: None,
            behind: Vec::new(alloc),
        }
    }

    /// No types, with room for so many; their names are told apart by hashers with this key.
    pub fn with_room(alloc: Global, keyed: KeyedState, room: usize) -> Result<Self, AllocError>
        ensures { IfOk result (λ t. t ≡ []) }
    {
        let mut ids = TypeIds::new(alloc);
        ids.entries.reserve_exact(room)?;
        if room > FEW {
            let places = IndexMap::with_capacity_and_hasher(alloc, room, keyed)?;
            ids.places.push(places)?;
        }
        Ok(ids)
    }

    /// No types, with room for those that an interface of the tree declares. Its used names are to be pushed first, in
    /// their order; for each of its types that is pushed, `note_declared` tells which it is.
    pub fn of_declared(alloc: Global, declared: &'a Declarations<'a>) -> Result<Self, AllocError>
        ensures { IfOk result (λ t. t ≡ []) }
    {
        let mut ids = TypeIds::new(alloc);
        let room = declared.uses.len().saturating_add(declared.types.len());
        ids.entries.reserve_exact(room)?;
        if room > FEW {
            ids.declared = Some(declared);
            ids.behind.resize(declared.types.len(), 0)?;
        }
        Ok(ids)
    }

    /// Puts a type at the end, under a name.
    pub fn push(&mut self, name: &'a Label, id: TypeId) -> Result<(), AllocError>
        ensures { OnOk result (self.new ≡ self.old ++ record { name = name.now; id = id } ∷ []) }
    {
        let name = name.as_str();
        put_in_table(&mut self.places, name, self.entries.len())?;
        self.entries.push((name, id))?;
        Ok(())
    }

    /// Notes that the type at the end is the one at this place among those that the interface declares.
    pub fn note_declared(&mut self, place: usize)
        ensures { self.new ≡ self.old }
    {
        if let Some(behind) = self.behind.get_mut(place) {
            *behind = self.entries.len();
        }
    }

    /// The place at which the entry of a name should stand.
    fn expected_place(&self, name: &Label) -> Option<usize> {
        if let Some(declared) = self.declared {
            return match declared.type_place(name) {
                Some(place) => self.behind.get(place)?.checked_sub(1),
                None => declared.local_place(name),
            };
        }
        place_in(self.places.first()?, name)
    }

    /// The type of a name, if its entry stands where it should.
    fn expected_id(&self, name: &Label) -> Option<TypeId>
        ensures { IfSome result (λ id. Contains self.now (record { name = name.now; id = id })) }
    {
        id_at(&self.entries, self.expected_place(name)?, name)
    }

    fn find(&self, name: &Label) -> Option<TypeId>
        ensures none { IfNone result (¬ Contains (map (λ e. e.name) self.now) name.now) }
        ensures some { IfSome result (λ id. Contains self.now (record { name = name.now; id = id })) }
    {
        match self.expected_id(name) {
            Some(id) => Some(id),
            None => id_among(&self.entries, name),
        }
    }

    /// Whether a name stands for a type.
    pub fn has(&self, name: &Label) -> bool
        ensures { IsTrue result ↔ Contains (map (λ e. e.name) self.now) name.now }
    {
        match self.find(name) {
            Some(_) => true,
            None => false,
        }
    }

    /// The type that a name stands for.
    pub fn get(&self, name: &Label) -> TypeId
        requires { Contains (map (λ e. e.name) self.now) name.now }
        ensures { Contains self.now (record { name = name.now; id = result }) }
    {
        match self.find(name) {
            Some(id) => id,
            None => unreachable!(),
        }
    }
}

/// The types by their names in one interface.
#[derive(Drop)]
pub struct KnownTypes<'a> {
    pub interface: InterfaceId,
    pub entries: TypeIds<'a>,
}
