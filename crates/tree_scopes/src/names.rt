//! Names that are found by their bytes.
ghost use Rattle.std.specs.Prelude.{◌≡◌, ◌++◌, ◌∷◌, [], List, ℕ, length, All, IfOk, OnOk};
ghost use Rattle.std.specs.Map.{lookup};
ghost use Rattle.std.specs.Str.{bytes_eq};
ghost use Rattle.atoms.specs.Label.{IsLabel};
ghost use Rattle.tree_scopes.specs.Lent.{lent_names};
ghost use Rattle.tree_meaning.specs.Resolves.{place_of};
ghost use Rattle.tree_meaning.specs.Knowing.{TellsPlaces};

use atoms::{KeyedState, Label};
use indexmap::IndexMap;
use package_names::FEW;
use std::alloc::{AllocError, Global};
use std::marker::Model;

/// The first place of each name, in a table.
pub(crate) type PlacesByName<'a> = IndexMap<&'a str, usize, KeyedState>;

/// Names in order, each with its first place. More than a few are found in a table, few are compared one by one.
#[derive(Drop)]
pub struct Names<'a> {
    names: Vec<&'a Label>,
    /// A table, if they are more than a few.
    places: Vec<PlacesByName<'a>>,
}

impl<'a> Model for Names<'a> {
    ghost use Rattle.std.specs.Prelude.{All, List, ℕ};
    ghost use Rattle.tree_scopes.specs.Lent.{lent_names};
    ghost use Rattle.tree_meaning.specs.Knowing.{TellsPlaces};

    ghost Value = { List (List ℕ) };

    ghost view = { λ n. lent_names n.names.items };

    ghost invariant = { λ n. All (λ p. TellsPlaces (λ s. s.now) p.entries (lent_names n.names.items)) n.places.items };
}

/// The first place of a name among these.
fn first_place(names: &[&Label], name: &Label) -> Option<usize>
    ensures { result ≡ place_of (lent_names names.now) name.now }
{
    for (place, other) in names.iter().enumerate() {
        if other.as_bytes() == name.as_bytes() {
            return Some(place);
        }
    }
    None
}

/// Puts a name with its place into a table, where it isn't there.
fn put_place<'a>(
    places: &mut PlacesByName<'a>,
    name: &'a Label,
    place: usize,
) -> Result<(), AllocError>
    ensures { OnOk result ((ns : List (List ℕ)) → length ns ≡ place
        → TellsPlaces (λ s. s.now) places.old.entries ns
        → TellsPlaces (λ s. s.now) places.new.entries (ns ++ name.now ∷ [])) }
{
    let name = name.as_str();
    if let Some(first) = places.insert(name, place)? {
        places.insert(name, first)?;
    }
    Ok(())
}

/// The names as a table, with the first place of each.
fn table_of<'a>(
    alloc: Global,
    keyed: KeyedState,
    names: &[&'a Label],
) -> Result<PlacesByName<'a>, AllocError>
    ensures { IfOk result (λ m. TellsPlaces (λ s. s.now) m.entries (lent_names names.now)) }
{
    let mut places = IndexMap::with_capacity_and_hasher(alloc, names.len(), keyed)?;
    for (place, name) in names.iter().enumerate() {
        put_place(&mut places, name, place)?;
    }
    Ok(places)
}

/// Names are labels.
fn are_labels(names: &[&Label])
    ensures { All IsLabel (lent_names names.now) }
{
    for name in names {
        name.as_bytes();
    }
}

/// The table of more than a few names, in a list, which is small without one. A box would fix the lifetime of the names.
pub(crate) fn places_of<'a>(
    alloc: Global,
    keyed: KeyedState,
    names: &[&'a Label],
) -> Result<Vec<PlacesByName<'a>>, AllocError>
    ensures { IfOk result (λ ps. All (λ p. TellsPlaces (λ s. s.now) p.entries (lent_names names.now)) ps.items) }
{
    let mut tables = Vec::new(alloc);
    if names.len() > FEW {
        tables.push(table_of(alloc, keyed, names)?)?;
    }
    Ok(tables)
}

/// The place of a name in a table.
pub(crate) fn place_in(table: &PlacesByName<'_>, name: &Label) -> Option<usize>
    ensures { result ≡ lookup (λ s. bytes_eq name.now s.now) table.now.entries }
{
    table.get(name.as_str()).copied()
}

impl<'a> Names<'a> {
    /// The places of these names, which are told apart by hashers with this key, where they are more than a few.
    pub fn of(
        alloc: Global,
        keyed: KeyedState,
        names: Vec<&'a Label>,
    ) -> Result<Names<'a>, AllocError>
        ensures names { IfOk result (λ n. n ≡ lent_names names.entry.items) }
        ensures labels { IfOk result (λ n. All IsLabel n) }
    {
        are_labels(&names);
        let places = places_of(alloc, keyed, &names)?;
        Ok(Names { names, places })
    }

    /// The first place of a name.
    pub fn place_of(&self, name: &Label) -> Option<usize>
        ensures { result ≡ place_of self.now name.now }
    {
        match self.places.as_slice() {
            [places, ..] => place_in(places, name),
            [] => first_place(&self.names, name),
        }
    }
}
