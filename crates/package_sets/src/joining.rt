//! Where what a closed table has stands in a set with its package.
ghost use Rattle.std.specs.Prelude.{◌≡◌, ◌++◌, ◌∷◌, [], ℕ, ◌<◌, ◌≤◌, List, length, take, drop, IfOk, IfErr, OnOk};
ghost use Rattle.std.specs.Prelude.{MatchOption, slice_get, ◌⊎◌};
ghost use Rattle.package_form.specs.Ends.{end_of};
ghost use Rattle.package_form.specs.Closed.{is_same_package};
ghost use Rattle.package_sets.specs.Joining.{import_count, imports, own_interfaces, has_name_of, place_in, IsFirst};
ghost use Rattle.package_sets.specs.Joining.{AreFound, end_in, row_places, import_rows, all_places};
ghost use Rattle.package_sets.specs.Attached.{has_package};
ghost use Rattle.package_sets.specs.Asking.{AsksFor, AsksForOne};
ghost use Rattle.package_names.specs.Asked.{IsIndexOfAsked};
ghost use Rattle.tables.specs.declared.tables.Interface.{Interface};
ghost use Rattle.package_sets.specs.Joined.{joined_places, AreJoined};
ghost use Rattle.tables.specs.declared.error.ResolveError.TheVariants.{NotThisShape, NoMemory};
ghost use Rattle.std.specs.List.{range_with_len};

use package_form::{end_of, is_same_version, own_package};
use package_names::{Asked, AskedNames, AskedPlaces, PackageKey};
use set_rows::moved::Placed;
use std::alloc::{AllocError, Global};
use tables::{Definition, Interface, PackageName, Resolve, ResolveError};

/// Where what a closed table has stands in a set with its package: its imports where the set has them, its own
/// behind all of the set.
#[derive(Drop)]
pub struct Joined {
    /// The place of its own package.
    pub package: u32,
    pub interfaces: Vec<u32>,
    pub worlds: Vec<u32>,
    pub rows: Vec<u32>,
    /// How many of the rows are of imports: the first.
    pub imported: usize,
}

impl Joined {
    /// The rows of a closed table that are of imports.
    pub fn import_rows<'a>(&self, closed: &'a Resolve) -> &'a [Definition]
        ensures { result.now ≡ take self.now.imported closed.now.definitions }
    {
        let rows = closed.definitions.as_slice();
        &rows[..self.imported.min(rows.len())]
    }

    /// Its own rows, behind those.
    pub fn own_rows<'a>(&self, closed: &'a Resolve) -> &'a [Definition]
        ensures { result.now ≡ drop self.now.imported closed.now.definitions }
    {
        let rows = closed.definitions.as_slice();
        &rows[self.imported.min(rows.len())..]
    }
}

fn place_in(places: &[u32], old: u32) -> u32
    ensures { result ≡ place_in places.now old }
{
    match places.get(old as usize) {
        Some(place) => *place,
        None => 0,
    }
}

impl Placed for Joined {
    ghost use Rattle.package_sets.specs.Joined.{joined_places, renaming_of};

    ghost renaming = { λ j. renaming_of (joined_places j) };

    fn package(&self, _old: u32) -> u32 {
        self.package
    }

    fn interface(&self, old: u32) -> u32 {
        place_in(&self.interfaces, old)
    }

    fn world(&self, old: u32) -> u32 {
        place_in(&self.worlds, old)
    }

    fn row(&self, old: u32) -> u32 {
        place_in(&self.rows, old)
    }

    fn has_row(&self, _old: u32) -> bool {
        true
    }
}

/// Whether the names of two packages are one.
pub fn is_same_package(a: &PackageName, b: &PackageName) -> bool
    ensures { result ≡ is_same_package a.now b.now }
{
    a.namespace.as_bytes() == b.namespace.as_bytes()
        && a.name.as_bytes() == b.name.as_bytes()
        && is_same_version(&a.version, &b.version)
}

/// Whether a set has a package of this name.
pub fn has_package(set: &Resolve, name: &PackageName) -> bool
    ensures { result ≡ has_package set.now name.now }
{
    for other in set.packages.as_slice() {
        if is_same_package(name, other) {
            return true;
        }
    }
    false
}

/// How many interfaces of other packages stand before the own ones.
fn import_count(closed: &Resolve) -> usize
    ensures is { result ≡ import_count closed.now }
    ensures within { result ≤ length closed.now.interfaces }
{
    let own = own_package(closed.packages.as_slice());
    let interfaces = closed.interfaces.as_slice();
    for (place, interface) in interfaces.iter().enumerate() {
        if interface.package.0 as usize == own {
            return place;
        }
    }
    interfaces.len()
}

/// The interfaces of other packages.
pub fn imports(closed: &Resolve) -> &[Interface]
    ensures { result.now ≡ imports closed.now }
{
    &closed.interfaces.as_slice()[..import_count(closed)]
}

/// The own interfaces, behind those.
pub fn own_interfaces(closed: &Resolve) -> &[Interface]
    ensures { result.now ≡ own_interfaces closed.now }
{
    &closed.interfaces.as_slice()[import_count(closed)..]
}

/// Asks the packages of a set for an import of a closed table.
fn ask<'a>(
    asked: &mut Asked<'a>,
    set: &Resolve,
    closed: &Resolve,
    import: &'a Interface,
) -> Result<(), AllocError>
    ensures { OnOk result ((is : List Interface) → AsksFor set.now closed.now is asked.old
        → AsksFor set.now closed.now (is ++ import.now ∷ []) asked.new) }
{
    if let Some(package) = closed.packages.as_slice().get(import.package.0 as usize) {
        asked.ask(
            set.packages.as_slice(),
            PackageKey::of(package),
            &import.name,
        )?;
    }
    Ok(())
}

/// What these imports of a closed table ask of a set.
fn asked<'a>(
    alloc: Global,
    set: &Resolve,
    closed: &Resolve,
    imports: &'a [Interface],
) -> Result<AskedNames<'a>, AllocError>
    ensures { IfOk result (AsksFor set.now closed.now imports.now) }
{
    let mut asked = Asked::nothing(alloc, set.packages.len())?;
    for import in imports {
        ask(&mut asked, set, closed, import)?;
    }
    AskedNames::of(alloc, asked)
}

/// The place of the first interface of the set that has the name of this one, which was asked for.
fn found_at(
    set: &Resolve,
    places: &AskedPlaces,
    closed: &Resolve,
    import: &Interface,
) -> Option<usize>
    requires { (asked : List (List (List ℕ))) × IsIndexOfAsked set.now.packages set.now.interfaces asked places.now
        × AsksForOne set.now closed.now asked import.now }
    ensures { MatchOption result ((k : ℕ) → ¬ IsFirst (has_name_of set.now closed.now import.now) set.now.interfaces k)
        (λ k. IsFirst (has_name_of set.now closed.now import.now) set.now.interfaces k) }
{
    let package = closed.packages.as_slice().get(import.package.0 as usize)?;
    places.place(
        set.packages.as_slice(),
        PackageKey::of(package),
        &import.name,
    )
}

/// A place as an id. 46 where there is no id for it.
fn id_of(place: usize) -> Result<u32, ResolveError>
    ensures ok { IfOk result (λ id. id ≡ place) }
    ensures err { IfErr result (λ e. e ≡ NoMemory) }
    ensures large { IfErr result (λ _. u32.MAX < place) }
{
    match u32::try_from(place) {
        Ok(id) => Ok(id),
        Err(_) => Err(ResolveError::NoMemory),
    }
}

/// Where these interfaces stand in the set. 44 where one of them doesn't.
fn found(
    alloc: Global,
    set: &Resolve,
    closed: &Resolve,
    imports: &[Interface],
) -> Result<Vec<u32>, ResolveError>
    ensures ok { IfOk result (λ places. AreFound set.now closed.now imports.now places.items) }
    ensures err { IfErr result (λ e. (e ≡ NoMemory)
        ⊎ ((e ≡ NotThisShape) × ((places : List ℕ) → ¬ AreFound set.now closed.now imports.now places))) }
{
    let asked = asked(alloc, set, closed, imports)?;
    let there = AskedPlaces::of(alloc, set, &asked)?;
    let mut places = Vec::new(alloc);
    for import in imports {
        match found_at(set, &there, closed, import) {
            Some(place) => places.push(id_of(place)?)?,
            None => return Err(ResolveError::NotThisShape),
        }
    }
    Ok(places)
}

/// So many places more, one behind the other. 46 where there is no id for one.
fn push_places(places: &mut Vec<u32>, first: usize, count: usize) -> Result<(), ResolveError>
    ensures ok { OnOk result (places.new.items ≡ places.old.items ++ range_with_len first count) }
    ensures err { IfErr result (λ e. e ≡ NoMemory) }
{
    let Some(end) = first.checked_add(count) else {
        return Err(ResolveError::NoMemory);
    };
    for place in first..end {
        places.push(id_of(place)?)?;
    }
    Ok(())
}

/// The place behind the rows of an interface of the set.
fn end_in(set: &Resolve, id: u32) -> usize
    ensures { result ≡ end_in (slice_get set.now.interfaces id) }
{
    match set.interfaces.as_slice().get(id as usize) {
        Some(interface) => end_of(0, interface),
        None => 0,
    }
}

/// Where the rows of these interfaces stand in the set, if they have as many there. 46 where there is no id for one.
fn row_places(
    alloc: Global,
    set: &Resolve,
    imports: &[Interface],
    places: &[u32],
) -> Result<Vec<u32>, ResolveError>
    requires { length places.now ≡ length imports.now }
    ensures ok { IfOk result (λ rows. rows.items ≡ row_places set.now 0 imports.now places.now) }
    ensures err { IfErr result (λ e. e ≡ NoMemory) }
{
    let mut rows = Vec::new(alloc);
    let mut start = 0;
    for (place, import) in imports.iter().enumerate() {
        let end = end_of(start, import);
        let count = end.saturating_sub(start);
        let first = end_in(set, places[place]).saturating_sub(count);
        push_places(&mut rows, first, count)?;
        start = end;
    }
    Ok(rows)
}

/// The places of a list's other elements, behind so many. 46 where there is no id for one.
fn push_others(places: &mut Vec<u32>, behind: usize, count: usize) -> Result<(), ResolveError>
    ensures ok { OnOk result (places.new.items ≡ all_places places.old.items behind count) }
    ensures err { IfErr result (λ e. e ≡ NoMemory) }
{
    let others = count.saturating_sub(places.len());
    push_places(places, behind, others)
}

/// What a closed table has is placed in the set with its package.
pub fn places_of(alloc: Global, set: &Resolve, closed: &Resolve) -> Result<Joined, ResolveError>
    ensures ok { IfOk result (λ j. AreJoined set.now closed.now (joined_places j)) }
    ensures err { IfErr result (λ e. (e ≡ NoMemory)
        ⊎ ((e ≡ NotThisShape) × ((places : List ℕ) → ¬ AreFound set.now closed.now (imports closed.now) places))) }
{
    let mut interfaces = found(alloc, set, closed, imports(closed))?;
    let mut rows = row_places(alloc, set, imports(closed), &interfaces)?;
    let imported = rows.len();
    let mut worlds = Vec::new(alloc);
    push_others(
        &mut interfaces,
        set.interfaces.len(),
        closed.interfaces.len(),
    )?;
    push_others(&mut worlds, set.worlds.len(), closed.worlds.len())?;
    push_others(&mut rows, set.definitions.len(), closed.definitions.len())?;
    Ok(Joined {
        package: id_of(set.packages.len())?,
        interfaces,
        worlds,
        rows,
        imported,
    })
}
