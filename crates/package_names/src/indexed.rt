//! The interfaces of a table by their packages and names.
ghost use Rattle.std.specs.Prelude.{◌≡◌, ◌<◌, List, [], ℕ, None, Some, length, replicate, IfOk, OnOk, if◌then◌else◌};
ghost use Rattle.std.specs.List.{position};
ghost use Rattle.std.specs.Map.{lookup};
ghost use Rattle.std.specs.Option.{option_or};
ghost use Rattle.std.specs.Str.{bytes_eq};
ghost use Rattle.tables.specs.PackageNames.{PackageParts};
ghost use Rattle.package_form.specs.Closed.{is_same_package};
ghost use Rattle.package_names.specs.Indexed.{key_parts, is_interface_named, interface_place, placed_at, IsIndex};

use crate::keys::keyed_by_interfaces;
use atoms::{KeyedState, Label};
use indexmap::IndexMap;
use package_form::is_same_version;
use std::alloc::{AllocError, Global};
use std::marker::Model;
use tables::{Interface, PackageName, Resolve};

/// The name of a package, lent.
#[derive(Clone, Copy)]
pub struct PackageKey<'a> {
    pub namespace: &'a [u8],
    pub name: &'a [u8],
    pub version: &'a Option<String>,
}

impl<'a> PackageKey<'a> {
    pub fn of(package: &'a PackageName) -> PackageKey<'a>
        ensures { key_parts result ≡ «package».now }
    {
        PackageKey {
            namespace: package.namespace.as_bytes(),
            name: package.name.as_bytes(),
            version: &package.version,
        }
    }

    /// Whether a package has this name.
    pub fn is_of(self, package: &PackageName) -> bool
        ensures { result ≡ is_same_package (key_parts self.entry) «package».now }
    {
        self.namespace == package.namespace.as_bytes()
            && self.name == package.name.as_bytes()
            && is_same_version(self.version, &package.version)
    }
}

/// Places by names: of each name the place that was put first.
#[derive(Drop)]
pub(crate) struct NamePlaces {
    places: IndexMap<String, usize, KeyedState>,
}

impl Model for NamePlaces {
    ghost use Rattle.std.specs.Prelude.{List, ℕ, map};
    ghost use Rattle.package_names.specs.Indexed.{place_entry};

    ghost Value = { List (List ℕ × ℕ) };

    ghost view = { λ p. map place_entry p.places.entries };
}

impl NamePlaces {
    /// No places; their names are told apart by hashers with this key.
    fn new(alloc: Global, keyed: KeyedState) -> NamePlaces
        ensures { result ≡ [] }
    {
        NamePlaces {
            places: IndexMap::with_hasher(alloc, keyed),
        }
    }

    /// Puts a place under a name, unless there is one.
    fn put(&mut self, alloc: Global, name: &Label, place: usize) -> Result<(), AllocError>
        ensures { OnOk result ((n : List ℕ)
            → lookup (bytes_eq n) self.new
            ≡ option_or (lookup (bytes_eq n) self.old) (if bytes_eq n name.now then Some place else None)) }
    {
        if !self.places.contains_key(name.as_str()) {
            self.places
                .insert(String::from_str(alloc, name.as_str())?, place)?;
        }
        Ok(())
    }

    /// The place under a name.
    pub(crate) fn get(&self, name: &Label) -> Option<usize>
        ensures { result ≡ lookup (bytes_eq name.now) self.now }
    {
        self.places.get(name.as_str()).copied()
    }
}

/// The place of the first package of this name.
pub(crate) fn package_place(packages: &[PackageName], key: PackageKey<'_>) -> Option<usize>
    ensures { result ≡ position (is_same_package (key_parts key.entry)) packages.now }
{
    packages.iter().position(|package| key.is_of(package))
}

/// No places of so many packages.
pub(crate) fn no_places(
    alloc: Global,
    keyed: KeyedState,
    count: usize,
) -> Result<Vec<NamePlaces>, AllocError>
    ensures { IfOk result (λ v. v.items ≡ replicate count []) }
{
    let mut names = Vec::new(alloc);
    for _ in 0..count {
        names.push(NamePlaces::new(alloc, keyed))?;
    }
    Ok(names)
}

/// Puts the place of an interface under its name in the first package of its package's name, unless there is one.
pub(crate) fn put_interface(
    alloc: Global,
    packages: &[PackageName],
    names: &mut Vec<NamePlaces>,
    interface: &Interface,
    place: usize,
) -> Result<(), AllocError>
    requires count { length names.old.items ≡ length packages.now }
    requires within { interface.now.«package».0 < length packages.now }
    ensures count { OnOk result (length names.new.items ≡ length packages.now) }
    ensures put { OnOk result ((q : PackageParts) (n : List ℕ)
        → placed_at names.new.items (position (is_same_package q) packages.now) n
        ≡ option_or (placed_at names.old.items (position (is_same_package q) packages.now) n)
        (if is_interface_named packages.now q n interface.now then Some place else None)) }
{
    let key = PackageKey::of(&packages[interface.package.0 as usize]);
    if let Some(first) = package_place(packages, key) {
        let places = &mut names[first];
        places.put(alloc, &interface.name, place)?;
    }
    Ok(())
}

/// The places of a table's interfaces.
fn places_of(alloc: Global, table: &Resolve) -> Result<Vec<NamePlaces>, AllocError>
    ensures { IfOk result (λ v. IsIndex table.now.packages table.now.interfaces v.items) }
{
    let packages = table.packages.as_slice();
    let interfaces = table.interfaces.as_slice();
    let mut names = no_places(alloc, keyed_by_interfaces(interfaces), packages.len())?;
    for (place, interface) in interfaces.iter().enumerate() {
        put_interface(alloc, packages, &mut names, interface, place)?;
    }
    Ok(names)
}

/// A table, whose interfaces are found by their packages and names without a walk over all of them.
#[derive(Drop)]
pub struct IndexedTable<'a> {
    table: &'a Resolve,
    /// For each package the places of its interfaces, if it is the first of its name.
    names: Vec<NamePlaces>,
}

impl<'a> Model for IndexedTable<'a> {
    ghost use Rattle.tables.specs.declared.tables.Resolve.{Resolve};
    ghost use Rattle.package_names.specs.Indexed.{IsIndex};

    ghost Value = { Resolve };

    ghost view = { λ t. t.table.now };

    ghost invariant = { λ t. IsIndex t.table.now.packages t.table.now.interfaces t.names.items };
}

impl<'a> IndexedTable<'a> {
    /// A table with the places of its interfaces, in time and memory that grow with their number.
    pub fn of(alloc: Global, table: &'a Resolve) -> Result<IndexedTable<'a>, AllocError>
        ensures { IfOk result (λ t. t ≡ table.now) }
    {
        let names = places_of(alloc, table)?;
        Ok(IndexedTable { table, names })
    }

    /// The table itself.
    pub fn table(&self) -> &'a Resolve
        ensures { result.now ≡ self.now }
    {
        self.table
    }

    /// The place of the first interface of this name in a package of this name.
    pub fn place(&self, key: PackageKey<'_>, name: &Label) -> Option<usize>
        ensures { result ≡ interface_place self.now (key_parts key.entry) name.now }
    {
        let first = package_place(self.table.packages.as_slice(), key)?;
        self.names.get(first)?.get(name)
    }
}
