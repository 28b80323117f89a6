//! Interfaces of a table that are asked for by their packages and names: they are found in one walk over the table.
ghost use Rattle.std.specs.Prelude.{◌≡◌, ◌<◌, ◌++◌, ◌∷◌, ◌&&◌, ◌||◌, [], List, ℕ, Some, length, map, replicate};
ghost use Rattle.std.specs.Prelude.{slice_get, slice_index_or, slice_set, IfOk, OnOk};
ghost use Rattle.std.specs.List.{list_any, position};
ghost use Rattle.std.specs.Str.{bytes_eq};
ghost use Rattle.tables.specs.PackageNames.{PackageParts};
ghost use Rattle.package_form.specs.Closed.{is_same_package};
ghost use Rattle.package_names.specs.Asked.{lent_labels, has_names, is_asked, IsIndexOfAsked};
ghost use Rattle.package_names.specs.Indexed.{key_parts, placed_at};

use crate::indexed::{NamePlaces, PackageKey, no_places, package_place, put_interface};
use crate::scope::FEW;
use atoms::{KeyedState, Label, NameKey};
use indexmap::IndexSet;
use std::alloc::{AllocError, Global};
use std::marker::Model;
use tables::{PackageId, PackageName, Resolve};

/// Names in order.
#[derive(Drop)]
struct NameList<'a> {
    names: Vec<&'a Label>,
}

impl<'a> Model for NameList<'a> {
    ghost use Rattle.std.specs.Prelude.{List, ℕ};
    ghost use Rattle.package_names.specs.Asked.{lent_labels};

    ghost Value = { List (List ℕ) };

    ghost view = { λ l. lent_labels l.names.items };
}

impl<'a> NameList<'a> {
    fn new(alloc: Global) -> NameList<'a>
        ensures { result ≡ [] }
    {
        NameList {
            names: Vec::new(alloc),
        }
    }

    fn push(&mut self, name: &'a Label) -> Result<(), AllocError>
        ensures { OnOk result (self.new ≡ self.old ++ name.now ∷ []) }
    {
        self.names.push(name)?;
        Ok(())
    }

    fn has_names(&self) -> bool
        ensures { result ≡ has_names self.now }
    {
        self.names.len() > 0
    }
}

/// The names of interfaces that are asked of each package of a table.
#[derive(Drop)]
pub struct Asked<'a> {
    lists: Vec<NameList<'a>>,
}

impl<'a> Model for Asked<'a> {
    ghost use Rattle.std.specs.Prelude.{List, ℕ};

    ghost Value = { List (List (List ℕ)) };

    ghost view = { λ a. a.lists.items };
}

impl<'a> Asked<'a> {
    /// Nothing is asked of so many packages.
    pub fn nothing(alloc: Global, count: usize) -> Result<Asked<'a>, AllocError>
        ensures { IfOk result (λ a. a ≡ replicate count []) }
    {
        let mut lists = Vec::new(alloc);
        for _ in 0..count {
            lists.push(NameList::new(alloc))?;
        }
        Ok(Asked { lists })
    }

    /// Asks the package at this place for an interface of this name.
    fn push(&mut self, place: usize, name: &'a Label) -> Result<(), AllocError>
        ensures { OnOk result (self.new ≡ slice_set self.old place
            (slice_index_or self.old place [] ++ name.now ∷ [])) }
    {
        if place < self.lists.len() {
            let list = &mut self.lists[place];
            list.push(name)?;
        }
        Ok(())
    }

    /// Asks the packages of this name for an interface of this name.
    pub fn ask(
        &mut self,
        packages: &[PackageName],
        key: PackageKey<'_>,
        name: &'a Label,
    ) -> Result<(), AllocError>
        ensures count { OnOk result (length self.new ≡ length self.old) }
        ensures each { OnOk result ((k : ℕ) (q : PackageParts) (n : List ℕ) → k < length self.old
            → slice_get packages.now k ≡ Some q
            → is_asked self.new k n ≡ (is_asked self.old k n ||
            (is_same_package (key_parts key.entry) q && bytes_eq n name.now))) }
    {
        for (place, package) in packages.iter().enumerate() {
            if key.is_of(package) {
                self.push(place, name)?;
            }
        }
        Ok(())
    }

    /// A mark for each package of which something is asked.
    pub fn packages(&self, alloc: Global) -> Result<Vec<bool>, AllocError>
        ensures { IfOk result (λ v. v.items ≡ map has_names self.now) }
    {
        let mut marks = Vec::new(alloc);
        for list in &self.lists {
            marks.push(list.has_names())?;
        }
        Ok(marks)
    }
}

/// Whether a name is one of these.
fn is_among(names: &[&Label], name: &Label) -> bool
    ensures { result ≡ list_any (bytes_eq name.now) (lent_labels names.now) }
{
    for other in names {
        if name.as_bytes() == other.as_bytes() {
            return true;
        }
    }
    false
}

/// The names as a table, whose hashers have this key.
fn table_of<'a>(
    alloc: Global,
    keyed: KeyedState,
    names: &[&'a Label],
) -> Result<IndexSet<&'a str, KeyedState>, AllocError>
    ensures { IfOk result (λ t. (n : List ℕ)
        → list_any (λ s. bytes_eq n s.now) t.keys ≡ list_any (bytes_eq n) (lent_labels names.now)) }
{
    let mut table = IndexSet::with_hasher(alloc, keyed);
    for name in names {
        table.insert(name.as_str())?;
    }
    Ok(table)
}

/// Names that are looked for. Few are compared one by one, more are found in a table.
#[derive(Drop)]
struct NameSet<'a> {
    names: Vec<&'a Label>,
    table: IndexSet<&'a str, KeyedState>,
}

impl<'a> Model for NameSet<'a> {
    ghost use Rattle.std.specs.Prelude.{◌≡◌, ◌<◌, List, ℕ, length};
    ghost use Rattle.std.specs.List.{list_any};
    ghost use Rattle.std.specs.Str.{bytes_eq};
    ghost use Rattle.package_names.specs.Asked.{lent_labels};

    ghost Value = { List (List ℕ) };

    ghost view = { λ s. lent_labels s.names.items };

    ghost invariant = { λ s. 16 < length s.names.items → (n : List ℕ)
        → list_any (λ t. bytes_eq n t.now) s.table.keys ≡ list_any (bytes_eq n) (lent_labels s.names.items) };
}

impl<'a> NameSet<'a> {
    fn of(alloc: Global, keyed: KeyedState, list: NameList<'a>) -> Result<NameSet<'a>, AllocError>
        ensures { IfOk result (λ s. s ≡ list.entry) }
    {
        let names = list.names;
        if names.len() <= FEW {
            let table = IndexSet::with_hasher(alloc, keyed);
            return Ok(NameSet { names, table });
        }
        let table = table_of(alloc, keyed, &names)?;
        Ok(NameSet { names, table })
    }

    /// Whether a name is one of these.
    fn has(&self, name: &Label) -> bool
        ensures { result ≡ list_any (bytes_eq name.now) self.now }
    {
        if self.names.len() <= FEW {
            return is_among(&self.names, name);
        }
        self.table.contains(name.as_str())
    }
}

/// Hashers of names, with a key made of the names of the lists that become tables.
fn keyed_by_lists(lists: &[NameList<'_>]) -> KeyedState {
    let mut key = NameKey::new();
    for list in lists {
        if list.names.len() > FEW {
            for name in &list.names {
                key.write(name.as_bytes());
            }
        }
    }
    key.state()
}

/// The names of interfaces that were asked of each package of a table.
#[derive(Drop)]
pub struct AskedNames<'a> {
    keyed: KeyedState,
    sets: Vec<NameSet<'a>>,
}

impl<'a> Model for AskedNames<'a> {
    ghost use Rattle.std.specs.Prelude.{List, ℕ};

    ghost Value = { List (List (List ℕ)) };

    ghost view = { λ a. a.sets.items };
}

impl<'a> AskedNames<'a> {
    /// All that was asked.
    pub fn of(alloc: Global, asked: Asked<'a>) -> Result<AskedNames<'a>, AllocError>
        ensures { IfOk result (λ a. a ≡ asked.entry) }
    {
        let keyed = keyed_by_lists(&asked.lists);
        let mut sets = Vec::new(alloc);
        for list in asked.lists {
            sets.push(NameSet::of(alloc, keyed, list)?)?;
        }
        Ok(AskedNames { keyed, sets })
    }

    /// Whether an interface of this name was asked of the package with this id.
    pub fn has(&self, package: PackageId, name: &Label) -> bool
        ensures { result ≡ is_asked self.now «package».0 name.now }
    {
        match self.sets.get(package.0 as usize) {
            Some(set) => set.has(name),
            None => false,
        }
    }
}

/// The places of the interfaces of a table that were asked for.
#[derive(Drop)]
pub struct AskedPlaces {
    names: Vec<NamePlaces>,
}

impl Model for AskedPlaces {
    ghost use Rattle.std.specs.Prelude.{List, ℕ};

    ghost Value = { List (List (List ℕ × ℕ)) };

    ghost view = { λ p. p.names.items };
}

impl AskedPlaces {
    /// The places of the interfaces of this table.
    pub fn of(
        alloc: Global,
        table: &Resolve,
        asked: &AskedNames<'_>,
    ) -> Result<AskedPlaces, AllocError>
        ensures { IfOk result (IsIndexOfAsked table.now.packages table.now.interfaces asked.now) }
    {
        let packages = table.packages.as_slice();
        let interfaces = table.interfaces.as_slice();
        let mut names = no_places(alloc, asked.keyed, packages.len())?;
        for (place, interface) in interfaces.iter().enumerate() {
            if asked.has(interface.package, &interface.name) {
                put_interface(alloc, packages, &mut names, interface, place)?;
            }
        }
        Ok(AskedPlaces { names })
    }

    /// The place of the first interface of this name that was asked for, in the first package of this name.
    pub fn place(
        &self,
        packages: &[PackageName],
        key: PackageKey<'_>,
        name: &Label,
    ) -> Option<usize>
        ensures { result ≡ placed_at self.now (position (is_same_package (key_parts key.entry)) packages.now) name.now }
    {
        let first = package_place(packages, key)?;
        self.names.get(first)?.get(name)
    }
}
