//! What a package of a set reaches, and what some of its interfaces do.
ghost use Rattle.std.specs.Prelude.{◌≡◌, ◌∷◌, [], not, IfOk, OnOk, map, flat_map, slice_set, slice_index_or, true};
ghost use Rattle.std.specs.Prelude.{false, None, Some};
ghost use Rattle.set_rows.specs.Owners.{owners as owners_of};
ghost use Rattle.set_rows.specs.Reaches.{is_marked, own_marks, item_owners, owners_in, world_owners, named_owners};
ghost use Rattle.set_rows.specs.Reaches.{padded, given_marks, OfPackage, OfInterfaces, AreReached};
ghost use Rattle.set_rows.specs.Marking.{AddsMarks, TellsGrowth, AddsRow, Passes, AreGrown};
ghost use Rattle.package_form.specs.Closed.{is_world_of};
ghost use Rattle.package_form.specs.Reached.{is_interface_of};

use crate::owners::{names, owner_at};
use std::alloc::{AllocError, Global};
use std::marker::Model;
use tables::{Definition, Interface, Owner, PackageId, Resolve, World, WorldItem, WorldItemKind};

/// A mark for each interface and for each world that is reached.
#[derive(Drop)]
pub struct Reached {
    interfaces: Vec<bool>,
    worlds: Vec<bool>,
}

impl Model for Reached {
    ghost use Rattle.set_rows.specs.Reaches.{Marks};

    ghost Value = { Marks };

    ghost view = { λ r. record { interfaces = r.interfaces.items; worlds = r.worlds.items } };
}

fn own_interfaces(
    alloc: Global,
    interfaces: &[Interface],
    id: PackageId,
) -> Result<Vec<bool>, AllocError>
    ensures { IfOk result (λ marks. marks.items ≡ map (is_interface_of id.0) interfaces.now) }
{
    let mut marks = Vec::with_capacity(alloc, interfaces.len())?;
    for interface in interfaces {
        marks.push(interface.package.0 == id.0)?;
    }
    Ok(marks)
}

pub fn own_worlds(alloc: Global, worlds: &[World], id: PackageId) -> Result<Vec<bool>, AllocError>
    ensures { IfOk result (λ marks. marks.items ≡ map (is_world_of id.0) worlds.now) }
{
    let mut marks = Vec::with_capacity(alloc, worlds.len())?;
    for world in worlds {
        marks.push(world.package.0 == id.0)?;
    }
    Ok(marks)
}

/// Marks a place, and says whether it had no mark before.
pub fn mark(marks: &mut Vec<bool>, place: u32) -> bool
    ensures told { result ≡ not (slice_index_or marks.old.items place true) }
    ensures marked { marks.new.items ≡ slice_set marks.old.items place true }
{
    let place = place as usize;
    if place >= marks.len() {
        return false;
    }
    let is_new = !marks[place];
    marks[place] = true;
    is_new
}

fn mark_at(marks: &[bool], place: usize) -> bool
    ensures { result ≡ slice_index_or marks.now place false }
{
    match marks.get(place) {
        Some(mark) => *mark,
        None => false,
    }
}

/// So many marks: those that are given, and then none.
pub fn padded(alloc: Global, given: &[bool], count: usize) -> Result<Vec<bool>, AllocError>
    ensures { IfOk result (λ marks. marks.items ≡ padded count given.now) }
{
    let mut marks = Vec::with_capacity(alloc, count)?;
    for place in 0..count {
        marks.push(mark_at(given, place))?;
    }
    Ok(marks)
}

impl Reached {
    /// The interfaces with these marks.
    fn given(alloc: Global, set: &Resolve, interfaces: &[bool]) -> Result<Reached, AllocError>
        ensures { IfOk result (λ m. m ≡ given_marks set.now interfaces.now) }
    {
        Ok(Reached {
            interfaces: padded(alloc, interfaces, set.interfaces.len())?,
            worlds: padded(alloc, &[], set.worlds.len())?,
        })
    }

    /// The interfaces and the worlds of a package.
    fn own(alloc: Global, set: &Resolve, id: PackageId) -> Result<Reached, AllocError>
        ensures { IfOk result (λ m. m ≡ own_marks set.now id.0) }
    {
        Ok(Reached {
            interfaces: own_interfaces(alloc, set.interfaces.as_slice(), id)?,
            worlds: own_worlds(alloc, set.worlds.as_slice(), id)?,
        })
    }

    /// Whether what is of this owner is reached.
    pub fn has(&self, owner: Option<Owner>) -> bool
        ensures { result ≡ is_marked self.now owner }
    {
        let mark = match owner {
            Some(Owner::Interface(id)) => self.interfaces.get(id.0 as usize),
            Some(Owner::World(id)) => self.worlds.get(id.0 as usize),
            None => None,
        };
        match mark {
            Some(mark) => *mark,
            None => true,
        }
    }

    /// Whether the interface at this place is reached.
    pub fn has_interface(&self, place: usize) -> bool
        ensures { result ≡ slice_index_or self.now.interfaces place true }
    {
        match self.interfaces.get(place) {
            Some(mark) => *mark,
            None => true,
        }
    }

    /// The marks of the interfaces.
    pub fn into_interfaces(self) -> Vec<bool>
        ensures { result.items ≡ self.interfaces }
    {
        self.interfaces
    }

    fn add_owner(&mut self, owner: Owner) -> bool
        ensures adds { AddsMarks (Some owner ∷ []) self.old self.new }
        ensures tells { TellsGrowth self.old self.new result }
    {
        match owner {
            Owner::Interface(id) => mark(&mut self.interfaces, id.0),
            Owner::World(id) => mark(&mut self.worlds, id.0),
        }
    }

    /// Marks an owner, and says whether it is new.
    fn add(&mut self, owner: Option<Owner>) -> bool
        ensures adds { AddsMarks (owner ∷ []) self.old self.new }
        ensures tells { TellsGrowth self.old self.new result }
    {
        match owner {
            Some(owner) => self.add_owner(owner),
            None => false,
        }
    }

    fn add_item(&mut self, kind: WorldItemKind)
        ensures { AddsMarks (item_owners kind) self.old self.new }
    {
        if let WorldItemKind::Interface(id) = kind {
            self.add_owner(Owner::Interface(id));
        }
    }

    /// Marks the interfaces that these items of a world name.
    fn add_items(&mut self, items: &[WorldItem])
        ensures { AddsMarks (flat_map owners_in items.now) self.old self.new }
    {
        for item in items {
            self.add_item(item.kind);
        }
    }

    /// .. those of a package's worlds.
    fn add_worlds(&mut self, worlds: &[World], id: PackageId)
        ensures { AddsMarks (flat_map (world_owners id.0) worlds.now) self.old self.new }
    {
        for world in worlds {
            if world.package.0 == id.0 {
                self.add_items(world.items.as_slice());
            }
        }
    }

    /// Marks whose the rows are that a row names, and says whether one is new.
    fn add_named(
        &mut self,
        alloc: Global,
        owners: &[Option<Owner>],
        row: &Definition,
    ) -> Result<bool, AllocError>
        ensures adds { OnOk result (AddsMarks (named_owners owners.now row.now) self.old self.new) }
        ensures tells { IfOk result (TellsGrowth self.old self.new) }
    {
        let ids = names(alloc, row)?;
        let mut grew = false;
        for id in &ids {
            if self.add(owner_at(owners, *id)) {
                grew = true;
            }
        }
        Ok(grew)
    }

    fn add_row(
        &mut self,
        alloc: Global,
        owners: &[Option<Owner>],
        owner: Option<Owner>,
        row: &Definition,
    ) -> Result<bool, AllocError>
        ensures { IfOk result (AddsRow owners.now owner row.now self.old self.new) }
    {
        if !self.has(owner) {
            return Ok(false);
        }
        let grew = self.add_named(alloc, owners, row)?;
        Ok(grew)
    }

    /// Marks what the rows name that are of what is marked, from the last row on, and says whether there is more. In a
    /// set each row names earlier ones alone, so that one pass finds all.
    fn pass(
        &mut self,
        alloc: Global,
        set: &Resolve,
        owners: &[Option<Owner>],
    ) -> Result<bool, AllocError>
        requires { owners.now ≡ owners_of set.now.definitions }
        ensures { IfOk result (Passes set.now self.old self.new) }
    {
        let rows = set.definitions.as_slice();
        let mut grew = false;
        for behind in 0..rows.len() {
            let place = rows.len() - 1 - behind;
            if self.add_row(alloc, owners, owners[place], &rows[place])? {
                grew = true;
            }
        }
        Ok(grew)
    }

    /// .. with all that rows name of what is marked.
    fn grown(
        self,
        alloc: Global,
        set: &Resolve,
        owners: &[Option<Owner>],
    ) -> Result<Reached, AllocError>
        requires { owners.now ≡ owners_of set.now.definitions }
        ensures { IfOk result (AreGrown set.now self) }
    {
        let mut reached = self;
        loop {
            if !reached.pass(alloc, set, owners)? {
                return Ok(reached);
            }
        }
    }

    /// What a package reaches.
    pub fn of(
        alloc: Global,
        set: &Resolve,
        owners: &[Option<Owner>],
        id: PackageId,
    ) -> Result<Reached, AllocError>
        requires { owners.now ≡ owners_of set.now.definitions }
        ensures { IfOk result (AreReached set.now (OfPackage id.0)) }
    {
        let mut reached = Reached::own(alloc, set, id)?;
        reached.add_worlds(set.worlds.as_slice(), id);
        let grown = reached.grown(alloc, set, owners)?;
        Ok(grown)
    }

    /// What the interfaces with these marks reach.
    pub fn from_marks(
        alloc: Global,
        set: &Resolve,
        owners: &[Option<Owner>],
        interfaces: &[bool],
    ) -> Result<Reached, AllocError>
        requires { owners.now ≡ owners_of set.now.definitions }
        ensures { IfOk result (AreReached set.now (OfInterfaces interfaces.now)) }
    {
        let marked = Reached::given(alloc, set, interfaces)?;
        let grown = marked.grown(alloc, set, owners)?;
        Ok(grown)
    }
}
