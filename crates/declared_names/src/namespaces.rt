//! The names of namespaces, of which each interface and each world has one.

use crate::labels::push_capitals;
use atoms::{KeyedState, Label, NameKey};
use indexmap::IndexMap;
use std::alloc::{AllocError, Global};
use tables::{PackageId, PackageName, Resolve};
use text_builder::TextBuilder;

/// The names of the namespaces of a table.
#[derive(Drop)]
pub struct Namespaces {
    interfaces: Vec<String>,
    worlds: Vec<String>,
}

/// How often each name was wanted.
#[derive(Drop)]
struct Wanted<'a> {
    alloc: Global,
    packages: &'a [PackageName],
    counts: IndexMap<String, usize, KeyedState>,
}

fn write_interfaces(key: &mut NameKey, resolve: &Resolve) {
    for interface in resolve.interfaces.as_slice() {
        key.write(interface.name.as_bytes());
    }
}

fn write_worlds(key: &mut NameKey, resolve: &Resolve) {
    for world in resolve.worlds.as_slice() {
        key.write(world.name.as_bytes());
    }
}

/// Hashers with a key of the names of interfaces and worlds.
fn keyed_by(resolve: &Resolve) -> KeyedState {
    let mut key = NameKey::new();
    write_interfaces(&mut key, resolve);
    write_worlds(&mut key, resolve);
    key.state()
}

/// Whether two packages differ in their versions alone.
fn are_alike(package: &PackageName, other: &PackageName) -> bool {
    package.namespace.as_str() == other.namespace.as_str()
        && package.name.as_str() == other.name.as_str()
}

/// Whether another of these packages differs from this one in its version alone.
fn has_other_version(packages: &[PackageName], package: &PackageName) -> bool {
    let mut count: usize = 0;
    for other in packages {
        if are_alike(package, other) {
            count = count.saturating_add(1);
        }
    }
    count > 1
}

/// Appends a version to a name: its letters and digits, and `_` for all else.
fn push_version(name: &mut TextBuilder, version: &str) {
    name.push("_");
    for character in version.chars() {
        let is_kept = character.is_ascii_alphanumeric();
        name.push_char(if is_kept { character } else { '_' });
    }
}

impl<'a> Wanted<'a> {
    /// The name that is wanted for an interface or a world: the words of its full name, with the version if another
    /// package differs in nothing else.
    fn name_of(&self, id: PackageId, label: &Label) -> Result<String, AllocError> {
        let mut name = TextBuilder::new(self.alloc);
        if let Some(package) = self.packages.get(id.0 as usize) {
            push_capitals(&mut name, package.namespace.as_str());
            push_capitals(&mut name, package.name.as_str());
            push_capitals(&mut name, label.as_str());
            if let Some(version) = &package.version
                && has_other_version(self.packages, package)
            {
                push_version(&mut name, version.as_str());
            }
        }
        name.finish()
    }

    /// The name of a namespace that no other has: the one that is wanted, or that with a number after it.
    fn take(&mut self, id: PackageId, label: &Label) -> Result<String, AllocError> {
        let alloc = self.alloc;
        let name = self.name_of(id, label)?;
        let before = self.counts.get(name.as_str()).copied().unwrap_or(0);
        let number = before.saturating_add(1);
        let taken = if before == 0 {
            name.clone()?
        } else {
            format!(in alloc; "{}_{number}", name.as_str())?
        };
        self.counts.insert(name, number)?;
        Ok(taken)
    }

    fn of_interfaces(&mut self, resolve: &Resolve) -> Result<Vec<String>, AllocError> {
        let mut names = Vec::new(self.alloc);
        for interface in resolve.interfaces.as_slice() {
            names.push(self.take(interface.package, &interface.name)?)?;
        }
        Ok(names)
    }

    fn of_worlds(&mut self, resolve: &Resolve) -> Result<Vec<String>, AllocError> {
        let mut names = Vec::new(self.alloc);
        for world in resolve.worlds.as_slice() {
            names.push(self.take(world.package, &world.name)?)?;
        }
        Ok(names)
    }
}

impl Namespaces {
    /// The names of the namespaces of a table.
    pub fn of(alloc: Global, resolve: &Resolve) -> Result<Namespaces, AllocError> {
        let mut wanted = Wanted {
            alloc,
            packages: resolve.packages.as_slice(),
            counts: IndexMap::with_hasher(alloc, keyed_by(resolve)),
        };
        let interfaces = wanted.of_interfaces(resolve)?;
        Ok(Namespaces {
            interfaces,
            worlds: wanted.of_worlds(resolve)?,
        })
    }

    /// The namespace of the interface of this number.
    pub fn interface(&self, place: usize) -> &str {
        match self.interfaces.get(place) {
            Some(name) => name.as_str(),
            None => "",
        }
    }

    /// The namespace of the world of this number.
    pub fn world(&self, place: usize) -> &str {
        match self.worlds.get(place) {
            Some(name) => name.as_str(),
            None => "",
        }
    }
}
