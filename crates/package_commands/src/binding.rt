//! Headers for C, and declarations for TypeScript and for Python.
ghost use Rattle.std.specs.Prelude.{◌<◌, length};

use c_header::{Laid, Texts, guest_header_of, header_of};
use checked_packages::{CheckedSet, main_of};
use component_encoding::world_named;
use layout::Layouts;
use package_adding::PackageSet;
use std::alloc::{AllocError, Global};
use std::fmt::Write;
use tables::{PackageId, Resolve, World};
use thiserror::Error;
use wit_faults::Cause;
use wit_files::MAX_TEXT;
use wit_text::TextError;

/// Why a package has no header for guests.
#[derive(Debug, Drop, Error)]
pub enum Unbound {
    #[error("no world `{0}`")]
    NoWorld(String),
    #[error("no world, and a guest is of one")]
    NoWorlds,
    /// The package has these worlds.
    #[error("several worlds: name one by `--world`:{0}")]
    ManyWorlds(String),
    #[error(transparent)]
    Cause(Cause),
}

impl From<AllocError> for Unbound {
    fn from(error: AllocError) -> Unbound {
        Unbound::Cause(Cause::from(error))
    }
}

impl From<Cause> for Unbound {
    fn from(error: Cause) -> Unbound {
        Unbound::Cause(error)
    }
}

/// The canonical text of a package of a set. 36 if it would have more than 1,048,576 bytes.
fn text_of(alloc: Global, set: &PackageSet, id: PackageId) -> Result<String, TextError>
    requires { id.0 < length set.now.resolve.packages }
{
    let mut text = String::new(alloc);
    set.print(alloc, id, &mut text)?;
    if text.len() > MAX_TEXT {
        return Err(TextError::Limit);
    }
    Ok(text)
}

/// The canonical text of each package of a set.
fn texts_of(alloc: Global, set: &PackageSet) -> Result<Vec<String>, TextError> {
    let mut texts = Vec::new(alloc);
    // A set has at most 64 packages.
    let count = set.resolve().packages.len() as u32;
    for place in 0..count {
        let text = text_of(alloc, set, PackageId(place))?;
        texts.push(text).map_err(AllocError::from)?;
    }
    Ok(texts)
}

fn header(
    alloc: Global,
    laid: Laid<'_>,
    texts: Texts<'_>,
    main: usize,
) -> Result<String, TextError> {
    Ok(header_of(alloc, laid, texts, main)?)
}

/// The header for C of packages. It is called by the last of them that is no dependency.
pub fn header_for_c(alloc: Global, packages: &CheckedSet) -> Result<String, Cause> {
    let texts = texts_of(alloc, &packages.set)?;
    let resolve = packages.set.resolve();
    let layouts = match Layouts::of(alloc, resolve) {
        Ok(layouts) => layouts,
        Err(error) => return Err(Cause::Layout(error, None)),
    };
    let laid = Laid::new(resolve, &layouts);
    let main = main_of(packages.list.as_slice());
    let texts = Texts {
        canonical: texts.as_slice(),
        comments: &packages.comments,
    };
    Ok(header(alloc, laid, texts, main)?)
}

/// The worlds of a package.
fn worlds_of<'a>(
    alloc: Global,
    resolve: &'a Resolve,
    package: PackageId,
) -> Result<Vec<&'a World>, AllocError> {
    let mut worlds = Vec::new(alloc);
    for world in resolve.worlds.as_slice() {
        if world.package == package {
            worlds.push(world)?;
        }
    }
    Ok(worlds)
}

/// The names of worlds, each after a space.
fn names_of(alloc: Global, worlds: &[&World]) -> Result<String, AllocError> {
    let mut names = String::new(alloc);
    for world in worlds {
        write!(names, " `{}`", world.name.as_str())?;
    }
    Ok(names)
}

/// The only world of a package.
fn only_world<'a>(
    alloc: Global,
    resolve: &'a Resolve,
    package: PackageId,
) -> Result<&'a World, Unbound> {
    let worlds = worlds_of(alloc, resolve, package)?;
    match worlds.as_slice() {
        [world] => Ok(*world),
        [] => Err(Unbound::NoWorlds),
        several => Err(Unbound::ManyWorlds(names_of(alloc, several)?)),
    }
}

/// The world of a name of a package, or the only one if there is no name.
fn world_of<'a>(
    alloc: Global,
    resolve: &'a Resolve,
    package: PackageId,
    name: Option<&str>,
) -> Result<&'a World, Unbound> {
    let Some(name) = name else {
        return only_world(alloc, resolve, package);
    };
    match world_named(resolve, package, name) {
        Some(world) => Ok(world),
        None => Err(Unbound::NoWorld(String::from_str(alloc, name)?)),
    }
}

/// The header for guests of a world of these packages.
fn guest_header<'a>(
    alloc: Global,
    packages: &'a CheckedSet,
    world: &'a World,
) -> Result<String, Cause> {
    let texts = texts_of(alloc, &packages.set)?;
    let resolve = packages.set.resolve();
    let layouts = match Layouts::of(alloc, resolve) {
        Ok(layouts) => layouts,
        Err(error) => return Err(Cause::Layout(error, None)),
    };
    let laid = Laid::new(resolve, &layouts);
    let texts = Texts {
        canonical: texts.as_slice(),
        comments: &packages.comments,
    };
    Ok(guest_header_of(alloc, laid, texts, world)?)
}

/// The number of the last package that is no dependency. A set has at most 64 packages.
fn own_id(packages: &CheckedSet) -> Result<PackageId, AllocError> {
    match u32::try_from(main_of(packages.list.as_slice())) {
        Ok(place) => Ok(PackageId(place)),
        Err(_) => Err(AllocError),
    }
}

/// The header for guests of the world of this name, or of the only world, of the last package that is no dependency.
pub fn header_for_guest(
    alloc: Global,
    packages: &CheckedSet,
    world: Option<&str>,
) -> Result<String, Unbound> {
    let own = own_id(packages)?;
    let world = world_of(alloc, packages.set.resolve(), own, world)?;
    Ok(guest_header(alloc, packages, world)?)
}

/// The declarations for TypeScript of the last package that is no dependency, and of what it uses. No text if there is
/// no package.
pub fn declarations_for_ts(alloc: Global, packages: &CheckedSet) -> Result<String, AllocError> {
    let list = packages.list.as_slice();
    match list.get(main_of(list)) {
        Some(package) => ts_declarations::declarations_of(
            alloc,
            &package.tables,
            &packages.comments,
        ),
        None => Ok(String::new(alloc)),
    }
}

/// A module of Python for the last package that is no dependency, and for what it uses. No text if there is no package.
pub fn declarations_for_python(alloc: Global, packages: &CheckedSet) -> Result<String, AllocError> {
    let list = packages.list.as_slice();
    match list.get(main_of(list)) {
        Some(package) => python_declarations::declarations_of(
            alloc,
            &package.tables,
            &packages.comments,
        ),
        None => Ok(String::new(alloc)),
    }
}
