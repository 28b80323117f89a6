//! The packages that interfaces and worlds are of.

use crate::decoded_packages::form::Form;
use crate::decoded_packages::writer::is_marked;
use atoms::{FullName, Label};
use component_decoding::{DecodeError, Fault};
use std::alloc::{AllocError, Global};
use std::collections::BTreeMap;
use text_builder::TextBuilder;

/// An interface.
#[derive(Drop)]
struct Interface {
    /// The offset of where it stands first.
    place: usize,
    name: Label,
    types: String,
    /// None if its types alone were found.
    functions: Option<String>,
    /// The file exports it.
    is_exported: bool,
}

/// A package that is found.
#[derive(Drop)]
struct Package {
    name: String,
    interfaces: Vec<Interface>,
    worlds: Vec<String>,
}

/// Where an interface stands among the packages.
#[derive(Clone, Copy)]
struct Place {
    package: usize,
    interface: usize,
}

/// What one place of a file has of an interface.
#[derive(Clone, Copy)]
pub struct Found<'a> {
    pub place: usize,
    pub name: &'a FullName,
    /// Its functions are there too.
    pub is_whole: bool,
    pub is_exported: bool,
}

/// A package as text.
#[derive(Drop)]
pub struct PackageText {
    /// Its name, with its version if it has one.
    pub name: String,
    pub text: String,
    /// It is not the package of what the file exports.
    pub is_dependency: bool,
}

/// The packages so far.
#[derive(Drop)]
pub struct Packages {
    alloc: Global,
    list: Vec<Package>,
    /// The places of packages by their names, and those of interfaces by their full names.
    places: BTreeMap<String, usize>,
    interfaces: BTreeMap<String, Place>,
}

/// Appends a label, with `%` before one that is spelled as a keyword.
fn push_label(text: &mut TextBuilder, label: &Label) {
    text.push(if is_marked(label) { "%" } else { "" });
    text.push(label.as_str());
}

/// The name of the package in a full name.
fn package_name(alloc: Global, name: &FullName) -> Result<String, AllocError> {
    let mut text = TextBuilder::new(alloc);
    push_label(&mut text, &name.namespace);
    text.push(":");
    push_label(&mut text, &name.package);
    if let Some(version) = &name.version {
        text.push("@");
        text.push(version.as_str());
    }
    text.finish()
}

/// An interface that is found first.
fn first_found(alloc: Global, found: Found<'_>, form: Form) -> Result<Interface, AllocError> {
    let Form { types, functions } = form;
    let is_whole = found.is_whole || !functions.is_empty();
    Ok(Interface {
        place: found.place,
        name: found.name.name.copy(alloc)?,
        types,
        functions: is_whole.then_some(functions),
        is_exported: found.is_exported,
    })
}

impl Interface {
    /// Adds what a place has of it. False if the forms differ.
    fn is_joined(&mut self, found: Found<'_>, form: Form) -> bool {
        let Form { types, functions } = form;
        if self.types.as_str() != types.as_str() {
            return false;
        }
        self.is_exported = self.is_exported || found.is_exported;
        if !found.is_whole && functions.is_empty() {
            return true;
        }
        match &self.functions {
            Some(known) => known.as_str() == functions.as_str(),
            None => {
                self.functions = Some(functions);
                true
            }
        }
    }

    fn push_to(&self, text: &mut TextBuilder) {
        text.push("interface ");
        push_label(text, &self.name);
        text.push(" {\n");
        text.push(self.types.as_str());
        if let Some(functions) = &self.functions {
            text.push(functions.as_str());
        }
        text.push("}\n");
    }
}

impl Package {
    /// Adds what a place has of an interface. False if the forms differ.
    fn is_joined(&mut self, interface: usize, found: Found<'_>, form: Form) -> bool {
        match self.interfaces.get_mut(interface) {
            Some(interface) => interface.is_joined(found, form),
            None => true,
        }
    }

    fn text(&self, alloc: Global) -> Result<String, AllocError> {
        let mut text = TextBuilder::new(alloc);
        text.push_three("package ", self.name.as_str(), ";\n");
        for interface in &self.interfaces {
            interface.push_to(&mut text);
        }
        for world in &self.worlds {
            text.push(world.as_str());
        }
        text.finish()
    }
}

impl Packages {
    /// No packages.
    pub fn new(alloc: Global) -> Packages {
        Packages {
            alloc,
            list: Vec::new(alloc),
            places: BTreeMap::new(alloc),
            interfaces: BTreeMap::new(alloc),
        }
    }

    /// The package of a full name, which is a new one if it was not found before.
    fn package_of(&mut self, name: &FullName) -> Result<usize, AllocError> {
        let text = package_name(self.alloc, name)?;
        if let Some(place) = self.places.get(text.as_str()) {
            return Ok(*place);
        }
        let place = self.list.len();
        self.list.push(Package {
            name: text.clone()?,
            interfaces: Vec::new(self.alloc),
            worlds: Vec::new(self.alloc),
        })?;
        self.places.insert(text, place)?;
        Ok(place)
    }

    /// Adds an interface of a package, or what a further place has of it.
    pub fn add_interface(&mut self, found: Found<'_>, form: Form) -> Result<(), DecodeError> {
        let text = found.name.text(self.alloc)?;
        match self.interfaces.get(text.as_str()).copied() {
            Some(at) => self.join(at, found, form),
            None => self.push_interface(text, found, form),
        }
    }

    /// Adds what a further place has of an interface.
    fn join(&mut self, at: Place, found: Found<'_>, form: Form) -> Result<(), DecodeError> {
        if let Some(package) = self.list.get_mut(at.package)
            && !package.is_joined(at.interface, found, form)
        {
            return Err(DecodeError::At(Fault::TwoForms, found.place));
        }
        Ok(())
    }

    /// Adds an interface, of which this is the full name.
    fn push_interface(
        &mut self,
        text: String,
        found: Found<'_>,
        form: Form,
    ) -> Result<(), DecodeError> {
        let interface = first_found(self.alloc, found, form)?;
        let package = self.package_of(found.name)?;
        if let Some(known) = self.list.get_mut(package) {
            let at = Place {
                package,
                interface: known.interfaces.len(),
            };
            known.interfaces.push(interface)?;
            self.interfaces.insert(text, at)?;
        }
        Ok(())
    }

    /// Adds a world, whose text this is, to the package of its full name.
    pub fn add_world(&mut self, name: &FullName, text: String) -> Result<(), DecodeError> {
        let package = self.package_of(name)?;
        if let Some(package) = self.list.get_mut(package) {
            package.worlds.push(text)?;
        }
        Ok(())
    }

    /// Refuses a package that has an interface which the file does not export.
    pub fn check_exported(&mut self, name: &FullName) -> Result<(), DecodeError> {
        let package = self.package_of(name)?;
        let Some(package) = self.list.as_slice().get(package) else {
            return Ok(());
        };
        for interface in &package.interfaces {
            if !interface.is_exported {
                return Err(DecodeError::At(Fault::NotExported, interface.place));
            }
        }
        Ok(())
    }

    /// The texts of the packages. The one of this full name is no dependency.
    pub fn texts(self, name: &FullName) -> Result<Vec<PackageText>, AllocError> {
        let own = package_name(self.alloc, name)?;
        let mut texts = Vec::new(self.alloc);
        for package in self.list {
            let text = package.text(self.alloc)?;
            let is_dependency = package.name.as_str() != own.as_str();
            texts.push(PackageText {
                name: package.name,
                text,
                is_dependency,
            })?;
        }
        Ok(texts)
    }
}
