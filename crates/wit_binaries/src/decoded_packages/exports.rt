//! The interfaces and worlds that a file exports.

use crate::decoded_packages::docs::check_docs;
use crate::decoded_packages::form::FormWriter;
use crate::decoded_packages::packages::{Found, PackageText, Packages};
use crate::decoded_packages::writer::{Writer, instance_at, interface_name, is_same_package};
use atoms::FullName;
use component_decoding::{
    DecodeError, Exported, Extern, Fault, Feature, InstanceId, Scope, ScopeId, Structure, What,
};
use ctype_format::ExternName;
use std::alloc::Global;
use std::collections::BTreeMap;
use tables::Direction;

/// The most bytes of the text of an interface or a world.
const MAX_TEXT: usize = 1_048_576;

/// The most bytes of all of these, and of each place of an interface again.
const MAX_WRITTEN: usize = 16 * MAX_TEXT;

/// What is read of a file.
#[derive(Drop)]
struct Exports<'a> {
    alloc: Global,
    structure: &'a Structure,
    packages: Packages,
    /// A name of the package of all that is exported.
    own: Option<&'a FullName>,
    /// Whether an interface is exported, and not worlds alone.
    has_interface: bool,
    /// How many bytes may be written yet.
    room: usize,
}

/// A component type that interfaces and functions stand in.
#[derive(Clone, Copy)]
struct Holder<'a> {
    scope: &'a Scope,
    /// Its imports are whole too, as those of a world are.
    is_world: bool,
}

/// The scope of a component type or an instance type.
fn scope_at(structure: &Structure, id: ScopeId) -> Option<&Scope> {
    structure.scopes.as_slice().get(id.0)
}

/// The full name of an exported world.
fn full_name(name: &ExternName, place: usize) -> Result<&FullName, DecodeError> {
    match name {
        ExternName::FullName(name) => Ok(name),
        ExternName::Label(_) => Err(DecodeError::At(Fault::NotFullName, place)),
    }
}

/// The one export of a component type.
fn only_export<'a>(scope: &'a Scope, exported: &Exported) -> Result<&'a Extern, DecodeError> {
    let mut found = None;
    for item in &scope.externs {
        if item.direction == Direction::Export {
            if found.is_some() {
                return Err(DecodeError::At(Fault::NotOneExport, item.place));
            }
            found = Some(item);
        }
    }
    match found {
        Some(item) => Ok(item),
        None => Err(DecodeError::At(Fault::NotOneExport, exported.place)),
    }
}

/// The word of a world's item.
fn word_of(direction: Direction) -> &'static str {
    match direction {
        Direction::Import => "import ",
        Direction::Export => "export ",
    }
}

impl<'a> Exports<'a> {
    /// A text of a scope that begins.
    fn writer(&self, scope: &Scope, place: usize) -> Writer<'a> {
        Writer {
            structure: self.structure,
            scope: scope.number,
            place,
            text: String::new(self.alloc),
            room: self.room.min(MAX_TEXT),
            fault: None,
        }
    }

    /// Reads an interface, and answers its name.
    fn read_interface(
        &mut self,
        holder: Holder<'_>,
        item: &Extern,
        id: InstanceId,
    ) -> Result<Option<&'a FullName>, DecodeError> {
        let structure = self.structure;
        let Some(instance) = instance_at(structure, id) else {
            return Ok(None);
        };
        let name = interface_name(instance, item.place)?;
        let Some(scope) = scope_at(structure, instance.scope) else {
            return Ok(None);
        };
        let form = FormWriter {
            alloc: self.alloc,
            writer: self.writer(scope, item.place),
            direction: item.direction,
            name,
            defined: BTreeMap::new(self.alloc),
        }
        .form(scope)?;
        let written = form.types.len().saturating_add(form.functions.len());
        self.room = self.room.saturating_sub(written);
        let is_exported = !holder.is_world && item.direction == Direction::Export;
        let found = Found {
            place: item.place,
            name,
            is_whole: holder.is_world || is_exported,
            is_exported,
        };
        self.packages.add_interface(found, form)?;
        Ok(Some(name))
    }

    /// Reads the component type of an interface: what the interface uses, and it itself.
    fn read_interfaces(&mut self, holder: Holder<'_>) -> Result<(), DecodeError> {
        for item in &holder.scope.externs {
            match &item.what {
                What::Instance(id) => {
                    self.read_interface(holder, item, *id)?;
                }
                _ => {
                    let fault = Fault::Outside(Feature::TypeOfWorld);
                    return Err(DecodeError::At(fault, item.place));
                }
            }
        }
        Ok(())
    }

    /// Appends an item of a world.
    fn put_item(
        &mut self,
        holder: Holder<'_>,
        own: &FullName,
        item: &Extern,
        writer: &mut Writer<'_>,
    ) -> Result<(), DecodeError> {
        writer.place = item.place;
        writer.put(word_of(item.direction));
        writer.done()?;
        match &item.what {
            What::Instance(id) => {
                if let Some(name) = self.read_interface(holder, item, *id)? {
                    writer.put_path(own, name);
                }
                writer.put(";\n");
            }
            What::Function { name, ty } => writer.put_function(name, *ty),
            What::Type(_) => writer.refuse(Fault::Outside(Feature::TypeOfWorld)),
            What::Component { .. } => writer.refuse(Fault::WrongSort),
        }
        writer.done()
    }

    /// Reads a world.
    fn read_world(
        &mut self,
        name: &'a FullName,
        scope: &Scope,
        place: usize,
    ) -> Result<(), DecodeError> {
        let holder = Holder {
            scope,
            is_world: true,
        };
        let mut writer = self.writer(scope, place);
        writer.put("world ");
        writer.put_label(&name.name);
        writer.put(" {\n");
        for item in &scope.externs {
            self.put_item(holder, name, item, &mut writer)?;
        }
        writer.put("}\n");
        writer.done()?;
        self.room = self.room.saturating_sub(writer.text.len());
        self.packages.add_world(name, writer.text)
    }

    /// Refuses an exported item that has another name in itself, or is of another package than the others.
    fn check_name(&mut self, name: &'a FullName, exported: &Exported) -> Result<(), DecodeError> {
        if name.name.as_str() != exported.name.as_str() {
            return Err(DecodeError::At(Fault::OtherName, exported.place));
        }
        match self.own {
            Some(own) if !is_same_package(own, name) => {
                Err(DecodeError::At(Fault::OtherPackage, exported.place))
            }
            _ => {
                self.own = Some(name);
                Ok(())
            }
        }
    }

    /// Reads an exported component of a component type, which is a world.
    fn read_component(
        &mut self,
        exported: &Exported,
        holder: &Scope,
        name: &'a FullName,
        id: ScopeId,
    ) -> Result<(), DecodeError> {
        self.check_name(name, exported)?;
        if holder.externs.len() != 1 {
            return Err(DecodeError::At(Fault::ImportsAroundWorld, exported.place));
        }
        match scope_at(self.structure, id) {
            Some(scope) => self.read_world(name, scope, exported.place),
            None => Ok(()),
        }
    }

    /// Reads an exported instance of a component type, which is an interface.
    fn read_instance(
        &mut self,
        exported: &Exported,
        scope: &Scope,
        id: InstanceId,
    ) -> Result<(), DecodeError> {
        let structure = self.structure;
        let Some(instance) = instance_at(structure, id) else {
            return Ok(());
        };
        self.check_name(full_name(&instance.name, exported.place)?, exported)?;
        self.has_interface = true;
        self.read_interfaces(Holder {
            scope,
            is_world: false,
        })
    }

    /// Reads what a file exports under a name.
    fn read(&mut self, exported: &Exported) -> Result<(), DecodeError> {
        let structure = self.structure;
        let Some(scope) = scope_at(structure, exported.scope) else {
            return Ok(());
        };
        let item = only_export(scope, exported)?;
        match &item.what {
            What::Component { name, scope: world } => {
                let name = full_name(name, item.place)?;
                self.read_component(exported, scope, name, *world)
            }
            What::Instance(id) if !structure.is_world => {
                self.read_instance(exported, scope, *id)
            }
            _ => Err(DecodeError::At(Fault::WrongSort, item.place)),
        }
    }
}

/// The packages of a file: that of what it exports, and those that this uses, of which it has what is used. There are
/// none if it exports nothing. A file that says that it encodes a world exports one world at most.
pub fn packages_of(alloc: Global, structure: &Structure) -> Result<Vec<PackageText>, DecodeError> {
    let mut exports = Exports {
        alloc,
        structure,
        packages: Packages::new(alloc),
        own: None,
        has_interface: false,
        room: MAX_WRITTEN,
    };
    if let [_, second, ..] = structure.exports.as_slice()
        && structure.is_world
    {
        return Err(DecodeError::At(Fault::NotOneExport, second.place));
    }
    for exported in &structure.exports {
        exports.read(exported)?;
    }
    let Some(own) = exports.own else {
        return Ok(Vec::new(alloc));
    };
    if exports.has_interface {
        exports.packages.check_exported(own)?;
    }
    if let Some(docs) = &structure.docs {
        check_docs(alloc, structure, docs)?;
    }
    Ok(exports.packages.texts(own)?)
}
