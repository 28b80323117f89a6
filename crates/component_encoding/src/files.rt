//! Whole files.

use crate::error::EncodeError;
use crate::holder::{exported_interface, exported_world};
use crate::spelling::{put_count, put_custom, put_extern_name, put_u32};
use atoms::Label;
use ctype_format::put_section;
use std::alloc::{AllocError, Global};
use tables::{InterfaceId, PackageId, Resolve, World};

/// The magic number, the version and the layer of components.
const PREAMBLE: [u8; 8] = [0x00, 0x61, 0x73, 0x6d, 0x0d, 0x00, 0x01, 0x00];

const TYPE_SECTION: u8 = 7;

const EXPORT_SECTION: u8 = 11;

/// A file that is made.
#[derive(Drop)]
struct File {
    alloc: Global,
    bytes: Vec<u8>,
    /// How many type indices are taken. An export takes one.
    types: u32,
}

impl File {
    fn new(alloc: Global) -> Result<File, AllocError> {
        Ok(File {
            alloc,
            bytes: Vec::from_slice(alloc, &PREAMBLE)?,
            types: 0,
        })
    }

    fn put_custom(&mut self, name: &[u8], data: &[u8]) -> Result<(), AllocError> {
        put_custom(self.alloc, &mut self.bytes, name, data)
    }

    /// Puts the name and the version of the one tool whose bytes these are.
    fn put_producers(&mut self) -> Result<(), AllocError> {
        let field = b"\x01\x0cprocessed-by\x01\x0dwit-component\x070.245.1";
        self.put_custom(b"producers", field)
    }

    /// Puts a section of this type alone.
    fn put_type(&mut self, definition: &[u8]) -> Result<(), AllocError> {
        let mut content = Vec::new(self.alloc);
        put_count(&mut content, 1)?;
        content.extend_from_slice(definition)?;
        put_section(&mut self.bytes, TYPE_SECTION, content.as_slice())
    }

    /// Puts a section of an export of the last type alone.
    fn put_export(&mut self, name: &Label) -> Result<(), AllocError> {
        let mut content = Vec::new(self.alloc);
        put_count(&mut content, 1)?;
        put_extern_name(&mut content, name.as_bytes())?;
        content.push(3)?;
        put_u32(&mut content, self.types)?;
        content.push(0)?;
        put_section(&mut self.bytes, EXPORT_SECTION, content.as_slice())
    }

    /// Puts a type that is exported under a name.
    fn put_item(&mut self, name: &Label, definition: &[u8]) -> Result<(), AllocError> {
        self.put_type(definition)?;
        self.put_export(name)?;
        match self.types.checked_add(2) {
            Some(types) => {
                self.types = types;
                Ok(())
            }
            None => Err(AllocError),
        }
    }

    /// Puts the package's interfaces.
    fn put_interfaces(&mut self, resolve: &Resolve, package: PackageId) -> Result<(), EncodeError> {
        for (place, interface) in resolve.interfaces.as_slice().iter().enumerate() {
            if interface.package == package
                && let Ok(place) = u32::try_from(place)
            {
                let definition = exported_interface(self.alloc, resolve, InterfaceId(place))?;
                self.put_item(&interface.name, definition.as_slice())?;
            }
        }
        Ok(())
    }

    /// Puts the package's worlds.
    fn put_worlds(&mut self, resolve: &Resolve, package: PackageId) -> Result<(), EncodeError> {
        for world in resolve.worlds.as_slice() {
            if world.package == package {
                let definition = exported_world(self.alloc, resolve, world)?;
                self.put_item(&world.name, definition.as_slice())?;
            }
        }
        Ok(())
    }
}

/// The bytes of all interfaces and worlds of a package of the table, as `wasm-tools component wit --wasm` writes them.
pub fn package_bytes(
    alloc: Global,
    resolve: &Resolve,
    package: PackageId,
) -> Result<Vec<u8>, EncodeError> {
    let mut file = File::new(alloc)?;
    file.put_interfaces(resolve, package)?;
    file.put_worlds(resolve, package)?;
    // No docs: a version, and an empty object of JSON.
    file.put_custom(b"package-docs", b"\x00{}")?;
    file.put_producers()?;
    Ok(file.bytes)
}

/// The bytes of a world of the table, as wit-component puts them into the section `component-type` of a module.
pub fn world_bytes(
    alloc: Global,
    resolve: &Resolve,
    world: &World,
) -> Result<Vec<u8>, EncodeError> {
    let mut file = File::new(alloc)?;
    // The version of this encoding, and UTF-8.
    file.put_custom(b"wit-component-encoding", &[4, 0])?;
    let definition = exported_world(alloc, resolve, world)?;
    file.put_item(&world.name, definition.as_slice())?;
    file.put_producers()?;
    Ok(file.bytes)
}

/// The world of this name in a package of the table.
pub fn world_named<'a>(resolve: &'a Resolve, package: PackageId, name: &str) -> Option<&'a World> {
    for world in resolve.worlds.as_slice() {
        if world.package == package && world.name.as_str() == name {
            return Some(world);
        }
    }
    None
}
