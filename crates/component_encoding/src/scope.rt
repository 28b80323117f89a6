//! The declarations of one component type or instance type.

use crate::spelling::{put_count, put_extern_name, put_name, put_u32};
use atoms::Label;
use std::alloc::{AllocError, Global};
use std::collections::BTreeMap;
use tables::{Direction, TypeId};

/// The first byte of a component type.
pub const COMPONENT_TYPE: u8 = 0x41;

/// The first byte of an instance type.
pub const INSTANCE_TYPE: u8 = 0x42;

/// The first byte of a type's declaration.
const TYPE: u8 = 1;

/// The first byte of an alias.
const ALIAS: u8 = 2;

/// The first byte of an import.
const IMPORT: u8 = 3;

/// The first byte of an export.
const EXPORT: u8 = 4;

/// The sort of a function that is imported or exported.
const FUNCTION_SORT: u8 = 1;

/// The sort of a component.
const COMPONENT_SORT: u8 = 4;

/// The sort of an instance.
const INSTANCE_SORT: u8 = 5;

/// Declarations that are one type, with the indices that they take.
#[derive(Drop)]
pub struct Scope {
    alloc: Global,
    /// The declarations, one behind the other.
    bytes: Vec<u8>,
    count: usize,
    types: u32,
    instances: u32,
    /// By row of the table: the index of a type that is defined or aliased here.
    indices: BTreeMap<u32, u32>,
    /// The indices of functions' types and of types without a name, by their definitions.
    shared: BTreeMap<Vec<u8>, u32>,
}

/// The number behind this one. No memory if 32 bits have none.
fn next(number: u32) -> Result<u32, AllocError> {
    match number.checked_add(1) {
        Some(next) => Ok(next),
        None => Err(AllocError),
    }
}

impl Scope {
    /// No declarations.
    pub fn new(alloc: Global) -> Scope {
        Scope {
            alloc,
            bytes: Vec::new(alloc),
            count: 0,
            types: 0,
            instances: 0,
            indices: BTreeMap::new(alloc),
            shared: BTreeMap::new(alloc),
        }
    }

    pub fn alloc(&self) -> Global {
        self.alloc
    }

    /// The index of a row's type, if it has one here.
    pub fn known(&self, row: TypeId) -> Option<u32> {
        self.indices.get(&row.0).copied()
    }

    /// Notes the index of a row's type.
    pub fn note(&mut self, row: TypeId, index: u32) -> Result<(), AllocError> {
        self.indices.insert(row.0, index)?;
        Ok(())
    }

    fn begin(&mut self, kind: u8) -> Result<(), AllocError> {
        self.count = self.count.saturating_add(1);
        self.bytes.push(kind)?;
        Ok(())
    }

    /// Takes the next type index.
    fn take_type(&mut self) -> Result<u32, AllocError> {
        let index = self.types;
        self.types = next(index)?;
        Ok(index)
    }

    /// Declares a type by its definition, and answers its index.
    pub fn define(&mut self, definition: &[u8]) -> Result<u32, AllocError> {
        self.begin(TYPE)?;
        self.bytes.extend_from_slice(definition)?;
        self.take_type()
    }

    /// The index of a type without a name or of a function's type, which is defined where it is needed first.
    pub fn share(&mut self, definition: Vec<u8>) -> Result<u32, AllocError> {
        if let Some(index) = self.shared.get(definition.as_slice()) {
            return Ok(*index);
        }
        let index = self.define(definition.as_slice())?;
        self.shared.insert(definition, index)?;
        Ok(index)
    }

    /// Declares an alias of the type that an instance exports under a name, and answers its index.
    pub fn alias_export(&mut self, instance: u32, name: &Label) -> Result<u32, AllocError> {
        self.begin(ALIAS)?;
        self.bytes.extend_from_slice(&[3, 0])?;
        put_u32(&mut self.bytes, instance)?;
        put_name(&mut self.bytes, name.as_bytes())?;
        self.take_type()
    }

    /// Declares an alias of a type of the scope around, and answers its index.
    pub fn alias_outer(&mut self, index: u32) -> Result<u32, AllocError> {
        self.begin(ALIAS)?;
        self.bytes.extend_from_slice(&[3, 2, 1])?;
        put_u32(&mut self.bytes, index)?;
        self.take_type()
    }

    /// Begins an import or an export of this name.
    fn begin_named(&mut self, way: Direction, name: &[u8]) -> Result<(), AllocError> {
        match way {
            Direction::Import => self.begin(IMPORT)?,
            Direction::Export => self.begin(EXPORT)?,
        }
        put_extern_name(&mut self.bytes, name)
    }

    /// Exports the type at an index under a name, and answers the index of the export.
    pub fn export_type(&mut self, name: &[u8], index: u32) -> Result<u32, AllocError> {
        self.begin_named(Direction::Export, name)?;
        self.bytes.extend_from_slice(&[3, 0])?;
        put_u32(&mut self.bytes, index)?;
        self.take_type()
    }

    /// Imports or exports a function of the type at an index.
    pub fn declare_function(
        &mut self,
        way: Direction,
        name: &[u8],
        index: u32,
    ) -> Result<(), AllocError> {
        self.begin_named(way, name)?;
        self.bytes.push(FUNCTION_SORT)?;
        put_u32(&mut self.bytes, index)
    }

    /// Imports or exports an instance of the type at an index, and answers the instance's index.
    pub fn declare_instance(
        &mut self,
        way: Direction,
        name: &[u8],
        index: u32,
    ) -> Result<u32, AllocError> {
        self.begin_named(way, name)?;
        self.bytes.push(INSTANCE_SORT)?;
        put_u32(&mut self.bytes, index)?;
        let instance = self.instances;
        self.instances = next(instance)?;
        Ok(instance)
    }

    /// Exports a component of the type at an index.
    pub fn export_component(&mut self, name: &[u8], index: u32) -> Result<(), AllocError> {
        self.begin_named(Direction::Export, name)?;
        self.bytes.push(COMPONENT_SORT)?;
        put_u32(&mut self.bytes, index)
    }

    /// The type that these declarations are, of a kind: its definition.
    pub fn into_type(self, kind: u8) -> Result<Vec<u8>, AllocError> {
        let mut definition = Vec::new(self.alloc);
        definition.push(kind)?;
        put_count(&mut definition, self.count)?;
        definition.extend_from_slice(self.bytes.as_slice())?;
        Ok(definition)
    }
}
