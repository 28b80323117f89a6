//! The component type around the instance types of interfaces: of a world, or of one interface with what it uses.

use crate::definitions::{definition_of, signature_of};
use crate::error::EncodeError;
use crate::order::{order_of, uses_of};
use crate::scope::{COMPONENT_TYPE, INSTANCE_TYPE, Scope};
use crate::spelling::full_name;
use std::alloc::{AllocError, Global};
use std::collections::BTreeMap;
use tables::{
    Definition, Direction, FunctionId, Interface, InterfaceId, Resolve, TypeDef, TypeDefKind,
    TypeId, TypeName, ValType, World, WorldItem, WorldItemKind,
};

/// How much of an interface is written.
#[derive(Clone, Copy)]
enum Extent {
    Whole,
    Types,
}

/// A component type that is made.
#[derive(Drop)]
struct Holder<'a> {
    alloc: Global,
    resolve: &'a Resolve,
    scope: Scope,
    /// The number of the latest instance of each interface.
    instances: BTreeMap<u32, u32>,
}

fn type_at(resolve: &Resolve, place: u32) -> Option<&TypeDef> {
    match resolve.definitions.as_slice().get(place as usize) {
        Some(Definition::Type(definition)) => Some(definition),
        _ => None,
    }
}

fn name_at(resolve: &Resolve, id: TypeId) -> Option<&TypeName> {
    match type_at(resolve, id.0) {
        Some(definition) => definition.name.as_ref(),
        None => None,
    }
}

fn is_unnamed(resolve: &Resolve, place: u32) -> bool {
    match type_at(resolve, place) {
        Some(definition) => definition.name.is_none(),
        None => false,
    }
}

/// The first of the types without a name that stand directly before a row: it is made of them.
fn first_part(resolve: &Resolve, place: u32) -> u32 {
    let mut first = place;
    while first > 0 && is_unnamed(resolve, first - 1) {
        first -= 1;
    }
    first
}

/// Defines the types without a name that a row is made of, as far as the scope has no equal ones.
fn share_parts(resolve: &Resolve, scope: &mut Scope, place: u32) -> Result<(), AllocError> {
    for part in first_part(resolve, place)..place {
        if let Some(part_type) = type_at(resolve, part) {
            let definition = definition_of(scope, &part_type.kind)?;
            let index = scope.share(definition)?;
            scope.note(TypeId(part), index)?;
        }
    }
    Ok(())
}

/// Declares a function.
fn put_function(
    resolve: &Resolve,
    scope: &mut Scope,
    way: Direction,
    id: FunctionId,
) -> Result<(), AllocError> {
    if let Some(Definition::Function(function)) = resolve
        .definitions
        .as_slice()
        .get(id.0 as usize)
    {
        share_parts(resolve, scope, id.0)?;
        let definition = signature_of(scope, function)?;
        let index = scope.share(definition)?;
        scope.declare_function(way, function.name.as_bytes(), index)?;
    }
    Ok(())
}

/// Exports an interface's functions.
fn export_functions(
    resolve: &Resolve,
    own: &mut Scope,
    functions: &[FunctionId],
) -> Result<(), AllocError> {
    for id in functions {
        put_function(resolve, own, Direction::Export, *id)?;
    }
    Ok(())
}

impl<'a> Holder<'a> {
    fn new(alloc: Global, resolve: &'a Resolve) -> Holder<'a> {
        Holder {
            alloc,
            resolve,
            scope: Scope::new(alloc),
            instances: BTreeMap::new(alloc),
        }
    }

    /// The index of a type of another interface, of which there is one alias in the component type.
    fn outer_index(&mut self, target: TypeId) -> Result<u32, AllocError> {
        if let Some(index) = self.scope.known(target) {
            return Ok(index);
        }
        let Some(name) = name_at(self.resolve, target) else {
            return Ok(0);
        };
        let instance = self.instances.get(&name.interface.0).copied().unwrap_or(0);
        let index = self.scope.alias_export(instance, &name.name)?;
        self.scope.note(target, index)?;
        Ok(index)
    }

    /// The index of a type of another interface in an instance type, which has one alias of it.
    fn used_index(&mut self, own: &mut Scope, target: TypeId) -> Result<u32, AllocError> {
        if let Some(index) = own.known(target) {
            return Ok(index);
        }
        let outer = self.outer_index(target)?;
        let index = own.alias_outer(outer)?;
        own.note(target, index)?;
        Ok(index)
    }

    /// The index of what a named type is.
    fn index_of(&mut self, own: &mut Scope, kind: &TypeDefKind) -> Result<u32, AllocError> {
        match kind {
            TypeDefKind::Use(target) => self.used_index(own, *target),
            TypeDefKind::Alias(ValType::Id(id)) => Ok(own.known(*id).unwrap_or(0)),
            _ => {
                let definition = definition_of(own, kind)?;
                own.define(definition.as_slice())
            }
        }
    }

    /// Exports a named type. It is referred to by the index of the export.
    fn export_type(&mut self, own: &mut Scope, id: TypeId) -> Result<(), AllocError> {
        let resolve = self.resolve;
        if let Some(named) = type_at(resolve, id.0)
            && let Some(name) = &named.name
        {
            share_parts(resolve, own, id.0)?;
            let index = self.index_of(own, &named.kind)?;
            let export = own.export_type(name.name.as_bytes(), index)?;
            own.note(id, export)?;
        }
        Ok(())
    }

    fn export_types(&mut self, own: &mut Scope, types: &[TypeId]) -> Result<(), AllocError> {
        for id in types {
            self.export_type(own, *id)?;
        }
        Ok(())
    }

    /// The instance type of an interface.
    fn instance_type(
        &mut self,
        interface: &Interface,
        extent: Extent,
    ) -> Result<Vec<u8>, AllocError> {
        let mut own = Scope::new(self.alloc);
        self.export_types(&mut own, interface.uses.as_slice())?;
        self.export_types(&mut own, interface.types.as_slice())?;
        if let Extent::Whole = extent {
            export_functions(self.resolve, &mut own, interface.functions.as_slice())?;
        }
        own.into_type(INSTANCE_TYPE)
    }

    /// Imports or exports an interface.
    fn put_interface(
        &mut self,
        way: Direction,
        id: InterfaceId,
        extent: Extent,
    ) -> Result<(), AllocError> {
        let resolve = self.resolve;
        if let Some(interface) = resolve.interfaces.as_slice().get(id.0 as usize) {
            let definition = self.instance_type(interface, extent)?;
            let index = self.scope.define(definition.as_slice())?;
            let name = full_name(self.alloc, resolve, interface.package, &interface.name)?;
            let name = name.as_str().as_bytes();
            let instance = self.scope.declare_instance(way, name, index)?;
            self.instances.insert(id.0, instance)?;
        }
        Ok(())
    }

    fn put_interfaces(&mut self, way: Direction, ids: &[InterfaceId]) -> Result<(), AllocError> {
        for id in ids {
            self.put_interface(way, *id, Extent::Whole)?;
        }
        Ok(())
    }

    /// Imports an interface that another one uses, without its functions, or exports one that is looked for.
    fn put_used(&mut self, wanted: InterfaceId, id: InterfaceId) -> Result<(), AllocError> {
        if id == wanted {
            self.put_interface(Direction::Export, id, Extent::Whole)
        } else {
            self.put_interface(Direction::Import, id, Extent::Types)
        }
    }

    /// Declares the functions of a world that cross its border this way.
    fn put_functions(&mut self, way: Direction, items: &[WorldItem]) -> Result<(), AllocError> {
        for item in items {
            if let WorldItemKind::Function(id) = item.kind
                && item.direction == way
            {
                put_function(self.resolve, &mut self.scope, way, id)?;
            }
        }
        Ok(())
    }
}

/// The component type of a world: its imports, interfaces first, and then its exports, functions first.
fn world_type(alloc: Global, resolve: &Resolve, world: &World) -> Result<Vec<u8>, EncodeError> {
    let order = order_of(alloc, resolve, world)?;
    let items = world.items.as_slice();
    let mut holder = Holder::new(alloc, resolve);
    holder.put_interfaces(Direction::Import, order.imports.as_slice())?;
    holder.put_functions(Direction::Import, items)?;
    holder.put_functions(Direction::Export, items)?;
    holder.put_interfaces(Direction::Export, order.exports.as_slice())?;
    Ok(holder.scope.into_type(COMPONENT_TYPE)?)
}

/// The component type that exports a world under its full name.
pub fn exported_world(
    alloc: Global,
    resolve: &Resolve,
    world: &World,
) -> Result<Vec<u8>, EncodeError> {
    let definition = world_type(alloc, resolve, world)?;
    let mut scope = Scope::new(alloc);
    let index = scope.define(definition.as_slice())?;
    let name = full_name(alloc, resolve, world.package, &world.name)?;
    scope.export_component(name.as_str().as_bytes(), index)?;
    Ok(scope.into_type(COMPONENT_TYPE)?)
}

/// The component type that exports an interface, and imports those that it uses.
pub fn exported_interface(
    alloc: Global,
    resolve: &Resolve,
    interface: InterfaceId,
) -> Result<Vec<u8>, EncodeError> {
    let ids = uses_of(alloc, resolve, interface)?;
    let mut holder = Holder::new(alloc, resolve);
    for id in &ids {
        holder.put_used(interface, *id)?;
    }
    Ok(holder.scope.into_type(COMPONENT_TYPE)?)
}
