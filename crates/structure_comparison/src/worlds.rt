//! Worlds: component types, and components that export them.
ghost use Rattle.std.specs.Prelude.{◌≡◌, IsTrue, IfOk, map};
ghost use Rattle.component_structure.specs.Parts.{structure_view, scope_view, extern_part, item_view};
ghost use Rattle.structure_comparison.specs.InStep.{InStep};
ghost use Rattle.structure_comparison.specs.Interfaces.{IsInterfaceExtern};
ghost use Rattle.structure_comparison.specs.Worlds.{HasFunctions, function_in, functions_that, HasItems, IsWorldType};
ghost use Rattle.structure_comparison.specs.Worlds.{IsWorldItem, HoldsWorld, IsWorldExport, IsWorldExtern, HasWorld};

use crate::interfaces::{Comparison, Manner};
use crate::listed::are_of_world;
use crate::lookup::scope_at;
use crate::names::is_full_name;
use crate::site::Site;
use crate::types::are_unnamed;
use crate::written::are_written;
use component_encoding::{EncodeError, Order, order_of};
use component_structure::{Exported, Extern, Scope, What};
use std::alloc::{AllocError, Global};
use tables::{Direction, FunctionId, InterfaceId, World, WorldItem, WorldItemKind};

/// A border of a world: which way functions cross it, and the number of the scope that they stand in.
#[derive(Clone, Copy)]
struct Border {
    way: Direction,
    scope: usize,
}

/// The function that an item is, if it crosses this way.
fn function_in(way: Direction, item: WorldItem) -> Option<FunctionId>
    ensures { result ≡ function_in way item.direction item.kind }
{
    match (way, item.direction, item.kind) {
        (Direction::Import, Direction::Import, WorldItemKind::Function(id)) => Some(id),
        (Direction::Export, Direction::Export, WorldItemKind::Function(id)) => Some(id),
        _ => None,
    }
}

/// The functions of a world that cross its border this way, in order.
fn functions_that(
    alloc: Global,
    way: Direction,
    items: &[WorldItem],
) -> Result<Vec<FunctionId>, AllocError>
    ensures { IfOk result (λ ids. ids.items ≡ functions_that way items.now) }
{
    items
        .iter()
        .filter_map(|item| function_in(way, *item))
        .collect(alloc)
}

impl Comparison<'_> {
    /// Whether these are imports or exports of interfaces, in order.
    pub fn are_interfaces(
        &self,
        manner: Manner,
        ids: &[InterfaceId],
        read: &[Extern],
    ) -> Result<bool, AllocError>
        ensures { IfOk result (λ are. IsTrue are
            → InStep (IsInterfaceExtern self.now.resolve.now (structure_view self.now.structure.now) manner.way
            manner.whole)
            ids.now (map extern_part read.now)) }
    {
        if ids.len() != read.len() {
            return Ok(false);
        }
        for (place, id) in ids.iter().enumerate() {
            if !self.is_interface_extern(manner, *id, &read[place])? {
                return Ok(false);
            }
        }
        Ok(true)
    }

    /// Whether these are functions of a world that are imported or exported.
    fn are_functions(
        &self,
        border: Border,
        functions: &[FunctionId],
        read: &[Extern],
    ) -> Result<bool, AllocError>
        ensures { IfOk result (λ are. IsTrue are
            → HasFunctions self.now.resolve.now (structure_view self.now.structure.now) border.way border.scope
            functions.now (map extern_part read.now)) }
    {
        let rows: Vec<u32> = functions.iter().map(|id| id.0).collect(self.alloc)?;
        let site = Site {
            resolve: self.resolve,
            structure: self.structure,
            scope: border.scope,
            interface: None,
            way: border.way,
            written: self.written(rows.as_slice(), read)?,
        };
        if !are_unnamed(&site) {
            return Ok(false);
        }
        Ok(are_written(&site, functions, read))
    }

    /// Whether a scope imports and exports these interfaces, and the functions of the world.
    fn has_items(&self, world: &World, order: &Order<'_>, scope: &Scope) -> Result<bool, AllocError>
        ensures { IfOk result (λ has. IsTrue has
            → HasItems self.now.resolve.now (structure_view self.now.structure.now) world.now order.now.imports.items
            order.now.exports.items (scope_view scope.now)) }
    {
        let items = world.items.as_slice();
        let imports = functions_that(self.alloc, Direction::Import, items)?;
        let exports = functions_that(self.alloc, Direction::Export, items)?;
        let read = scope.externs.as_slice();
        let Some((imported, rest)) = read.split_at_checked(order.imports.len()) else {
            return Ok(false);
        };
        let Some((imported_functions, rest)) = rest.split_at_checked(imports.len()) else {
            return Ok(false);
        };
        let Some((exported_functions, exported)) = rest.split_at_checked(exports.len()) else {
            return Ok(false);
        };
        let inward = Manner {
            way: Direction::Import,
            whole: true,
        };
        let outward = Manner {
            way: Direction::Export,
            whole: true,
        };
        let within = Border {
            way: Direction::Import,
            scope: scope.number,
        };
        let without = Border {
            way: Direction::Export,
            scope: scope.number,
        };
        if !self.are_interfaces(inward, order.imports.as_slice(), imported)? {
            return Ok(false);
        }
        if !self.are_functions(within, imports.as_slice(), imported_functions)? {
            return Ok(false);
        }
        if !self.are_functions(without, exports.as_slice(), exported_functions)? {
            return Ok(false);
        }
        self.are_interfaces(outward, order.exports.as_slice(), exported)
    }

    /// Whether a scope is the component type of a world.
    fn is_world_type(&self, world: &World, scope: &Scope) -> Result<bool, EncodeError>
        ensures { IfOk result (λ is. IsTrue is
            → IsWorldType self.now.resolve.now (structure_view self.now.structure.now) world.now (scope_view
            scope.now)) }
    {
        let order = order_of(self.alloc, self.resolve, world)?;
        if !are_of_world(
            self,
            world,
            order.imports.as_slice(),
            order.exports.as_slice(),
        )? {
            return Ok(false);
        }
        Ok(self.has_items(world, &order, scope)?)
    }

    /// Whether an item is a component of the world's type under its full name.
    fn is_world_item(&self, world: &World, read: &What) -> Result<bool, EncodeError>
        ensures { IfOk result (λ is. IsTrue is
            → IsWorldItem self.now.resolve.now (structure_view self.now.structure.now) world.now (item_view read.now)) }
    {
        let What::Component { name, scope } = read else {
            return Ok(false);
        };
        if !is_full_name(self.resolve, world.package, &world.name, name) {
            return Ok(false);
        }
        match scope_at(self.structure, *scope) {
            Some(scope) => self.is_world_type(world, scope),
            None => Ok(false),
        }
    }

    /// Whether a scope exports a world, and has nothing else.
    fn holds_world(&self, world: &World, scope: &Scope) -> Result<bool, EncodeError>
        ensures { IfOk result (λ holds. IsTrue holds
            → HoldsWorld self.now.resolve.now (structure_view self.now.structure.now) world.now (scope_view
            scope.now)) }
    {
        match scope.externs.as_slice() {
            [read] if read.direction == Direction::Export => self.is_world_item(world, &read.what),
            _ => Ok(false),
        }
    }

    /// Whether an export of a file is a world.
    pub fn is_world_export(&self, world: &World, read: &Exported) -> Result<bool, EncodeError>
        ensures { IfOk result (λ is. IsTrue is
            → IsWorldExport self.now.resolve.now (structure_view self.now.structure.now) world.now read.now) }
    {
        if read.name.as_bytes() != world.name.as_bytes() {
            return Ok(false);
        }
        match scope_at(self.structure, read.scope) {
            Some(scope) => self.holds_world(world, scope),
            None => Ok(false),
        }
    }

    /// Whether what was read is a world.
    pub fn has_world(&self, world: &World) -> Result<bool, EncodeError>
        ensures { IfOk result (λ has. IsTrue has
            → HasWorld self.now.resolve.now world.now (structure_view self.now.structure.now)) }
    {
        match self.structure.exports.as_slice() {
            [read] if self.structure.is_world => self.is_world_export(world, read),
            _ => Ok(false),
        }
    }
}
