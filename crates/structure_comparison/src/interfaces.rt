//! Interfaces: instance types, and instances of them that are imported or exported.
ghost use Rattle.std.specs.Prelude.{◌≡◌, IsTrue, IfOk, map};
ghost use Rattle.component_structure.specs.Parts.{structure_view, scope_view, extern_part, instance_view, item_view};
ghost use Rattle.structure_comparison.specs.Types.{site_view};
ghost use Rattle.structure_comparison.specs.Interfaces.{functions_of, HasMembers, IsInterface, IsInstance};
ghost use Rattle.structure_comparison.specs.Interfaces.{IsInstanceItem, IsInterfaceExtern};

use crate::lookup::{instance_at, scope_at};
use crate::pairing::Pairing;
use crate::site::Site;
use crate::types::{are_unnamed, is_instance_of};
use crate::written::are_written;
use component_structure::{Extern, Instance, Scope, Structure, What};
use std::alloc::{AllocError, Global};
use std::collections::BTreeMap;
use tables::{Direction, FunctionId, Interface, InterfaceId, Resolve};

/// A table, and what was read of bytes that were written of it.
#[derive(Clone, Copy)]
pub struct Comparison<'a> {
    pub alloc: Global,
    pub resolve: &'a Resolve,
    pub structure: &'a Structure,
}

/// How an interface is written: which way it crosses, and whether with its functions.
#[derive(Clone, Copy)]
pub struct Manner {
    pub way: Direction,
    pub whole: bool,
}

/// The functions of an interface that are written.
fn functions_of(interface: &Interface, whole: bool) -> &[FunctionId]
    ensures { result.now ≡ functions_of whole interface.now }
{
    if whole {
        interface.functions.as_slice()
    } else {
        &[]
    }
}

/// Whether these are exports of an interface's used names, its types and these functions.
fn has_members(
    site: &Site<'_>,
    interface: &Interface,
    functions: &[FunctionId],
    read: &[Extern],
) -> bool
    ensures { IsTrue result
        → HasMembers (site_view site.now) interface.now functions.now (map extern_part read.now) }
{
    let Some((uses, others)) = read.split_at_checked(interface.uses.len()) else {
        return false;
    };
    let Some((types, others)) = others.split_at_checked(interface.types.len()) else {
        return false;
    };
    if !are_written(site, interface.uses.as_slice(), uses) {
        return false;
    }
    if !are_written(site, interface.types.as_slice(), types) {
        return false;
    }
    are_written(site, functions, others)
}

/// The rows of an interface's used names, types and these functions.
fn rows_of(
    alloc: Global,
    interface: &Interface,
    functions: &[FunctionId],
) -> Result<Vec<u32>, AllocError> {
    let mut rows = Vec::new(alloc);
    for id in interface.uses.as_slice() {
        rows.push(id.0)?;
    }
    for id in interface.types.as_slice() {
        rows.push(id.0)?;
    }
    for id in functions {
        rows.push(id.0)?;
    }
    Ok(rows)
}

impl Comparison<'_> {
    /// The rows without a name that stand in these items, with their definitions.
    pub fn written(
        &self,
        rows: &[u32],
        read: &[Extern],
    ) -> Result<BTreeMap<u32, usize>, AllocError> {
        let mut pairing = Pairing::new(self.alloc, self.resolve, self.structure);
        pairing.meet_items(rows, read)?;
        pairing.written()
    }

    /// Whether a scope is an interface, whole or without its functions.
    fn is_interface(&self, whole: bool, id: InterfaceId, scope: &Scope) -> Result<bool, AllocError>
        ensures { IfOk result (λ is. IsTrue is
            → IsInterface self.now.resolve.now (structure_view self.now.structure.now) whole id (scope_view
            scope.now)) }
    {
        let Some(interface) = self.resolve.interfaces.as_slice().get(id.0 as usize) else {
            return Ok(false);
        };
        let functions = functions_of(interface, whole);
        let rows = rows_of(self.alloc, interface, functions)?;
        let read = scope.externs.as_slice();
        let site = Site {
            resolve: self.resolve,
            structure: self.structure,
            scope: scope.number,
            interface: Some(id),
            way: Direction::Export,
            written: self.written(rows.as_slice(), read)?,
        };
        Ok(are_unnamed(&site) && has_members(&site, interface, functions, read))
    }

    /// Whether an instance is an interface that crosses this way.
    fn is_instance(
        &self,
        manner: Manner,
        id: InterfaceId,
        read: &Instance,
    ) -> Result<bool, AllocError>
        ensures { IfOk result (λ is. IsTrue is
            → IsInstance self.now.resolve.now (structure_view self.now.structure.now) manner.way manner.whole id
            (instance_view read.now)) }
    {
        if read.direction != manner.way || !is_instance_of(self.resolve, id, read) {
            return Ok(false);
        }
        match scope_at(self.structure, read.scope) {
            Some(scope) => self.is_interface(manner.whole, id, scope),
            None => Ok(false),
        }
    }

    /// Whether an item is an instance of an interface that crosses this way.
    fn is_instance_item(
        &self,
        manner: Manner,
        id: InterfaceId,
        read: &What,
    ) -> Result<bool, AllocError>
        ensures { IfOk result (λ is. IsTrue is
            → IsInstanceItem self.now.resolve.now (structure_view self.now.structure.now) manner.way manner.whole id
            (item_view read.now)) }
    {
        let What::Instance(instance) = read else {
            return Ok(false);
        };
        match instance_at(self.structure, *instance) {
            Some(instance) => self.is_instance(manner, id, instance),
            None => Ok(false),
        }
    }

    /// Whether an interface is imported or exported under its full name.
    pub fn is_interface_extern(
        &self,
        manner: Manner,
        id: InterfaceId,
        read: &Extern,
    ) -> Result<bool, AllocError>
        ensures { IfOk result (λ is. IsTrue is
            → IsInterfaceExtern self.now.resolve.now (structure_view self.now.structure.now) manner.way manner.whole id
            (extern_part read.now)) }
    {
        if read.direction != manner.way {
            return Ok(false);
        }
        self.is_instance_item(manner, id, &read.what)
    }
}
