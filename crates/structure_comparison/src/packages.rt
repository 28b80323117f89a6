//! Packages: components that export each interface and each world.
ghost use Rattle.std.specs.Prelude.{◌≡◌, IsTrue, IfOk};
ghost use Rattle.component_structure.specs.Parts.{structure_view, scope_view};
ghost use Rattle.structure_comparison.specs.InStep.{InStep};
ghost use Rattle.structure_comparison.specs.Packages.{interfaces_of, worlds_of, HoldsInterface, IsInterfaceExport};
ghost use Rattle.structure_comparison.specs.Packages.{IsWorldExportAt, HasPackage};

use crate::interfaces::{Comparison, Manner};
use crate::listed::are_used;
use crate::lookup::{interface_at, scope_at};
use component_encoding::{EncodeError, uses_of};
use component_structure::{Exported, Scope};
use std::alloc::{AllocError, Global};
use tables::{Direction, InterfaceId, PackageId, Resolve};

/// The places of a package's interfaces.
fn interfaces_of(
    alloc: Global,
    resolve: &Resolve,
    package: PackageId,
) -> Result<Vec<usize>, AllocError>
    ensures { IfOk result (λ places. places.items ≡ interfaces_of resolve.now «package») }
{
    let mut places = Vec::new(alloc);
    for (place, interface) in resolve.interfaces.as_slice().iter().enumerate() {
        if interface.package.0 == package.0 {
            places.push(place)?;
        }
    }
    Ok(places)
}

/// The places of a package's worlds.
fn worlds_of(alloc: Global, resolve: &Resolve, package: PackageId) -> Result<Vec<usize>, AllocError>
    ensures { IfOk result (λ places. places.items ≡ worlds_of resolve.now «package») }
{
    let mut places = Vec::new(alloc);
    for (place, world) in resolve.worlds.as_slice().iter().enumerate() {
        if world.package.0 == package.0 {
            places.push(place)?;
        }
    }
    Ok(places)
}

impl Comparison<'_> {
    /// Whether a scope imports what an interface uses, and exports the interface.
    fn holds_interface(&self, id: InterfaceId, scope: &Scope) -> Result<bool, EncodeError>
        ensures { IfOk result (λ holds. IsTrue holds
            → HoldsInterface self.now.resolve.now (structure_view self.now.structure.now) id (scope_view scope.now)) }
    {
        let ids = uses_of(self.alloc, self.resolve, id)?;
        let ids = ids.as_slice();
        let Some((last, used)) = ids.split_last() else {
            return Ok(false);
        };
        let Some((own, imported)) = scope.externs.as_slice().split_last() else {
            return Ok(false);
        };
        if last.0 != id.0 || !are_used(self, ids, used)? {
            return Ok(false);
        }
        let without = Manner {
            way: Direction::Import,
            whole: false,
        };
        let whole = Manner {
            way: Direction::Export,
            whole: true,
        };
        if !self.are_interfaces(without, used, imported)? {
            return Ok(false);
        }
        Ok(self.is_interface_extern(whole, id, own)?)
    }

    /// Whether an export of a file is the interface at a place of the table.
    fn is_interface_export(&self, place: usize, read: &Exported) -> Result<bool, EncodeError>
        ensures { IfOk result (λ is. IsTrue is
            → IsInterfaceExport self.now.resolve.now (structure_view self.now.structure.now) place read.now) }
    {
        let Ok(id) = u32::try_from(place) else {
            return Ok(false);
        };
        let id = InterfaceId(id);
        let Some(interface) = interface_at(self.resolve, id) else {
            return Ok(false);
        };
        let Some(scope) = scope_at(self.structure, read.scope) else {
            return Ok(false);
        };
        if read.name.as_bytes() != interface.name.as_bytes() {
            return Ok(false);
        }
        self.holds_interface(id, scope)
    }

    /// Whether exports of a file are the interfaces at these places of the table.
    fn are_interface_exports(
        &self,
        places: &[usize],
        read: &[Exported],
    ) -> Result<bool, EncodeError>
        ensures { IfOk result (λ are. IsTrue are
            → InStep (IsInterfaceExport self.now.resolve.now (structure_view self.now.structure.now)) places.now
            read.now) }
    {
        if places.len() != read.len() {
            return Ok(false);
        }
        for (index, place) in places.iter().enumerate() {
            if !self.is_interface_export(*place, &read[index])? {
                return Ok(false);
            }
        }
        Ok(true)
    }

    /// Whether an export of a file is the world at a place of the table.
    fn is_world_export_at(&self, place: usize, read: &Exported) -> Result<bool, EncodeError>
        ensures { IfOk result (λ is. IsTrue is
            → IsWorldExportAt self.now.resolve.now (structure_view self.now.structure.now) place read.now) }
    {
        match self.resolve.worlds.as_slice().get(place) {
            Some(world) => self.is_world_export(world, read),
            None => Ok(false),
        }
    }

    /// Whether exports of a file are the worlds at these places of the table.
    fn are_world_exports(&self, places: &[usize], read: &[Exported]) -> Result<bool, EncodeError>
        ensures { IfOk result (λ are. IsTrue are
            → InStep (IsWorldExportAt self.now.resolve.now (structure_view self.now.structure.now)) places.now
            read.now) }
    {
        if places.len() != read.len() {
            return Ok(false);
        }
        for (index, place) in places.iter().enumerate() {
            if !self.is_world_export_at(*place, &read[index])? {
                return Ok(false);
            }
        }
        Ok(true)
    }

    /// Whether what was read is a package.
    pub fn has_package(&self, package: PackageId) -> Result<bool, EncodeError>
        ensures { IfOk result (λ has. IsTrue has
            → HasPackage self.now.resolve.now «package» (structure_view self.now.structure.now)) }
    {
        let interfaces = interfaces_of(self.alloc, self.resolve, package)?;
        let worlds = worlds_of(self.alloc, self.resolve, package)?;
        let Some((first, others)) = self
            .structure
            .exports
            .as_slice()
            .split_at_checked(interfaces.len())
        else {
            return Ok(false);
        };
        if self.structure.is_world || !self.are_interface_exports(interfaces.as_slice(), first)? {
            return Ok(false);
        }
        self.are_world_exports(worlds.as_slice(), others)
    }
}
