//! The functions that a module has to export for a world, and their names there.
ghost use Rattle.std.specs.Prelude.{◌≡◌, ◌++◌, ◌∷◌, [], string_bytes, IfOk, OnOk, map, flat_map, slice_get};
ghost use Rattle.tables.specs.Names.{full_name};
ghost use Rattle.module_worlds.specs.Fits.{exports_of_item, exports_of_kind, functions_of, named_function};
ghost use Rattle.module_worlds.specs.Fits.{required_exports, required_view};

use crate::fit::{function_at, interface_at};
use component_encoding::full_name;
use std::alloc::{AllocError, Global};
use tables::{Direction, FunctionId, Interface, InterfaceId, Resolve, WorldItem, WorldItemKind};

/// A function of the table that a module has to export under a name.
#[derive(Drop)]
pub struct Required {
    pub name: String,
    pub id: FunctionId,
}

/// The table of a world.
#[derive(Clone, Copy)]
pub struct Tables<'a> {
    pub alloc: Global,
    pub resolve: &'a Resolve,
}

impl Tables<'_> {
    /// Appends a function, under its label behind a text.
    fn push_function(
        &self,
        required: &mut Vec<Required>,
        front: &str,
        id: FunctionId,
    ) -> Result<(), AllocError>
        ensures { OnOk result (map required_view required.new.items
            ≡ map required_view required.old.items ++ named_function self.now.resolve.now front.now id) }
    {
        let Some(function) = function_at(self.resolve, id) else {
            return Ok(());
        };
        let mut name = String::from_str(self.alloc, front)?;
        name.push_str(function.name.as_str())?;
        required.push(Required { name, id })?;
        Ok(())
    }

    /// Appends functions, each under its label behind a text.
    fn push_functions(
        &self,
        required: &mut Vec<Required>,
        front: &str,
        ids: &[FunctionId],
    ) -> Result<(), AllocError>
        ensures { OnOk result (map required_view required.new.items ≡ map required_view required.old.items
            ++ flat_map (named_function self.now.resolve.now front.now) ids.now) }
    {
        for id in ids {
            self.push_function(required, front, *id)?;
        }
        Ok(())
    }

    /// What stands before the labels of an interface's functions.
    fn front_of(&self, interface: &Interface) -> Result<String, AllocError>
        ensures { IfOk result (λ front. string_bytes front ≡ full_name self.now.resolve.now interface.now ++ 35 ∷ []) }
    {
        let name = full_name(self.alloc, self.resolve, interface.package, &interface.name)?;
        let mut front = String::from_str(self.alloc, name.as_str())?;
        front.push('#')?;
        Ok(front)
    }

    /// Appends the functions of an interface.
    fn push_interface(
        &self,
        required: &mut Vec<Required>,
        id: InterfaceId,
    ) -> Result<(), AllocError>
        ensures { OnOk result (map required_view required.new.items ≡ map required_view required.old.items
            ++ functions_of self.now.resolve.now (slice_get self.now.resolve.now.interfaces id.0)) }
    {
        match interface_at(self.resolve, id) {
            Some(interface) => {
                let front = self.front_of(interface)?;
                self.push_functions(required, front.as_str(), interface.functions.as_slice())
            }
            None => Ok(()),
        }
    }

    /// Appends the functions of an item that a world exports.
    fn push_kind(&self, required: &mut Vec<Required>, kind: WorldItemKind) -> Result<(), AllocError>
        ensures { OnOk result (map required_view required.new.items
            ≡ map required_view required.old.items ++ exports_of_kind self.now.resolve.now kind) }
    {
        match kind {
            WorldItemKind::Function(id) => self.push_function(required, "", id),
            WorldItemKind::Interface(id) => self.push_interface(required, id),
        }
    }

    /// Appends the functions of an item of a world, if it is exported.
    fn push_item(&self, required: &mut Vec<Required>, item: WorldItem) -> Result<(), AllocError>
        ensures { OnOk result (map required_view required.new.items ≡ map required_view required.old.items
            ++ exports_of_item self.now.resolve.now item.direction item.kind) }
    {
        match item.direction {
            Direction::Import => Ok(()),
            Direction::Export => self.push_kind(required, item.kind),
        }
    }

    /// The functions that a world of these items exports.
    pub fn required(&self, items: &[WorldItem]) -> Result<Vec<Required>, AllocError>
        ensures { IfOk result (λ required. map required_view required.items
            ≡ required_exports self.now.resolve.now items.now) }
    {
        let mut required = Vec::new(self.alloc);
        for item in items {
            self.push_item(&mut required, *item)?;
        }
        Ok(required)
    }
}
