//! What a module exports.
ghost use Rattle.std.specs.Prelude.{◌≡◌, Some, true, length, IfOk, OnOk};
ghost use Rattle.std.specs.List.{All};
ghost use Rattle.layout.specs.Layout.{layouts_of};
ghost use Rattle.core_modules.specs.Module.{function_view, module_view, exported_as, type_exported};
ghost use Rattle.module_worlds.specs.Fits.{ExportsAll, ExportsAs, required_view};

use crate::fit::{Findings, Fit};
use crate::misfit::Misfit;
use crate::required::{Required, Tables};
use core_modules::{CoreType, FunctionType};
use std::alloc::{AllocError, Global};
use tables::{FunctionId, WorldItem};

/// The allocator of a module: the address and the length of a block, the alignment, and the length that is wanted.
const REALLOC: &str = "cabi_realloc";

/// What a module runs when it begins.
const INITIALIZE: &str = "_initialize";

/// A function that is exported with another type than is expected.
fn other_export(
    alloc: Global,
    name: &str,
    expected: FunctionType,
    found: &FunctionType,
) -> Result<Misfit, AllocError> {
    let name = String::from_str(alloc, name)?;
    Ok(Misfit::OtherExport(name, expected, found.copy(alloc)?))
}

impl Fit<'_> {
    /// A function that the module may export under a name. True if it exports something there.
    fn check_optional(
        &self,
        findings: &mut Findings,
        name: &str,
        expected: FunctionType,
    ) -> Result<bool, AllocError>
        ensures before { IfOk result (λ _. length findings.new.misfits.items ≡ 0
            → length findings.old.misfits.items ≡ 0) }
        ensures fits { IfOk result (λ is_there. length findings.new.misfits.items ≡ 0 → is_there ≡ true
            → type_exported (module_view self.now.module.now) (exported_as (module_view self.now.module.now) name.now)
            ≡ Some (function_view expected)) }
    {
        match self.module.exported_function(name) {
            Some(found) if found.is(&expected) => Ok(true),
            Some(found) => {
                let misfit = other_export(self.alloc, name, expected, found)?;
                findings.misfits.push(misfit)?;
                Ok(true)
            }
            None => Ok(false),
        }
    }

    /// A function that the module has to export under a name.
    fn check_required(
        &self,
        findings: &mut Findings,
        name: &str,
        expected: FunctionType,
    ) -> Result<(), AllocError>
        ensures before { OnOk result (length findings.new.misfits.items ≡ 0
            → length findings.old.misfits.items ≡ 0) }
        ensures fits { OnOk result (length findings.new.misfits.items ≡ 0
            → type_exported (module_view self.now.module.now) (exported_as (module_view self.now.module.now) name.now)
            ≡ Some (function_view expected)) }
    {
        let copy = expected.copy(self.alloc)?;
        if !self.check_optional(findings, name, expected)? {
            let name = String::from_str(self.alloc, name)?;
            findings.misfits.push(Misfit::NoExport(name, copy))?;
        }
        Ok(())
    }

    /// Notes what a function needs that the module exports: memory for parts of values, for parameters and for a result
    /// in memory, and an allocator for what a caller puts there.
    fn note_export_needs(&self, findings: &mut Findings, id: FunctionId, is_answer_in_memory: bool)
        ensures { findings.new.misfits ≡ findings.old.misfits }
    {
        let takes_blocks = self.has_parameters_blocks(id) || self.is_spilled(id);
        let gives_blocks = self.has_result_blocks(id) || is_answer_in_memory;
        findings.needs.realloc = findings.needs.realloc || takes_blocks;
        findings.needs.memory = findings.needs.memory || takes_blocks || gives_blocks;
    }

    /// A function of the world, which the module has to export, and what it may export to free the result.
    fn check_export(&self, findings: &mut Findings, export: &Required) -> Result<(), AllocError>
        ensures before { OnOk result (length findings.new.misfits.items ≡ 0
            → length findings.old.misfits.items ≡ 0) }
        ensures fits { OnOk result (self.now.layouts.now ≡ layouts_of self.now.tables.now
            → length findings.new.misfits.items ≡ 0
            → ExportsAs (module_view self.now.module.now) self.now.tables.now (required_view export.now)) }
    {
        if !self.layouts.has_function(export.id) {
            return Ok(());
        }
        let (expected, lowered) = (self.lifted(export.id)?, self.lowered(export.id)?);
        let is_answer_in_memory = lowered.results.len() < expected.results.len();
        self.note_export_needs(findings, export.id, is_answer_in_memory);
        let post_return = FunctionType::of(self.alloc, expected.results.as_slice(), &[])?;
        let name = export.name.as_str();
        self.check_required(findings, name, expected)?;
        let post_name = format!(in self.alloc; "cabi_post_{name}")?;
        self.check_optional(findings, post_name.as_str(), post_return)?;
        Ok(())
    }

    /// Functions of the world, each of which the module has to export.
    fn check_all(&self, findings: &mut Findings, exports: &[Required]) -> Result<(), AllocError>
        ensures before { OnOk result (length findings.new.misfits.items ≡ 0
            → length findings.old.misfits.items ≡ 0) }
        ensures fits { OnOk result (self.now.layouts.now ≡ layouts_of self.now.tables.now
            → length findings.new.misfits.items ≡ 0
            → All (λ e. ExportsAs (module_view self.now.module.now) self.now.tables.now (required_view e))
            exports.now) }
    {
        for export in exports {
            self.check_export(findings, export)?;
        }
        Ok(())
    }

    /// The functions that a world exports.
    pub fn check_exports(
        &self,
        findings: &mut Findings,
        items: &[WorldItem],
    ) -> Result<(), AllocError>
        ensures before { OnOk result (length findings.new.misfits.items ≡ 0
            → length findings.old.misfits.items ≡ 0) }
        ensures fits { OnOk result (self.now.layouts.now ≡ layouts_of self.now.tables.now
            → length findings.new.misfits.items ≡ 0
            → ExportsAll (module_view self.now.module.now) self.now.tables.now items.now) }
    {
        let tables = Tables {
            alloc: self.alloc,
            resolve: self.tables,
        };
        let exports = tables.required(items)?;
        self.check_all(findings, exports.as_slice())?;
        Ok(())
    }

    /// The allocator, the memory and what runs first, each of which the module may have, or has to.
    pub fn check_needs(&self, findings: &mut Findings) -> Result<(), AllocError>
        ensures before { OnOk result (length findings.new.misfits.items ≡ 0
            → length findings.old.misfits.items ≡ 0) }
    {
        let alloc = self.alloc;
        let sizes = [CoreType::I32, CoreType::I32, CoreType::I32, CoreType::I32];
        let realloc = FunctionType::of(alloc, sizes.as_slice(), &[CoreType::I32])?;
        if findings.needs.realloc {
            self.check_required(findings, REALLOC, realloc)?;
        } else {
            self.check_optional(findings, REALLOC, realloc)?;
        }
        self.check_optional(findings, INITIALIZE, FunctionType::of(alloc, &[], &[])?)?;
        if findings.needs.memory && !self.module.has_memory("memory") {
            findings.misfits.push(Misfit::NoMemory)?;
        }
        Ok(())
    }
}
