//! What a module imports.
ghost use Rattle.std.specs.Prelude.{◌≡◌, length, OnOk};

use crate::fit::{Findings, Fit, function_at, interface_at};
use crate::misfit::Misfit;
use core_modules::Import;
use std::alloc::AllocError;
use std::collections::BTreeMap;
use tables::{Direction, FunctionId, InterfaceId, WorldItem, WorldItemKind};

/// The module name of functions that a world itself imports.
const ROOT: &str = "$root";

/// The module name of functions that an adapter of the linker has.
const ADAPTED: &str = "wasi_snapshot_preview1";

/// The functions of one module name.
type Functions = BTreeMap<String, FunctionId>;

/// The functions that a module may import, by their module names and their own.
#[derive(Drop)]
pub struct Importable {
    modules: BTreeMap<String, Functions>,
}

impl Fit<'_> {
    /// The functions of these rows, by their names.
    fn functions_of(&self, ids: &[FunctionId]) -> Result<Functions, AllocError> {
        let mut functions = BTreeMap::new(self.alloc);
        for id in ids {
            if let Some(function) = function_at(self.tables, *id) {
                let name = String::from_str(self.alloc, function.name.as_str())?;
                functions.insert(name, *id)?;
            }
        }
        Ok(functions)
    }

    /// The functions that a world itself imports.
    fn functions_of_world(&self, items: &[WorldItem]) -> Result<Functions, AllocError> {
        let mut ids = Vec::new(self.alloc);
        for item in items {
            if let WorldItemKind::Function(id) = item.kind
                && item.direction == Direction::Import
            {
                ids.push(id)?;
            }
        }
        self.functions_of(ids.as_slice())
    }

    /// The functions of a world and of the interfaces that it imports.
    pub fn importable(
        &self,
        interfaces: &[InterfaceId],
        items: &[WorldItem],
    ) -> Result<Importable, AllocError> {
        let mut modules = BTreeMap::new(self.alloc);
        for id in interfaces {
            if let Some(interface) = interface_at(self.tables, *id) {
                let functions = self.functions_of(interface.functions.as_slice())?;
                modules.insert(self.name_of(interface)?, functions)?;
            }
        }
        let root = String::from_str(self.alloc, ROOT)?;
        modules.insert(root, self.functions_of_world(items)?)?;
        Ok(Importable { modules })
    }

    /// Notes what a function needs of the module that imports it.
    fn note_import_needs(&self, findings: &mut Findings, id: FunctionId, is_answer_in_memory: bool)
        ensures { findings.new.misfits ≡ findings.old.misfits }
    {
        let gets_blocks = self.has_result_blocks(id);
        let passes_blocks = self.has_parameters_blocks(id) || self.is_spilled(id);
        findings.needs.realloc = findings.needs.realloc || gets_blocks;
        findings.needs.memory = findings.needs.memory
            || gets_blocks
            || passes_blocks
            || is_answer_in_memory;
    }

    /// An import of a function that there is.
    fn check_import(
        &self,
        findings: &mut Findings,
        import: &Import<'_>,
        id: FunctionId,
    ) -> Result<(), AllocError>
        ensures { OnOk result (length findings.new.misfits.items ≡ 0 → length findings.old.misfits.items ≡ 0) }
    {
        if !self.layouts.has_function(id) {
            return Ok(());
        }
        let (lifted, expected) = (self.lifted(id)?, self.lowered(id)?);
        let is_answer_in_memory = expected.results.len() < lifted.results.len();
        self.note_import_needs(findings, id, is_answer_in_memory);
        match self.module.type_of(import.item) {
            Some(found) if !found.is(&expected) => {
                let name = String::from_str(self.alloc, import.name)?;
                let module = String::from_str(self.alloc, import.from)?;
                let found = found.copy(self.alloc)?;
                let misfit = Misfit::OtherImport(name, module, expected, found);
                findings.misfits.push(misfit)?;
                Ok(())
            }
            _ => Ok(()),
        }
    }

    /// An import of a function, of what a module may import.
    fn check_imported(
        &self,
        findings: &mut Findings,
        importable: &Importable,
        import: &Import<'_>,
    ) -> Result<(), AllocError>
        ensures { OnOk result (length findings.new.misfits.items ≡ 0 → length findings.old.misfits.items ≡ 0) }
    {
        let name = String::from_str(self.alloc, import.name)?;
        let module = String::from_str(self.alloc, import.from)?;
        let Some(functions) = importable.modules.get(import.from) else {
            findings.misfits.push(Misfit::NoInterface(name, module))?;
            return Ok(());
        };
        match functions.get(import.name) {
            Some(id) => self.check_import(findings, import, *id),
            None => {
                findings.misfits.push(Misfit::NoFunction(name, module))?;
                Ok(())
            }
        }
    }

    /// What the module imports. What an adapter has is left to the linker.
    pub fn check_imports(
        &self,
        findings: &mut Findings,
        importable: &Importable,
    ) -> Result<(), AllocError>
        ensures { OnOk result (length findings.new.misfits.items ≡ 0 → length findings.old.misfits.items ≡ 0) }
    {
        let module = self.module;
        for import in &module.imports {
            match module.type_of(import.item) {
                Some(_) if import.from == ADAPTED => {}
                Some(_) => self.check_imported(findings, importable, import)?,
                None => {
                    let name = String::from_str(self.alloc, import.name)?;
                    let module = String::from_str(self.alloc, import.from)?;
                    findings.misfits.push(Misfit::NotFunction(name, module))?;
                }
            }
        }
        Ok(())
    }
}
