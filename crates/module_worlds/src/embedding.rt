//! Modules with the section of a world.
ghost use Rattle.std.specs.Prelude.{◌≡◌, ◌++◌, ◌⊎◌, ℕ, List, Ok, IfOk, length};
ghost use Rattle.ctype_format.specs.Writing.{section_bytes};
ghost use Rattle.layout.specs.Layout.{layouts_of};
ghost use Rattle.core_modules.specs.Module.{Module, module_view};
ghost use Rattle.core_modules.specs.Sections.{declared_by};
ghost use Rattle.module_worlds.specs.Fits.{ExportsAll};

use crate::encoded_packages::{EncodeError, world_bytes};
use crate::fit::{Findings, Fit};
use crate::misfit::Misfit;
use component_encoding::{EncodeError as Unwritten, order_of, put_custom};
use component_structure::DecodeError;
use core_modules::{CoreModule, read_module};
use layout::Layouts;
use std::alloc::{AllocError, AllocFailed, Global};
use tables::{Resolve, World};
use thiserror::Error;

/// Why a module gets no section.
#[derive(Debug, Drop, Error)]
pub enum EmbedError {
    #[error(transparent)]
    Module(DecodeError),
    #[error(transparent)]
    Encode(EncodeError),
    /// It has the section of another world, of this name.
    #[error("the module has another section `{0}` already")]
    HasSection(String),
    /// It does not fit the world: each way in which it does not.
    #[error("the module does not fit the world")]
    Unfit(Vec<Misfit>),
}

impl From<DecodeError> for EmbedError {
    fn from(error: DecodeError) -> EmbedError {
        EmbedError::Module(error)
    }
}

impl From<EncodeError> for EmbedError {
    fn from(error: EncodeError) -> EmbedError {
        EmbedError::Encode(error)
    }
}

impl From<Unwritten> for EmbedError {
    fn from(error: Unwritten) -> EmbedError {
        EmbedError::Encode(EncodeError::Unwritten(error))
    }
}

impl From<AllocError> for EmbedError {
    fn from(_error: AllocError) -> EmbedError {
        EmbedError::Module(DecodeError::NoMemory)
    }
}

impl<T: Drop> From<AllocFailed<T>> for EmbedError {
    fn from(_error: AllocFailed<T>) -> EmbedError {
        EmbedError::Module(DecodeError::NoMemory)
    }
}

/// A core module, and the world of a table that it is to carry.
#[derive(Clone, Copy)]
pub struct Embedding<'a> {
    pub module: &'a [u8],
    pub tables: &'a Resolve,
    pub layouts: &'a Layouts,
    pub world: &'a World,
}

/// Whether a module has a section of a world: this one. Another one is refused.
fn has_section(alloc: Global, module: &CoreModule<'_>, section: &[u8]) -> Result<bool, EmbedError> {
    let mut is_there = false;
    for custom in &module.customs {
        if custom.name.starts_with("component-type") {
            if custom.content != section {
                return Err(EmbedError::HasSection(String::from_str(alloc, custom.name)?));
            }
            is_there = true;
        }
    }
    Ok(is_there)
}

impl Embedding<'_> {
    /// In which ways the module does not fit the world.
    fn misfits(&self, alloc: Global, module: &CoreModule<'_>) -> Result<Vec<Misfit>, EmbedError>
        ensures { IfOk result (λ misfits. self.now.layouts.now ≡ layouts_of self.now.tables.now
            → length misfits.items ≡ 0
            → ExportsAll (module_view «module».now) self.now.tables.now self.now.world.now.items) }
    {
        let order = order_of(alloc, self.tables, self.world)?;
        let items = self.world.items.as_slice();
        let fit = Fit::new(alloc, module, self.tables, self.layouts)?;
        let mut findings = Findings::new(alloc);
        fit.check_exports(&mut findings, items)?;
        let importable = fit.importable(order.imports.as_slice(), items)?;
        fit.check_imports(&mut findings, &importable)?;
        fit.check_needs(&mut findings)?;
        Ok(findings.misfits)
    }

    /// The bytes of the module, and after them a section with these of a world.
    fn with_section(&self, alloc: Global, section: &[u8]) -> Result<Vec<u8>, AllocError>
        ensures { IfOk result (λ bytes. (content : List ℕ)
            × (bytes.items ≡ self.now.module.now ++ section_bytes 0 content)) }
    {
        let world = self.world.name.as_str();
        let name = format!(in alloc; "component-type:{world}")?;
        let mut bytes = Vec::from_slice(alloc, self.module)?;
        put_custom(alloc, &mut bytes, name.as_str().as_bytes(), section)?;
        Ok(bytes)
    }

    /// The module with a section `component-type:NAME` behind it, of the name of the world, which has what
    /// `world_bytes` writes of the world. A module that has this section already stays as it is. One with another
    /// section whose name begins with `component-type` is refused, and so is one that does not fit the world:
    ///
    /// - It has to export each function of the world, under `f` or under `a:b/c@1.0.0#f`, with the core signature of a
    ///   callee. If it exports `cabi_post_` and that name, it has to take what the function returns.
    /// - It may import functions of the world from `$root`, and functions of the interfaces that the world imports,
    ///   directly or by a `use`, from their full names, with the core signature of a caller. It may import any
    ///   functions from `wasi_snapshot_preview1`, which a linker's adapter has. Nothing else may be imported.
    /// - If a value that crosses has parts in memory, it has to export `memory`. If a caller or a result puts some
    ///   there, it has to export `cabi_realloc`.
    pub fn embedded(&self, alloc: Global) -> Result<Vec<u8>, EmbedError>
        ensures fits { IfOk result (λ _. (m : Module) × (declared_by self.now.module.now ≡ Ok m)
            × (self.now.layouts.now ≡ layouts_of self.now.tables.now
            → ExportsAll m self.now.tables.now self.now.world.now.items)) }
        ensures written { IfOk result (λ bytes. (bytes.items ≡ self.now.module.now)
            ⊎ ((content : List ℕ) × (bytes.items ≡ self.now.module.now ++ section_bytes 0 content))) }
    {
        let module = read_module(alloc, self.module)?;
        let section = world_bytes(alloc, self.tables, self.world)?;
        let misfits = self.misfits(alloc, &module)?;
        if !misfits.as_slice().is_empty() {
            return Err(EmbedError::Unfit(misfits));
        }
        if has_section(alloc, &module, section.as_slice())? {
            return Ok(Vec::from_slice(alloc, self.module)?);
        }
        Ok(self.with_section(alloc, section.as_slice())?)
    }
}
