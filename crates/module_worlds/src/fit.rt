//! What is checked of a module.
ghost use Rattle.std.specs.Prelude.{◌≡◌, ◌<◌, ◌≤◌, length, map, Some, None, IfOk, MatchOption, slice_get};
ghost use Rattle.canonical_abi.specs.Layout.{lifted_signature, lowered_signature};
ghost use Rattle.layout.specs.Layout.{core_signature_of, layouts_of};
ghost use Rattle.tables.specs.Closed.{function_at, function_type, IsFunction};
ghost use Rattle.core_modules.specs.Module.{function_view};
ghost use Rattle.module_worlds.specs.Fits.{core_type_of, core_function};

use crate::blocks::{has_blocks, rows_with_blocks};
use crate::misfit::Misfit;
use component_encoding::full_name;
use core_modules::{CoreModule, CoreType, FunctionType};
use layout::{CoreKind, CoreSignature, Layouts};
use std::alloc::{AllocError, Global};
use tables::{Definition, Function, FunctionId, Interface, InterfaceId, Resolve, TypeId, ValType};

/// What the functions that cross need of a module.
#[derive(Clone, Copy)]
pub struct Needs {
    pub memory: bool,
    pub realloc: bool,
}

/// What was found of a module so far.
#[derive(Drop)]
pub struct Findings {
    pub needs: Needs,
    pub misfits: Vec<Misfit>,
}

/// A module, and the tables of the world that it is to fit.
#[derive(Drop)]
pub struct Fit<'a> {
    pub alloc: Global,
    pub module: &'a CoreModule<'a>,
    pub tables: &'a Resolve,
    pub layouts: &'a Layouts,
    /// Of each row of the tables, whether its values have parts elsewhere in memory.
    pub blocks: Vec<bool>,
}

fn core_type(kind: CoreKind) -> CoreType
    ensures { result ≡ core_type_of kind }
{
    match kind {
        CoreKind::I32 => CoreType::I32,
        CoreKind::I64 => CoreType::I64,
    }
}

/// The types of core values of these kinds.
fn core_types(alloc: Global, kinds: &[CoreKind]) -> Result<Vec<CoreType>, AllocError>
    ensures { IfOk result (λ types. types.items ≡ map core_type_of kinds.now) }
{
    let mut types = Vec::new(alloc);
    for kind in kinds {
        types.push(core_type(*kind))?;
    }
    Ok(types)
}

/// The type of a core function of a signature.
fn function_type(alloc: Global, signature: &CoreSignature) -> Result<FunctionType, AllocError>
    ensures { IfOk result (λ t. function_view t ≡ core_function (core_signature_of signature.now)) }
{
    let params = core_types(alloc, signature.params.as_slice())?;
    let mut results = Vec::new(alloc);
    if let Some(kind) = signature.result {
        results.push(core_type(kind))?;
    }
    Ok(FunctionType { params, results })
}

/// The function of a row.
pub fn function_at(tables: &Resolve, id: FunctionId) -> Option<&Function>
    ensures { MatchOption result (function_at tables.now id ≡ None) (λ f. function_at tables.now id ≡ Some f.now) }
{
    match tables.definitions.as_slice().get(id.0 as usize) {
        Some(Definition::Function(function)) => Some(function),
        _ => None,
    }
}

/// An interface of the tables.
pub fn interface_at(tables: &Resolve, id: InterfaceId) -> Option<&Interface>
    ensures { MatchOption result (slice_get tables.now.interfaces id.0 ≡ None)
        (λ i. slice_get tables.now.interfaces id.0 ≡ Some i.now) }
{
    tables.interfaces.as_slice().get(id.0 as usize)
}

impl Findings {
    /// Nothing is checked yet.
    pub fn new(alloc: Global) -> Findings
        ensures { length result.misfits.items ≡ 0 }
    {
        Findings {
            needs: Needs {
                memory: false,
                realloc: false,
            },
            misfits: Vec::new(alloc),
        }
    }
}

impl<'a> Fit<'a> {
    /// A module and the tables of a world.
    pub fn new(
        alloc: Global,
        module: &'a CoreModule<'a>,
        tables: &'a Resolve,
        layouts: &'a Layouts,
    ) -> Result<Fit<'a>, AllocError>
        ensures same_module { IfOk result (λ fit. fit.module.now ≡ «module».now) }
        ensures same_tables { IfOk result (λ fit. fit.tables.now ≡ tables.now) }
        ensures same_layouts { IfOk result (λ fit. fit.layouts.now ≡ layouts.now) }
    {
        Ok(Fit {
            alloc,
            module,
            tables,
            layouts,
            blocks: rows_with_blocks(alloc, tables)?,
        })
    }

    /// The full name of an interface.
    pub fn name_of(&self, interface: &Interface) -> Result<String, AllocError> {
        let name = full_name(self.alloc, self.tables, interface.package, &interface.name)?;
        String::from_str(self.alloc, name.as_str())
    }

    /// The type of the core function of a callee.
    pub fn lifted(&self, id: FunctionId) -> Result<FunctionType, AllocError>
        requires { id.0 < length self.now.layouts.now.rows }
        ensures { IfOk result (λ t. self.now.layouts.now ≡ layouts_of self.now.tables.now
            → IsFunction self.now.tables.now id
            → function_view t ≡ core_function (lifted_signature (function_type self.now.tables.now id))) }
    {
        let signature = self.layouts.lifted(id);
        function_type(self.alloc, &signature)
    }

    /// The type of a caller's import.
    pub fn lowered(&self, id: FunctionId) -> Result<FunctionType, AllocError>
        requires { id.0 < length self.now.layouts.now.rows }
        ensures { IfOk result (λ t. self.now.layouts.now ≡ layouts_of self.now.tables.now
            → IsFunction self.now.tables.now id
            → function_view t ≡ core_function (lowered_signature (function_type self.now.tables.now id))) }
    {
        let signature = self.layouts.lowered(id);
        function_type(self.alloc, &signature)
    }

    /// Whether the parameters of a function have parts elsewhere in memory.
    pub fn has_parameters_blocks(&self, id: FunctionId) -> bool {
        has_blocks(self.blocks.as_slice(), ValType::Id(TypeId(id.0)))
    }

    /// Whether the result of a function has.
    pub fn has_result_blocks(&self, id: FunctionId) -> bool {
        match function_at(self.tables, id) {
            Some(function) => match function.result {
                Some(ty) => has_blocks(self.blocks.as_slice(), ty),
                None => false,
            },
            None => false,
        }
    }

    /// Whether the parameters of a function are passed in memory.
    pub fn is_spilled(&self, id: FunctionId) -> bool {
        let params = ValType::Id(TypeId(id.0));
        self.layouts.has(params) && self.layouts.flat_count(&[params]).is_none()
    }
}
