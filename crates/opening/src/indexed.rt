//! A package whose functions are found by their names without a walk.
ghost use Rattle.std.specs.Prelude.{◌≡◌, ◌<◌, length, IfOk, IfErr, IfSome, IfNone, MatchResult};
ghost use Rattle.function_index.specs.Index.{IsIndexOf};
ghost use Rattle.tables.specs.Closed.{IsFunction};
ghost use Rattle.tables.specs.Names.{IsNamed};
ghost use Rattle.tables.specs.Same.{IsSamePackage};
ghost use Rattle.tables.specs.declared.tables.FunctionId.{FunctionId};
ghost use Rattle.tables.specs.declared.tables.Resolve.{Resolve};
ghost use Rattle.opening.specs.Opening.{IsOpened, IsWantOfMemory, OpenRefuses};
ghost use Rattle.opening.specs.Sets.{all_bytes};

use crate::package::{OpenError, Package};
use crate::set::open_set;
use function_index::FunctionIndex;
use layout::LayoutError;
use std::alloc::{AllocError, Global};
use tables::FunctionId;

/// A package with an index of the functions of its set.
#[derive(Drop)]
pub struct IndexedPackage {
    package: Package,
    functions: FunctionIndex,
    ghost indexed: { IsIndexOf «package».resolve functions },
}

impl IndexedPackage {
    /// The package with its index, which takes memory for each function, and a copy of its name and of its interface's.
    pub fn of(alloc: Global, package: Package) -> Result<IndexedPackage, AllocError>
        ensures { IfOk result (λ p. p.«package» ≡ «package») }
    {
        let functions = FunctionIndex::of(alloc, package.resolve())?;
        Ok(IndexedPackage { package, functions })
    }

    /// The package itself.
    pub fn package(&self) -> &Package
        ensures { result.now ≡ self.now.«package» }
    {
        &self.package
    }

    /// The function of this name in the interface of this full name, as `Resolve::function` finds it, but in time that
    /// doesn't grow with the set.
    pub fn function(&self, iface: &str, name: &str) -> Option<FunctionId>
        ensures found { IfSome result (IsNamed self.now.«package».resolve iface.now name.now) }
        ensures function { IfSome result (IsFunction self.now.«package».resolve) }
        ensures none { IfNone result ((f : FunctionId) → ¬ IsNamed self.now.«package».resolve iface.now name.now f) }
    {
        self.functions.function(iface, name)
    }
}

/// Opens what `open_set` opens, and makes the index of its functions. If there is no memory for the index, it is
/// refused as if there were none for the layouts (52).
pub fn open_indexed(alloc: Global, inputs: &[&[u8]]) -> Result<IndexedPackage, OpenError>
    requires some { 0 < length inputs.now }
    ensures ok { IfOk result (λ p. IsOpened (all_bytes inputs.now) p.«package».resolve) }
    ensures only { (r : Resolve) → IsOpened (all_bytes inputs.now) r
        → MatchResult result (λ p. IsSamePackage p.«package».resolve r) IsWantOfMemory }
    ensures err { IfErr result (OpenRefuses (all_bytes inputs.now)) }
{
    let package = open_set(alloc, inputs)?;
    match IndexedPackage::of(alloc, package) {
        Ok(indexed) => Ok(indexed),
        Err(_) => Err(OpenError::Layout(LayoutError::NoMemory)),
    }
}
