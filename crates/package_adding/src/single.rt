//! A package that names no other: the case of a set that has none.
ghost use Rattle.std.specs.Prelude.{IfOk, IfErr, MatchResult};
ghost use Rattle.package_adding.specs.Added.{IsWantOfMemoryToAdd};
ghost use Rattle.package_adding.specs.Alone.{IsFileAlone, IsComponentAlone, FileAloneRefuses, ComponentAloneRefuses};
ghost use Rattle.package_text.specs.Writable.{IsWritable};
ghost use Rattle.tables.specs.Same.{IsSamePackage};
ghost use Rattle.tables.specs.declared.tables.Resolve.{Resolve};
ghost use Rattle.wit_tokens.specs.View.{file_view};

use crate::full_names::names_are_full;
use crate::set::PackageSet;
use ctype_bin::RawComponent;
use package_text::names_are_labels;
use std::alloc::Global;
use tables::{Resolve, ResolveError};
use wit_tokens::wit_syntax::Ast;

/// The package of a syntax tree that names no other package: it is added to a set that has none. A path that names one
/// is 47. (WIT.md)
pub fn from_ast(alloc: Global, ast: &Ast) -> Result<Resolve, ResolveError>
    ensures ok { IfOk result (IsFileAlone (file_view ast.now)) }
    ensures writable { IfOk result (λ r. ∥ IsWritable r ∥₁) }
    ensures only { (r : Resolve) → IsFileAlone (file_view ast.now) r
        → MatchResult result (λ p. IsSamePackage p r) IsWantOfMemoryToAdd }
    ensures err { IfErr result (FileAloneRefuses (file_view ast.now)) }
{
    names_are_full(ast);
    let mut set = PackageSet::new(alloc);
    set.add_ast(alloc, ast)?;
    let package = set.into_resolve();
    names_are_labels(&package);
    Ok(package)
}

/// The package of a component that imports nothing: it is added to a set that has none. 47 names the first package that
/// it imports from. (Binary.md)
pub fn from_raw(alloc: Global, raw: &RawComponent) -> Result<Resolve, ResolveError>
    ensures ok { IfOk result (IsComponentAlone raw.now) }
    ensures writable { IfOk result (λ r. ∥ IsWritable r ∥₁) }
    ensures only { (r : Resolve) → IsComponentAlone raw.now r
        → MatchResult result (λ p. IsSamePackage p r) IsWantOfMemoryToAdd }
    ensures err { IfErr result (ComponentAloneRefuses raw.now) }
{
    let mut set = PackageSet::new(alloc);
    set.add_raw(alloc, raw)?;
    let package = set.into_resolve();
    names_are_labels(&package);
    Ok(package)
}
