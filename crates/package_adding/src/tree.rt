//! The closed table of a tree over the packages of a set.
ghost use Rattle.std.specs.Prelude.{◌≡◌, true, [], All, IfOk, OnOk, IfErr, MatchResult};
ghost use Rattle.atoms.specs.Label.{IsLabel};
ghost use Rattle.wit_tokens.specs.View.{file_view};
ghost use Rattle.package_form.specs.Form.{IsInPackageForm};
ghost use Rattle.package_form.specs.Laws.{IsLabelled};
ghost use Rattle.package_form.specs.Naming.{package_scopes};
ghost use Rattle.package_form.specs.Scope.{AreDistinct};
ghost use Rattle.package_sets.specs.BehindImports.{IsBehindImports};
ghost use Rattle.package_text.specs.Writable.{IsWritable, package_labels};
ghost use Rattle.tree_meaning.specs.Resolves.{HasEntries, file_fits};
ghost use Rattle.tables.specs.declared.error.ResolveError.TheVariants.{EmptyPackage, NoMemory};
ghost use Rattle.package_sets.specs.Attached.{HasRoom};
ghost use Rattle.package_sets.specs.SetForm.{IsInSetForm};
ghost use Rattle.package_adding.specs.Added.{AreImportsFrom, IsOfTree, IsNewName, CauseStands};
ghost use Rattle.tables.specs.Same.{IsSamePackage};
ghost use Rattle.tables.specs.declared.tables.Resolve.{Resolve};

use crate::full_names::names_are_full;
use crate::named::named_by_paths;
use package_sets::imports;
use package_sets::laws::imports_one;
use package_text::laws::tree_has_one_closed_table;
use package_text::names_are_labels;
use std::alloc::{AllocError, Global};
use tables::{Interface, Resolve, ResolveError};
use tree_rows::closed_table;
use wit_tokens::wit_syntax::Ast;

/// That a tree has an interface or a world. 43 where it has neither.
pub fn has_entries(ast: &Ast) -> Result<(), ResolveError>
    ensures ok { OnOk result (HasEntries (file_view ast.now)) }
    ensures err { IfErr result (λ e. (e ≡ EmptyPackage) × ((file_view ast.now).entries ≡ [])) }
{
    if ast.items.is_empty() {
        Err(ResolveError::EmptyPackage)
    } else {
        Ok(())
    }
}

/// The names of interfaces are labels.
fn are_labelled(interfaces: &[Interface])
    ensures { All IsLabelled interfaces.now }
{
    for interface in interfaces {
        let _ = interface.name.as_bytes();
    }
}

/// The interfaces of a set that the paths of a tree name, with what these reach.
fn imports_from(alloc: Global, set: &Resolve, ast: &Ast) -> Result<Resolve, AllocError>
    ensures from { IfOk result (AreImportsFrom (file_view ast.now) set.now) }
    ensures labels { IfOk result (λ r. All IsLabelled r.interfaces) }
{
    let named = named_by_paths(alloc, set, ast)?;
    let imports = imports(alloc, set, &named.packages, &named.interfaces)?;
    are_labelled(imports.interfaces.as_slice());
    Ok(imports)
}

/// The closed table of a tree over the packages of a set.
pub fn closed_over(alloc: Global, set: &Resolve, ast: &Ast) -> Result<Resolve, ResolveError>
    requires form { ∥ IsInSetForm set.now ∥₁ }
    requires room { HasRoom set.now }
    requires new { IsNewName (file_view ast.now) set.now }
    ensures ok { IfOk result (IsOfTree (file_view ast.now) set.now) }
    ensures form { IfOk result (λ r. ∥ IsInPackageForm r ∥₁) }
    ensures distinct { IfOk result (λ r. ∥ All AreDistinct (package_scopes r) ∥₁) }
    ensures labels { IfOk result (λ r. All IsLabel (package_labels r)) }
    ensures fits { OnOk result (file_fits (file_view ast.now) ≡ true) }
    ensures behind { IfOk result (IsBehindImports set.now) }
    ensures only { (p : Resolve) → IsOfTree (file_view ast.now) set.now p → ∥ IsWritable p ∥₁
        → file_fits (file_view ast.now) ≡ true
        → MatchResult result (λ r. IsSamePackage r p) (λ e. e ≡ NoMemory) }
    ensures err { IfErr result (CauseStands (file_view ast.now) set.now) }
{
    imports_one();
    tree_has_one_closed_table();
    names_are_full(ast);
    are_labelled(set.interfaces.as_slice());
    let imports = imports_from(alloc, set, ast)?;
    let closed = closed_table(alloc, ast, &imports)?;
    names_are_labels(&closed);
    Ok(closed)
}
