//! The closed table of a syntax tree.
ghost use Rattle.std.specs.Prelude.{◌≡◌, true, map, All, IsTrue, IfOk, IfErr, OnOk};
ghost use Rattle.atoms.specs.Label.{IsLabel};
ghost use Rattle.wit_tokens.specs.View.{file_view};
ghost use Rattle.package_form.specs.Closed.{is_closed};
ghost use Rattle.package_form.specs.Form.{IsInPackageForm};
ghost use Rattle.package_form.specs.Naming.{package_scopes};
ghost use Rattle.package_form.specs.Scope.{AreDistinct};
ghost use Rattle.tree_meaning.specs.Declarations.{interfaces, names_of_trees};
ghost use Rattle.tree_meaning.specs.ImportForms.{IsNamedBehind, AreReachedFrom};
ghost use Rattle.tree_meaning.specs.Imports.{imports_of};
ghost use Rattle.tree_meaning.specs.Resolves.{AreImports, IsClosedPackageOf, ResolveRefusesOf, HasNoFaultsOf};
ghost use Rattle.tree_meaning.specs.Resolves.{AnswersOnlyBehind, file_fits};
ghost use Rattle.tree_scopes.specs.KnownScopes.{AreImportScopes};
ghost use Rattle.tree_scopes.specs.Sources.{declared_tree};
ghost use Rattle.tree_rows.specs.Planning.{IsPlan, imported, planned_file};

use crate::assembly::{define_package, ordered_index, ordered_names};
use crate::builder::Builder;
use crate::closed::{copied_parts, finish};
use crate::plan::Plan;
use crate::worlds::define_worlds;
use std::alloc::Global;
use tables::{Resolve, ResolveError};
use tree_names::{declarations, interface_order, keyed_by_tree, type_orders};
use tree_scopes::{Declarations, Imports, KnownTypes};
use wit_tokens::wit_syntax::Ast;

/// The closed table of a tree, whose definitions are made in this order behind the imports, whose scopes these are.
fn planned<'a>(
    alloc: Global,
    plan: &Plan<'a>,
    scopes: Vec<KnownTypes<'a>>,
) -> Result<Resolve, ResolveError>
    requires plan { IsPlan plan.now }
    requires scopes { AreImportScopes plan.now.imports.now scopes.items }
    ensures ok { IfOk result (IsClosedPackageOf (imported plan.now) (planned_file plan.now)) }
    ensures err { IfErr result (ResolveRefusesOf (imports_of (imported plan.now)) (planned_file plan.now)) }
{
    let (packages, interfaces, rows) = copied_parts(alloc, plan.imports, plan.named_count())?;
    let mut builder = Builder::new(plan.imports, plan.labels, rows);
    define_package(alloc, plan, &mut builder, scopes)?;
    let worlds = define_worlds(alloc, plan, &mut builder, &plan.ast.items)?;
    finish(alloc, plan, packages, interfaces, builder, worlds)
}

/// The closed table of a tree without faults, of these declarations.
fn defined(
    alloc: Global,
    imports: Imports<'_>,
    ast: &Ast,
    all: &[Declarations],
) -> Result<Resolve, ResolveError>
    requires imports { AreImports imports.table }
    requires scopes { AreImportScopes imports.table imports.scopes.items }
    requires all { map declared_tree all.now ≡ interfaces (file_view ast.now) }
    requires faults { HasNoFaultsOf (imports_of imports.table) (file_view ast.now) }
    requires labels { All IsLabel (names_of_trees (interfaces (file_view ast.now))) }
    ensures ok { IfOk result (IsClosedPackageOf imports.entry.table (file_view ast.now)) }
    ensures err { IfErr result (ResolveRefusesOf (imports_of imports.entry.table) (file_view ast.now)) }
{
    let Imports {
        keyed,
        table,
        scopes,
    } = imports;
    let order = interface_order(alloc, keyed, all)?;
    let types = type_orders(alloc, all)?;
    let names = ordered_index(alloc, keyed, all, order.as_slice())?;
    let labels = ordered_names(alloc, all, order.as_slice())?;
    let plan = Plan {
        keyed,
        imports: &table,
        ast,
        all,
        order: order.as_slice(),
        types: &types,
        names: &names,
        labels: &labels,
    };
    planned(alloc, &plan, scopes)
}

/// The package of a syntax tree whose paths name interfaces of other packages: its closed table, in which these
/// imports, their packages, interfaces and definitions, stand first, as they stand in their table, which has no worlds;
/// the package itself is the last. A path means the import of that name of the package of just that namespace, name and
/// version, never one of the tree's own package. The own definitions stand in package order, in which each interface
/// comes after those that it uses, and within an interface uses, types and functions; behind all interfaces stand the
/// functions of worlds, world by world. Types that stand inside a definition stand before it, inner ones first. 43
/// where the tree has neither interface nor world, 40 where a name stands twice in a scope, 47 where a path names a
/// package that isn't among the imports', 41 where a name stands for nothing, 42 where interfaces use each other or
/// types name each other, 45 where the package passes a limit, its imports counted, in this order; 45 also where a type
/// is nested more than 64 deep or has no members, as in no text; 46 where memory is wanting. Behind imports that stand
/// as in the table of a package, of other packages than the tree's, the table is closed where each import is reached,
/// and is in the form that packages have where it is closed; its names differ in each scope where those of the imports
/// do.
pub fn closed_table(alloc: Global, ast: &Ast, imports: &Resolve) -> Result<Resolve, ResolveError>
    requires { AreImports imports.now }
    ensures ok { IfOk result (IsClosedPackageOf imports.now (file_view ast.now)) }
    ensures faults { IfOk result (λ _. HasNoFaultsOf (imports_of imports.now) (file_view ast.now)) }
    ensures fits { OnOk result (file_fits (file_view ast.now) ≡ true) }
    ensures closed { IfOk result (λ r. IsNamedBehind imports.now (file_view ast.now)
        → AreReachedFrom imports.now (file_view ast.now) → IsTrue (is_closed r)) }
    ensures form { IfOk result (λ r. IsNamedBehind imports.now (file_view ast.now) → IsTrue (is_closed r)
        → IsInPackageForm r) }
    ensures distinct { IfOk result (λ r. IsNamedBehind imports.now (file_view ast.now)
        → All AreDistinct (package_scopes imports.now) → All AreDistinct (package_scopes r)) }
    ensures err { IfErr result (ResolveRefusesOf (imports_of imports.now) (file_view ast.now)) }
    ensures only { AnswersOnlyBehind imports.now (file_view ast.now) result }
{
    let indexed = Imports::of(alloc, keyed_by_tree(ast, imports), imports)?;
    let all = declarations(alloc, &indexed, ast)?;
    defined(alloc, indexed, ast, &all)
}
