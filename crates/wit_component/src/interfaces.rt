//! Interfaces as declarations of the component type.
ghost use Rattle.std.specs.Prelude.{◌≡◌, ◌≤◌, ◌<◌, ◌+◌, ◌++◌, ◌∷◌, [], ◌-◌, Some, map, length, IfOk};
ghost use Rattle.ctype_format.specs.View.{decl_view, decls_of};
ghost use Rattle.ctype_format.specs.Raw.{Instance, Entry, Alias};
ghost use Rattle.wit_component.specs.Component.{instance_export, aliases_of};

use crate::rows::{RowPlace, declarations_of};
use ctype_bin::{RawAlias, RawDecl, RawDescription, RawType};
use package_form::used_name;
use std::alloc::{AllocError, Global};
use tables::{Definition, TypeName};

#[tactic(auto, unfolding(ctype_format::specs::View::decl_view))]
fn instance_export(alloc: Global, name: &TypeName) -> Result<RawDecl, AllocError>
    ensures { IfOk result (λ d. decl_view d ∷ [] ≡ instance_export (Some name.now)) }
{
    Ok(RawDecl::Alias(RawAlias::InstanceExport {
        instance: name.interface.0,
        name: name.name.copy(alloc)?,
    }))
}

/// An alias of each type that these rows use.
pub fn aliases_of(
    alloc: Global,
    rows: &[Definition],
    of: &[Definition],
) -> Result<Vec<RawDecl>, AllocError>
    ensures aliases { IfOk result (λ ds. map decl_view ds.items ≡ aliases_of rows.now of.now) }
    ensures few { IfOk result (λ ds. length ds.items ≤ length of.now) }
{
    let mut decls = Vec::new(alloc);
    for row in of {
        if let Some(name) = used_name(rows, row) {
            decls.push(instance_export(alloc, name)?)?;
        }
    }
    Ok(decls)
}

/// The declaration of an instance type.
#[tactic(auto, unfolding(ctype_format::specs::View::decl_view), using(ctype_format::proofs::ScopedTypeViews::views))]
pub fn instance_decl(decls: Vec<RawDecl>) -> RawDecl
    ensures { decl_view result ≡ Entry (Instance (decls_of (map decl_view decls.items))) }
{
    RawDecl::Type(RawType::Instance(decls))
}
