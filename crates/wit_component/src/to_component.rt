//! A package as a raw component.
ghost use Rattle.std.specs.Prelude.{◌≡◌, ◌⊎◌, [], ◌∷◌, IsTrue, IfOk, OnOk, IfErr};
ghost use Rattle.ctype_format.specs.View.{parts_file, export_view};
ghost use Rattle.ctype_bin.specs.FileView.{raw_component_view};
ghost use Rattle.ctype_bin.specs.Encoding.{AppendsSpelling};
ghost use Rattle.ctype_format.specs.Writing.{file_bytes};
ghost use Rattle.wit_component.specs.Component.{component_of, package_export};
ghost use Rattle.package_form.specs.Form.{IsInPackageForm};
ghost use Rattle.package_form.specs.Ends.{interfaces_end};
ghost use Rattle.wit_component.specs.ToComponent.{ComponentStands, are_labelled, are_worlds_labelled};

use crate::component::declarations;
use atoms::Label;
use ctype_bin::{ExternName, RawComponent, RawExport, RawType};
use package_form::is_in_form;
use std::alloc::{AllocError, Global};
use tables::{Resolve, ResolveError};

/// The export of the package's component type.
#[tactic(auto, unfolding(atoms::specs::Label::is_label))]
pub fn package_export(alloc: Global) -> Result<RawExport, AllocError>
    ensures { IfOk result (λ e. export_view e ≡ record { name = package_export; type = 0 }) }
{
    Ok(RawExport {
        name: ExternName::Label(Label::from_bytes(alloc, b"package")?),
        ty: 0,
    })
}

/// The type section and the export section of a package's component.
#[tactic(auto, using(ctype_format::proofs::ScopedTypeViews::views))]
fn parts_of(alloc: Global, resolve: &Resolve) -> Result<(Vec<RawType>, Vec<RawExport>), AllocError>
    requires { IsInPackageForm resolve.now }
    ensures file { IfOk result (λ x. parts_file x.0 x.1 ≡ component_of resolve.now) }
    ensures labelled { OnOk result (IsTrue (are_labelled resolve.now.definitions 0 resolve.now.interfaces)) }
    ensures world_labels { OnOk result (IsTrue
        (are_worlds_labelled resolve.now.definitions (interfaces_end 0 resolve.now.interfaces) resolve.now.worlds)) }
{
    let decls = declarations(alloc, resolve)?;
    let mut types = Vec::new(alloc);
    types.push(RawType::Component(decls))?;
    let mut exports = Vec::new(alloc);
    exports.push(package_export(alloc)?)?;
    Ok((types, exports))
}

/// The component type of a package in form, in the layout of packages, and its shortest bytes. (Binary.md)
pub fn component_with_bytes(
    alloc: Global,
    resolve: &Resolve,
) -> Result<(RawComponent, Vec<u8>), AllocError>
    requires { IsInPackageForm resolve.now }
    ensures ok { IfOk result (λ x. ComponentStands x.0 resolve.now) }
    ensures spelling { IfOk result (λ x. ∥ AppendsSpelling [] x.1.items (raw_component_view x.0) ∥₁) }
    ensures exact { IfOk result (λ x. x.1.items ≡ file_bytes (component_of resolve.now)) }
{
    let (types, exports) = parts_of(alloc, resolve)?;
    RawComponent::with_bytes(alloc, types, exports)
}

/// The component type that a package is, in the layout of packages, and its shortest bytes. 44 `NotThisShape` exactly
/// where the table isn't one that packages have, unless memory is wanting before that is known. (Binary.md)
pub fn to_written(alloc: Global, resolve: &Resolve) -> Result<(RawComponent, Vec<u8>), ResolveError>
    ensures ok { IfOk result (λ x. ComponentStands x.0 resolve.now) }
    ensures spelling { IfOk result (λ x. ∥ AppendsSpelling [] x.1.items (raw_component_view x.0) ∥₁) }
    ensures exact { IfOk result (λ x. x.1.items ≡ file_bytes (component_of resolve.now)) }
    ensures err { IfErr result (λ e. (e ≡ ResolveError.NoMemory)
        ⊎ ((e ≡ ResolveError.NotThisShape) × (IsInPackageForm resolve.now → ⊥))) }
{
    if !is_in_form(alloc, resolve)? {
        return Err(ResolveError::NotThisShape);
    }
    Ok(component_with_bytes(alloc, resolve)?)
}

/// The component type that a package is, in the layout of packages. 44 `NotThisShape` exactly where the table isn't one
/// that packages have, unless memory is wanting before that is known. (Binary.md)
pub fn to_raw(alloc: Global, resolve: &Resolve) -> Result<RawComponent, ResolveError>
    ensures ok { IfOk result (λ raw. ComponentStands raw resolve.now) }
    ensures err { IfErr result (λ e. (e ≡ ResolveError.NoMemory)
        ⊎ ((e ≡ ResolveError.NotThisShape) × (IsInPackageForm resolve.now → ⊥))) }
{
    let (raw, _) = to_written(alloc, resolve)?;
    Ok(raw)
}
