//! Whether a component is that of a package: what an interface or a world declares is made of one after the other, and
//! compared with what comes next in the component.
ghost use Rattle.std.specs.Prelude.{◌≡◌, ◌≤◌, ◌++◌, List, Decides, map, length, IsTrue, IfOk, IfSome, IfNone};
ghost use Rattle.std.specs.Bool.{OnTrue};
ghost use Rattle.ctype_format.specs.Raw.{Decl};
ghost use Rattle.ctype_format.specs.View.{decl_view};
ghost use Rattle.ctype_bin.specs.FileView.{raw_component_view};
ghost use Rattle.package_form.specs.Ends.{interfaces_end, is_parted};
ghost use Rattle.package_form.specs.Form.{has_full_names, IsInPackageForm};
ghost use Rattle.wit_component.specs.Component.{no_front, interfaces_declared, interfaces_front, package_declarations};
ghost use Rattle.wit_component.specs.Component.{component_of};
ghost use Rattle.wit_component.specs.ToComponent.{are_labelled, are_worlds_labelled};

use crate::component::{PartPlace, first_part, interface_declarations, push_world};
use crate::same_declarations::{are_same_decls, is_same_name};
use crate::to_component::package_export;
use ctype_bin::{RawComponent, RawDecl, RawType};
use package_form::{end_of, interfaces_end, world_end};
use std::alloc::{AllocError, Global};
use tables::Resolve;

/// What stands behind these declarations where they are in front.
fn behind<'a>(decls: &'a [RawDecl], front: &[RawDecl]) -> Option<&'a [RawDecl]>
    ensures some { IfSome result (λ rest. map decl_view decls.now
        ≡ map decl_view front.now ++ map decl_view rest.now) }
    ensures none { IfNone result ((rest : List Decl) → map decl_view decls.now ≡ map decl_view front.now ++ rest → ⊥) }
{
    if decls.len() < front.len() {
        return None;
    }
    let (first, rest) = decls.split_at(front.len());
    if are_same_decls(first, front) {
        Some(rest)
    } else {
        None
    }
}

/// What stands behind the declarations of a package's interfaces, and the place there, where they are in front.
fn behind_interfaces<'a>(
    alloc: Global,
    resolve: &Resolve,
    decls: &'a [RawDecl],
) -> Result<Option<(&'a [RawDecl], PartPlace)>, AllocError>
    requires named { IsTrue (has_full_names resolve.now) }
    requires parted { IsTrue (is_parted (length resolve.now.definitions) 0 resolve.now.interfaces resolve.now.worlds) }
    requires rows { length resolve.now.definitions ≤ 65535 }
    requires interfaces { length resolve.now.interfaces ≤ 65535 }
    ensures some { IfOk result (λ o. IfSome o (λ x. map decl_view decls.now
        ≡ interfaces_declared resolve.now no_front 0 resolve.now.interfaces ++ map decl_view x.0.now)) }
    ensures none { IfOk result (λ o. IfNone o ((rest : List Decl) → map decl_view decls.now
        ≡ interfaces_declared resolve.now no_front 0 resolve.now.interfaces ++ rest → ⊥)) }
    ensures place { IfOk result (λ o. IfSome o (λ x. x.1
        ≡ interfaces_front resolve.now.definitions no_front 0 resolve.now.interfaces)) }
    ensures few { IfOk result (λ o. IfSome o (λ x. x.1.types ≤ 131070)) }
    ensures labelled { IfOk result (λ o. IfSome o (λ _. IsTrue
        (are_labelled resolve.now.definitions 0 resolve.now.interfaces))) }
{
    let rows = resolve.definitions.as_slice();
    let mut place = first_part(alloc);
    let mut start = 0;
    let mut left = decls;
    for interface in resolve.interfaces.as_slice() {
        let end = end_of(start, interface);
        let own = &rows[start..end];
        let (part, next) = interface_declarations(alloc, resolve, place, own, interface)?;
        let Some(rest) = behind(left, part.as_slice()) else {
            return Ok(None);
        };
        left = rest;
        place = next;
        start = end;
    }
    Ok(Some((left, place)))
}

/// Whether declarations are those of a package's component type.
fn are_declarations_of(
    alloc: Global,
    resolve: &Resolve,
    decls: &[RawDecl],
) -> Result<bool, AllocError>
    requires { IsInPackageForm resolve.now }
    ensures same { IfOk result (λ s. Decides s (map decl_view decls.now ≡ package_declarations resolve.now)) }
    ensures labelled { IfOk result (λ s. OnTrue s (IsTrue
        (are_labelled resolve.now.definitions 0 resolve.now.interfaces))) }
    ensures world_labels { IfOk result (λ s. OnTrue s (IsTrue
        (are_worlds_labelled resolve.now.definitions (interfaces_end 0 resolve.now.interfaces) resolve.now.worlds))) }
{
    let Some((rest, first)) = behind_interfaces(alloc, resolve, decls)? else {
        return Ok(false);
    };
    let mut left = rest;
    let mut place = first;
    let mut start = interfaces_end(resolve.interfaces.as_slice());
    for world in resolve.worlds.as_slice() {
        let mut part = Vec::new(alloc);
        place = push_world(alloc, resolve, &mut part, place, start, world)?;
        let Some(rest) = behind(left, part.as_slice()) else {
            return Ok(false);
        };
        left = rest;
        start = world_end(start, world);
    }
    Ok(left.is_empty())
}

/// Whether a component is that of a package: its one type is the package's component type, and its one export the
/// package's.
#[tactic(auto, unfolding(ctype_format::specs::View::type_view), using(ctype_format::proofs::ScopedTypeViews::views))]
pub fn is_component_of(
    alloc: Global,
    resolve: &Resolve,
    raw: &RawComponent,
) -> Result<bool, AllocError>
    requires { IsInPackageForm resolve.now }
    ensures same { IfOk result (λ s. Decides s (raw_component_view raw.now ≡ component_of resolve.now)) }
    ensures labelled { IfOk result (λ s. OnTrue s (IsTrue
        (are_labelled resolve.now.definitions 0 resolve.now.interfaces))) }
    ensures world_labels { IfOk result (λ s. OnTrue s (IsTrue
        (are_worlds_labelled resolve.now.definitions (interfaces_end 0 resolve.now.interfaces) resolve.now.worlds))) }
{
    let [ty] = raw.types() else {
        return Ok(false);
    };
    let [export] = raw.exports() else {
        return Ok(false);
    };
    let own = package_export(alloc)?;
    if !is_same_name(&export.name, &own.name) || export.ty != own.ty {
        return Ok(false);
    }
    match ty {
        RawType::Component(decls) => are_declarations_of(alloc, resolve, decls.as_slice()),
        RawType::Defined(_) | RawType::Function(_) | RawType::Instance(_) => Ok(false),
    }
}
