//! What is written of a package of a set.
ghost use Rattle.std.specs.Prelude.{◌≡◌, ◌<◌, ◌++◌, All, IfOk, OnOk, OnErr, length, string_bytes};
ghost use Rattle.package_form.specs.Form.{IsInPackageForm};
ghost use Rattle.package_form.specs.Naming.{package_scopes};
ghost use Rattle.package_form.specs.Scope.{AreDistinct};
ghost use Rattle.package_sets.specs.Restricted.{IsRestricted};
ghost use Rattle.package_sets.specs.Tower.{IsInTower};
ghost use Rattle.package_text.specs.Text.{text_of};
ghost use Rattle.package_text.specs.Writable.{IsWritable};
ghost use Rattle.tables.specs.declared.tables.Resolve.{Resolve};
ghost use Rattle.wit_component.specs.ToComponent.{ComponentStands};

use crate::set::PackageSet;
use ctype_bin::RawComponent;
use package_sets::restricted;
use package_text::names_are_labels;
use std::alloc::{AllocError, Global};
use tables::{PackageId, Resolve};
use wit_component::component_with_bytes;

/// The table of a package of a set: the interfaces of earlier packages that it reaches, in the set's order, and behind
/// them its own.
pub fn table(alloc: Global, set: &Resolve, id: PackageId) -> Result<Resolve, AllocError>
    requires tower { ∥ IsInTower set.now ∥₁ }
    requires known { id.0 < length set.now.packages }
    ensures ok { IfOk result (IsRestricted set.now id.0) }
    ensures form { IfOk result (λ r. ∥ IsInPackageForm r × All AreDistinct (package_scopes r) ∥₁) }
    ensures writable { IfOk result (λ r. ∥ IsWritable r ∥₁) }
{
    let table = restricted(alloc, set, id)?;
    names_are_labels(&table);
    Ok(table)
}

/// The component type of a package of a set, which begins with the interfaces of earlier packages that it reaches.
/// (Binary.md)
pub fn to_raw(alloc: Global, set: &Resolve, id: PackageId) -> Result<RawComponent, AllocError>
    requires tower { ∥ IsInTower set.now ∥₁ }
    requires known { id.0 < length set.now.packages }
    ensures ok { IfOk result (λ raw. (r : Resolve) × IsRestricted set.now id.0 r × ComponentStands raw r) }
{
    let table = table(alloc, set, id)?;
    let (raw, _) = component_with_bytes(alloc, &table)?;
    Ok(raw)
}

/// Appends the canonical text of a package of a set, in which interfaces of other packages go by their paths. Where
/// memory is wanting, the text is as it was. (WIT.md)
pub fn print(
    alloc: Global,
    set: &Resolve,
    id: PackageId,
    out: &mut String,
) -> Result<(), AllocError>
    requires tower { ∥ IsInTower set.now ∥₁ }
    requires known { id.0 < length set.now.packages }
    ensures ok { OnOk result ((r : Resolve) × IsRestricted set.now id.0 r
        × (string_bytes out.new ≡ string_bytes out.old ++ text_of r)) }
    ensures same { OnErr result (string_bytes out.new ≡ string_bytes out.old) }
{
    let table = table(alloc, set, id)?;
    package_text::print(alloc, &table, out)
}

impl PackageSet {
    /// The table of a package of the set: the interfaces of earlier packages that it reaches, in the set's order, and
    /// behind them its own.
    pub fn table(&self, alloc: Global, id: PackageId) -> Result<Resolve, AllocError>
        requires known { id.0 < length self.now.resolve.packages }
        ensures ok { IfOk result (IsRestricted self.now.resolve id.0) }
        ensures form { IfOk result (λ r. ∥ IsInPackageForm r × All AreDistinct (package_scopes r) ∥₁) }
        ensures writable { IfOk result (λ r. ∥ IsWritable r ∥₁) }
    {
        table(alloc, self.resolve(), id)
    }

    /// The component type of a package of the set, which begins with the interfaces of earlier packages that it
    /// reaches. (Binary.md)
    pub fn to_raw(&self, alloc: Global, id: PackageId) -> Result<RawComponent, AllocError>
        requires known { id.0 < length self.now.resolve.packages }
        ensures ok { IfOk result (λ raw. (r : Resolve) × IsRestricted self.now.resolve id.0 r × ComponentStands raw r) }
    {
        to_raw(alloc, self.resolve(), id)
    }

    /// Appends the canonical text of a package of the set, in which interfaces of other packages go by their paths.
    /// Where memory is wanting, the text is as it was. (WIT.md)
    pub fn print(&self, alloc: Global, id: PackageId, out: &mut String) -> Result<(), AllocError>
        requires known { id.0 < length self.now.resolve.packages }
        ensures ok { OnOk result ((r : Resolve) × IsRestricted self.now.resolve id.0 r
            × (string_bytes out.new ≡ string_bytes out.old ++ text_of r)) }
        ensures same { OnErr result (string_bytes out.new ≡ string_bytes out.old) }
    {
        print(alloc, self.resolve(), id, out)
    }
}
